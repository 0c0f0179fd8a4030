// The lines of a text, the words of a line, and the numbers that words write.

#![tactic(auto)]

mod cuts;
mod numbers;
mod operands;
mod readers;
mod unread;

pub use numbers::Number;
pub use readers::{Lines, Words};
pub use unread::Unread;
