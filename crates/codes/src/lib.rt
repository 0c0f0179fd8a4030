// Speed codes, gradient classes and refusals: the words that every layer shares.

#![tactic(auto)]

mod gradients;
mod refusals;
mod speeds;

pub use gradients::Class;
pub use refusals::{BookFault, FileFault, RecordFault, Refusal, Rule};
pub use speeds::{Code, Speed};
