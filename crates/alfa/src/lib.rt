// The sheet Alfa, which was worked out by hand, and a table of what the rules say of it.

#![tactic(auto)]

mod sheets;
mod table;

pub use sheets::Variant;
pub use table::{Example, examples};
