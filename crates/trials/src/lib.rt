// Small sheets drawn at random, for tests that hold two implementations of the rules against each other.

#![tactic(auto)]

mod drawing;
mod draws;
mod sheets;

pub use drawing::drawn_sheet;
pub use draws::Draws;
pub use sheets::Sheet;
