// Entering records into the tables of a line: intervals, gradients, restrictions and stop marks.

#![tactic(auto)]

mod checks;
mod drafts;
mod gradients;
mod intervals;
mod marks;
mod numbers;
mod restrictions;

pub use gradients::enter_gradient;
pub use intervals::enter_interval;
pub use marks::enter_mark;
pub use restrictions::enter_restriction;
