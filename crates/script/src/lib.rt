// The orders of a script: which order the words of a line give.

#![tactic(auto)]

mod kinds;
mod orders;
mod reading;

pub use orders::Order;
pub use reading::read_order;
