// Ground: entries that give stretches of a line a value, the worst value over a metre or a stretch, and tables with a count.

#![tactic(auto)]

mod entries;
mod graded;
mod stretches;
mod tables;

pub use entries::{Entry, value_at};
pub use graded::Graded;
pub use stretches::worst_over;
pub use tables::{append, check_room, remove};
