// Book files: read into a table of figures, and written of any book.

#![tactic(auto)]

mod faults;
mod filling;
mod reading;

pub use faults::Fault;
pub use reading::read;
