// A sheet in its four states, as types, and the nine calls that they take.

#![tactic(auto)]

mod base;
mod closed;
mod closing;
mod fixed;
mod judging;
mod lending;
mod lent;
mod open;
mod passed;
mod refused;
mod reports;
mod running;
mod way;

pub use base::Base;
pub use closed::ClosedSheet;
pub use fixed::Fixed;
pub use lent::LentTables;
pub use open::OpenSheet;
pub use passed::PassedSheet;
pub use refused::Refused;
pub use reports::Report;
pub use running::RunningSheet;
