// Replaying a list of calls over one sheet, whatever its state: every call is answered, and the law over runs holds.

#![tactic(auto)]

mod answers;
mod any_sheet;
mod calls;
mod closed_calls;
mod lending;
mod open_calls;
mod passed_calls;
mod performing;
mod replayed;
mod replaying;
mod running_calls;

pub use answers::Answer;
pub use any_sheet::AnySheet;
pub use calls::{Action, Call, Lending};
pub use replayed::Replayed;
pub use replaying::replay;
