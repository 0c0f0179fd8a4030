// The examiner's verdict on a row of codes, and the highest row that a line allows before a stop mark.

#![tactic(auto)]

mod asking;
mod breaks;
mod examining;
mod failures;
mod finding;
mod letters;
mod passing;
mod survey;
mod targets;
mod working_out;

pub use breaks::Break;
pub use examining::examine;
pub use failures::Failure;
pub use letters::StopLetter;
pub use passing::{FiveCaps, Pass};
pub use targets::{Held, Target, locate};
pub use working_out::{work_out, work_out_in};
