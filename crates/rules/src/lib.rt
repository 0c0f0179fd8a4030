// The five rules for the speed codes of a line: the highest codes of an interval by each of them.

#![tactic(auto)]

mod braked;
mod limiting;
mod lines;
mod places;
mod restricted;
mod searching;

pub use limiting::{highest_code, highest_towards, limits_at};
pub use lines::{Interval, Line, StopMark};
pub use places::{Limits, Place, TRAIN_LENGTH};
pub use restricted::lower_of;
pub use searching::{SpeedTest, highest_passing};
