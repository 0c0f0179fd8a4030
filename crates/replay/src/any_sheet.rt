// A sheet in any of its states.
use sheet::{ClosedSheet, OpenSheet, PassedSheet, RunningSheet};

#[derive(Drop)]
pub enum AnySheet<'b, B, T> {
    Open(OpenSheet),
    Closed(ClosedSheet),
    Passed(PassedSheet<'b, B>),
    Running(RunningSheet<'b, B, T>),
}
