// A refused call that took its sheet by value.
use codes::Refusal;

// The sheet as it was, and why the call was refused.
#[derive(Drop)]
pub struct Refused<S> {
    pub sheet: S,
    pub why: Refusal,
}
