// Where a train is on its way.
use codes::Code;

// The position of a train's head, in metres, and the code that the train was told last.
#[derive(Clone, Copy, Debug, PartialEq, Eq)]
pub struct Head {
    pub position: u32,
    pub told: Code,
}
