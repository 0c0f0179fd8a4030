// An interval before a stop mark, in metres, and the highest codes that the rules leave it.
use codes::Code;

// The longest train, in metres.
pub const TRAIN_LENGTH: u64 = 170;

// Where an interval begins and ends, and the position and the danger point of a stop mark, in metres.
#[derive(Clone, Copy)]
pub struct Place {
    pub begin: u64,
    pub end: u64,
    pub position: u64,
    pub danger: u64,
}

// The highest code of an interval by each of the rules 1 to 4.
#[derive(Clone, Copy)]
pub struct Limits {
    // by the restrictions that touch the interval
    pub touching: Code,
    // by the restrictions ahead of it
    pub ahead: Code,
    // by service braking before the mark
    pub service: Code,
    // by emergency braking before the danger point
    pub stopping: Code,
}
