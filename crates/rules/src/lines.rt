// A line as its records: intervals, gradients, restrictions and stop marks, lent by the caller.
use codes::{Class, Speed};
use ground::Entry;

// A line-conductor interval; it begins where the one before it ends, the first at the line's start.
#[derive(Clone, Copy)]
pub struct Interval {
    pub number: u16,
    // metres
    pub length: u32,
}

// A stop mark: a train stops before its position, and never passes its danger point.
#[derive(Clone, Copy)]
pub struct StopMark {
    pub number: u16,
    pub position: u32,
    pub danger: u32,
}

// A line in one driving direction. Positions are whole metres and grow in that direction.
#[derive(Clone, Copy)]
pub struct Line<'a> {
    pub start: u32,
    pub intervals: &'a [Interval],
    pub gradients: &'a [Entry<Class>],
    pub restrictions: &'a [Entry<Speed>],
    pub marks: &'a [StopMark],
}
