// The tables that a caller lends to a call.
use codes::{Class, Speed};
use ground::Entry;
use rules::{Interval, StopMark};

// The four tables of a line, as far as they are lent. Records past a sheet's counts mean nothing.
#[derive(Clone, Copy)]
pub struct LentTables<'a> {
    pub intervals: &'a [Interval],
    pub gradients: &'a [Entry<Class>],
    pub restrictions: &'a [Entry<Speed>],
    pub marks: &'a [StopMark],
}
