// A sheet that owns the records of a line.
ghost use Rattle.std.specs.Prelude.{◌≡◌, []};
ghost use Rattle.trials.specs.Sheets.{end_after};

use codes::{Class, Speed};
use ground::Entry;
use rules::{Interval, Line, StopMark};
use std::alloc::Global;

#[derive(Drop)]
pub struct Sheet {
    pub start: u32,
    pub intervals: Vec<Interval>,
    pub gradients: Vec<Entry<Class>>,
    pub restrictions: Vec<Entry<Speed>>,
    pub marks: Vec<StopMark>,
}

impl Sheet {
    // A sheet without records that starts at a position.
    pub fn new(heap: Global, from: u32) -> Sheet
        ensures start { result.start ≡ from }
        ensures intervals { result.intervals.items ≡ [] }
        ensures gradients { result.gradients.items ≡ [] }
        ensures restrictions { result.restrictions.items ≡ [] }
        ensures marks { result.marks.items ≡ [] }
    {
        Sheet {
            start: from,
            intervals: Vec::new(heap),
            gradients: Vec::new(heap),
            restrictions: Vec::new(heap),
            marks: Vec::new(heap),
        }
    }

    // Where the n-th interval ends, and the last one where there are fewer; the start where n is 0. No end lies beyond the highest u32.
    pub fn end_of(&self, n: usize) -> u32
        ensures { result ≡ end_after self.now.start self.now.intervals.items n }
    {
        self.intervals.iter().take(n).fold(
            self.start,
            |end, interval| end.saturating_add(interval.length),
        )
    }

    // The sheet as the library takes it.
    pub fn line(&self) -> Line<'_>
        ensures start { result.start ≡ self.now.start }
        ensures intervals { result.intervals.now ≡ self.now.intervals.items }
        ensures gradients { result.gradients.now ≡ self.now.gradients.items }
        ensures restrictions { result.restrictions.now ≡ self.now.restrictions.items }
        ensures marks { result.marks.now ≡ self.now.marks.items }
    {
        Line {
            start: self.start,
            intervals: self.intervals.as_slice(),
            gradients: self.gradients.as_slice(),
            restrictions: self.restrictions.as_slice(),
            marks: self.marks.as_slice(),
        }
    }
}
