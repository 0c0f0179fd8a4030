// The sheets whose rows are worked out.
use codes::{Class, Speed};
use ground::Entry;
use rules::{Interval, StopMark};
use std::alloc::Global;
use trials::Sheet;

// Where the sheets start.
const START: u32 = 100_000;

// The length of each interval, in metres.
const LENGTH: u32 = 400;

// The classes of the gradients, in turn.
const CLASSES: [Class; 5] = [Class::C5, Class::C1, Class::C2, Class::C3, Class::C4];

// The speeds of the restrictions, in turn.
const SPEEDS: [Speed; 6] = [
    Speed::V50,
    Speed::V60,
    Speed::V70,
    Speed::V80,
    Speed::V90,
    Speed::V100,
];

// How many records of each kind a sheet has; the mark stands at the end of the last interval.
#[derive(Clone, Copy)]
pub struct Plan {
    pub name: &'static str,
    pub intervals: u16,
    pub gradients: u16,
    pub restrictions: u16,
}

impl Plan {
    // As many records as a sheet takes.
    pub const FULLEST: Plan = Plan {
        name: "64 intervals, 64 gradients, 64 restrictions",
        intervals: 64,
        gradients: 64,
        restrictions: 64,
    };

    // A sheet of the usual size.
    pub const USUAL: Plan = Plan {
        name: "8 intervals, 6 gradients, 4 restrictions",
        intervals: 8,
        gradients: 6,
        restrictions: 4,
    };

    // Where the n-th of `count` entries begins that lie evenly over the sheet.
    fn spread(&self, count: u16, n: u16) -> u32 {
        let metres = (self.intervals as u32)
            .saturating_mul(LENGTH)
            .saturating_mul(n as u32);
        START.saturating_add(metres / (count as u32).max(1))
    }

    // Draws so many entries evenly over the sheet, with the values in turn, each from so many metres before its place to so many
    // behind it.
    fn draw<V: Clone + Copy>(
        &self,
        entries: &mut Vec<Entry<V>>,
        count: u16,
        values: &[V],
        before: u32,
        behind: u32,
    ) -> anyhow::Result<()> {
        for (n, value) in (0..count).zip(values.iter().cycle()) {
            let place = self.spread(count, n);
            entries.push(Entry {
                from: place.saturating_sub(before),
                to: place.saturating_add(behind),
                value: *value,
            })?;
        }
        Ok(())
    }

    // The sheet, with mark 1 at its end. Each gradient reaches over the next, and together they cover the sheet; a restriction is
    // 50 m long.
    pub fn sheet(&self, heap: Global) -> anyhow::Result<Sheet> {
        let mut sheet = Sheet::new(heap, START);
        for number in 0..self.intervals {
            sheet.intervals.push(Interval {
                number,
                length: LENGTH,
            })?;
        }
        self.draw(&mut sheet.gradients, self.gradients, &CLASSES, 1_000, 1_000)?;
        self.draw(&mut sheet.restrictions, self.restrictions, &SPEEDS, 0, 50)?;
        let position = self.spread(1, 1);
        sheet.marks.push(StopMark {
            number: 1,
            position,
            danger: position.saturating_add(50),
        })?;
        Ok(sheet)
    }
}
