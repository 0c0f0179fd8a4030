// The sheet of a line: its start, and the records that were entered.
use codes::{Class, Refusal, Speed};
use entering::{enter_gradient, enter_interval, enter_mark, enter_restriction};
use ground::Entry;
use rules::{Interval, Line, StopMark};

// How many intervals, gradients or restrictions a sheet takes.
const MOST_RECORDS: usize = 64;

// How many marks a sheet takes.
const MOST_MARKS: usize = 16;

// A table of fixed room, as the library is lent it, with the count of the records in use.
#[derive(Clone, Copy)]
struct Table<T, const N: usize> {
    records: [T; N],
    count: usize,
}

impl<T: Copy, const N: usize> Table<T, N> {
    // A table in which no record is in use.
    fn blank(record: T) -> Table<T, N> {
        Table {
            records: [record; N],
            count: 0,
        }
    }

    // The records in use.
    fn entered(&self) -> &[T] {
        &self.records[..self.count.min(N)]
    }
}

#[derive(Clone, Copy)]
pub struct Sheet {
    start: u32,
    intervals: Table<Interval, MOST_RECORDS>,
    gradients: Table<Entry<Class>, MOST_RECORDS>,
    restrictions: Table<Entry<Speed>, MOST_RECORDS>,
    marks: Table<StopMark, MOST_MARKS>,
}

// A record that stands where none is in use.
fn blank_entry<V>(value: V) -> Entry<V> {
    Entry {
        from: 0,
        to: 0,
        value,
    }
}

impl Sheet {
    // A blank line with its start, 1,000 to 100,000; any other start is refused by 6. As a sheet of `sheet`, which
    // keeps no tables.
    pub fn begun(start: u32) -> Result<Sheet, Refusal> {
        if !(1_000..=100_000).contains(&start) {
            return Err(Refusal::Stretch);
        }
        Ok(Sheet {
            start,
            intervals: Table::blank(Interval {
                number: 0,
                length: 0,
            }),
            gradients: Table::blank(blank_entry(Class::C1)),
            restrictions: Table::blank(blank_entry(Speed::V30)),
            marks: Table::blank(StopMark {
                number: 0,
                position: 0,
                danger: 0,
            }),
        })
    }

    // Enters an interval; a refusal leaves the sheet as it was. The four calls differ in what the library is asked for.
    pub fn enter_interval(&mut self, number: u16, length: u32) -> Result<(), Refusal> {
        let table = &mut self.intervals;
        table.count = enter_interval(&mut table.records, table.count, number, length)?;
        Ok(())
    }

    // Enters a gradient; a refusal leaves the sheet as it was.
    pub fn enter_gradient(&mut self, from: u32, to: u32, faldtal: i32) -> Result<(), Refusal> {
        let table = &mut self.gradients;
        table.count = enter_gradient(&mut table.records, table.count, from, to, faldtal)?;
        Ok(())
    }

    // Enters a restriction; a refusal leaves the sheet as it was.
    pub fn enter_restriction(&mut self, from: u32, to: u32, kmh: u8) -> Result<(), Refusal> {
        let table = &mut self.restrictions;
        table.count = enter_restriction(&mut table.records, table.count, from, to, kmh)?;
        Ok(())
    }

    // Enters a stop mark; a refusal leaves the sheet as it was.
    pub fn enter_mark(&mut self, number: u16, position: u32, danger: u32) -> Result<(), Refusal> {
        let table = &mut self.marks;
        table.count = enter_mark(&mut table.records, table.count, number, position, danger)?;
        Ok(())
    }

    // The line, as the library takes it. As that of `trials`, over tables of fixed room.
    pub fn line(&self) -> Line<'_> {
        Line {
            start: self.start,
            intervals: self.intervals.entered(),
            gradients: self.gradients.entered(),
            restrictions: self.restrictions.entered(),
            marks: self.marks.entered(),
        }
    }
}
