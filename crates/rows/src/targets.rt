// Where a stop mark stands on a line.
ghost use Rattle.std.specs.Prelude.{◌≡◌, ℕ, ◌≤◌, Decides};
ghost use Rattle.rows.specs.Drawings.{drawing_of, lengths_of};
ghost use Rattle.rows.specs.Targets.{marked, Holds, Located};

use codes::Refusal;
use rules::{Interval, Line, StopMark};

// The interval in which a position lies: its place, counted from 1, and the positions where it begins and ends.
#[derive(Clone, Copy, Debug, PartialEq, Eq)]
pub struct Held {
    pub interval: usize,
    pub begin: u64,
    pub end: u64,
}

// A stop mark with its interval.
#[derive(Clone, Copy, Debug, PartialEq, Eq)]
pub struct Target {
    pub position: u64,
    pub danger: u64,
    pub held: Held,
}

// The first mark with the number.
fn find_mark(marks: &[StopMark], number: u16) -> Option<StopMark>
    ensures { result ≡ marked marks.now number }
{
    marks.iter().copied().find(|mark| mark.number == number)
}

// Whether a position is not behind the end of an interval: the end still belongs to the interval.
fn is_not_behind(position: u64, end: u64) -> bool
    ensures { Decides result (position ≤ end) }
{
    position <= end
}

// The interval in which the position lies, behind its begin and not behind its end.
fn holding(start: u32, intervals: &[Interval], position: u32) -> Option<Held>
    ensures { Holds start (lengths_of intervals.now) position result }
{
    let sought = position as u64;
    let mut begin = start as u64;
    if sought <= begin {
        return None;
    }
    // it stops with three figures of the interval, so a `scan` and `find` would be longer
    for (i, interval) in intervals.iter().enumerate() {
        let end = begin + interval.length as u64;
        if is_not_behind(sought, end) {
            return Some(Held {
                interval: i + 1,
                begin,
                end,
            });
        }
        begin = end;
    }
    None
}

// Where the mark with a number stands; refused by 8 where there is no such mark, or where it stands in no interval.
pub fn locate(line: &Line<'_>, number: u16) -> Result<Target, Refusal>
    ensures { Located (drawing_of line.now) number result }
{
    let mark = find_mark(line.marks, number).ok_or(Refusal::Absent)?;
    let held = holding(line.start, line.intervals, mark.position).ok_or(Refusal::Absent)?;
    Ok(Target {
        position: mark.position as u64,
        danger: mark.danger as u64,
        held,
    })
}
