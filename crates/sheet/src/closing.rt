// What is checked before a sheet is closed.
ghost use Rattle.std.specs.Prelude.{◌≡◌, ◌≤◌, ◌-◌, ◌&&◌, length, sum_by, nat_le, nat_lt};
ghost use Rattle.std.specs.List.{list_all};
ghost use Rattle.sheet.specs.Faults.{unready, close_fault};
ghost use Rattle.sheet.specs.Reads.{Read};
ghost use Rattle.sheet.specs.States.{heading_of};

use super::base::Base;
use super::lending::in_use;
use codes::Refusal;
use rules::{Interval, StopMark};

// How many metres the intervals are long together.
fn metres_of(intervals: &[Interval]) -> u64
    requires { length intervals.now ≤ 64 }
    ensures { result ≡ sum_by (λ interval. interval.length) intervals.now }
{
    intervals
        .iter()
        .map(|interval| interval.length as u64)
        .sum()
}

// Whether each mark lies behind the start, and not behind the end, so many metres on.
fn all_between(start: u32, metres: u64, marks: &[StopMark]) -> bool
    ensures { result ≡ list_all (λ mark. nat_lt start mark.position && nat_le (mark.position - start) metres) marks.now }
{
    marks.iter().all(|mark| mark.position > start && (mark.position - start) as u64 <= metres)
}

// Whether there is no interval, or a mark that stands in none: not behind the start, or behind the end of the last interval.
fn is_unready(start: u32, intervals: &[Interval], marks: &[StopMark]) -> bool
    requires { length intervals.now ≤ 64 }
    ensures { result ≡ unready start intervals.now marks.now }
{
    intervals.is_empty() || !all_between(start, metres_of(intervals), marks)
}

// Checks that a sheet can be closed. Refused by 10 where a table is lent under its count, and by 9 where no interval is in use or a
// mark in use stands in none.
pub(super) fn check_ready(
    base: Base,
    intervals: &[Interval],
    marks: &[StopMark],
) -> Result<(), Refusal>
    ensures { Read (close_fault (heading_of base) intervals.now marks.now) (λ _. Unit {0}) result }
{
    let intervals = in_use(intervals, base.intervals)?;
    let marks = in_use(marks, base.marks)?;
    if is_unready(base.start, intervals, marks) {
        return Err(Refusal::Unready);
    }
    Ok(())
}
