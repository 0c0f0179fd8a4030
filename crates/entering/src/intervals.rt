// Entering an interval.
ghost use Rattle.std.specs.Prelude.{◌≡◌, ◌+◌, is_ok, if◌then◌else◌, OnOk, slice_set};
ghost use Rattle.codes.specs.Refusals.{told};
ghost use Rattle.entering.specs.Faults.{ruled};
ghost use Rattle.entering.specs.Entering.{most_intervals, interval_flaw, interval_fault, interval_of, FitInterval};

use super::checks::is_impossible_length;
use super::drafts::{Draft, enter};
use super::numbers::has_number;
use codes::Refusal;
use rules::Interval;

impl Draft for Interval {
    type Record = Interval;

    ghost MOST = { most_intervals };

    ghost flaw = { interval_flaw };

    ghost written = { λ interval. interval };

    ghost Fit = { FitInterval };

    const MOST: usize = 64;

    fn checked(&self, in_use: &[Interval]) -> Result<Interval, Refusal> {
        if is_impossible_length(self.length) {
            return Err(Refusal::Length);
        }
        if has_number(in_use, self.number) {
            return Err(Refusal::Doubled);
        }
        Ok(*self)
    }
}

// Writes one interval more behind those in use, and answers how many then are. Refused by 10 where the table is shorter than
// its count, by 1 where it or the limit of 64 is used up, by 2 where the length is not 1 to 5,000 m, and by 3 where an
// interval in use has the number; a refusal leaves the table as it was.
pub fn enter_interval(
    table: &mut [Interval],
    count: usize,
    number: u16,
    length: u32,
) -> Result<usize, Refusal>
    ensures answer { told result ≡ ruled (interval_fault table.old count number length) (count + 1) }
    ensures after { table.new ≡ (if is_ok result then slice_set table.old count (interval_of number length) else table.old) }
    ensures fit { OnOk result (FitInterval (interval_of number length)) }
{
    enter(table, count, Interval { number, length })
}
