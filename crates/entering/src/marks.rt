// Entering a stop mark.
ghost use Rattle.std.specs.Prelude.{◌≡◌, ◌+◌, is_ok, if◌then◌else◌, OnOk, slice_set};
ghost use Rattle.codes.specs.Refusals.{told};
ghost use Rattle.entering.specs.Faults.{ruled};
ghost use Rattle.entering.specs.Entering.{most_marks, mark_flaw, mark_fault, mark_of, FitMark};

use super::checks::is_out_of_range;
use super::drafts::{Draft, enter};
use super::numbers::has_number;
use codes::Refusal;
use rules::StopMark;

impl Draft for StopMark {
    type Record = StopMark;

    ghost MOST = { most_marks };

    ghost flaw = { mark_flaw };

    ghost written = { λ mark. mark };

    ghost Fit = { FitMark };

    const MOST: usize = 16;

    fn checked(&self, in_use: &[StopMark]) -> Result<StopMark, Refusal> {
        if has_number(in_use, self.number) {
            return Err(Refusal::Doubled);
        }
        if is_out_of_range(self.position, self.danger) {
            return Err(Refusal::Overrun);
        }
        Ok(*self)
    }
}

// Writes one stop mark more behind those in use, and answers how many then are. Refused by 10 where the table is shorter than
// its count, by 1 where it or the limit of 16 is used up, by 3 where a mark in use has the number, and by 7 where the
// position is above 450,000 or the danger point not from there to 1,000 m behind it; a refusal leaves the table as it was.
pub fn enter_mark(
    table: &mut [StopMark],
    count: usize,
    number: u16,
    position: u32,
    danger: u32,
) -> Result<usize, Refusal>
    ensures answer { told result ≡ ruled (mark_fault table.old count number position danger) (count + 1) }
    ensures after { table.new ≡ (if is_ok result then slice_set table.old count (mark_of number position danger) else table.old) }
    ensures fit { OnOk result (FitMark (mark_of number position danger)) }
{
    let draft = StopMark {
        number,
        position,
        danger,
    };
    enter(table, count, draft)
}
