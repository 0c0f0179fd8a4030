// Finding the highest row: from the mark's interval back, each interval gets the highest code that it may have before the next.
ghost use Rattle.std.specs.Prelude.{◌≡◌, length, slice_index_or};
ghost use Rattle.rules.specs.Searching.{UpTo};
ghost use Rattle.rows.specs.Targets.{track_of, mark_of};
ghost use Rattle.rows.specs.Finding.{FoundFrom};
ghost use Rattle.rows.specs.Passing.{Stage, WithinFive, codes_of};
ghost use Rattle.rows.specs.WorkingOut.{Spells};

use super::passing::{FiveCaps, Pass};
use super::survey::Survey;
use books::BrakingBook;
use codes::Code;
use rules::{highest_code, lower_of};

// The highest code within all five.
pub(super) fn highest_within(caps: &FiveCaps) -> Code
    ensures { UpTo (WithinFive caps.now) result }
{
    lower_of(caps.next, highest_code(&caps.four))
}

// Writes the highest code of each interval up to the mark's into a row of bytes, and answers the pass at the approach.
pub(super) fn fill_row<B: BrakingBook>(survey: &Survey<'_, B>, row: &mut [u8]) -> Pass
    requires { length row.old ≡ survey.now.target.held.interval }
    ensures found { FoundFrom (track_of survey.now.line) (mark_of survey.now.target) (B.emergencies survey.now.book.now) (B.services survey.now.book.now) 0 (codes_of row.new) }
    ensures stage { Stage survey.now.line survey.now.target (B.emergencies survey.now.book.now) (B.services survey.now.book.now) result }
    ensures approach { result.interval ≡ 0 }
    ensures spelt { Spells 0 row.new }
    ensures size { length row.new ≡ length row.old }
    ensures next { result.next ≡ slice_index_or (codes_of row.new) 0 Code.Stop }
{
    let mut pass = survey.pass();
    // of what is written through an adapter of `iter_mut` a proof knows nothing, so the bytes are written by their index
    for i in (0..row.len()).rev() {
        let caps = survey.caps(&pass);
        let code = highest_within(&caps);
        row[i] = code.byte();
        pass = survey.further(&pass, &caps, code);
    }
    pass
}
