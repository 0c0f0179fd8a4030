// Working out the highest row that a line allows before a stop mark.
ghost use Rattle.std.specs.Prelude.{◌≡◌, ◌-◌, length, if◌then◌else◌, Decides};
ghost use Rattle.rules.specs.Rules.{Allowed};
ghost use Rattle.rows.specs.Drawings.{drawing_of};
ghost use Rattle.rows.specs.Targets.{track_of, mark_of};
ghost use Rattle.rows.specs.Passing.{Stage};
ghost use Rattle.rows.specs.WorkingOut.{letter_of, Settled, Grounded};
ghost use Rattle.rows.specs.WorkedOut.{WorkedOut, Passing, Lacking};

use super::asking::asked_for;
use super::failures::Failure;
use super::finding::{fill_row, highest_within};
use super::letters::StopLetter;
use super::passing::Pass;
use super::survey::Survey;
use books::BrakingBook;
use codes::{Class, Code, Refusal, Speed};
use ground::worst_over;
use rules::{Line, TRAIN_LENGTH};
use std::alloc::Global;

// The letter of a class.
fn letter_of(class: Class) -> StopLetter
    ensures { result ≡ letter_of class }
{
    if class > Class::C9 {
        StopLetter::Sf
    } else {
        StopLetter::Sv
    }
}

// Whether the approach code is allowed before the row that was found.
fn is_allowed<B: BrakingBook>(survey: &Survey<'_, B>, pass: &Pass, approach: Speed) -> bool
    requires stage { Stage survey.now.line survey.now.target (B.emergencies survey.now.book.now) (B.services survey.now.book.now) pass.now }
    requires approach { pass.now.interval ≡ 0 }
    ensures { Decides result (Allowed (track_of survey.now.line) (mark_of survey.now.target) (B.emergencies survey.now.book.now) (B.services survey.now.book.now) 0 (Code.Go approach) pass.now.next) }
{
    Code::Go(approach) <= highest_within(&survey.caps(pass))
}

// Copies the row that was found where it is lawful; else the row's bytes stay as they are. A function with the flag, so that
// what stays of the bytes is said where they are written: with the test in `settled`, a copy before it was refused only where `settled`
// is proved by hand.
fn copy_lawful(lawful: bool, row: &mut [u8], found: &[u8])
    requires { length row.old ≡ length found.now }
    ensures { row.new ≡ (if lawful then found.now else row.old) }
{
    if lawful {
        row.copy_from_slice(found);
    }
}

// The stop letter, and the place of the first interval of the stop ground.
fn ground_told<B: BrakingBook>(survey: &Survey<'_, B>, pass: &Pass) -> (StopLetter, usize)
    requires stage { Stage survey.now.line survey.now.target (B.emergencies survey.now.book.now) (B.services survey.now.book.now) pass.now }
    requires approach { pass.now.interval ≡ 0 }
    ensures { Grounded (drawing_of survey.now.line) survey.now.target (B.emergencies survey.now.book.now) (B.services survey.now.book.now) result.0 result.1 }
{
    let from = pass.ground.saturating_sub(TRAIN_LENGTH);
    let class = worst_over(survey.line.gradients, from, survey.target.position);
    (letter_of(class), pass.first)
}

// Finds the row in the memory lent and, where the approach code is allowed before it, copies it, and answers the stop letter and the
// place of the first interval of the stop ground; refused by 13 where no row is lawful.
fn settled<B: BrakingBook>(
    survey: &Survey<'_, B>,
    approach: Speed,
    row: &mut [u8],
    found: &mut [u8],
) -> Result<(StopLetter, usize), Refusal>
    requires size { length row.old ≡ survey.now.target.held.interval }
    requires room { length found.old ≡ survey.now.target.held.interval }
    ensures { Settled (drawing_of survey.now.line) survey.now.target (B.emergencies survey.now.book.now) (B.services survey.now.book.now) approach row.old result row.new }
{
    let pass = fill_row(survey, found);
    let allowed = is_allowed(survey, &pass, approach);
    copy_lawful(allowed, row, found);
    if allowed {
        Ok(ground_told(survey, &pass))
    } else {
        Err(Refusal::NoRow)
    }
}

// Works out the highest row before a stop mark: writes the code of each interval up to the mark's into the row's bytes, and answers
// the stop letter and the place of the first interval of the stop ground. The row is lawful, and no lawful row has a higher code
// anywhere; examined, it passes. Refused by 8 (no such mark, or it stands in no interval), 4 (the approach code is no speed), 10 (the
// row has not a byte for each interval up to the mark's) and 13, exactly where no row is lawful. Memory is wanting exactly where,
// after the first three, the scratch lent has fewer bytes than the row. A refusal, and want of memory, leave the row's bytes; what
// the scratch holds before and afterwards does not matter.
#[tactic(auto, using(crate::proofs::Exits::worked_unasked))]
pub fn work_out_in<B: BrakingBook>(
    line: &Line<'_>,
    mark: u16,
    approach: u8,
    book: &B,
    row: &mut [u8],
    scratch: &mut [u8],
) -> Result<(StopLetter, usize), Failure>
    ensures cases { WorkedOut (drawing_of line.now) mark approach (B.BrakingBook.emergencies book.now) (B.BrakingBook.services book.now) row.old result row.new }
    ensures passes { Passing (drawing_of line.now) mark approach (B.BrakingBook.emergencies book.now) (B.BrakingBook.services book.now) result row.new }
    ensures memory { Lacking (drawing_of line.now) mark approach row.old (length scratch.old) result }
{
    let (target, speed) = asked_for(line, mark, approach, row)?;
    if scratch.len() < row.len() {
        return Err(Failure::Memory);
    }
    let survey = Survey {
        line: *line,
        target,
        book,
    };
    let found = &mut scratch[..row.len()];
    Ok(settled(&survey, speed, row, found)?)
}

// Works out the highest row before a stop mark as `work_out_in` does, in memory of its own, which is asked for once none of the first
// three refusals is due. Want of memory leaves the row's bytes.
#[tactic(auto, using(crate::proofs::Exits::worked_unasked))]
pub fn work_out<B: BrakingBook>(
    heap: Global,
    line: &Line<'_>,
    mark: u16,
    approach: u8,
    book: &B,
    row: &mut [u8],
) -> Result<(StopLetter, usize), Failure>
    ensures cases { WorkedOut (drawing_of line.now) mark approach (B.BrakingBook.emergencies book.now) (B.BrakingBook.services book.now) row.old result row.new }
    ensures passes { Passing (drawing_of line.now) mark approach (B.BrakingBook.emergencies book.now) (B.BrakingBook.services book.now) result row.new }
{
    let _ = asked_for(line, mark, approach, row)?;
    let mut scratch = row.to_vec(heap)?;
    work_out_in(line, mark, approach, book, row, scratch.as_mut_slice())
}
