// Examining a row of codes that was drawn up elsewhere.
ghost use Rattle.std.specs.Prelude.{◌≡◌, length, is_some};
ghost use Rattle.std.specs.List.{list_all};
ghost use Rattle.codes.specs.Speeds.{code_of};
ghost use Rattle.rows.specs.Drawings.{drawing_of};
ghost use Rattle.rows.specs.Targets.{track_of, mark_of};
ghost use Rattle.rows.specs.Passing.{codes_of, read_code};
ghost use Rattle.rows.specs.Examining.{broken_rule, Looked, Known, Examined};

use super::asking::asked_for;
use super::breaks::Break;
use super::passing::FiveCaps;
use super::survey::Survey;
use books::BrakingBook;
use codes::{Code, Refusal, Rule, Speed};
use rules::Line;

// The first rule whose cap is below the code, in the order in which the rules are tried.
fn broken_rule(caps: &FiveCaps, code: Code) -> Option<Rule>
    ensures { result ≡ broken_rule caps.now code }
{
    Rule::ALL
        .iter()
        .copied()
        .find(|rule| caps.cap(*rule) < code)
}

// Whether a byte is that of a code.
fn is_code(byte: u8) -> bool
    ensures { result ≡ is_some (code_of byte) }
{
    Code::try_from(byte).is_ok()
}

// Whether each byte of a row is that of a code.
fn are_codes(row: &[u8]) -> bool
    ensures { result ≡ list_all (λ byte. is_some (code_of byte)) row.now }
{
    row.iter().all(|byte| is_code(*byte))
}

// The code of a byte; stop where it is no code. As in `driving`: a line, which each crate has for itself.
fn code_of(byte: u8) -> Code
    ensures { result ≡ read_code byte }
{
    Code::try_from(byte).unwrap_or(Code::Stop)
}

// The first break known once interval j with its code was looked at; `known` is the first behind it.
fn looked_at(caps: &FiveCaps, code: Code, j: usize, known: Option<Break>) -> Option<Break>
    ensures { Looked caps.now code j known result }
{
    broken_rule(caps, code)
        .map(|rule| Break { interval: j, rule })
        .or(known)
}

// The first break of a row, from the approach on. One pass goes from the mark's interval back, so that the stop ground is known
// before an interval is judged.
fn first_break<B: BrakingBook>(survey: &Survey<'_, B>, approach: Speed, row: &[u8]) -> Option<Break>
    requires { length row.now ≡ survey.now.target.held.interval }
    ensures { Known (track_of survey.now.line) (mark_of survey.now.target) (B.emergencies survey.now.book.now) (B.services survey.now.book.now) approach (codes_of row.now) 0 result }
{
    let mut pass = survey.pass();
    let mut found = None;
    // a fold would carry the pass and the break in one pair through each clause
    for byte in row.iter().rev() {
        let caps = survey.caps(&pass);
        let code = code_of(*byte);
        found = looked_at(&caps, code, pass.interval, found);
        pass = survey.further(&pass, &caps, code);
    }
    looked_at(&survey.caps(&pass), Code::Go(approach), 0, found)
}

// Examines a row before a stop mark: a pass exactly if the row is lawful. Refused by 8 (no such mark, or it stands in no interval),
// 4 (the approach code is no speed), 10 (the row has not a byte for each interval up to the mark's), 11 (a byte is no code) and 12
// with the first interval that breaks a rule, by its place, 0 for the approach, and the first rule that it breaks.
pub fn examine<B: BrakingBook>(
    line: &Line<'_>,
    mark: u16,
    approach: u8,
    row: &[u8],
    book: &B,
) -> Result<(), Refusal>
    ensures { Examined (drawing_of line.now) mark approach (B.BrakingBook.emergencies book.now) (B.BrakingBook.services book.now) row.now result }
{
    let (target, speed) = asked_for(line, mark, approach, row)?;
    if !are_codes(row) {
        return Err(Refusal::Byte);
    }
    let survey = Survey {
        line: *line,
        target,
        book,
    };
    // a break is what is looked for, and an error only here
    match first_break(&survey, speed, row) {
        None => Ok(()),
        Some(found) => Err(found.into()),
    }
}
