// The text of an answer.
ghost use Rattle.std.specs.Prelude.{◌≡◌, Some, IfOk, string_bytes};
ghost use Rattle.wording.specs.Answers.{answer_text};

use super::answers::Answer;
use super::refused::Told;
use super::row_texts::WorkedOut;
use std::alloc::{AllocError, Global};
use std::fmt;

// An answer as it is told; the row is the one that was worked out, if the answer is of one.
#[derive(Clone, Copy)]
struct Worded<'a> {
    answer: Answer,
    row: &'a [u8],
}

impl fmt::Display for Worded<'_> {
    ghost output = { λ worded. Some (answer_text worded.answer worded.row.now) };

    fn fmt<W: fmt::Write>(&self, f: &mut fmt::Formatter<W>) -> fmt::Result {
        match self.answer {
            Answer::Entered => f.write_str("ok"),
            Answer::WorkedOut { letter, place } => {
                let row = self.row;
                f.write(WorkedOut { row, letter, place })
            }
            Answer::Passed => f.write_str("pass"),
            Answer::Refused(refusal) => f.write(Told(refusal)),
            Answer::Unclear { line } => write!(f, "line {line}: not understood"),
            Answer::NoStart { line } => write!(f, "line {line}: no start"),
        }
    }
}

// The text of an answer, without a line feed; the row is the one that was worked out, if the answer is of one. Where memory fails,
// there is no text.
pub fn answer_text(heap: Global, answer: Answer, row: &[u8]) -> Result<String, AllocError>
    ensures { IfOk result (λ text. string_bytes text ≡ answer_text answer row.now) }
{
    let worded = Worded { answer, row };
    format!(in heap; "{worded}")
}
