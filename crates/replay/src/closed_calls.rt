// Calls over a closed sheet.
ghost use Rattle.sheet.specs.Promises.{tables_of};
ghost use Rattle.replay.specs.Meaning.{call_of, outcome_of, closed_sheet, sheet_of, By, Performed};

use super::answers::Answer;
use super::any_sheet::AnySheet;
use super::calls::{Action, Call};
use super::lending::lent_parts;
use books::BrakingBook;
use sheet::{ClosedSheet, LentTables, Refused};
use trains::Train;

// A call over a closed sheet, with the caller's tables.
pub(super) fn on_closed<'b, B: BrakingBook, T: Train + Drop>(
    sheet: ClosedSheet,
    call: Call<T>,
    book: &'b B,
    whole: &LentTables<'_>,
    row_table: &mut [u8],
) -> (AnySheet<'b, B, T>, Answer<T>)
    ensures made { Performed (B.BrakingBook.emergencies book.now) (B.BrakingBook.services book.now) (closed_sheet sheet (tables_of whole.now row_table.old)) (call_of T.Train.numbers call) (outcome_of T.Train.numbers result.1) (sheet_of T.Train.numbers result.0 (tables_of whole.now row_table.new)) }
    ensures by { By book.now result.0 }
{
    let Call {
        lent: lending,
        action,
    } = call;
    let lent = lent_parts(lending, whole);
    // Each arm returns, so that each is proved by itself.
    match action {
        Action::Reopen => return (AnySheet::Open(sheet.reopen()), Answer::Done),
        Action::WorkOut {
            mark,
            approach,
            bytes,
        } => {
            let mut row = bytes;
            match sheet.work_out(&lent, mark, approach, book, row.as_mut_slice()) {
                Ok((letter, place)) => return (
                    AnySheet::Closed(sheet),
                    Answer::Worked { row, letter, place },
                ),
                Err(why) => return (AnySheet::Closed(sheet), Answer::Unworked { row, why }),
            }
        }
        Action::Submit {
            mark,
            approach,
            row,
        } => {
            // cut here, as on_open cuts its tables
            let room = lending.row.min(row_table.len());
            match sheet.submit(
                &lent,
                &mut row_table[..room],
                mark,
                approach,
                row.as_slice(),
                book,
            ) {
                Ok(passed) => return (AnySheet::Passed(passed), Answer::Done),
                Err(refused) => {
                    let Refused { sheet, why } = refused;
                    return (AnySheet::Closed(sheet), Answer::Refused(why));
                }
            }
        }
        _ => return (AnySheet::Closed(sheet), Answer::NotTaken),
    }
}
