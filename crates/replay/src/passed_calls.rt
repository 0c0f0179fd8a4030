// Calls over a sheet with a passed row.
ghost use Rattle.laws.specs.Books.{Services};
ghost use Rattle.sheet.specs.States.{book_of};
ghost use Rattle.sheet.specs.Promises.{tables_of};
ghost use Rattle.replay.specs.Meaning.{call_of, outcome_of, passed_sheet, sheet_of, By, Performed};

use super::answers::Answer;
use super::any_sheet::AnySheet;
use super::calls::{Action, Call};
use super::lending::part;
use books::BrakingBook;
use sheet::{LentTables, PassedSheet, Refused};
use trains::Train;

// A call over a sheet with a passed row, with the caller's tables.
pub(super) fn on_passed<'b, B: BrakingBook, T: Train + Drop>(
    sheet: PassedSheet<'b, B>,
    call: Call<T>,
    whole: &LentTables<'_>,
    row_table: &[u8],
) -> (AnySheet<'b, B, T>, Answer<T>)
    ensures made { (D : Services) → Performed (B.BrakingBook.emergencies (book_of sheet.entry)) D (passed_sheet sheet.entry (tables_of whole.now row_table.now)) (call_of T.Train.numbers call) (outcome_of T.Train.numbers result.1) (sheet_of T.Train.numbers result.0 (tables_of whole.now row_table.now)) }
    ensures by { By (book_of sheet.entry) result.0 }
{
    let Call { lent, action } = call;
    // Each arm returns, so that each is proved by itself.
    match action {
        Action::SetOff { train } => {
            match sheet.set_off(
                train,
                part(whole.gradients, lent.gradients),
                part(row_table, lent.row),
            ) {
                Ok(running) => {
                    let report = running.report();
                    return (AnySheet::Running(running), Answer::At(report));
                }
                Err(refused) => {
                    let Refused {
                        sheet: (sheet, train),
                        why,
                    } = refused;
                    return (AnySheet::Passed(sheet), Answer::Kept { train, why });
                }
            }
        }
        Action::Leave => return (AnySheet::Closed(sheet.leave()), Answer::Done),
        _ => return (AnySheet::Passed(sheet), Answer::NotTaken),
    }
}
