// Calls over a sheet with a train under way.
ghost use Rattle.laws.specs.Books.{Services};
ghost use Rattle.sheet.specs.States.{book_of, passed_of};
ghost use Rattle.sheet.specs.Promises.{tables_of};
ghost use Rattle.replay.specs.Meaning.{call_of, outcome_of, running_sheet, sheet_of, By, Performed};

use super::answers::Answer;
use super::any_sheet::AnySheet;
use super::calls::{Action, Call};
use super::lending::part;
use books::BrakingBook;
use sheet::{LentTables, RunningSheet};
use trains::Train;

// A call over a sheet with a train under way, with the caller's tables.
pub(super) fn on_running<'b, B: BrakingBook, T: Train + Drop>(
    mut sheet: RunningSheet<'b, B, T>,
    call: Call<T>,
    whole: &LentTables<'_>,
    row_table: &[u8],
) -> (AnySheet<'b, B, T>, Answer<T>)
    ensures made { (D : Services) → Performed (B.BrakingBook.emergencies (book_of (passed_of sheet.entry))) D (running_sheet T.Train.numbers sheet.entry (tables_of whole.now row_table.now)) (call_of T.Train.numbers call) (outcome_of T.Train.numbers result.1) (sheet_of T.Train.numbers result.0 (tables_of whole.now row_table.now)) }
    ensures by { By (book_of (passed_of sheet.entry)) result.0 }
{
    let Call { lent, action } = call;
    // Each arm returns, so that each is proved by itself.
    match action {
        Action::Step => {
            let line = part(whole.intervals, lent.intervals);
            let ground = part(whole.gradients, lent.gradients);
            let row = part(row_table, lent.row);
            match sheet.step(line, ground, row) {
                Ok(report) => return (AnySheet::Running(sheet), Answer::At(report)),
                Err(why) => return (AnySheet::Running(sheet), Answer::Refused(why)),
            }
        }
        Action::Leave => {
            let (closed, train) = sheet.leave();
            return (AnySheet::Closed(closed), Answer::Left { train });
        }
        _ => return (AnySheet::Running(sheet), Answer::NotTaken),
    }
}
