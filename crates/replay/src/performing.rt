// One call over a sheet in any state.
ghost use Rattle.replay.specs.Meaning.{call_of, outcome_of, sheet_of, five_tables, By, Performed};

use super::answers::Answer;
use super::any_sheet::AnySheet;
use super::calls::Call;
use super::closed_calls::on_closed;
use super::open_calls::on_open;
use super::passed_calls::on_passed;
use super::running_calls::on_running;
use books::BrakingBook;
use codes::{Class, Speed};
use ground::Entry;
use rules::{Interval, StopMark};
use sheet::LentTables;
use trains::Train;

// A call over a sheet in any state. The book is the one that serves the sheet, if one does. The tables come one by one, as an open
// sheet takes them.
pub(super) fn perform<'b, B: BrakingBook, T: Train + Drop>(
    sheet: AnySheet<'b, B, T>,
    call: Call<T>,
    book: &'b B,
    intervals: &mut [Interval],
    gradients: &mut [Entry<Class>],
    restrictions: &mut [Entry<Speed>],
    marks: &mut [StopMark],
    row_table: &mut [u8],
) -> (AnySheet<'b, B, T>, Answer<T>)
    requires { By book.now sheet }
    ensures made { Performed (B.BrakingBook.emergencies book.now) (B.BrakingBook.services book.now) (sheet_of T.Train.numbers sheet.entry (five_tables intervals.old gradients.old restrictions.old marks.old row_table.old)) (call_of T.Train.numbers call) (outcome_of T.Train.numbers result.1) (sheet_of T.Train.numbers result.0 (five_tables intervals.new gradients.new restrictions.new marks.new row_table.new)) }
    ensures by { By book.now result.0 }
{
    // Each arm returns, so that each is proved by itself. An open sheet writes to the tables; to the others they are lent to be read,
    // anew in each arm.
    match sheet {
        AnySheet::Open(sheet) => {
            return on_open(sheet, call, intervals, gradients, restrictions, marks);
        }
        AnySheet::Closed(sheet) => {
            let whole = LentTables {
                intervals,
                gradients,
                restrictions,
                marks,
            };
            return on_closed(sheet, call, book, &whole, row_table);
        }
        AnySheet::Passed(sheet) => {
            let whole = LentTables {
                intervals,
                gradients,
                restrictions,
                marks,
            };
            return on_passed(sheet, call, &whole, row_table);
        }
        AnySheet::Running(sheet) => {
            let whole = LentTables {
                intervals,
                gradients,
                restrictions,
                marks,
            };
            return on_running(sheet, call, &whole, row_table);
        }
    }
}
