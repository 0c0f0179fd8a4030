// Replaying a list of calls from a blank sheet.
ghost use Rattle.std.specs.Prelude.{map};
ghost use Rattle.runs.specs.Runs.{Determined};
ghost use Rattle.replay.specs.Meaning.{call_of, five_tables};
ghost use Rattle.replay.specs.Replays.{Begun, Replays};

use super::any_sheet::AnySheet;
use super::calls::Call;
use super::performing::perform;
use super::replayed::Replayed;
use books::BrakingBook;
use codes::{Class, Speed};
use ground::Entry;
use rows::Failure;
use rules::{Interval, StopMark};
use sheet::OpenSheet;
use std::alloc::Global;
use trains::Train;

// A blank sheet with its start. Refused by 6 where that is not 1,000 to 100,000; memory is not asked for.
fn blank_sheet(start: u32) -> Result<OpenSheet, Failure>
    ensures { Begun start result }
{
    Ok(OpenSheet::blank(start)?)
}

// Makes a blank sheet with its start, and then the calls, one after the other, over the caller's five tables, of any length and
// content. One book serves throughout. Every call gets an answer; one that the sheet's state does not take is told so, changes nothing,
// and the list goes on. Refused by 6 where the start is not 1,000 to 100,000; want of memory is told before the first call is made. In
// both cases nothing has changed. The tables are the caller's own, and come one by one, as in every call.
pub fn replay<'b, B: BrakingBook, T: Train + Drop>(
    heap: Global,
    start: u32,
    book: &'b B,
    intervals: &mut [Interval],
    gradients: &mut [Entry<Class>],
    restrictions: &mut [Entry<Speed>],
    marks: &mut [StopMark],
    row_table: &mut [u8],
    calls: Vec<Call<T>>,
) -> Result<Replayed<'b, B, T>, Failure>
    ensures replays { Replays (B.BrakingBook.emergencies book.now) (B.BrakingBook.services book.now) T.Train.numbers start (five_tables intervals.old gradients.old restrictions.old marks.old row_table.old) (map (call_of T.Train.numbers) calls.items) result (five_tables intervals.new gradients.new restrictions.new marks.new row_table.new) }
    ensures determined { Determined (B.BrakingBook.emergencies book.now) (B.BrakingBook.services book.now) }
{
    let mut sheet = AnySheet::Open(blank_sheet(start)?);
    let mut answers = Vec::with_capacity(heap, calls.len())?;
    for call in calls {
        let (after, answer) = perform(
            sheet,
            call,
            book,
            intervals,
            gradients,
            restrictions,
            marks,
            row_table,
        );
        sheet = after;
        answers.push_reserved(answer);
    }
    Ok(Replayed { answers, sheet })
}
