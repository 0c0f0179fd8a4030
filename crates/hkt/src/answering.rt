// What is answered to a line of a script.
use super::faults::Fault;
use super::sheets::Sheet;
use books::PublishedBook;
use rows::{examine, locate, work_out};
use rules::Line;
use script::{Order, read_order};
use std::alloc::{AllocError, Global};
use wording::{Answer, answer_text};

// Works out a row by the published book, into the buffer.
fn worked_out(
    heap: Global,
    line: &Line<'_>,
    mark: u16,
    approach: u8,
    row: &mut Vec<u8>,
) -> Result<Answer, Fault> {
    row.clear();
    row.resize(locate(line, mark)?.held.interval, 0)?;
    let (letter, place) = work_out(heap, line, mark, approach, &PublishedBook, row)?;
    Ok(Answer::WorkedOut { letter, place })
}

// Carries out an order on a sheet that has a start. The buffer holds the row to examine, or then the row that was worked out.
fn carried_out(
    heap: Global,
    sheet: &mut Sheet,
    order: Order,
    row: &mut Vec<u8>,
) -> Result<Answer, Fault> {
    match order {
        Order::Start { start } => *sheet = Sheet::begun(start)?,
        Order::Interval { number, length } => sheet.enter_interval(number, length)?,
        Order::Gradient { from, to, faldtal } => sheet.enter_gradient(from, to, faldtal)?,
        Order::Restriction { from, to, speed } => sheet.enter_restriction(from, to, speed)?,
        Order::Mark {
            number,
            position,
            danger,
        } => sheet.enter_mark(number, position, danger)?,
        Order::WorkOut { mark, approach } => {
            return worked_out(heap, &sheet.line(), mark, approach, row);
        }
        Order::Examine { mark, approach } => {
            examine(&sheet.line(), mark, approach, row, &PublishedBook)?;
            return Ok(Answer::Passed);
        }
    }
    Ok(Answer::Entered)
}

// Carries out the order of a line: without a sheet only a start is. A line without words has no answer.
fn answered(
    heap: Global,
    sheet: &mut Option<Sheet>,
    line: &[u8],
    row: &mut Vec<u8>,
) -> Result<Option<Answer>, Fault> {
    let Some(order) = read_order(line, row)? else {
        return Ok(None);
    };
    if let Some(sheet) = sheet {
        return carried_out(heap, sheet, order, row).map(Some);
    }
    // the first start; a later one begins the sheet anew where it is carried out
    let Order::Start { start } = order else {
        return Err(Fault::NoStart);
    };
    *sheet = Some(Sheet::begun(start)?);
    Ok(Some(Answer::Entered))
}

// The text of the answer to the line of a number; a line without words has no answer. The buffer is for the rows of lines.
pub fn answer(
    heap: Global,
    sheet: &mut Option<Sheet>,
    line: &[u8],
    number: usize,
    row: &mut Vec<u8>,
) -> Result<Option<String>, AllocError> {
    let told = match answered(heap, sheet, line, row) {
        Ok(None) => return Ok(None),
        Ok(Some(answer)) => answer,
        Err(fault) => fault.answer(number)?,
    };
    answer_text(heap, told, row).map(Some)
}
