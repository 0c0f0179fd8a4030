// Drawing a sheet of four intervals with a mark in the last: it is closed, reopened for one more restriction, which is struck again, and closed.
use codes::{Class, Refusal, Speed};
use ground::Entry;
use rules::{Interval, StopMark};
use sheet::{ClosedSheet, OpenSheet};

// A sheet with its intervals, a gradient and a stop mark.
fn drawn_sheet(
    intervals: &mut [Interval],
    gradients: &mut [Entry<Class>],
    marks: &mut [StopMark],
) -> Result<OpenSheet, Refusal> {
    let mut sheet = OpenSheet::blank(10_000)?;
    sheet.enter_interval(intervals, 1, 420)?;
    sheet.enter_interval(intervals, 2, 280)?;
    sheet.enter_interval(intervals, 3, 210)?;
    sheet.enter_interval(intervals, 4, 200)?;
    sheet.enter_gradient(gradients, 9_000, 13_000, -30)?;
    sheet.enter_mark(marks, 1, 11_110, 11_160)?;
    Ok(sheet)
}

// Closes a sheet, or tells why it stays open.
fn closed(
    sheet: OpenSheet,
    intervals: &[Interval],
    marks: &[StopMark],
) -> Result<ClosedSheet, Refusal> {
    sheet.close(intervals, marks).map_err(|refused| refused.why)
}

// The sheet, drawn and closed.
pub fn closed_sheet(
    intervals: &mut [Interval],
    gradients: &mut [Entry<Class>],
    restrictions: &mut [Entry<Speed>],
    marks: &mut [StopMark],
) -> Result<ClosedSheet, Refusal> {
    let open = drawn_sheet(intervals, gradients, marks)?;
    let closed_once = closed(open, intervals, marks)?;
    let mut sheet = closed_once.reopen();
    sheet.enter_restriction(restrictions, 10_200, 10_250, 50)?;
    sheet.strike_restriction(restrictions, 0)?;
    closed(sheet, intervals, marks)
}
