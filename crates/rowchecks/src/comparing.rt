// Holds the library's answers on sheets drawn at random against the verdicts on all of their rows.
use super::known::{CODES, byte_of, kmh_of, number_of};
use super::tallies::Tally;
use super::verdicts::Verdicts;
use books::BrakingBook;
use codes::{Code, Refusal, Speed};
use rows::{Break, Failure, examine, work_out};
use rules::Line;
use std::alloc::Global;
use trials::{Draws, drawn_sheet};

// What stands in a row before it is worked out.
const BLANK: u8 = 7;

// The rows of a sheet at an approach code, tried one after the other.
#[derive(Drop)]
struct Trial {
    approach: Speed,
    row: Vec<Code>,
    // the highest code of each interval in any lawful row, if there is one
    best: Option<Vec<Code>>,
}

// How many rows have so many codes.
fn row_count(codes: usize) -> usize {
    (0..codes).fold(1, |count: usize, _| count.saturating_mul(10))
}

impl Trial {
    // Takes the row with a number, whose digits are the ranks of its codes.
    fn take_row(&mut self, number: usize) {
        let mut rest = number;
        for code in &mut self.row {
            *code = CODES[rest % 10];
            rest /= 10;
        }
    }

    // Raises each of the highest codes to that of the row, which is lawful.
    fn raise(&mut self) -> anyhow::Result<()> {
        match &mut self.best {
            Some(best) => {
                for (highest, code) in best.iter_mut().zip(self.row.iter()) {
                    if byte_of(*highest) < byte_of(*code) {
                        *highest = *code;
                    }
                }
            }
            None => self.best = Some(self.row.clone()?),
        }
        Ok(())
    }
}

// Whether the library's answer to a row tells the break that is due, by its interval and the rule's number; a pass where none is due.
fn is_told(answer: Result<(), Refusal>, due: Result<(), Break>) -> bool {
    match (answer, due) {
        (Ok(()), Ok(())) => true,
        (Err(Refusal::Unlawful { interval, rule }), Err(broken)) => {
            interval == broken.interval && rule.number() == number_of(broken.rule)
        }
        _ => false,
    }
}

// Tries one row, and whether the library's verdict is the same.
fn is_same<B: BrakingBook>(
    heap: Global,
    line: &Line<'_>,
    verdicts: &Verdicts<'_, B>,
    trial: &mut Trial,
    tally: &mut Tally,
) -> anyhow::Result<bool> {
    let approach = trial.approach;
    let due = verdicts.verdict(approach, trial.row.as_slice());
    tally.count_row(due.err().map(|broken| broken.rule));
    if due.is_ok() {
        trial.raise()?;
    }
    let row: Vec<u8> = trial.row.iter().map(|code| byte_of(*code)).collect(heap)?;
    let answer = examine(
        line,
        1,
        kmh_of(approach),
        row.as_slice(),
        verdicts.scene.book,
    );
    Ok(is_told(answer, due))
}

// Whether the library works out the highest row, its letter and the first interval of the stop ground; or, where no row is lawful,
// refuses by 13 and leaves the bytes.
fn is_worked_out<B: BrakingBook>(
    heap: Global,
    verdicts: &Verdicts<'_, B>,
    approach: Speed,
    best: Option<&[Code]>,
) -> anyhow::Result<bool> {
    let line = verdicts.scene.sheet.line();
    let mut row = vec![in heap; BLANK; verdicts.held]?;
    let answer = work_out(
        heap,
        &line,
        1,
        kmh_of(approach),
        verdicts.scene.book,
        &mut row,
    );
    Ok(match (answer, best) {
        (Ok(found), Some(best)) => found == (verdicts.letter, verdicts.first)
            && row
                .iter()
                .copied()
                .eq(best.iter().map(|code| byte_of(*code))),
        (Err(Failure::Refused(Refusal::NoRow)), None) => row.iter().all(|byte| *byte == BLANK),
        _ => false,
    })
}

// Holds the library's limits of each interval, and its worst class from there to the mark, against the second implementation.
fn compare_intervals<B: BrakingBook>(verdicts: &Verdicts<'_, B>, tally: &mut Tally) {
    for j in 0..=verdicts.held {
        tally.count_answer(verdicts.scene.has_limits(j) && verdicts.scene.has_class(j));
    }
}

// Tries every row of a sheet at an approach code, and then the highest one, which is lawful itself if there is any.
fn compare_rows<B: BrakingBook>(
    heap: Global,
    verdicts: &Verdicts<'_, B>,
    approach: Speed,
    tally: &mut Tally,
) -> anyhow::Result<()> {
    let line = verdicts.scene.sheet.line();
    let mut trial = Trial {
        approach,
        row: vec![in heap; Code::Stop; verdicts.held]?,
        best: None,
    };
    for number in 0..row_count(verdicts.held) {
        trial.take_row(number);
        let is_same = is_same(heap, &line, verdicts, &mut trial, tally)?;
        tally.count_answer(is_same);
    }
    let best = trial.best.as_deref();
    tally.count_highest(best.map(|_| verdicts.letter));
    let is_lawful = best.map_or(true, |best| verdicts.verdict(approach, best).is_ok());
    let is_worked_out = is_worked_out(heap, verdicts, approach, best)?;
    tally.count_answer(is_worked_out && is_lawful);
    Ok(())
}

// Draws so many sheets, whose intervals are at most `scale` metres long, and holds the library's verdict on each of their rows, and the
// highest row, against a second implementation.
pub fn compare_sheets<B: BrakingBook>(
    heap: Global,
    book: &B,
    scale: u32,
    sheets: u32,
) -> anyhow::Result<Tally> {
    let mut draws = Draws { state: scale };
    let mut tally = Tally::default();
    for _ in 0..sheets {
        tally.sheets = tally.sheets.saturating_add(1);
        let approach = Speed::ALL[draws.below(9) as usize];
        let sheet = drawn_sheet(heap, &mut draws, scale)?;
        let verdicts = Verdicts::new(heap, sheet, book)?;
        compare_intervals(&verdicts, &mut tally);
        compare_rows(heap, &verdicts, approach, &mut tally)?;
    }
    Ok(tally)
}
