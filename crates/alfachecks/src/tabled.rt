// Whether the library answers what a line of the table says.
use super::sheets::alfa_sheet;
use alfa::{Example, Variant};
use books::PublishedBook;
use codes::{Class, Code, Refusal, Speed};
use rows::{Failure, StopLetter, examine, work_out};
use std::alloc::Global;

// What a line of the table says of working out a row.
#[derive(Clone, Copy, PartialEq, Eq)]
struct Found {
    row: [u8; 4],
    letter: StopLetter,
    place: usize,
}

// Whether just this is worked out, or the row is refused so.
fn is_worked_out(
    heap: Global,
    variant: Variant,
    approach: Speed,
    told: Result<Found, Failure>,
) -> anyhow::Result<bool> {
    let sheet = alfa_sheet(heap, variant)?;
    let mut row = [7; 4];
    let answer = work_out(
        heap,
        &sheet.line(),
        1,
        approach.kmh(),
        &PublishedBook,
        &mut row,
    );
    Ok(answer.map(|(letter, place)| Found { row, letter, place }) == told)
}

// Whether this is the verdict on the row.
fn is_judged(
    heap: Global,
    variant: Variant,
    approach: Speed,
    row: [Code; 4],
    told: Result<(), Refusal>,
) -> anyhow::Result<bool> {
    let sheet = alfa_sheet(heap, variant)?;
    let row = row.map(|code| code.byte());
    Ok(examine(&sheet.line(), 1, approach.kmh(), &row, &PublishedBook) == told)
}

// Whether the library answers what the line says.
pub fn is_answered(heap: Global, example: Example) -> anyhow::Result<bool> {
    match example {
        Example::Highest {
            sheet,
            approach,
            row,
            letter,
            place,
        } => {
            let row = row.map(|code| code.byte());
            is_worked_out(heap, sheet, approach, Ok(Found { row, letter, place }))
        }
        Example::NoRow { sheet, approach } => {
            is_worked_out(heap, sheet, approach, Err(Failure::Refused(Refusal::NoRow)))
        }
        Example::Passes {
            sheet,
            approach,
            row,
        } => is_judged(heap, sheet, approach, row, Ok(())),
        Example::Breaks {
            sheet,
            approach,
            row,
            interval,
            rule,
        } => is_judged(
            heap,
            sheet,
            approach,
            row,
            Err(Refusal::Unlawful { interval, rule }),
        ),
        Example::OfClass { faldtal, class } => Ok(Class::of_faldtal(faldtal) == Ok(class)),
        Example::NoFaldtal { faldtal } => Ok(Class::of_faldtal(faldtal) == Err(Refusal::Grade)),
    }
}
