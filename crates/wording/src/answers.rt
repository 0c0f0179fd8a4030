// What is answered to a line of a script.
use codes::Refusal;
use rows::StopLetter;

// An answer.
#[derive(Clone, Copy)]
pub enum Answer {
    // The entry is accepted.
    Entered,
    // A row was worked out: its stop letter and the place of the first interval of the stop ground. The row goes beside the answer.
    WorkedOut { letter: StopLetter, place: usize },
    // The examined row is lawful.
    Passed,
    Refused(Refusal),
    // The line of this number, counted from 1, is not understood.
    Unclear { line: usize },
    // The line of this number comes before the first accepted start.
    NoStart { line: usize },
}
