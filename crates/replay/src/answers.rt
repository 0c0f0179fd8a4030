// What the calls of a list answer.
ghost use Rattle.std.specs.Prelude.{◌≡◌};
ghost use Rattle.codes.specs.Refusals.{told};
ghost use Rattle.replay.specs.Meaning.{outcome_of, outcome_told};

use codes::Refusal;
use rows::StopLetter;
use sheet::Report;
use trains::Train;

// The answer to a call. What came with a call is handed back: the bytes of a work-out, and a train that was not set off or has been
// left.
#[derive(Drop)]
pub enum Answer<T> {
    Done,
    // the row that was written, the stop letter, and the place of the first interval of the stop ground
    Worked {
        row: Vec<u8>,
        letter: StopLetter,
        place: usize,
    },
    // where a train is, after setting off and after a step
    At(Report),
    Left {
        train: T,
    },
    Refused(Refusal),
    Unworked {
        row: Vec<u8>,
        why: Refusal,
    },
    Kept {
        train: T,
        why: Refusal,
    },
    // the sheet's state does not take the call
    NotTaken,
}

// The answer of a call that is done or refused.
impl<T: Train + Drop> From<Result<(), Refusal>> for Answer<T> {
    ghost from_gives = { λ r answer. outcome_of T.Train.numbers answer ≡ outcome_told (told r) };

    fn from(r: Result<(), Refusal>) -> Answer<T> {
        match r {
            Ok(()) => Answer::Done,
            Err(why) => Answer::Refused(why),
        }
    }
}
