// A train of one of two kinds.
ghost use Rattle.std.specs.Prelude.{◌≡◌};
ghost use Rattle.trains.specs.Either.{either, either_ranged};

use crate::train::Train;
use books::BrakingBook;
use codes::{Class, Code};

// A train of one of two kinds, so that one list can hold trains of both; nested, of more.
#[derive(Drop)]
pub enum EitherTrain<F, S> {
    First(F),
    Second(S),
}

// It does as the train that it holds. The two arms call one method at two types, so that no line can stand for both.
impl<F: Train, S: Train> Train for EitherTrain<F, S> {
    ghost numbers = { either F.Train.numbers S.Train.numbers };

    ghost ranged = { either_ranged F.Train.numbers S.Train.numbers F.Train.ranged S.Train.ranged };

    fn pace(&self) -> u8 {
        match self {
            EitherTrain::First(train) => train.pace(),
            EitherTrain::Second(train) => train.pace(),
        }
    }

    fn hear<B: BrakingBook>(&mut self, book: &B, code: Code, class: Class) {
        match self {
            EitherTrain::First(train) => train.hear(book, code, class),
            EitherTrain::Second(train) => train.hear(book, code, class),
        }
    }

    fn roll<B: BrakingBook>(&mut self, book: &B, class: Class) {
        match self {
            EitherTrain::First(train) => train.roll(book, class),
            EitherTrain::Second(train) => train.roll(book, class),
        }
    }
}
