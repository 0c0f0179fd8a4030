// A train that sets off, and one that moves a metre on.
ghost use Rattle.std.specs.Prelude.{◌≡◌, ◌+◌, min};
ghost use Rattle.ground.specs.Ground.{metre_value};
ghost use Rattle.ground.specs.Kinds.{steepness};
ghost use Rattle.trains.specs.Braking.{Hears, Rolls};
ghost use Rattle.driving.specs.Journeys.{stands, last_position};
ghost use Rattle.driving.specs.Driving.{behind, under_way, Departs, Advances};

use super::heads::Head;
use super::telling::told_at;
use books::BrakingBook;
use codes::{Class, Code};
use ground::{Entry, value_at, worst_over};
use rules::{Interval, TRAIN_LENGTH};
use trains::Train;

// positions end here
const LAST_POSITION: u32 = 500_000;

// The class of the longest train's metres behind a position.
fn class_behind(gradients: &[Entry<Class>], position: u32) -> Class
    ensures { result ≡ behind gradients.now position }
{
    let end = position as u64;
    worst_over(gradients, end.saturating_sub(TRAIN_LENGTH), end)
}

// Tells a train a code at a position, with the class of the 170 m behind.
fn hear_at<B: BrakingBook, T: Train>(
    train: &mut T,
    book: &B,
    gradients: &[Entry<Class>],
    position: u32,
    code: Code,
)
    ensures { Hears (B.BrakingBook.emergencies book.now) code (behind gradients.now position) (T.Train.numbers train.old) (T.Train.numbers train.new) }
{
    train.hear(book, code, class_behind(gradients, position));
}

// Rolls a train over the metre from a position on, with that metre's class.
fn roll_from<B: BrakingBook, T: Train>(
    train: &mut T,
    book: &B,
    gradients: &[Entry<Class>],
    position: u32,
)
    ensures { Rolls (B.BrakingBook.emergencies book.now) (metre_value steepness gradients.now position) (T.Train.numbers train.old) (T.Train.numbers train.new) }
{
    train.roll(book, value_at(gradients, position as u64));
}

// The position one metre on, and the last position at most.
fn next_position(position: u32) -> u32
    ensures { result ≡ min (position + 1) last_position }
{
    position.saturating_add(1).min(LAST_POSITION)
}

// Whether a train stands: pace 0, with stop told last.
pub fn is_standing<T: Train>(train: &T, head: Head) -> bool
    ensures { result ≡ stands (under_way head (T.Train.numbers train.now)) }
{
    head.told == Code::Stop && train.pace() == 0
}

// Sets a train off at the start: it hears the first code, with the class of the 170 m behind. Answers where it is.
// Here and in what is called, train, book and gradients come one by one, as their owner has them.
pub fn depart<B: BrakingBook, T: Train>(
    train: &mut T,
    book: &B,
    gradients: &[Entry<Class>],
    start: u32,
    first: Code,
) -> Head
    ensures { Departs (B.BrakingBook.emergencies book.now) start gradients.now first (T.Train.numbers train.old) result (T.Train.numbers train.new) }
{
    hear_at(train, book, gradients, start, first);
    Head {
        position: start,
        told: first,
    }
}

// Moves a train one metre on: it rolls the metre, with that metre's class. If it then is where an interval up to the row's last
// begins, and the code of that is not the one told last, it hears that code with the class of the 170 m behind. Answers where it is.
// The line's tables and the row come one by one, as their owner lends them.
pub fn advance<B: BrakingBook, T: Train>(
    train: &mut T,
    book: &B,
    start: u32,
    intervals: &[Interval],
    gradients: &[Entry<Class>],
    row: &[u8],
    head: Head,
) -> Head
    ensures { Advances (B.BrakingBook.emergencies book.now) start intervals.now gradients.now row.now (under_way head (T.Train.numbers train.old)) (under_way result (T.Train.numbers train.new)) }
{
    roll_from(train, book, gradients, head.position);
    let there = Head {
        position: next_position(head.position),
        ..head
    };
    match told_at(start, intervals, row, there) {
        None => there,
        Some(told) => {
            hear_at(train, book, gradients, there.position, told);
            Head { told, ..there }
        }
    }
}
