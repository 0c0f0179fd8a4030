// The highest codes of an interval by the restrictions that touch it and by those ahead of it.
ghost use Rattle.std.specs.Prelude.{◌≡◌, ◌-◌, min, map};
ghost use Rattle.codes.specs.Speeds.{byte};
ghost use Rattle.ground.specs.Ground.{stretch_value};
ghost use Rattle.ground.specs.Kinds.{steepness};
ghost use Rattle.rules.specs.Rules.{train_length};
ghost use Rattle.rules.specs.Limits.{touches, lies_ahead};
ghost use Rattle.rules.specs.Found.{lower_of, lowest, touching_code, ahead_code};

use super::braked::highest_down;
use super::places::{Place, TRAIN_LENGTH};
use books::BrakingBook;
use codes::{Class, Code, Speed};
use ground::{Entry, worst_over};

// The class of the ground from a train's length before the end of an interval on.
pub fn class_from(gradients: &[Entry<Class>], end: u64, to: u64) -> Class
    ensures { result ≡ stretch_value steepness gradients.now (end - train_length) to }
{
    worst_over(gradients, end.saturating_sub(TRAIN_LENGTH), to)
}

// The lower of two codes.
pub fn lower_of(one: Code, other: Code) -> Code
    ensures value { result ≡ lower_of one other }
    ensures byte { byte result ≡ min (byte one) (byte other) }
{
    // Not by `min`: what it answers was not found to be the lower byte.
    if other < one { other } else { one }
}

// Whether a restriction begins before the danger point and touches the interval, the train's length behind it included.
fn touches(restriction: &Entry<Speed>, place: &Place) -> bool
    ensures { result ≡ touches place.now restriction.now }
{
    let from = restriction.from as u64;
    from < place.danger && from < place.end && place.begin < restriction.to as u64 + TRAIN_LENGTH
}

// Whether a restriction begins before the danger point, and not before the interval's end.
fn lies_ahead(restriction: &Entry<Speed>, place: &Place) -> bool
    ensures { result ≡ lies_ahead place.now restriction.now }
{
    let from = restriction.from as u64;
    from < place.danger && place.end <= from
}

// The highest code by one restriction, if it touches the interval; 120 km/h else.
fn touching_code(restriction: &Entry<Speed>, place: &Place) -> Code
    ensures { result ≡ touching_code place.now restriction.now }
{
    if touches(restriction, place) {
        Code::Go(restriction.value)
    } else {
        Code::Go(Speed::V120)
    }
}

// The highest code by one restriction, if it lies ahead; 120 km/h else. The class of the ground is asked for once.
fn ahead_code<B: BrakingBook>(
    restriction: &Entry<Speed>,
    gradients: &[Entry<Class>],
    place: &Place,
    book: &B,
) -> Code
    ensures { result ≡ ahead_code (B.BrakingBook.emergencies book.now) gradients.now place.now restriction.now }
{
    if !lies_ahead(restriction, place) {
        return Code::Go(Speed::V120);
    }
    let from = restriction.from as u64;
    let class = class_from(gradients, place.end, from);
    highest_down(
        book,
        class,
        Code::Go(restriction.value),
        from.saturating_sub(place.end),
    )
}

// The highest code by all restrictions that touch the interval. This and the next are a chain each: they differ in what is asked of a
// restriction.
pub fn touching_limit(restrictions: &[Entry<Speed>], place: &Place) -> Code
    ensures { result ≡ lowest (map (touching_code place.now) restrictions.now) }
{
    restrictions
        .iter()
        .map(|restriction| touching_code(restriction, place))
        .fold(Code::Go(Speed::V120), lower_of)
}

// The highest code by all restrictions that lie ahead.
pub fn ahead_limit<B: BrakingBook>(
    restrictions: &[Entry<Speed>],
    gradients: &[Entry<Class>],
    place: &Place,
    book: &B,
) -> Code
    ensures { result ≡ lowest (map (ahead_code (B.BrakingBook.emergencies book.now) gradients.now place.now) restrictions.now) }
{
    restrictions
        .iter()
        .map(|restriction| ahead_code(restriction, gradients, place, book))
        .fold(Code::Go(Speed::V120), lower_of)
}
