// The highest codes of an interval by each of the rules 1 to 4, by all four, and by rule 5.
ghost use Rattle.std.specs.Prelude.{◌≡◌, ℕ, ◌-◌};
ghost use Rattle.codes.specs.Speeds.{lower};
ghost use Rattle.codes.specs.declared.speeds.Code.TheVariants.{Go};
ghost use Rattle.std.specs.List.{AllByRecursion};
ghost use Rattle.ground.specs.Ground.{stretch_value};
ghost use Rattle.ground.specs.Kinds.{steepness};
ghost use Rattle.rules.specs.Tracks.{Track, Mark};
ghost use Rattle.rules.specs.Rules.{Down, train_length};
ghost use Rattle.rules.specs.Readings.{Readings};
ghost use Rattle.rules.specs.Searching.{UpTo};
ghost use Rattle.rules.specs.Limits.{Touched, Braked, Served, Stopped, At, Caps, Within, within};

use super::braked::{highest_down, highest_emergency_stop, highest_service_stop};
use super::lines::Line;
use super::places::{Limits, Place};
use super::restricted::{ahead_limit, class_from, touching_limit};
use super::searching::{SpeedTest, highest_passing};
use books::BrakingBook;
use codes::{Class, Code, Speed};
use ground::Entry;

// The highest code from which a train stops before the mark by service braking. This and the next are two, since they differ in the
// position, in the distances asked for and in what is promised. Gradients, place and book stay apart: in one struct each clause would
// name three fields of it.
fn service_limit<B: BrakingBook>(gradients: &[Entry<Class>], place: &Place, book: &B) -> Code
    ensures { UpTo (Served (B.BrakingBook.services book.now) gradients.now place.now) result }
{
    let class = class_from(gradients, place.end, place.position);
    highest_service_stop(book, class, place.position.saturating_sub(place.end))
}

// The highest code from which a train stops before the danger point by emergency braking.
fn stopping_limit<B: BrakingBook>(gradients: &[Entry<Class>], place: &Place, book: &B) -> Code
    ensures { UpTo (Stopped (B.BrakingBook.emergencies book.now) gradients.now place.now) result }
{
    let class = class_from(gradients, place.end, place.danger);
    highest_emergency_stop(book, class, place.danger.saturating_sub(place.end))
}

// The highest code by each of the rules 1 to 4 at a place.
fn placed_limits<B: BrakingBook>(line: &Line<'_>, place: &Place, book: &B) -> Limits
    ensures touching { UpTo (λ c. AllByRecursion (λ x. Touched place.now x c) line.now.restrictions.now) result.touching }
    ensures ahead { UpTo (λ c. AllByRecursion (λ x. Braked (B.BrakingBook.emergencies book.now) line.now.gradients.now place.now x c) line.now.restrictions.now) result.ahead }
    ensures service { UpTo (Served (B.BrakingBook.services book.now) line.now.gradients.now place.now) result.service }
    ensures stopping { UpTo (Stopped (B.BrakingBook.emergencies book.now) line.now.gradients.now place.now) result.stopping }
{
    Limits {
        touching: touching_limit(line.restrictions, place),
        ahead: ahead_limit(line.restrictions, line.gradients, place, book),
        service: service_limit(line.gradients, place, book),
        stopping: stopping_limit(line.gradients, place, book),
    }
}

// The highest code of an interval by each of the rules 1 to 4. The class of the ground is asked for once for each restriction
// ahead, once for the mark and once for the danger point. Rule 1 can be read in two ways, which agree: restriction by restriction,
// or by the lowest speed over the ground from a train's length before the interval on.
pub fn limits_at<B: BrakingBook>(line: &Line<'_>, place: &Place, book: &B) -> Limits
    ensures caps { (track : Track) (mark : Mark) (j : ℕ) → At track mark j line.now.gradients.now line.now.restrictions.now place.now → Caps track mark (B.BrakingBook.emergencies book.now) (B.BrakingBook.services book.now) j result }
    ensures readings { Readings }
{
    placed_limits(line, place, book)
}

// Whether a speed is above a limit.
fn is_above(speed: Speed, limit: Code) -> bool
    ensures { result ≡ lower limit (Go speed) }
{
    limit < Code::Go(speed)
}

// A speed passes if it is above none of the four.
impl SpeedTest for Limits {
    ghost passed = { within };

    fn passes(&self, speed: Speed) -> bool {
        if is_above(speed, self.touching) || is_above(speed, self.ahead) {
            return false;
        }
        !is_above(speed, self.service) && !is_above(speed, self.stopping)
    }
}

// The highest code that obeys the rules 1 to 4.
#[tactic(auto, using(crate::proofs::Limited::within_up_to))]
pub fn highest_code(limits: &Limits) -> Code
    ensures { UpTo (Within limits.now) result }
{
    highest_passing(limits)
}

// The highest code by rule 5 of an interval that ends at `end`, before one that ends at `next_end` and has the code `next`.
pub fn highest_towards<B: BrakingBook>(
    line: &Line<'_>,
    book: &B,
    end: u64,
    next_end: u64,
    next: Code,
) -> Code
    ensures { UpTo (λ c. Down (B.BrakingBook.emergencies book.now) (stretch_value steepness line.now.gradients.now (end - train_length) next_end) c next (next_end - end)) result }
{
    let class = class_from(line.gradients, end, next_end);
    highest_down(book, class, next, next_end.saturating_sub(end))
}
