// A stop mark on a line: what the rules leave the intervals before it, from the mark's back to the approach.
ghost use Rattle.rows.specs.Drawings.{lengths_of};
ghost use Rattle.rows.specs.Targets.{HeldBy};

use super::passing::{FiveCaps, Pass, begin_of, ground_from, is_beside, started};
use super::targets::Target;
use books::BrakingBook;
use codes::{Code, Speed};
use rules::{Line, Place, highest_towards, limits_at};

// What a row before a stop mark is found and judged by: the line, the mark with the interval in which it stands, and the book by
// which trains brake.
#[derive(Drop)]
pub(super) struct Survey<'a, B: BrakingBook> {
    pub(super) line: Line<'a>,
    pub(super) target: Target,
    pub(super) book: &'a B,
    // the mark's position lies in that interval of the line
    ghost located: { HeldBy line.start (lengths_of line.intervals.now) target.position target.held },
}

impl<'a, B: BrakingBook> Survey<'a, B> {
    ghost use Rattle.std.specs.Prelude.{◌≡◌, ◌+◌, ◌^◌, ◌<◌, ◌≤◌};
    ghost use Rattle.rules.specs.Limits.{Caps};
    ghost use Rattle.rows.specs.Targets.{track_of, mark_of};
    ghost use Rattle.rows.specs.Passing.{Stage, Five};

    // The pass before its first interval, the mark's.
    pub(super) fn pass(&self) -> Pass
        requires { self.now.target.held.interval + 1 < 2 ^ 64 }
        ensures stage { Stage self.now.line self.now.target (B.emergencies self.now.book.now) (B.services self.now.book.now) result }
        ensures interval { result.interval ≡ self.now.target.held.interval }
        ensures next { result.next ≡ Code.Stop }
    {
        started(&self.target)
    }

    // The highest code of the interval at which a pass stands, by each of the five rules.
    pub(super) fn caps(&self, pass: &Pass) -> FiveCaps
        requires { Stage self.now.line self.now.target (B.emergencies self.now.book.now) (B.services self.now.book.now) pass.now }
        ensures { Five (track_of self.now.line) (mark_of self.now.target) (B.emergencies self.now.book.now) (B.services self.now.book.now) pass.now.interval pass.now.next result }
    {
        let place = Place {
            begin: pass.begin,
            end: pass.end,
            position: self.target.position,
            danger: self.target.danger,
        };
        let four = limits_at(&self.line, &place, self.book);
        if is_beside(pass) {
            return FiveCaps {
                four,
                next: Code::Go(Speed::V120),
            };
        }
        let next = highest_towards(&self.line, self.book, pass.end, pass.next_end, pass.next);
        FiveCaps { four, next }
    }

    // The pass one interval further, behind one which has these caps and a code.
    pub(super) fn further(&self, pass: &Pass, caps: &FiveCaps, code: Code) -> Pass
        requires stage { Stage self.now.line self.now.target (B.emergencies self.now.book.now) (B.services self.now.book.now) pass.now }
        requires capped { Caps (track_of self.now.line) (mark_of self.now.target) (B.emergencies self.now.book.now) (B.services self.now.book.now) pass.now.interval caps.now.four }
        requires behind { 1 ≤ pass.now.interval }
        ensures stage { Stage self.now.line self.now.target (B.emergencies self.now.book.now) (B.services self.now.book.now) result }
        ensures interval { result.interval + 1 ≡ pass.now.interval }
        ensures next { result.next ≡ code }
    {
        let (first, ground) = ground_from(pass, &caps.four);
        Pass {
            interval: pass.interval - 1,
            begin: begin_of(&self.line, pass.interval - 1, pass.begin),
            end: pass.begin,
            next_end: pass.end,
            next: code,
            first,
            ground,
        }
    }
}
