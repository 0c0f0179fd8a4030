// A pass over the intervals of a line, from the mark's back to the approach: how far it has come, and the stop ground.
ghost use Rattle.std.specs.Prelude.{◌≡◌, ℕ, ◌+◌, ◌-◌, ◌^◌, ◌<◌, ◌≤◌, length, Decides};
ghost use Rattle.rules.specs.Tracks.{begin_of, end_of};
ghost use Rattle.rows.specs.Targets.{track_of};
ghost use Rattle.rows.specs.Passing.{OnlyStop, Joins};
ghost use Rattle.rows.specs.Examining.{cap};

use super::targets::Target;
use codes::{Code, Rule};
use rules::{Limits, Line, highest_code};

// How far a pass has come. It stands at an interval; all behind it were passed. That it is a stage of its survey stands in the clauses: a
// pass that lent the survey would need in each loop that the two surveys are one.
#[derive(Clone, Copy, Debug, PartialEq, Eq)]
pub struct Pass {
    // the place of the interval, 0 for the approach, and where it begins and ends
    pub interval: usize,
    pub begin: u64,
    pub end: u64,
    // where the next one ends, and its code
    pub next_end: u64,
    pub next: Code,
    // the first interval of the stop ground, as far as it is known, and where it begins
    pub first: usize,
    pub ground: u64,
}

// The highest code of an interval by each of the five rules.
#[derive(Clone, Copy)]
pub struct FiveCaps {
    pub four: Limits,
    pub next: Code,
}

impl FiveCaps {
    // The highest code by one of the rules.
    pub(super) fn cap(&self, rule: Rule) -> Code
        ensures { result ≡ cap self.now rule }
    {
        match rule {
            Rule::Touching => self.four.touching,
            Rule::Ahead => self.four.ahead,
            Rule::Service => self.four.service,
            Rule::Stopping => self.four.stopping,
            Rule::Next => self.next,
        }
    }
}

// Where interval j begins, from where it ends.
pub(super) fn begin_of(line: &Line<'_>, j: usize, end: u64) -> u64
    requires within { j ≤ length line.now.intervals.now }
    requires ends { end ≡ end_of (track_of line.now) j }
    ensures { result ≡ begin_of (track_of line.now) j }
{
    if j == 0 {
        return (line.start as u64).saturating_sub(1);
    }
    end - line.intervals[j - 1].length as u64
}

// The pass before its first interval, the mark's.
pub(super) fn started(target: &Target) -> Pass
    requires { target.now.held.interval + 1 < 2 ^ 64 }
    ensures interval { result.interval ≡ target.now.held.interval }
    ensures begin { result.begin ≡ target.now.held.begin }
    ensures end { result.end ≡ target.now.held.end }
    ensures next { result.next ≡ Code.Stop }
    ensures first { result.first ≡ target.now.held.interval + 1 }
    ensures ground { result.ground ≡ target.now.held.end }
{
    Pass {
        interval: target.held.interval,
        begin: target.held.begin,
        end: target.held.end,
        next_end: target.held.end,
        next: Code::Stop,
        first: target.held.interval + 1,
        ground: target.held.end,
    }
}

// Whether the stop ground begins right behind the interval of a pass: rule 5 asks nothing there.
pub(super) fn is_beside(pass: &Pass) -> bool
    requires { pass.now.interval < pass.now.first }
    ensures { Decides result (pass.now.first ≡ pass.now.interval + 1) }
{
    pass.first - pass.interval == 1
}

// Whether the rules 1 to 4 leave an interval nothing but stop.
fn is_stopped(limits: &Limits) -> bool
    ensures { Decides result (OnlyStop limits.now) }
{
    highest_code(limits) == Code::Stop
}

// The first interval of the stop ground once the interval of a pass was passed, and where it begins: the interval joins the ground
// where it stands beside it and nothing but stop is left.
pub(super) fn ground_from(pass: &Pass, limits: &Limits) -> (usize, u64)
    requires { pass.now.interval < pass.now.first }
    ensures { Joins pass.now limits.now result }
{
    if is_beside(pass) && is_stopped(limits) {
        (pass.interval, pass.begin)
    } else {
        (pass.first, pass.ground)
    }
}
