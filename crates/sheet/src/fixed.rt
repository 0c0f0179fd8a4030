// What a pass fixes until the sheet is left.
ghost use Rattle.std.specs.Prelude.{◌≤◌};

use codes::Speed;
use rows::Target;

// The mark with its interval, which is one of 64 at most, and the approach code.
#[derive(Clone, Copy)]
pub struct Fixed {
    pub target: Target,
    pub approach: Speed,
    ghost near: { target.held.interval ≤ 64 },
}
