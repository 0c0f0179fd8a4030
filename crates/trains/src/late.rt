// The late train, by its five numbers.
ghost use Rattle.std.specs.Prelude.{◌≤◌};

mod latest;

use codes::{Class, Code};

// A train that brakes as late as the braking promise allows. Its paces are at most 120 km/h, and it counts up to 4,095 m.
#[derive(Clone, Copy)]
pub struct LateTrain {
    pace: u8,
    carried: u8,
    heard: Code,
    rolled: u16,
    gradient: Class,
    ghost slow: { pace ≤ 120 },
    ghost came: { carried ≤ 120 },
    ghost near: { rolled ≤ 4095 },
}
