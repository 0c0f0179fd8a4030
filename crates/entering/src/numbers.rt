// Records that have numbers, and whether one of them has a given number.
ghost use Rattle.std.specs.Prelude.{◌≡◌, ℕ};
ghost use Rattle.entering.specs.Entering.{has_number, interval_number, mark_number};

use rules::{Interval, StopMark};

// A record that a host knows by its number.
pub trait Numbered: Copy {
    // The number of a record.
    ghost known: { Self → ℕ };

    // The number of the record.
    fn number(self) -> u16
        ensures { result ≡ known self };
}

impl Numbered for Interval {
    ghost known = { interval_number };

    fn number(self) -> u16 {
        self.number
    }
}

impl Numbered for StopMark {
    ghost known = { mark_number };

    fn number(self) -> u16 {
        self.number
    }
}

// Whether one of the records has the number.
pub(super) fn has_number<T: Numbered>(records: &[T], number: u16) -> bool
    ensures { result ≡ has_number T.Numbered.known number records.now }
{
    records.iter().any(|record| record.number() == number)
}
