// The first break of a row.
use codes::{Refusal, Rule};

// An interval by its place, 0 for the approach, and the first rule that it breaks.
#[derive(Clone, Copy, Debug, PartialEq, Eq)]
pub struct Break {
    pub interval: usize,
    pub rule: Rule,
}

// A row is refused by its first break.
impl From<Break> for Refusal {
    ghost use Rattle.std.specs.Prelude.{◌≡◌};
    ghost use Rattle.codes.specs.declared.refusals.Refusal.TheVariants.{Unlawful};

    ghost from_gives = { λ found refusal. refusal ≡ Unlawful found.interval found.rule };

    fn from(found: Break) -> Refusal {
        Refusal::Unlawful {
            interval: found.interval,
            rule: found.rule,
        }
    }
}
