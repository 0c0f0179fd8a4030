// The words of refusals.
ghost use Rattle.std.specs.Prelude.{◌≡◌, Some};
ghost use Rattle.wording.specs.Wordings.{word_of, refusal_text};

use codes::{BookFault, FileFault, RecordFault, Refusal};
use std::fmt;

// The word of a refusal. The match is the table of the words.
fn word_of(refusal: Refusal) -> &'static str
    ensures { result.now ≡ word_of refusal }
{
    match refusal {
        Refusal::Full => "full",
        Refusal::Length => "length",
        Refusal::Doubled => "doubled",
        Refusal::Speed => "speed",
        Refusal::Grade => "grade",
        Refusal::Stretch => "stretch",
        Refusal::Overrun => "overrun",
        Refusal::Absent => "absent",
        Refusal::Unready => "unready",
        Refusal::Size => "size",
        Refusal::Byte => "byte",
        Refusal::Unlawful { .. } => "unlawful",
        Refusal::NoRow => "no row",
        Refusal::Fast => "fast",
        Refusal::File(FileFault::Torn) => "torn",
        Refusal::Record(RecordFault::Kind) => "kind",
        Refusal::Record(RecordFault::Entry) => "entry",
        Refusal::Book(BookFault::Twice) => "twice",
        Refusal::Book(BookFault::Gap) => "gap",
        Refusal::Book(BookFault::Order) => "order",
    }
}

// A refusal as it is told: its number, its word, and its values where it has some.
#[derive(Clone, Copy)]
pub struct Told(pub Refusal);

impl fmt::Display for Told {
    ghost output = { λ told. Some (refusal_text told.0) };

    #[tactic(auto, using(crate::proofs::Texts::refusals))]
    fn fmt<W: fmt::Write>(&self, f: &mut fmt::Formatter<W>) -> fmt::Result {
        let refusal = self.0;
        let number = refusal.number();
        let word = word_of(refusal);
        match refusal {
            Refusal::Unlawful { interval, rule } => {
                let rule = rule.number();
                write!(f, "refused {number} {word} {interval} {rule}")
            }
            _ => write!(f, "refused {number} {word}"),
        }
    }
}
