// The table of examples: questions about the sheet and about faldtal, each with what the rules say.
ghost use Rattle.std.specs.Prelude.{◌≡◌};
ghost use Rattle.std.specs.List.{AllByRecursion};
ghost use Rattle.alfa.specs.Examples.{Holds};
ghost use Rattle.alfa.specs.Table.{table};

use self::Example::{Breaks, Highest, NoFaldtal, NoRow, OfClass, Passes};
use super::sheets::Variant;
use codes::Code::{Go, Stop};
use codes::Speed::{V40, V50, V60, V70, V80, V100, V120};
use codes::{Class, Code, Rule, Speed};
use rows::StopLetter;
use rows::StopLetter::Sv;

// A line of the table. Codes are those of the approach and of the four intervals, and distances are by the published book.
#[derive(Clone, Copy)]
pub enum Example {
    // The highest lawful row, with its stop letter and the place of the first interval of the stop ground.
    Highest {
        sheet: Variant,
        approach: Speed,
        row: [Code; 4],
        letter: StopLetter,
        place: usize,
    },
    // No row is lawful.
    NoRow {
        sheet: Variant,
        approach: Speed,
    },
    // The row is lawful.
    Passes {
        sheet: Variant,
        approach: Speed,
        row: [Code; 4],
    },
    // The first interval of a row that breaks a rule, by its place, and the first rule that it breaks.
    Breaks {
        sheet: Variant,
        approach: Speed,
        row: [Code; 4],
        interval: usize,
        rule: Rule,
    },
    // The class of a faldtal, in tenths of a permille.
    OfClass {
        faldtal: i32,
        class: Class,
    },
    // The number is no faldtal.
    NoFaldtal {
        faldtal: i32,
    },
}

// The mark is the sheet's; faldtal are in tenths of a permille.
#[rattlefmt::skip]
const EXAMPLES: [Example; 20] = [
    Highest { sheet: Variant::PLAIN, approach: V100, row: [Go(V80), Go(V60), Go(V50), Stop], letter: Sv, place: 4 },
    NoRow { sheet: Variant::PLAIN, approach: V120 },
    Highest { sheet: Variant::ROOM_FOR_50, approach: V100, row: [Go(V80), Go(V60), Go(V50), Stop], letter: Sv, place: 4 },
    Highest { sheet: Variant::NO_ROOM_FOR_50, approach: V100, row: [Go(V80), Go(V60), Go(V40), Stop], letter: Sv, place: 4 },
    Highest { sheet: Variant::SLOW, approach: V60, row: [Go(V50), Go(V60), Go(V50), Stop], letter: Sv, place: 4 },
    NoRow { sheet: Variant::SLOW, approach: V70 },
    Highest { sheet: Variant::SLOW_LONGER, approach: V60, row: [Go(V50), Go(V50), Go(V50), Stop], letter: Sv, place: 4 },
    NoRow { sheet: Variant::SLOW_LONGER, approach: V70 },
    Highest { sheet: Variant::DRAWN_ENOUGH, approach: V100, row: [Go(V80), Go(V60), Go(V50), Stop], letter: Sv, place: 4 },
    Highest { sheet: Variant::DRAWN_SHORT, approach: V100, row: [Go(V80), Go(V60), Go(V40), Stop], letter: Sv, place: 4 },
    Passes { sheet: Variant::PLAIN, approach: V100, row: [Go(V80), Go(V60), Go(V50), Stop] },
    Breaks { sheet: Variant::PLAIN, approach: V100, row: [Go(V80), Go(V70), Go(V50), Stop], interval: 2, rule: Rule::Next },
    Breaks { sheet: Variant::PLAIN, approach: V100, row: [Go(V80), Go(V60), Go(V60), Stop], interval: 3, rule: Rule::Service },
    OfClass { faldtal: -25, class: Class::C1 },
    OfClass { faldtal: -26, class: Class::C2 },
    OfClass { faldtal: -30, class: Class::C2 },
    OfClass { faldtal: -225, class: Class::C9 },
    OfClass { faldtal: -226, class: Class::C10 },
    OfClass { faldtal: -350, class: Class::C11 },
    NoFaldtal { faldtal: -351 },
];

// The table. What each line says is what the five rules say of it, by the published book; so was it worked out by hand.
#[tactic(auto, using(crate::proofs::Solved::table_holds))]
pub fn examples() -> [Example; 20]
    ensures lines { result ≡ table }
    ensures holds { AllByRecursion Holds result }
{
    EXAMPLES
}
