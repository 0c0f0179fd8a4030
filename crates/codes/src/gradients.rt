// The gradient classes, and the class of a faldtal.
ghost use Rattle.std.specs.Prelude.{◌≡◌, int_le};
ghost use Rattle.codes.specs.Gradients.{number, class_of, Numbered, edge, first_reached, Classed};

use super::refusals::{RecordFault, Refusal};

// How steep the ground is; class 11 is the steepest.
#[derive(Clone, Copy, Debug, PartialEq, Eq, PartialOrd, Ord)]
pub enum Class {
    C1 = 1,
    C2 = 2,
    C3 = 3,
    C4 = 4,
    C5 = 5,
    C6 = 6,
    C7 = 7,
    C8 = 8,
    C9 = 9,
    C10 = 10,
    C11 = 11,
}

// The edges of classes 1 to 11: the lowest faldtal that each takes, in tenths of a permille.
const EDGES: [i32; 11] = [-25, -50, -71, -80, -90, -100, -125, -175, -225, -275, -350];

impl Class {
    // The eleven classes, from the flattest to the steepest.
    pub const ALL: [Class; 11] = [
        Class::C1,
        Class::C2,
        Class::C3,
        Class::C4,
        Class::C5,
        Class::C6,
        Class::C7,
        Class::C8,
        Class::C9,
        Class::C10,
        Class::C11,
    ];

    // The lowest faldtal that the class takes.
    fn edge(self) -> i32
        ensures { result ≡ edge self }
    {
        EDGES[self as usize - 1]
    }

    // Whether the faldtal does not fall below the edge of the class.
    fn reaches(self, faldtal: i32) -> bool
        ensures { result ≡ int_le (edge self) faldtal }
    {
        self.edge() <= faldtal
    }

    // The first class whose edge the faldtal does not fall below, or none where it falls below all.
    #[tactic(auto, unfolding(crate::specs::Gradients::first_reached))]
    fn first_reached(faldtal: i32) -> Option<Class>
        ensures { result ≡ first_reached faldtal }
    {
        Class::ALL
            .iter()
            .copied()
            .find(|class| class.reaches(faldtal))
    }

    // The class of a faldtal in tenths of a permille, falls negative: the first whose edge it does not fall below.
    // A number outside -350 to 350 is no faldtal and is refused.
    pub fn of_faldtal(faldtal: i32) -> Result<Class, Refusal>
        ensures { Classed faldtal result }
    {
        if faldtal > 350 {
            return Err(Refusal::Grade);
        }
        Class::first_reached(faldtal).ok_or(Refusal::Grade)
    }

    // The class of a number, or none where it is not 1 to 11.
    pub fn from_number(number: u8) -> Option<Class>
        ensures { result ≡ class_of number }
    {
        Class::ALL
            .iter()
            .copied()
            .find(|class| class.number() == number)
    }

    // The number of the class, 1 to 11.
    pub fn number(self) -> u8
        ensures { result ≡ number self }
    {
        self as u8
    }
}

// The class of a number; one that is not 1 to 11 is refused by 17, as in a record.
impl TryFrom<u8> for Class {
    type Error = Refusal;

    ghost try_from_gives = { Numbered };

    fn try_from(number: u8) -> Result<Class, Refusal> {
        Class::from_number(number).ok_or(Refusal::Record(RecordFault::Entry))
    }
}
