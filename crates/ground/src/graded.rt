// Kinds of values of which one can say which of two is worse: gradient classes and restriction speeds.
ghost use Rattle.std.specs.Prelude.{◌≡◌, min, max};
ghost use Rattle.codes.specs.Gradients.{number};
ghost use Rattle.codes.specs.Speeds.{kmh};
ghost use Rattle.codes.specs.declared.gradients.Class.TheVariants.{C11};
ghost use Rattle.codes.specs.declared.speeds.Speed.TheVariants.{V120};
ghost use Rattle.ground.specs.Grading.{Grading, Lawful};
ghost use Rattle.ground.specs.Kinds.{steepness, slowness};
ghost use Rattle.ground.specs.BothKinds.{steepness_lawful, slowness_lawful};
ghost use mathlib.Core.Path.{refl};

use codes::{Class, Speed};

// A kind of value that stretches of ground can have.
pub trait Graded: Copy {
    // Which of two values is worse, and the value of undrawn ground.
    ghost grading: { Grading Self };

    // The value of ground over which nothing is drawn.
    const UNDRAWN: Self;

    ghost UNDRAWN: { Self };

    // The worse of the two.
    fn worse(self, other: Self) -> Self
        ensures { result ≡ grading.worse self other };

    // The constant is the kind's value of undrawn ground.
    ghost undrawn: { UNDRAWN ≡ grading.undrawn };

    // The worse of two is one of them, and depends neither on order nor on grouping.
    ghost lawful: { Lawful grading };
}

// The steeper class is worse, and undrawn ground is of the steepest.
impl Graded for Class {
    ghost grading = { steepness };

    const UNDRAWN: Class = Class::C11;

    ghost UNDRAWN = { C11 };

    ghost undrawn = { refl };

    ghost lawful = { steepness_lawful };

    fn worse(self, other: Class) -> Class
        ensures value { result ≡ steepness.worse self other }
        ensures steeper { number result ≡ max (number self) (number other) }
    {
        // Not by `max`: what it answers was not found to have the higher number.
        if self < other { other } else { self }
    }
}

// The lower speed is worse, and undrawn ground is under no restriction. Each kind has a line of its own for `worse`: they differ in the
// direction.
impl Graded for Speed {
    ghost grading = { slowness };

    const UNDRAWN: Speed = Speed::V120;

    ghost UNDRAWN = { V120 };

    ghost undrawn = { refl };

    ghost lawful = { slowness_lawful };

    fn worse(self, other: Speed) -> Speed
        ensures value { result ≡ slowness.worse self other }
        ensures slower { kmh result ≡ min (kmh self) (kmh other) }
    {
        self.min(other)
    }
}
