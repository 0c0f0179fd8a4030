// Driving a train over a row of codes, metre by metre.

#![tactic(auto)]

ghost use Rattle.driving.specs.Safety.{RunsAreSafe};

mod heads;
mod moving;
mod telling;

use books::BrakingBook;
pub use heads::Head;
pub use moving::{advance, depart, is_standing};
pub use telling::code_in;

// That trains over lawful rows are safe by any book.
fn safety<B: BrakingBook>(book: &B)
    ensures { RunsAreSafe (B.BrakingBook.emergencies book.now) (B.BrakingBook.services book.now) }
{}
