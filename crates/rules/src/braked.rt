// The highest code from which a train is down to another, or stops, within so many metres.
ghost use Rattle.std.specs.Prelude.{◌≡◌};
ghost use Rattle.rules.specs.Rules.{Down, Halts};
ghost use Rattle.rules.specs.Searching.{highest, UpTo};
ghost use Rattle.rules.specs.Braked.{down_to, halts};

use super::searching::{SpeedTest, highest_passing};
use books::BrakingBook;
use codes::{Class, Code, Speed};

// The tests are structs and not closures: a closure's own equation is known only where the search is proved by hand, so that a
// fault in its order would not be refused at the code.

// Passed by a speed from which emergency braking brings a train down to a code within so many metres of a class.
#[derive(Drop)]
struct EmergencyTest<'a, B> {
    book: &'a B,
    class: Class,
    to: Code,
    metres: u64,
}

impl<'a, B: BrakingBook> SpeedTest for EmergencyTest<'a, B> {
    ghost passed = { λ test. down_to (B.BrakingBook.emergencies test.book.now) test.class test.to test.metres };

    fn passes(&self, speed: Speed) -> bool {
        match self.book.emergency(self.class, speed, self.to) {
            Ok(distance) => distance as u64 <= self.metres,
            // no braking where the code is not below the speed
            Err(_) => true,
        }
    }
}

// Passed by a speed from which service braking stops a train within so many metres of a class.
#[derive(Drop)]
struct ServiceTest<'a, B> {
    book: &'a B,
    class: Class,
    metres: u64,
}

impl<'a, B: BrakingBook> SpeedTest for ServiceTest<'a, B> {
    ghost passed = { λ test. halts (B.BrakingBook.services test.book.now test.class) test.metres };

    fn passes(&self, speed: Speed) -> bool {
        self.book.service(self.class, speed) as u64 <= self.metres
    }
}

// The highest code from which emergency braking brings a train down to `to` within so many metres of the class.
pub fn highest_down<B: BrakingBook>(book: &B, class: Class, to: Code, metres: u64) -> Code
    ensures value { result ≡ highest (down_to (B.BrakingBook.emergencies book.now) class to metres) }
    ensures up_to { UpTo (λ c. Down (B.BrakingBook.emergencies book.now) class c to metres) result }
{
    highest_passing(&EmergencyTest {
        book,
        class,
        to,
        metres,
    })
}

// The highest code from which emergency braking stops a train within so many metres of the class.
#[tactic(auto, using(crate::proofs::UpToTop::stop_up_to))]
pub fn highest_emergency_stop<B: BrakingBook>(book: &B, class: Class, metres: u64) -> Code
    ensures { UpTo (λ c. Halts (λ v. B.BrakingBook.emergencies book.now class v Code.Stop) c metres) result }
{
    highest_down(book, class, Code::Stop, metres)
}

// The highest code from which service braking stops a train within so many metres of the class.
pub fn highest_service_stop<B: BrakingBook>(book: &B, class: Class, metres: u64) -> Code
    ensures { UpTo (λ c. Halts (B.BrakingBook.services book.now class) c metres) result }
{
    highest_passing(&ServiceTest {
        book,
        class,
        metres,
    })
}
