// A train, by the five numbers that it means and what it promises of its pace.
ghost use Rattle.std.specs.Prelude.{◌≡◌};
ghost use Rattle.trains.specs.Braking.{Numbers, Ranged, Hears, Rolls};

use books::BrakingBook;
use codes::{Class, Code};

// A train. It tells its pace, hears codes, and rolls metre by metre. Its new pace after a hearing or a rolling is the one thing
// that is left open: the braking promise bounds it.
pub trait Train {
    // The five numbers of a train.
    ghost numbers: { Self → Numbers };

    // They lie in their ranges, whatever the train.
    ghost ranged: { (train : Self) → Ranged (numbers train) };

    // The pace in km/h, 0 to 120.
    fn pace(&self) -> u8
        ensures { result ≡ (numbers self.now).pace };

    // Hears a code, with the class of the ground under the train.
    fn hear<B: BrakingBook>(&mut self, book: &B, code: Code, class: Class)
        ensures { Hears (B.BrakingBook.emergencies book.now) code class (numbers self.old) (numbers self.new) };

    // Rolls one metre of a class.
    fn roll<B: BrakingBook>(&mut self, book: &B, class: Class)
        ensures { Rolls (B.BrakingBook.emergencies book.now) class (numbers self.old) (numbers self.new) };
}
