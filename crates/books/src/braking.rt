// What every braking book answers, and the laws that it keeps.
ghost use Rattle.std.specs.Prelude.{◌≡◌};
ghost use Rattle.codes.specs.Refusals.{told};
ghost use Rattle.laws.specs.Books.{Emergencies, Services, Distances, Laws, answered};

use codes::{Class, Code, Refusal, Speed};

// A braking book: how far a train runs on before it is down to a lower code. Equal questions get equal answers, and asking
// changes nothing.
pub trait BrakingBook {
    // The emergency distance in metres, by class, from and to.
    ghost emergencies: { Self → Emergencies };

    // The service distance to a stop in metres, by class and from.
    ghost services: { Self → Services };

    // What each book must prove: every figure is 1 to 4,095 m,
    ghost distances: { (book : Self) → Distances (emergencies book) (services book) };

    // and the four laws of braking distances hold.
    ghost laws: { (book : Self) → Laws (emergencies book) (services book) };

    // The emergency distance in metres from a speed down to a lower code, on ground of a class: 1 to 4,095 m. A `to` that is not
    // below `from` is refused by 17, and no other question is refused.
    fn emergency(&self, class: Class, from: Speed, to: Code) -> Result<u16, Refusal>
        ensures { told result ≡ answered (emergencies self.now) class from to };

    // The service distance in metres from a speed to a stop, on ground of a class: 1 to 4,095 m. No question is refused.
    fn service(&self, class: Class, from: Speed) -> u16
        ensures { result ≡ services self.now class from };
}
