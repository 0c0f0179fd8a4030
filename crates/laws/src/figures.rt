// Figures that answer every question of a braking book, whether they obey its laws or not.
ghost use Rattle.std.specs.Prelude.{◌≡◌};
ghost use Rattle.laws.specs.Books.{Emergencies, Services};

use codes::{Class, Code, Speed};

// Emergency and service figures in metres, of which nothing more is known.
pub trait Figures {
    // The emergency figure by class, from and to.
    ghost emergencies: { Self → Emergencies };

    // The service figure by class and from.
    ghost services: { Self → Services };

    fn emergency(&self, class: Class, from: Speed, to: Code) -> u16
        ensures { result ≡ emergencies self.now class from to };

    fn service(&self, class: Class, from: Speed) -> u16
        ensures { result ≡ services self.now class from };
}
