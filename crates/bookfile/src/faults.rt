// A refusal of a book file, with the place where it is due.
ghost use Rattle.std.specs.Prelude.{◌≡◌};
ghost use Rattle.bookfile.specs.Faults.{located};

use codes::Refusal;

// Why a file was refused, and the byte where the faulty record begins: the file's size for 19 and 20, and 0 for 10, since
// a host is told a place with each refusal.
#[derive(Clone, Copy)]
pub struct Fault {
    pub refusal: Refusal,
    pub place: usize,
}

// A refusal is due at a place.
pub(super) fn at<T>(place: usize, outcome: Result<T, Refusal>) -> Result<T, Fault>
    ensures { result ≡ located place outcome }
{
    outcome.map_err(|refusal| Fault { refusal, place })
}
