// What a train under way reads.
ghost use Rattle.std.specs.Prelude.{◌≡◌};
ghost use Rattle.sheet.specs.Faults.{strange};

use codes::{Class, Code};
use ground::Entry;

// The gradients in use, and the bytes of the passed row.
#[derive(Clone, Copy)]
pub struct Way<'a> {
    pub gradients: &'a [Entry<Class>],
    pub row: &'a [u8],
}

// Whether one of the bytes is no code.
pub(super) fn has_strange_byte(bytes: &[u8]) -> bool
    ensures { result ≡ strange bytes.now }
{
    bytes.iter().any(|byte| Code::try_from(*byte).is_err())
}
