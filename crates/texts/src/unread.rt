// Why a line is not read.
ghost use Rattle.std.specs.Prelude.{◌≡◌};

use std::alloc::AllocError;

// Why a line gives nothing: it is not understood, or memory fails.
#[derive(Clone, Copy, PartialEq, Eq)]
pub enum Unread {
    // A word is missing or too many, or is none that its place can hold.
    Unclear,
    Memory(AllocError),
}

impl From<AllocError> for Unread {
    ghost use Rattle.texts.specs.declared.unread.Unread.{Unread};

    ghost from_gives = { λ error unread. unread ≡ Unread.Memory error };

    fn from(error: AllocError) -> Unread {
        Unread::Memory(error)
    }
}
