// Why an order was not carried out.
use codes::Refusal;
use rows::Failure;
use std::alloc::AllocError;
use texts::Unread;
use wording::Answer;

#[derive(Clone, Copy)]
pub enum Fault {
    Refused(Refusal),
    // The line is not understood.
    Unclear,
    // No start was accepted before.
    NoStart,
    Memory(AllocError),
}

impl From<Refusal> for Fault {
    fn from(refusal: Refusal) -> Fault {
        Fault::Refused(refusal)
    }
}

impl From<AllocError> for Fault {
    fn from(error: AllocError) -> Fault {
        Fault::Memory(error)
    }
}

impl From<Failure> for Fault {
    fn from(failure: Failure) -> Fault {
        match failure {
            Failure::Refused(refusal) => Fault::Refused(refusal),
            Failure::Memory => Fault::Memory(AllocError),
        }
    }
}

impl From<Unread> for Fault {
    fn from(unread: Unread) -> Fault {
        match unread {
            Unread::Unclear => Fault::Unclear,
            Unread::Memory(error) => Fault::Memory(error),
        }
    }
}

impl Fault {
    // The answer to the line of a number; want of memory has none.
    pub fn answer(self, line: usize) -> Result<Answer, AllocError> {
        match self {
            Fault::Refused(refusal) => Ok(Answer::Refused(refusal)),
            Fault::Unclear => Ok(Answer::Unclear { line }),
            Fault::NoStart => Ok(Answer::NoStart { line }),
            Fault::Memory(error) => Err(error),
        }
    }
}
