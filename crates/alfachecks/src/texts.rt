// Answers of the library as they are told.
use codes::Refusal;
use rows::{Failure, StopLetter};
use std::fmt;

// The codes of a row as bytes, each behind a space.
#[derive(Clone, Copy)]
pub struct Codes<'a>(pub &'a [u8]);

// Why a call was refused.
#[derive(Clone, Copy)]
pub struct Refused(pub Refusal);

// The verdict on a row.
#[derive(Clone, Copy)]
pub struct Verdict(pub Result<(), Refusal>);

// A row that was worked out: its letter, the place of the first interval of the stop ground, its codes, and the verdict on them.
#[derive(Clone, Copy)]
pub struct Worked<'a> {
    pub letter: StopLetter,
    pub place: usize,
    pub row: &'a [u8],
    pub verdict: Verdict,
}

// Why no row was worked out, and whether the bytes are as they were.
#[derive(Clone, Copy)]
pub struct Unworked {
    pub failure: Failure,
    pub is_unchanged: bool,
}

impl fmt::Display for Codes<'_> {
    fn fmt<W: fmt::Write>(&self, f: &mut fmt::Formatter<W>) -> fmt::Result {
        for byte in self.0 {
            match byte {
                0 => write!(f, " stop")?,
                kmh => write!(f, " {kmh}")?,
            }
        }
        Ok(())
    }
}

impl fmt::Display for Refused {
    fn fmt<W: fmt::Write>(&self, f: &mut fmt::Formatter<W>) -> fmt::Result {
        write!(f, " refused by {}", self.0.number())?;
        if let Refusal::Unlawful { interval, rule } = self.0 {
            let rule = rule.number();
            write!(f, ", interval {interval}, rule {rule}")?;
        }
        Ok(())
    }
}

impl fmt::Display for Verdict {
    fn fmt<W: fmt::Write>(&self, f: &mut fmt::Formatter<W>) -> fmt::Result {
        match self.0 {
            Ok(()) => write!(f, " pass"),
            Err(refusal) => write!(f, "{}", Refused(refusal)),
        }
    }
}

impl fmt::Display for Worked<'_> {
    fn fmt<W: fmt::Write>(&self, f: &mut fmt::Formatter<W>) -> fmt::Result {
        let codes = Codes(self.row);
        write!(f, "{codes}, {:?}, place {}", self.letter, self.place)?;
        write!(f, ", examined:{}", self.verdict)
    }
}

impl fmt::Display for Unworked {
    fn fmt<W: fmt::Write>(&self, f: &mut fmt::Formatter<W>) -> fmt::Result {
        match self.failure {
            Failure::Refused(refusal) => write!(f, "{}", Refused(refusal))?,
            Failure::Memory => write!(f, " no memory")?,
        }
        let text = if self.is_unchanged {
            "unchanged"
        } else {
            "changed"
        };
        write!(f, ", bytes {text}")
    }
}
