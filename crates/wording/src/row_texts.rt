// The text of a row with its stop letter.
ghost use Rattle.std.specs.Prelude.{Some};
ghost use Rattle.wording.specs.Wordings.{code_word, codes_text, letter_word, row_text};

use rows::StopLetter;
use std::fmt;

// A stop letter as it is written.
#[derive(Clone, Copy)]
struct Lettered(StopLetter);

impl fmt::Display for Lettered {
    ghost output = { λ letter. Some (letter_word letter.0) };

    fn fmt<W: fmt::Write>(&self, f: &mut fmt::Formatter<W>) -> fmt::Result {
        f.write_str(match self.0 {
            StopLetter::Sf => "Sf",
            StopLetter::Sv => "Sv",
        })
    }
}

// A code by its byte, as it is written: stop, or a speed in km/h.
#[derive(Clone, Copy)]
struct Coded(u8);

impl fmt::Display for Coded {
    ghost output = { λ code. Some (code_word code.0) };

    fn fmt<W: fmt::Write>(&self, f: &mut fmt::Formatter<W>) -> fmt::Result {
        match self.0 {
            0 => f.write_str("stop"),
            kmh => write!(f, "{kmh}"),
        }
    }
}

// The codes of a row, each with a blank behind it.
#[derive(Clone, Copy)]
struct Codes<'a>(&'a [u8]);

impl fmt::Display for Codes<'_> {
    ghost output = { λ row. Some (codes_text row.0.now) };

    fn fmt<W: fmt::Write>(&self, f: &mut fmt::Formatter<W>) -> fmt::Result {
        for byte in self.0 {
            write!(f, "{} ", Coded(*byte))?;
        }
        Ok(())
    }
}

// A row that was worked out: its codes, its stop letter, and the place of the first interval of the stop ground.
#[derive(Clone, Copy)]
pub struct WorkedOut<'a> {
    pub row: &'a [u8],
    pub letter: StopLetter,
    pub place: usize,
}

impl fmt::Display for WorkedOut<'_> {
    ghost output = { λ w. Some (row_text w.row.now w.letter w.place) };

    fn fmt<W: fmt::Write>(&self, f: &mut fmt::Formatter<W>) -> fmt::Result {
        let codes = Codes(self.row);
        let letter = Lettered(self.letter);
        let place = self.place;
        write!(f, "{codes}{letter} {place}")
    }
}
