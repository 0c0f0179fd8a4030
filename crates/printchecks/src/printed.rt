// The printed tables, as text with headings, against a braking book. A row's last figure stands under the last heading, and the
// others fill leftward; each is looked up in the book by class and speed.
use anyhow::anyhow;
use books::BrakingBook;
use codes::{Class, Code, Speed};
use laws::FIGURE_COUNT;
use std::alloc::Global;
use std::fmt;
use std::num::ParseIntError;
use std::str::{FromStr, SplitWhitespace};

// What a printed figure is: the service distance, or the emergency distance to a code.
#[derive(Clone, Copy)]
pub enum Brakes {
    Service,
    Emergency(Code),
}

// A printed figure, and the one that the book has, if it has one.
#[derive(Clone, Copy)]
pub struct Difference {
    class: Class,
    from: Speed,
    brakes: Brakes,
    printed: u16,
    booked: Option<u16>,
}

impl fmt::Display for Difference {
    fn fmt<W: fmt::Write>(&self, f: &mut fmt::Formatter<W>) -> fmt::Result {
        let class = self.class.number();
        let from = self.from.kmh();
        let printed = self.printed;
        let booked = self.booked.unwrap_or(0);
        match self.brakes {
            Brakes::Service => write!(
                f,
                "service, class {class} from {from}: printed {printed}, in the book {booked}"
            ),
            Brakes::Emergency(to) => {
                let to = to.byte();
                write!(
                    f,
                    "emergency, class {class} from {from} to {to}: printed {printed}, in the book {booked}"
                )
            }
        }
    }
}

// What came of a comparison.
#[derive(Drop)]
pub struct Findings {
    // figures that the book has as printed
    pub agree: usize,
    pub differences: Vec<Difference>,
    // the headings, one for each figure under it, that are no speed
    pub strange: Vec<u8>,
}

// The heading lines that stand above a row.
#[derive(Drop)]
struct Heading {
    class: Class,
    speeds: Vec<u8>,
}

impl Findings {
    fn new(heap: Global) -> Findings {
        Findings {
            agree: 0,
            differences: Vec::new(heap),
            strange: Vec::new(heap),
        }
    }

    // How many of the book's figures no printed figure was compared with.
    pub fn missing(&self) -> usize {
        FIGURE_COUNT
            .saturating_sub(self.agree)
            .saturating_sub(self.differences.len())
    }

    // Notes a printed figure beside the book's; where the book has none, 0 stands for it, as it does in a difference.
    fn note(&mut self, seen: Difference) -> anyhow::Result<()> {
        if seen.booked.unwrap_or(0) == seen.printed {
            self.agree = self.agree.saturating_add(1);
        } else {
            self.differences.push(seen)?;
        }
        Ok(())
    }
}

// The book's figure; none where it refuses.
fn figure<B: BrakingBook>(book: &B, class: Class, from: Speed, brakes: Brakes) -> Option<u16> {
    match brakes {
        Brakes::Service => Some(book.service(class, from)),
        Brakes::Emergency(to) => book.emergency(class, from, to).ok(),
    }
}

// Whether a figure printed under a class is one of `class` too: classes 1 and 2 use the emergency distances of class 3.
fn is_shared(heading: Class, brakes: Brakes, class: Class) -> bool {
    match brakes {
        Brakes::Emergency(_) if heading == Class::C3 => class <= Class::C3,
        _ => class == heading,
    }
}

// The numbers that are left on a line.
fn numbers<T: FromStr<Err = ParseIntError> + Drop>(
    heap: Global,
    words: SplitWhitespace<'_>,
) -> anyhow::Result<Vec<T>> {
    let mut row = Vec::new(heap);
    for word in words {
        row.push(word.parse::<T>()?)?;
    }
    Ok(row)
}

// The code at the head of a row: `stop` or a speed.
fn code(word: &str) -> anyhow::Result<Code> {
    if word == "stop" {
        return Ok(Code::Stop);
    }
    let speed = Speed::try_from(word.parse::<u8>()?).map_err(|_| anyhow!(
        "a row is headed by no code"
    ))?;
    Ok(Code::Go(speed))
}

// The class that a line names.
fn class(word: &str) -> anyhow::Result<Class> {
    Class::try_from(word.parse::<u8>()?).map_err(|_| anyhow!("there is no such class"))
}

// A book that a print is compared with, and what came of it so far.
#[derive(Drop)]
struct Comparison<'a, B> {
    heap: Global,
    book: &'a B,
    findings: Findings,
}

impl<B: BrakingBook> Comparison<'_, B> {
    // Compares one figure with that of each class that uses it.
    fn take_figure(
        &mut self,
        heading: Class,
        from: Speed,
        brakes: Brakes,
        printed: u16,
    ) -> anyhow::Result<()> {
        for class in Class::ALL {
            if is_shared(heading, brakes, class) {
                let booked = figure(self.book, class, from, brakes);
                self.findings.note(Difference {
                    class,
                    from,
                    brakes,
                    printed,
                    booked,
                })?;
            }
        }
        Ok(())
    }

    // Compares one row, each figure by the speed above it. A heading that is no speed is noted, and its figure compared with none.
    fn take_row(&mut self, heading: &Heading, brakes: Brakes, row: &[u16]) -> anyhow::Result<()> {
        for (kmh, metres) in heading.speeds.iter().rev().zip(row.iter().rev()) {
            match Speed::try_from(*kmh) {
                Ok(from) => self.take_figure(heading.class, from, brakes, *metres)?,
                Err(_) => self.findings.strange.push(*kmh)?,
            }
        }
        Ok(())
    }

    // Takes one line of the print: a class, its headings, a row of figures, or nothing.
    fn take_line(&mut self, heading: &mut Heading, line: &str) -> anyhow::Result<()> {
        let mut words = line.split_whitespace();
        let Some(first) = words.next() else {
            return Ok(());
        };
        if first == "class" {
            heading.class = class(words.next().unwrap_or(""))?;
            return Ok(());
        }
        if first == "from" {
            heading.speeds = numbers(self.heap, words)?;
            return Ok(());
        }
        let brakes = if first == "to" {
            Brakes::Emergency(code(words.next().unwrap_or(""))?)
        } else {
            Brakes::Service
        };
        let row = numbers(self.heap, words)?;
        self.take_row(heading, brakes, row.as_slice())
    }
}

// Compares a whole print with a book.
pub fn compare_print<B: BrakingBook>(
    heap: Global,
    book: &B,
    text: &str,
) -> anyhow::Result<Findings> {
    let mut heading = Heading {
        class: Class::C1,
        speeds: Vec::new(heap),
    };
    let findings = Findings::new(heap);
    let mut comparison = Comparison {
        heap,
        book,
        findings,
    };
    for line in text.lines() {
        comparison.take_line(&mut heading, line)?;
    }
    Ok(comparison.findings)
}
