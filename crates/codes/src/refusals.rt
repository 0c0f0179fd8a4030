// The refusals of the whole library, by number.
ghost use Rattle.std.specs.Prelude.{◌≡◌};
ghost use Rattle.codes.specs.Refusals.{rule_number, notice};

// The five rules for the code of an interval, in the order in which they are tried.
#[derive(Clone, Copy, Debug, PartialEq, Eq, PartialOrd, Ord)]
pub enum Rule {
    // 1: a restriction that touches the interval is not exceeded
    Touching = 1,
    // 2: a train is down to the speed of a restriction ahead where that begins
    Ahead = 2,
    // 3: a train stops before the mark by service braking
    Service = 3,
    // 4: a train stops before the danger point by emergency braking
    Stopping = 4,
    // 5: a train is down to the code of the next interval where that ends
    Next = 5,
}

impl Rule {
    // The five rules, in order.
    pub const ALL: [Rule; 5] = [
        Rule::Touching,
        Rule::Ahead,
        Rule::Service,
        Rule::Stopping,
        Rule::Next,
    ];

    // The number of the rule, 1 to 5.
    pub fn number(self) -> u8
        ensures { result ≡ rule_number self }
    {
        self as u8
    }
}

// Why a call was refused. A refusal leaves everything as it was, unless the call says otherwise.
#[derive(Clone, Copy, Debug, PartialEq, Eq)]
pub enum Refusal {
    // 1: the table or its limit is used up
    Full,
    // 2: an interval is not 1 to 5,000 m long
    Length,
    // 3: the number is used already
    Doubled,
    // 4: none of the nine speeds
    Speed,
    // 5: no faldtal, which is -350 to 350
    Grade,
    // 6: a stretch or a start is out of range
    Stretch,
    // 7: a mark's position or danger point is out of range
    Overrun,
    // 8: no such place or mark
    Absent,
    // 9: closing without intervals, or with a mark in none
    Unready,
    // 10: a table, row, file or buffer has not the size that is asked for
    Size,
    // 11: a row has a byte that is no code
    Byte,
    // 12: a row breaks a rule; the first broken rule, and the place of the interval that breaks it
    Unlawful { interval: usize, rule: Rule },
    // 13: no row is lawful
    NoRow,
    // 14: a train is above the approach code, or is made above 120 km/h
    Fast,
    // 15: the bytes of a book file are no records
    File(FileFault),
    // 16 and 17: a record of a book file says nothing possible
    Record(RecordFault),
    // 18 to 20: the figures of a book file, or of a table, make no book
    Book(BookFault),
}

// A fault of a book file's bytes.
#[derive(Clone, Copy, Debug, PartialEq, Eq)]
pub enum FileFault {
    // 15: one byte is left, or a length is below 2 or reaches past the file
    Torn,
}

// A fault of a record.
#[derive(Clone, Copy, Debug, PartialEq, Eq)]
pub enum RecordFault {
    // 16: the kind is unknown, or has another length
    Kind,
    // 17: an impossible class, code or distance, or a `to` that is not below `from`
    Entry,
}

// A fault of the figures together.
#[derive(Clone, Copy, Debug, PartialEq, Eq)]
pub enum BookFault {
    // 18: the figure was given already
    Twice,
    // 19: a figure is missing at the end
    Gap,
    // 20: the figures break a law of braking books
    Order,
}

impl Refusal {
    // The number by which a host knows the refusal.
    pub fn number(self) -> u8
        ensures { result ≡ (notice self).0 }
    {
        match self {
            Refusal::Full => 1,
            Refusal::Length => 2,
            Refusal::Doubled => 3,
            Refusal::Speed => 4,
            Refusal::Grade => 5,
            Refusal::Stretch => 6,
            Refusal::Overrun => 7,
            Refusal::Absent => 8,
            Refusal::Unready => 9,
            Refusal::Size => 10,
            Refusal::Byte => 11,
            Refusal::Unlawful { .. } => 12,
            Refusal::NoRow => 13,
            Refusal::Fast => 14,
            Refusal::File(FileFault::Torn) => 15,
            Refusal::Record(RecordFault::Kind) => 16,
            Refusal::Record(RecordFault::Entry) => 17,
            Refusal::Book(BookFault::Twice) => 18,
            Refusal::Book(BookFault::Gap) => 19,
            Refusal::Book(BookFault::Order) => 20,
        }
    }
}
