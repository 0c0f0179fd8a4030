// The kinds of orders, and the words that give them.
ghost use Rattle.std.specs.Prelude.{◌≡◌};
ghost use Rattle.std.specs.Str.{bytes_eq};
ghost use Rattle.script.specs.Kinds.{spelling, kind_of};

// What a line orders.
#[derive(Clone, Copy)]
pub enum Kind {
    Start,
    Interval,
    Gradient,
    Restriction,
    Mark,
    WorkOut,
    Examine,
}

impl Kind {
    // All kinds.
    const ALL: [Kind; 7] = [
        Kind::Start,
        Kind::Interval,
        Kind::Gradient,
        Kind::Restriction,
        Kind::Mark,
        Kind::WorkOut,
        Kind::Examine,
    ];

    // The word that begins a line of the kind.
    fn word(self) -> &'static str
        ensures { result.now ≡ spelling self }
    {
        match self {
            Kind::Start => "start",
            Kind::Interval => "interval",
            Kind::Gradient => "gradient",
            Kind::Restriction => "restriction",
            Kind::Mark => "mark",
            Kind::WorkOut => "work-out",
            Kind::Examine => "examine",
        }
    }

    // Whether the word is that of the kind.
    fn is_given_by(self, word: &[u8]) -> bool
        ensures { result ≡ bytes_eq word.now (spelling self) }
    {
        word == self.word().as_bytes()
    }

    // The kind that a word gives, or none.
    pub fn of(word: &[u8]) -> Option<Kind>
        ensures { result ≡ kind_of word.now }
    {
        Kind::ALL
            .iter()
            .copied()
            .find(|kind| kind.is_given_by(word))
    }
}
