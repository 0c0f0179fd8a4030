// Where a text is cut: separators, and what stands before and after the first of them.
ghost use Rattle.std.specs.Prelude.{◌≡◌, position};
ghost use Rattle.std.specs.List.{before_first, after_first};
ghost use Rattle.texts.specs.Cuts.{separates};

// What ends a piece of text. An enum is plainer here than a closure: a contract can name the byte test of each separator.
#[derive(Clone, Copy)]
pub enum Separator {
    // A line feed ends a line.
    LineFeed,
    // A number sign begins a comment.
    Hash,
    // A space, a tab or a carriage return ends a word.
    Blank,
}

impl Separator {
    // Whether the byte is such a separator.
    pub fn is(self, byte: u8) -> bool
        ensures { result ≡ separates self byte }
    {
        match self {
            Separator::LineFeed => byte == b'\n',
            Separator::Hash => byte == b'#',
            Separator::Blank => byte == b' ' || byte == b'\t' || byte == b'\r',
        }
    }
}

// Where the first separator stands, or none where there is no separator.
fn place_of(bytes: &[u8], separator: Separator) -> Option<usize>
    ensures { result ≡ position (separates separator) bytes.now }
{
    bytes.iter().position(|byte| separator.is(*byte))
}

// Cuts a text at its first separator, which is in neither part, or at its end where there is none.
#[tactic(auto, using(crate::proofs::Fronts::fronts))]
pub fn split_front(bytes: &[u8], separator: Separator) -> (&[u8], &[u8])
    ensures front { result.0.now ≡ before_first (separates separator) bytes.now }
    ensures rest { result.1.now ≡ after_first (separates separator) bytes.now }
{
    match place_of(bytes, separator) {
        Some(place) => (&bytes[..place], &bytes[place + 1..]),
        None => (bytes, b""),
    }
}
