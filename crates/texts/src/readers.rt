// The lines of a script and the words of a line, handed out one by one.
ghost use Rattle.std.specs.Prelude.{◌≡◌, ◌≤◌, not, length, position};
ghost use Rattle.std.specs.Iterator.{YieldsFirstRef, item_count};
ghost use Rattle.texts.specs.Cuts.{is_blank, skip_blanks, words_in, words_of, lines_in};

use super::cuts::{Separator, split_front};

// The lines of a script that are still to come.
#[derive(Drop)]
pub struct Lines<'a> {
    pub rest: &'a [u8],
}

// The words of a line that are still to come.
#[derive(Drop)]
pub struct Words<'a> {
    pub rest: &'a [u8],
}

impl<'a> Lines<'a> {
    // All lines of a text. A line feed ends a line, and a last line without one counts.
    #[tactic(auto, using(crate::proofs::Fronts::lines_few))]
    pub fn of(text: &'a [u8]) -> Lines<'a>
        ensures lines { lines_in result.rest.now ≡ lines_in text.now }
        ensures few { length (lines_in result.rest.now) ≤ length text.now }
    {
        Lines { rest: text }
    }
}

// The lines come in their order, each without its line feed.
impl<'a> Iterator for Lines<'a> {
    type Item = &'a [u8];

    ghost next_gives = { YieldsFirstRef (λ lines. lines_in lines.rest.now) };

    ghost remaining = { item_count (λ lines. lines_in lines.rest.now) };

    #[tactic(auto, using(crate::proofs::Fronts::next_line))]
    fn next(&mut self) -> Option<&'a [u8]> {
        if self.rest.is_empty() {
            return None;
        }
        let (line, rest) = split_front(self.rest, Separator::LineFeed);
        self.rest = rest;
        Some(line)
    }
}

// Where the first byte stands that is not blank, or none where all are.
fn first_filled(text: &[u8]) -> Option<usize>
    ensures { result ≡ position (λ byte. not (is_blank byte)) text.now }
{
    text.iter().position(|byte| !Separator::Blank.is(*byte))
}

// The text from its first byte on that is not blank.
#[tactic(auto, using(crate::proofs::Fronts::fronts))]
fn skip_blanks(text: &[u8]) -> &[u8]
    ensures { result.now ≡ skip_blanks text.now }
{
    match first_filled(text) {
        Some(place) => &text[place..],
        None => b"",
    }
}

impl<'a> Words<'a> {
    // All words of a line: what stands between blanks, before any number sign.
    pub fn of(line: &'a [u8]) -> Words<'a>
        ensures { words_in result.rest.now ≡ words_of line.now }
    {
        let (rest, _) = split_front(line, Separator::Hash);
        Words { rest }
    }
}

// The words come in their order.
impl<'a> Iterator for Words<'a> {
    type Item = &'a [u8];

    ghost next_gives = { YieldsFirstRef (λ words. words_in words.rest.now) };

    ghost remaining = { item_count (λ words. words_in words.rest.now) };

    #[tactic(auto, using(crate::proofs::Fronts::next_word))]
    fn next(&mut self) -> Option<&'a [u8]> {
        let (word, rest) = split_front(skip_blanks(self.rest), Separator::Blank);
        self.rest = rest;
        if word.is_empty() {
            return None;
        }
        Some(word)
    }
}
