// The numbers that stand behind the word of an order.
ghost use Rattle.std.specs.Prelude.{◌≡◌, [], OnErr};
ghost use Rattle.texts.specs.Cuts.{words_in};
ghost use Rattle.texts.specs.Operands.{Takes, Fills, one, two, three, is_none};

use super::numbers::Number;
use super::readers::Words;
use super::unread::Unread;
use std::alloc::AllocError;

impl<'a> Words<'a> {
    // The next word as a number.
    pub fn number<A: Number>(&mut self) -> Option<A>
        ensures { Takes A.Number.reads (words_in self.old.rest.now) result (words_in self.new.rest.now) }
    {
        A::read(self.next()?)
    }

    // Whether no word is left.
    pub fn is_ended(&mut self) -> bool
        ensures { result ≡ is_none (words_in self.old.rest.now) }
    {
        self.next().is_none()
    }

    // The number of the one word that is left; none where it writes none, or where none or more than one is left.
    pub fn one<A: Number>(mut self) -> Option<A>
        ensures { result ≡ one A.Number.reads (words_in self.entry.rest.now) }
    {
        let last = self.number()?;
        self.is_ended().then_some(last)
    }

    // The numbers of the two words that are left; none where one of them writes none, or where fewer or more are left.
    pub fn two<A: Number, B: Number>(mut self) -> Option<(A, B)>
        ensures { result ≡ two A.Number.reads B.Number.reads (words_in self.entry.rest.now) }
    {
        let first = self.number()?;
        let last = self.one()?;
        Some((first, last))
    }

    // The numbers of the three words that are left; none where one of them writes none, or where fewer or more are left.
    pub fn three<A: Number, B: Number, C: Number>(mut self) -> Option<(A, B, C)>
        ensures { result ≡ three A.Number.reads B.Number.reads C.Number.reads (words_in self.entry.rest.now) }
    {
        let first = self.number()?;
        let (second, last) = self.two()?;
        Some((first, second, last))
    }

    // Appends the words that are left to an empty buffer, a byte each, up to the first that is no byte.
    #[tactic(auto, using(crate::proofs::ByteWords::before_bytes))]
    fn push_bytes(&mut self, buffer: &mut Vec<u8>) -> Result<(), Unread>
        requires { buffer.old.items ≡ [] }
        ensures { Fills (words_in self.old.rest.now) result buffer.new.items }
    {
        for word in self {
            // With `ok_or` and `?` the proof does not close.
            let Some(byte) = u8::read(word) else {
                return Err(Unread::Unclear);
            };
            buffer.push(byte).map_err(AllocError::from)?;
        }
        Ok(())
    }

    // Writes the words that are left into the buffer, a byte each; unclear where one of them is no byte. The buffer is empty where
    // one is not, or where memory fails.
    pub fn bytes(&mut self, buffer: &mut Vec<u8>) -> Result<(), Unread>
        ensures filled { Fills (words_in self.old.rest.now) result buffer.new.items }
        ensures emptied { OnErr result (buffer.new.items ≡ []) }
    {
        buffer.clear();
        let filled = self.push_bytes(buffer);
        if filled.is_err() {
            buffer.clear();
        }
        filled
    }
}
