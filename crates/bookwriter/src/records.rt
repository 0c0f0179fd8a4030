// The bytes of the records that a book file is made of, and putting them into a buffer.
ghost use Rattle.std.specs.Prelude.{◌≡◌, ◌+◌, ◌≤◌, length};
ghost use Rattle.laws.specs.Questions.{emergency, service};
ghost use Rattle.bookrecords.specs.Records.{states, spelt};
ghost use Rattle.bookwriter.specs.Writing.{Puts};

use codes::{Class, Code, Speed};

// A kind 1 record: the emergency distance in metres by class, from and to, the low byte of each number first. In class 3, 417 m
// from 120 to 100 km/h is 07 00 01 00 03 78 64 A1 01.
pub(super) fn emergency_record(class: Class, from: Speed, to: Code, metres: u16) -> [u8; 9]
    ensures { result ≡ spelt (states (emergency class from to) metres) }
{
    let [low, high] = metres.to_le_bytes();
    [7, 0, 1, 0, class.number(), from.kmh(), to.byte(), low, high]
}

// A kind 2 record: the service distance in metres by class and from, the low byte of each number first. Apart from
// kind 1, since the two differ in their fields.
pub(super) fn service_record(class: Class, from: Speed, metres: u16) -> [u8; 8]
    ensures { result ≡ spelt (states (service class from) metres) }
{
    let [low, high] = metres.to_le_bytes();
    [6, 0, 2, 0, class.number(), from.kmh(), low, high]
}

// A buffer that records are written into one after the other, and the place behind the last of them. The book stands beside a
// writer: one that kept it too would have to promise at each write that it stays the same.
#[derive(Drop)]
pub(super) struct Writer<'a> {
    buffer: &'a mut [u8],
    place: usize,
}

impl<'a> Writer<'a> {
    // A writer at the start of a buffer.
    pub(super) fn new(buffer: &'a mut [u8]) -> Writer<'a>
        ensures buffer { result.buffer.now ≡ buffer.old }
        ensures same { result.buffer.ghost_name ≡ buffer.entry.ghost_name }
        ensures place { result.place ≡ 0 }
    {
        Writer { buffer, place: 0 }
    }

    // Puts a record behind the others.
    pub(super) fn put(&mut self, item: &[u8])
        requires { self.old.place + length item.now ≤ length self.old.buffer.now }
        ensures { Puts self.old item.now self.new }
    {
        let next = self.place + item.len();
        self.buffer[self.place..next].copy_from_slice(item);
        self.place = next;
    }
}
