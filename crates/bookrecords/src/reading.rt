// Reading a book file record by record.
ghost use Rattle.std.specs.Prelude.{◌≡◌, ℕ, ◌+◌, ◌-◌, ◌^◌, ◌<◌, ◌≤◌, ◌&&◌, length, drop, IfOk, IsTrue, MatchOption};
ghost use Rattle.codes.specs.declared.gradients.Class.{Class};
ghost use Rattle.codes.specs.declared.speeds.Speed.{Speed};
ghost use Rattle.codes.specs.Refusals.{Told};
ghost use Rattle.codes.specs.Speeds.{lower};
ghost use Rattle.laws.specs.Judged.{metres};
ghost use Rattle.bookrecords.specs.Decoding.{torn, SplitOff, Whole, headed, told_further, emergency_entry, service_entry, decoded};
ghost use Rattle.bookrecords.specs.Records.{Said, spelt};
ghost use Rattle.bookrecords.specs.Reading.{said, told_record, Placed, Fronts, Hands};

use super::records::Record;
use codes::{Class, Code, FileFault, RecordFault, Refusal, Speed};
use laws::is_distance;

// A book file, and the place in it where the next record begins.
#[derive(Drop)]
pub struct Reader<'a> {
    file: &'a [u8],
    place: usize,
    ghost within: { place ≤ length file.now },
}

// The number in two bytes at the front, the low one first, and the bytes behind it; none where two bytes are not left.
fn split_number(bytes: &[u8]) -> Option<(u16, &[u8])>
    ensures { MatchOption result (length bytes.now < 2) (SplitOff bytes.now) }
{
    let (number, rest) = bytes.split_first_chunk()?;
    Some((u16::from_le_bytes(*number), rest))
}

// The kind and the content of the record at the front; none where it is torn.
fn kind_and_content(bytes: &[u8]) -> Option<(u16, &[u8])>
    ensures { MatchOption result (IsTrue (torn bytes.now)) (Whole bytes.now) }
{
    let (length, rest) = split_number(bytes)?;
    split_number(rest.get(..length as usize)?)
}

// The class and the speed that records begin with.
fn class_and_from(class: u8, from: u8) -> Result<(Class, Speed), Refusal>
    ensures { (further : Class → Speed → Told Said) → headed class from further ≡ told_further further result }
{
    let class = Class::try_from(class)?;
    let from = Speed::try_from(from).or(Err(Refusal::Record(RecordFault::Entry)))?;
    Ok((class, from))
}

// Whether an emergency record can say so.
fn is_possible(from: Speed, to: Code, distance: u16) -> bool
    ensures { result ≡ (lower to (Code.Go from) && metres distance) }
{
    to < Code::Go(from) && is_distance(distance)
}

// What a kind 1 record says by its bytes.
fn emergency_record<'a>(class: u8, from: u8, to: u8, metres: u16) -> Result<Record<'a>, Refusal>
    ensures said { told_record result ≡ emergency_entry class from to metres }
    ensures placed { (place : ℕ) → IfOk result (Placed place) }
{
    let entry = Refusal::Record(RecordFault::Entry);
    let (class, from) = class_and_from(class, from)?;
    let to = Code::try_from(to).or(Err(entry))?;
    if !is_possible(from, to, metres) {
        return Err(entry);
    }
    Ok(Record::Emergency {
        class,
        from,
        to,
        metres,
    })
}

// What a kind 2 record says by its bytes. Apart from kind 1: the two differ in their fields and are six lines each.
fn service_record<'a>(class: u8, from: u8, metres: u16) -> Result<Record<'a>, Refusal>
    ensures said { told_record result ≡ service_entry class from metres }
    ensures placed { (place : ℕ) → IfOk result (Placed place) }
{
    let (class, from) = class_and_from(class, from)?;
    if !is_distance(metres) {
        return Err(Refusal::Record(RecordFault::Entry));
    }
    Ok(Record::Service {
        class,
        from,
        metres,
    })
}

// The record at the front of the bytes, which begin at `place` of the file.
fn first_record<'a>(bytes: &'a [u8], place: usize) -> Result<Record<'a>, Refusal>
    requires { place + length bytes.now < 2 ^ 64 }
    ensures said { told_record result ≡ decoded bytes.now }
    ensures placed { IfOk result (Placed place) }
{
    match kind_and_content(bytes).ok_or(Refusal::File(FileFault::Torn))? {
        (1, [class, from, to, low, high]) => {
            emergency_record(*class, *from, *to, u16::from_le_bytes([*low, *high]))
        }
        (2, [class, from, low, high]) => {
            service_record(*class, *from, u16::from_le_bytes([*low, *high]))
        }
        (3, bytes) => Ok(Record::Remark {
            place: place + 4,
            bytes,
        }),
        _ => Err(Refusal::Record(RecordFault::Kind)),
    }
}

// The record that begins at a place of the file.
fn record_at<'a>(file: &'a [u8], place: usize) -> Result<Record<'a>, Refusal>
    requires { place ≤ length file.now }
    ensures fronts { Fronts (drop place file.now) place result }
    ensures within { IfOk result (λ item. place + length (spelt (said item)) ≤ length file.now) }
{
    first_record(&file[place..], place)
}

// How many bytes a record takes.
fn size(item: Record<'_>) -> usize
    ensures { result ≡ length (spelt (said item.entry)) }
{
    match item {
        Record::Emergency { .. } => 9,
        Record::Service { .. } => 8,
        Record::Remark { bytes, .. } => 4 + bytes.len(),
    }
}

impl<'a> Reader<'a> {
    // A reader at the start of a file.
    pub fn new(file: &'a [u8]) -> Reader<'a>
        ensures file { result.file.now ≡ file.now }
        ensures place { result.place ≡ 0 }
    {
        Reader { file, place: 0 }
    }

    // Where the next record begins, counted from 0.
    pub fn place(&self) -> usize
        ensures { result ≡ self.now.place }
    {
        let Reader { place, .. } = self;
        *place
    }

    // The next record, or none at the end of the file. A record is refused by 15 where its bytes are torn, by 16 for its kind and
    // by 17 for an impossible entry; a refusal leaves the reader at its place.
    pub fn next(&mut self) -> Result<Option<Record<'a>>, Refusal>
        ensures hands { Hands self.old.file.now self.old.place result self.new.place }
        ensures same { self.new.file.now ≡ self.old.file.now }
    {
        if self.place == self.file.len() {
            return Ok(None);
        }
        let item = record_at(self.file, self.place)?;
        self.place += size(item);
        Ok(Some(item))
    }
}
