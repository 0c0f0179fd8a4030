// Files damaged at a record, the refusal that is due to each, and its place. Nothing here is asked of the library.
use super::layout::{Parts, cut};
use std::alloc::Global;

// What is done to a written file at a record.
#[derive(Clone, Copy)]
pub enum Damage {
    // another number stands in the record: its length, kind, class, from, to (of an emergency record) or metres
    Length(u16),
    Kind(u16),
    Class(u8),
    From(u8),
    To(u8),
    Metres(u16),
    // the file ends so many bytes into the record
    Ends(usize),
    // the record is given once more, at the front or at the end of the file
    First,
    Again,
    // the record is missing
    Missing,
    // a remark makes the file so many bytes long
    Remark(usize),
    // nothing, and the table has so many places
    Table(usize),
}

// A refusal by its number, and the place where it is due.
#[derive(Clone, Copy, PartialEq, Eq)]
pub struct Due {
    pub number: u8,
    pub place: usize,
}

// A damage, the record it is done to, and the refusal that is due: an `Option`, since a test compares it and
// hands no error on.
#[derive(Clone, Copy)]
pub struct Case {
    pub record: usize,
    pub damage: Damage,
    pub due: Option<Due>,
}

// Record 0 is E(1, 30, stop) at byte 0, 297 is E(6, 90, 80) at 2,628, 584 is E(11, 120, 100) at 5,166, and 593 is D(11, 120)
// at 5,239. Emergency records have nine bytes and service records eight.
#[rattlefmt::skip]
pub const CASES: [Case; 64] = [
    // a table or a file of another size; the largest file is accepted
    Case { record: 0, damage: Damage::Table(0), due: Some(Due { number: 10, place: 0 }) },
    Case { record: 0, damage: Damage::Table(593), due: Some(Due { number: 10, place: 0 }) },
    Case { record: 0, damage: Damage::Table(595), due: Some(Due { number: 10, place: 0 }) },
    Case { record: 0, damage: Damage::Remark(32_768), due: None },
    Case { record: 0, damage: Damage::Remark(32_769), due: Some(Due { number: 10, place: 0 }) },
    // torn
    Case { record: 0, damage: Damage::Ends(1), due: Some(Due { number: 15, place: 0 }) },
    Case { record: 297, damage: Damage::Ends(1), due: Some(Due { number: 15, place: 2_628 }) },
    Case { record: 593, damage: Damage::Ends(1), due: Some(Due { number: 15, place: 5_239 }) },
    Case { record: 0, damage: Damage::Ends(8), due: Some(Due { number: 15, place: 0 }) },
    Case { record: 297, damage: Damage::Ends(8), due: Some(Due { number: 15, place: 2_628 }) },
    Case { record: 593, damage: Damage::Ends(7), due: Some(Due { number: 15, place: 5_239 }) },
    Case { record: 0, damage: Damage::Length(0), due: Some(Due { number: 15, place: 0 }) },
    Case { record: 297, damage: Damage::Length(1), due: Some(Due { number: 15, place: 2_628 }) },
    Case { record: 593, damage: Damage::Length(1), due: Some(Due { number: 15, place: 5_239 }) },
    Case { record: 0, damage: Damage::Length(5_246), due: Some(Due { number: 15, place: 0 }) },
    Case { record: 297, damage: Damage::Length(65_535), due: Some(Due { number: 15, place: 2_628 }) },
    Case { record: 593, damage: Damage::Length(7), due: Some(Due { number: 15, place: 5_239 }) },
    // kind
    Case { record: 0, damage: Damage::Kind(0), due: Some(Due { number: 16, place: 0 }) },
    Case { record: 297, damage: Damage::Kind(4), due: Some(Due { number: 16, place: 2_628 }) },
    Case { record: 593, damage: Damage::Kind(256), due: Some(Due { number: 16, place: 5_239 }) },
    Case { record: 0, damage: Damage::Kind(2), due: Some(Due { number: 16, place: 0 }) },
    Case { record: 297, damage: Damage::Kind(2), due: Some(Due { number: 16, place: 2_628 }) },
    Case { record: 593, damage: Damage::Kind(1), due: Some(Due { number: 16, place: 5_239 }) },
    Case { record: 0, damage: Damage::Length(8), due: Some(Due { number: 16, place: 0 }) },
    Case { record: 297, damage: Damage::Length(2_617), due: Some(Due { number: 16, place: 2_628 }) },
    Case { record: 593, damage: Damage::Length(5), due: Some(Due { number: 16, place: 5_239 }) },
    // entry
    Case { record: 0, damage: Damage::Class(0), due: Some(Due { number: 17, place: 0 }) },
    Case { record: 297, damage: Damage::Class(12), due: Some(Due { number: 17, place: 2_628 }) },
    Case { record: 593, damage: Damage::Class(12), due: Some(Due { number: 17, place: 5_239 }) },
    Case { record: 0, damage: Damage::From(45), due: Some(Due { number: 17, place: 0 }) },
    Case { record: 297, damage: Damage::From(45), due: Some(Due { number: 17, place: 2_628 }) },
    Case { record: 593, damage: Damage::From(45), due: Some(Due { number: 17, place: 5_239 }) },
    Case { record: 593, damage: Damage::From(0), due: Some(Due { number: 17, place: 5_239 }) },
    Case { record: 0, damage: Damage::To(30), due: Some(Due { number: 17, place: 0 }) },
    Case { record: 297, damage: Damage::To(90), due: Some(Due { number: 17, place: 2_628 }) },
    Case { record: 584, damage: Damage::To(45), due: Some(Due { number: 17, place: 5_166 }) },
    Case { record: 0, damage: Damage::Metres(0), due: Some(Due { number: 17, place: 0 }) },
    Case { record: 297, damage: Damage::Metres(0), due: Some(Due { number: 17, place: 2_628 }) },
    Case { record: 593, damage: Damage::Metres(0), due: Some(Due { number: 17, place: 5_239 }) },
    Case { record: 0, damage: Damage::Metres(4_096), due: Some(Due { number: 17, place: 0 }) },
    Case { record: 297, damage: Damage::Metres(4_096), due: Some(Due { number: 17, place: 2_628 }) },
    Case { record: 593, damage: Damage::Metres(65_535), due: Some(Due { number: 17, place: 5_239 }) },
    // twice
    Case { record: 0, damage: Damage::First, due: Some(Due { number: 18, place: 9 }) },
    Case { record: 297, damage: Damage::First, due: Some(Due { number: 18, place: 2_637 }) },
    Case { record: 593, damage: Damage::First, due: Some(Due { number: 18, place: 5_247 }) },
    Case { record: 0, damage: Damage::Again, due: Some(Due { number: 18, place: 5_247 }) },
    Case { record: 297, damage: Damage::Again, due: Some(Due { number: 18, place: 5_247 }) },
    Case { record: 593, damage: Damage::Again, due: Some(Due { number: 18, place: 5_247 }) },
    Case { record: 297, damage: Damage::To(70), due: Some(Due { number: 18, place: 2_628 }) },
    Case { record: 593, damage: Damage::Class(10), due: Some(Due { number: 18, place: 5_239 }) },
    // gap
    Case { record: 0, damage: Damage::Missing, due: Some(Due { number: 19, place: 5_238 }) },
    Case { record: 297, damage: Damage::Missing, due: Some(Due { number: 19, place: 5_238 }) },
    Case { record: 593, damage: Damage::Missing, due: Some(Due { number: 19, place: 5_239 }) },
    Case { record: 0, damage: Damage::Ends(0), due: Some(Due { number: 19, place: 0 }) },
    Case { record: 297, damage: Damage::Ends(0), due: Some(Due { number: 19, place: 2_628 }) },
    Case { record: 593, damage: Damage::Ends(0), due: Some(Due { number: 19, place: 5_239 }) },
    Case { record: 0, damage: Damage::Kind(3), due: Some(Due { number: 19, place: 5_247 }) },
    Case { record: 593, damage: Damage::Kind(3), due: Some(Due { number: 19, place: 5_247 }) },
    // order: too long for the next `from`; for the next higher `to`; too short; and the last figure may be as long as it likes
    Case { record: 0, damage: Damage::Metres(170), due: Some(Due { number: 20, place: 5_247 }) },
    Case { record: 297, damage: Damage::Metres(4_095), due: Some(Due { number: 20, place: 5_247 }) },
    Case { record: 297, damage: Damage::Metres(1), due: Some(Due { number: 20, place: 5_247 }) },
    Case { record: 584, damage: Damage::Metres(1), due: Some(Due { number: 20, place: 5_247 }) },
    Case { record: 593, damage: Damage::Metres(1), due: Some(Due { number: 20, place: 5_247 }) },
    Case { record: 593, damage: Damage::Metres(4_095), due: None },
];

// Puts a byte at a place where there is one.
fn put(bytes: &mut [u8], place: usize, byte: u8) {
    if let Some(old) = bytes.get_mut(place) {
        *old = byte;
    }
}

// Puts a number in two bytes, the low one first.
fn put_word(bytes: &mut [u8], place: usize, number: u16) {
    let [low, high] = number.to_le_bytes();
    put(bytes, place, low);
    put(bytes, place.saturating_add(1), high);
}

// Puts another number into a record.
fn spoil(item: &mut [u8], damage: Damage) {
    match damage {
        Damage::Length(number) => put_word(item, 0, number),
        Damage::Kind(number) => put_word(item, 2, number),
        Damage::Class(number) => put(item, 4, number),
        Damage::From(kmh) => put(item, 5, kmh),
        Damage::To(kmh) => put(item, 6, kmh),
        Damage::Metres(metres) => {
            let place = item.len().saturating_sub(2);
            put_word(item, place, metres);
        }
        _ => {}
    }
}

// Parts one after the other.
fn joined(heap: Global, parts: &[&[u8]]) -> anyhow::Result<Vec<u8>> {
    let mut file = Vec::new(heap);
    for part in parts {
        file.extend_from_slice(part)?;
    }
    Ok(file)
}

// A file with a remark of zeroes at its end that makes it `size` bytes long.
fn with_remark(heap: Global, file: &[u8], size: usize) -> anyhow::Result<Vec<u8>> {
    let room = size.saturating_sub(file.len());
    let mut remark = vec![in heap; 0u8; room]?;
    let length = u16::try_from(room.saturating_sub(2)).unwrap_or(0);
    put_word(&mut remark, 0, length);
    put_word(&mut remark, 2, 3);
    joined(heap, &[file, remark.as_slice()])
}

// A file with a number of a record spoilt.
fn with_spoilt(heap: Global, parts: Parts<'_>, damage: Damage) -> anyhow::Result<Vec<u8>> {
    let mut item = parts.item.to_vec(heap)?;
    spoil(&mut item, damage);
    joined(heap, &[parts.front, item.as_slice(), parts.back])
}

// The damaged file.
pub fn damaged(heap: Global, file: &[u8], case: Case) -> anyhow::Result<Vec<u8>> {
    let parts = cut(file, case.record);
    match case.damage {
        Damage::Ends(size) => {
            let begun = parts.item.get(0..size).unwrap_or(b"");
            joined(heap, &[parts.front, begun])
        }
        Damage::First => joined(heap, &[parts.item, parts.front, parts.item, parts.back]),
        Damage::Again => joined(heap, &[parts.front, parts.item, parts.back, parts.item]),
        Damage::Missing => joined(heap, &[parts.front, parts.back]),
        Damage::Remark(size) => with_remark(heap, file, size),
        Damage::Table(_) => joined(heap, &[file]),
        damage => with_spoilt(heap, parts, damage),
    }
}
