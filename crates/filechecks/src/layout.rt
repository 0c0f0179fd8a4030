// Where the records of a written book stand in its file: by class, 45 emergency records of nine bytes each, then nine service
// records of eight. Worked out here, apart from the library.

// How many bytes a written book has.
pub const WRITTEN_SIZE: usize = 5_247;

// How many records it has.
pub const RECORDS: usize = 594;

// The bytes of one class, and those of its emergency records.
const CLASS_SIZE: usize = 477;

const EMERGENCY_SIZE: usize = 405;

// A file around one of its records.
#[derive(Clone, Copy)]
pub struct Parts<'a> {
    pub front: &'a [u8],
    pub item: &'a [u8],
    pub back: &'a [u8],
}

// Where record `n` begins, counted from 0; the end of the file for the number behind the last.
pub fn start(n: usize) -> usize {
    let class = n / 54;
    let row = n % 54;
    let inside = if row < 45 {
        row * 9
    } else {
        EMERGENCY_SIZE + (row - 45) * 8
    };
    class.saturating_mul(CLASS_SIZE).saturating_add(inside)
}

// The file around record `n`; empty parts past its end.
pub fn cut(file: &[u8], n: usize) -> Parts<'_> {
    let begin = start(n);
    let end = start(n.saturating_add(1));
    Parts {
        front: file.get(0..begin).unwrap_or(b""),
        item: file.get(begin..end).unwrap_or(b""),
        back: file.get(end..).unwrap_or(b""),
    }
}
