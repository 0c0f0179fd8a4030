// The published book as a file: its bytes, the way back, and the same records in another order with remarks between.
use super::layout::{RECORDS, WRITTEN_SIZE, cut};
use anyhow::anyhow;
use bookfile::read;
use bookrecords::{Reader, Record};
use books::{BrakingBook, FileBook, PublishedBook};
use bookwriter::write;
use codes::{Class, Code, Refusal, Speed};
use std::alloc::Global;

// A remark where the shuffled records have one.
const REMARK: &[u8; 6] = b"\x04\x00\x03\x00ok";

// The published book as the library writes it.
pub fn published(heap: Global) -> anyhow::Result<Vec<u8>> {
    let mut buffer = vec![in heap; 0u8; WRITTEN_SIZE]?;
    if write(&PublishedBook, &mut buffer).is_err() {
        return Err(anyhow!("the published book was not written"));
    }
    Ok(buffer)
}

// Whether a buffer of `size` bytes is refused by 10, the number that a host is told, and left as it was.
pub fn refuses_buffer(heap: Global, size: usize) -> anyhow::Result<bool> {
    let mut buffer = vec![in heap; 9u8; size]?;
    let outcome = write(&PublishedBook, &mut buffer);
    Ok(
        outcome.is_err_and(|refusal| refusal.number() == 10)
            && buffer.as_slice().iter().all(|byte| *byte == 9),
    )
}

// How many emergency answers of one speed are the same in two books.
fn agreeing_codes<A: BrakingBook, B: BrakingBook>(
    a: &A,
    b: &B,
    class: Class,
    from: Speed,
) -> usize {
    Code::ALL
        .into_iter()
        .filter(|to| match a.emergency(class, from, *to) {
            Ok(metres) => b.emergency(class, from, *to) == Ok(metres),
            Err(_) => false,
        })
        .count()
}

// How many answers of one class are the same in two books.
fn agreeing_speeds<A: BrakingBook, B: BrakingBook>(a: &A, b: &B, class: Class) -> usize {
    let emergencies = Speed::ALL.into_iter().fold(
        0usize,
        |sum, from| sum.saturating_add(agreeing_codes(a, b, class, from)),
    );
    let services = Speed::ALL
        .into_iter()
        .filter(|from| a.service(class, *from) == b.service(class, *from))
        .count();
    emergencies.saturating_add(services)
}

// How many answers are the same in two books.
fn agreeing<A: BrakingBook, B: BrakingBook>(a: &A, b: &B) -> usize {
    Class::ALL.into_iter().fold(
        0usize,
        |sum, class| sum.saturating_add(agreeing_speeds(a, b, class)),
    )
}

// How many answers of the book over a table are those of the published book.
fn figures_over(table: &[u16]) -> Result<usize, Refusal> {
    let mut book = FileBook::new();
    book.lay_over(table)?;
    Ok(agreeing(&book, &PublishedBook))
}

// How many answers of the book that a file is of are those of the published book.
pub fn figures_back(file: &[u8]) -> Result<usize, Refusal> {
    let mut table = [0u16; RECORDS];
    read(file, &mut table).map_err(|fault| fault.refusal)?;
    figures_over(&table)
}

// The records of a written file in another order, every fifth from the front, with a remark before every hundredth.
pub fn shuffled(heap: Global, file: &[u8]) -> anyhow::Result<Vec<u8>> {
    let mut other = Vec::new(heap);
    // a number in the new order, and not a place in a slice
    for n in 0..RECORDS {
        if n % 100 == 0 {
            other.extend_from_slice(REMARK)?;
        }
        let item = cut(file, n * 5 % RECORDS).item;
        other.extend_from_slice(item)?;
    }
    Ok(other)
}

// The places in a file where the bytes of its remarks begin.
pub fn remarks(heap: Global, file: &[u8]) -> anyhow::Result<Vec<usize>> {
    let mut places = Vec::new(heap);
    let mut reader = Reader::new(file);
    while let Ok(Some(item)) = reader.next() {
        if let Record::Remark { place, .. } = item {
            places.push(place)?;
        }
    }
    Ok(places)
}
