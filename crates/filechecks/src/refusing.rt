// Damaged files are read, and the refusal, its place and the table are held to what is due.
use super::damage::{Case, Damage, Due, damaged};
use super::layout::RECORDS;
use bookfile::{Fault, read};
use std::alloc::Global;

// What stands in each place of a table before it is read into.
const BEFORE: u16 = 7;

// The refusal that an outcome tells; none where the file is accepted.
fn told(outcome: Result<(), Fault>) -> Option<Due> {
    let fault = outcome.err()?;
    Some(Due {
        number: fault.refusal.number(),
        place: fault.place,
    })
}

// Whether the table is as the outcome leaves it: full where the file is accepted, as it was after 10, else all zero.
fn is_left(table: &[u16], outcome: Option<Due>) -> bool {
    match outcome {
        None => !table.contains(&0),
        Some(Due { number: 10, .. }) => table.iter().all(|figure| *figure == BEFORE),
        Some(_) => table.iter().all(|figure| *figure == 0),
    }
}

// How many places the table of a case has.
fn table_size(damage: Damage) -> usize {
    match damage {
        Damage::Table(size) => size,
        _ => RECORDS,
    }
}

// Whether the damaged file is refused as is due, at the place that is due, and the table left as is due.
pub fn is_as_due(heap: Global, file: &[u8], case: Case) -> anyhow::Result<bool> {
    let other = damaged(heap, file, case)?;
    let mut table = vec![in heap; BEFORE; table_size(case.damage)]?;
    let outcome = told(read(other.as_slice(), &mut table));
    Ok(outcome == case.due && is_left(table.as_slice(), outcome))
}
