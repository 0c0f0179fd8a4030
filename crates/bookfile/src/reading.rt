// Reading a book file into a table of figures.
ghost use Rattle.std.specs.Prelude.{◌≡◌, ℕ, ◌≤◌, List, length, replicate, is_ok, Decides};
ghost use Rattle.bookfile.specs.Faults.{Tabled, Read, Acceptable};
ghost use Rattle.bookfile.specs.Entering.{left};
ghost use Rattle.bookfile.specs.Shuffles.{Orderless};

use super::faults::{Fault, at};
use super::filling::fill;
use codes::{BookFault, Refusal};
use laws::{FIGURE_COUNT, Table, keeps_laws};

// The most bytes that a book file has.
const FILE_LIMIT: usize = 32_768;

// Fills an empty table, and sees that no figure is missing and that the laws hold.
fn tabled(file: &[u8], table: &mut [u16; FIGURE_COUNT]) -> Result<(), Fault>
    requires short { length file.now ≤ 32768 }
    requires empty { table.old ≡ replicate 594 0 }
    ensures { Tabled file.now result table.new }
{
    fill(file, table)?;
    let place = file.len();
    if table.contains(&0) {
        return at(place, Err(Refusal::Book(BookFault::Gap)));
    }
    if !keeps_laws(&Table { figures: table }) {
        return at(place, Err(Refusal::Book(BookFault::Order)));
    }
    Ok(())
}

// Fills a table anew; a refused file leaves it all zero.
fn filled(file: &[u8], table: &mut [u16; FIGURE_COUNT]) -> Result<(), Fault>
    requires { length file.now ≤ 32768 }
    ensures { (xs : List ℕ) × Tabled file.now result xs × (table.new ≡ left result xs) }
{
    *table = [0; FIGURE_COUNT];
    let outcome = tabled(file, table);
    if outcome.is_err() {
        *table = [0; FIGURE_COUNT];
    }
    outcome
}

// Checks the sizes, then the file.
fn taken(file: &[u8], table: &mut [u16]) -> Result<(), Fault>
    ensures { Read file.now table.old result table.new }
{
    match table.as_mut_array() {
        Some(table) if file.len() <= FILE_LIMIT => filled(file, table),
        _ => at(0, Err(Refusal::Size)),
    }
}

// Reads a book file into a table of 594 figures in writing order. Refused by 10 at 0, with the table as it was, where the table has
// not 594 figures or the file over 32,768 bytes; else by 15 to 18 where the first faulty record begins, or by 19 (a figure is
// missing) or 20 (a law is broken) at the file's size, with the table all zero. A file is accepted exactly if it is that of a book,
// and neither the order of its records nor its remarks make a difference to the book.
pub fn read(file: &[u8], table: &mut [u16]) -> Result<(), Fault>
    ensures read { Read file.now table.old result table.new }
    ensures exactly { Decides (is_ok result) (Acceptable file.now table.old) }
    ensures reordered { Orderless file.now result table.new }
{
    taken(file, table)
}
