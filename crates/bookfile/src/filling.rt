// Entering the figures of a book file into a table, record by record.
ghost use Rattle.std.specs.Prelude.{◌≡◌, replicate};
ghost use Rattle.bookrecords.specs.Reading.{said};
ghost use Rattle.bookfile.specs.Entering.{EnteredFigure, Enters, Fills};

use super::faults::{Fault, at};
use bookrecords::{Reader, Record};
use codes::{BookFault, Refusal};
use laws::{FIGURE_COUNT, emergency_place, service_place};

// Enters a figure where none stands yet; else it is refused by 18.
fn enter(figure: &mut u16, metres: u16) -> Result<(), Refusal>
    ensures { EnteredFigure figure.old metres result figure.new }
{
    if *figure != 0 {
        return Err(Refusal::Book(BookFault::Twice));
    }
    *figure = metres;
    Ok(())
}

// Enters what a record says; a remark changes nothing.
fn enter_record(table: &mut [u16; FIGURE_COUNT], item: Record<'_>) -> Result<(), Refusal>
    ensures { Enters table.old (said item.entry) result table.new }
{
    match item {
        Record::Emergency {
            class,
            from,
            to,
            metres,
        } => enter(&mut table[emergency_place(class, from, to)], metres),
        Record::Service {
            class,
            from,
            metres,
        } => enter(&mut table[service_place(class, from)], metres),
        Record::Remark { .. } => Ok(()),
    }
}

// Enters all records of a file into an empty table, and stops at the first that is refused.
pub(super) fn fill(file: &[u8], table: &mut [u16; FIGURE_COUNT]) -> Result<(), Fault>
    requires { table.old ≡ replicate 594 0 }
    ensures { Fills file.now result table.new }
{
    let mut reader = Reader::new(file);
    'records: loop {
        // asked for before the record is read, since a refusal is due where the record begins
        let place = reader.place();
        let Some(item) = at(place, reader.next())? else {
            return Ok(());
        };
        at(place, enter_record(table, item))?;
    }
}
