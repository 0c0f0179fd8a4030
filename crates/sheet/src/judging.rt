// Judging a row that is submitted, and keeping it.
ghost use Rattle.std.specs.Prelude.{◌≡◌, ◌≤◌, [], length};
ghost use Rattle.sheet.specs.Changes.{row_written};
ghost use Rattle.sheet.specs.Faults.{lent_short};
ghost use Rattle.sheet.specs.Judging.{Judged};
ghost use Rattle.sheet.specs.Sheets.{drawn};
ghost use Rattle.sheet.specs.States.{heading_of};
ghost use Rattle.sheet.specs.Promises.{tables_of};

use super::base::Base;
use super::fixed::Fixed;
use super::lent::LentTables;
use books::BrakingBook;
use codes::{Refusal, Speed};
use rows::{examine, locate};

// Examines a row before a stop mark of the sheet's line, and answers what a pass fixes. Refused by 10 where a table is lent under its
// count, else as the examination refuses.
pub(super) fn judge<B: BrakingBook>(
    base: Base,
    lent: &LentTables<'_>,
    mark: u16,
    approach: u8,
    row: &[u8],
    book: &B,
) -> Result<Fixed, Refusal>
    ensures { Judged (lent_short (heading_of base) (tables_of lent.now [])) (drawn (heading_of base) (tables_of lent.now [])) mark approach (B.BrakingBook.emergencies book.now) (B.BrakingBook.services book.now) row.now result }
{
    let line = base.line(lent)?;
    examine(&line, mark, approach, row, book)?;
    let target = locate(&line, mark)?;
    let approach = Speed::try_from(approach)?;
    Ok(Fixed { target, approach })
}

// Copies a row into the first bytes of a row table; the later bytes stay.
pub(super) fn copy_row(row_table: &mut [u8], row: &[u8])
    requires { length row.now ≤ length row_table.old }
    ensures { row_table.new ≡ row_written row.now row_table.old }
{
    row_table[0..row.len()].copy_from_slice(row);
}
