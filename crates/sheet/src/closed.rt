// A closed sheet: rows are worked out and submitted.
ghost use Rattle.std.specs.Prelude.{◌≡◌, ◌||◌, []};
ghost use Rattle.sheet.specs.Sheets.{drawn};
ghost use Rattle.sheet.specs.Faults.{lent_short, row_short};
ghost use Rattle.sheet.specs.States.{closed_heading};
ghost use Rattle.sheet.specs.Promises.{tables_of, Works, Submitted};

use super::base::Base;
use super::judging::{copy_row, judge};
use super::lending::{ROW_TABLE_SIZE, is_row_short};
use super::lent::LentTables;
use super::open::OpenSheet;
use super::passed::PassedSheet;
use super::refused::Refused;
use books::BrakingBook;
use codes::Refusal;
use rows::{Failure, StopLetter, work_out_in};

// A sheet whose records are fixed until it is reopened.
#[derive(Drop)]
pub struct ClosedSheet {
    pub(crate) base: Base,
}

impl ClosedSheet {
    // Opens the sheet again, with the records that it has.
    pub fn reopen(self) -> OpenSheet
        ensures { result.base ≡ self.base }
    {
        OpenSheet { base: self.base }
    }

    // Works out the highest row before a stop mark: writes the code of each interval up to the mark's into the row's bytes, and
    // answers the stop letter and the place of the first interval of the stop ground. Refused by 10 where a table is lent under its
    // count, by 8 (no such mark, or it stands in no interval), 4 (the approach code is no speed), 10 (the row has not a byte for
    // each interval up to the mark's) and 13, exactly where no row is lawful. A refusal leaves the row's bytes as they were.
    pub fn work_out<B: BrakingBook>(
        &self,
        lent: &LentTables<'_>,
        mark: u16,
        approach: u8,
        book: &B,
        row: &mut [u8],
    ) -> Result<(StopLetter, usize), Refusal>
        ensures { Works (lent_short (closed_heading self.now) (tables_of lent.now [])) (drawn (closed_heading self.now) (tables_of lent.now [])) mark approach (B.BrakingBook.emergencies book.now) (B.BrakingBook.services book.now) row.old result row.new }
    {
        let line = self.base.line(lent)?;
        let mut scratch = [0u8; ROW_TABLE_SIZE];
        match work_out_in(&line, mark, approach, book, row, &mut scratch) {
            Ok(told) => Ok(told),
            Err(Failure::Refused(why)) => Err(why),
            // A sheet has at most 64 intervals, so that the scratch is never too small.
            Err(Failure::Memory) => unreachable(),
        }
    }

    // Submits a row for a stop mark and an approach code. A pass copies the row into the first bytes of the row table, whose later
    // bytes stay, and fixes the mark, the approach code and the book. Refused by 10 where a table is lent under its count or the row
    // table has fewer than 64 bytes, else as an examination refuses: by 8 (no such mark, or it stands in no interval), 4 (the
    // approach code is no speed), 10 (the row has not a byte for each interval up to the mark's), 11 (a byte is no code) and 12 with
    // the first interval that breaks a rule, 0 for the approach, and the first rule that it breaks. A refusal hands the sheet back,
    // and leaves the row table, as they were.
    pub fn submit<'b, B: BrakingBook>(
        self,
        lent: &LentTables<'_>,
        row_table: &mut [u8],
        mark: u16,
        approach: u8,
        row: &[u8],
        book: &'b B,
    ) -> Result<PassedSheet<'b, B>, Refused<ClosedSheet>>
        ensures { Submitted book.now (lent_short (closed_heading self) (tables_of lent.now []) || row_short row_table.old) (drawn (closed_heading self) (tables_of lent.now [])) mark approach (B.BrakingBook.emergencies book.now) (B.BrakingBook.services book.now) row.now self row_table.old result row_table.new }
    {
        if is_row_short(row_table) {
            return Err(Refused {
                sheet: self,
                why: Refusal::Size,
            });
        }
        let base = self.base;
        // Both arms take something along, the sheet or the row; `map_err` and `?` were tried, and their proof did not close.
        match judge(base, lent, mark, approach, row, book) {
            Err(why) => Err(Refused { sheet: self, why }),
            Ok(fixed) => {
                copy_row(row_table, row);
                Ok(PassedSheet { base, book, fixed })
            }
        }
    }
}
