// What a sheet keeps in every state.
ghost use Rattle.std.specs.Prelude.{◌≡◌, ◌≤◌, []};

use super::lending::in_use;
use super::lent::LentTables;
use codes::Refusal;
use rules::Line;

// A sheet's start in metres, and how many records of each of the caller's tables are in use: the tables are the caller's own, so the
// counts stand apart from them.
#[derive(Clone, Copy)]
pub struct Base {
    pub start: u32,
    pub intervals: usize,
    pub gradients: usize,
    pub restrictions: usize,
    pub marks: usize,
    ghost few: { intervals ≤ 64 },
}

impl Base {
    ghost use Rattle.rows.specs.Drawings.{drawing_of};
    ghost use Rattle.sheet.specs.Sheets.{drawn};
    ghost use Rattle.sheet.specs.Faults.{lent_fault};
    ghost use Rattle.sheet.specs.Reads.{Read};
    ghost use Rattle.sheet.specs.States.{heading_of};
    ghost use Rattle.sheet.specs.Promises.{tables_of};

    // The line that the records in use describe. Refused by 10 where one of the four tables is lent under its count.
    pub(super) fn line<'a>(self, lent: &LentTables<'a>) -> Result<Line<'a>, Refusal>
        ensures { Read (lent_fault (heading_of self) (tables_of lent.now [])) (λ line. drawing_of line ≡ drawn (heading_of self) (tables_of lent.now [])) result }
    {
        Ok(Line {
            start: self.start,
            intervals: in_use(lent.intervals, self.intervals)?,
            gradients: in_use(lent.gradients, self.gradients)?,
            restrictions: in_use(lent.restrictions, self.restrictions)?,
            marks: in_use(lent.marks, self.marks)?,
        })
    }
}
