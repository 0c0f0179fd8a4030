// An open sheet: records are entered and struck.
ghost use Rattle.std.specs.Prelude.{slice_set};
ghost use Rattle.ground.specs.Tables.{closed_up};
ghost use Rattle.entering.specs.Entering.{interval_fault, gradient_fault, restriction_fault, mark_fault, interval_of, gradient_of, restriction_of, mark_of};
ghost use Rattle.sheet.specs.Changes.{more_intervals, more_gradients, more_restrictions, more_marks, fewer_gradients, fewer_restrictions};
ghost use Rattle.sheet.specs.Faults.{strike_fault, close_fault};
ghost use Rattle.sheet.specs.States.{open_heading};
ghost use Rattle.sheet.specs.Promises.{Blanks, Edits, Closes};

use super::base::Base;
use super::closed::ClosedSheet;
use super::closing::check_ready;
use super::refused::Refused;
use codes::{Class, Refusal, Speed};
use entering::{enter_gradient, enter_interval, enter_mark, enter_restriction};
use ground::{Entry, remove};
use rules::{Interval, StopMark};

// A sheet that is being drawn.
#[derive(Drop)]
pub struct OpenSheet {
    pub(crate) base: Base,
}

#[tactic(auto, using(crate::proofs::Rulings::still_refused))]
impl OpenSheet {
    // A blank sheet with its start, in metres. Refused by 6 where that is not 1,000 to 100,000.
    pub fn blank(start: u32) -> Result<OpenSheet, Refusal>
        ensures { Blanks start result }
    {
        if start < 1_000 || start > 100_000 {
            return Err(Refusal::Stretch);
        }
        Ok(OpenSheet {
            base: Base {
                start,
                intervals: 0,
                gradients: 0,
                restrictions: 0,
                marks: 0,
            },
        })
    }

    // The four calls that enter and the two that strike differ in the table and in what is asked for it.

    // Enters an interval behind those in use. Refused by 10 where the table is lent under its count, by 1 where it or the limit
    // of 64 is used up, by 2 where the length is not 1 to 5,000 m, and by 3 where an interval in use has the number; a refusal
    // leaves the sheet and the table as they were.
    pub fn enter_interval(
        &mut self,
        table: &mut [Interval],
        number: u16,
        length: u32,
    ) -> Result<(), Refusal>
        ensures { Edits (interval_fault table.old self.old.base.intervals number length) more_intervals (slice_set table.old self.old.base.intervals (interval_of number length)) self.old table.old result self.new table.new }
    {
        self.base.intervals = enter_interval(table, self.base.intervals, number, length)?;
        Ok(())
    }

    // Enters a gradient behind those in use, by its faldtal in tenths of a permille. Refused by 10 where the table is lent under
    // its count, by 1 where it or the limit of 64 is used up, by 6 where the stretch has no metres or ends behind 500,000, and by
    // 5 where the faldtal is not -350 to 350; a refusal leaves the sheet and the table as they were.
    pub fn enter_gradient(
        &mut self,
        table: &mut [Entry<Class>],
        from: u32,
        to: u32,
        faldtal: i32,
    ) -> Result<(), Refusal>
        ensures { Edits (gradient_fault table.old self.old.base.gradients from to faldtal) more_gradients (slice_set table.old self.old.base.gradients (gradient_of from to faldtal)) self.old table.old result self.new table.new }
    {
        self.base.gradients = enter_gradient(table, self.base.gradients, from, to, faldtal)?;
        Ok(())
    }

    // Enters a speed restriction behind those in use. Refused by 10 where the table is lent under its count, by 1 where it or the
    // limit of 64 is used up, by 6 where the stretch has no metres or ends behind 500,000, and by 4 where the km/h are none of the
    // nine speeds; a refusal leaves the sheet and the table as they were.
    pub fn enter_restriction(
        &mut self,
        table: &mut [Entry<Speed>],
        from: u32,
        to: u32,
        kmh: u8,
    ) -> Result<(), Refusal>
        ensures { Edits (restriction_fault table.old self.old.base.restrictions from to kmh) more_restrictions (slice_set table.old self.old.base.restrictions (restriction_of from to kmh)) self.old table.old result self.new table.new }
    {
        self.base.restrictions = enter_restriction(table, self.base.restrictions, from, to, kmh)?;
        Ok(())
    }

    // Enters a stop mark behind those in use. Refused by 10 where the table is lent under its count, by 1 where it or the limit of
    // 16 is used up, by 3 where a mark in use has the number, and by 7 where the position is above 450,000 or the danger point not
    // from there to 1,000 m behind it; a refusal leaves the sheet and the table as they were.
    pub fn enter_mark(
        &mut self,
        table: &mut [StopMark],
        number: u16,
        position: u32,
        danger: u32,
    ) -> Result<(), Refusal>
        ensures { Edits (mark_fault table.old self.old.base.marks number position danger) more_marks (slice_set table.old self.old.base.marks (mark_of number position danger)) self.old table.old result self.new table.new }
    {
        self.base.marks = enter_mark(table, self.base.marks, number, position, danger)?;
        Ok(())
    }

    // Strikes the gradient at a place, counted from 0; those in use behind it come down one. Refused by 10 where the table is lent
    // under its count, and by 8 where no gradient in use has the place; a refusal leaves the sheet and the table as they were.
    pub fn strike_gradient(
        &mut self,
        table: &mut [Entry<Class>],
        place: usize,
    ) -> Result<(), Refusal>
        ensures { Edits (strike_fault table.old self.old.base.gradients place) fewer_gradients (closed_up table.old self.old.base.gradients place) self.old table.old result self.new table.new }
    {
        self.base.gradients = remove(table, self.base.gradients, place)?;
        Ok(())
    }

    // Strikes the speed restriction at a place, counted from 0; those in use behind it come down one. Refused by 10 where the table
    // is lent under its count, and by 8 where no restriction in use has the place; a refusal leaves the sheet and the table as they
    // were.
    pub fn strike_restriction(
        &mut self,
        table: &mut [Entry<Speed>],
        place: usize,
    ) -> Result<(), Refusal>
        ensures { Edits (strike_fault table.old self.old.base.restrictions place) fewer_restrictions (closed_up table.old self.old.base.restrictions place) self.old table.old result self.new table.new }
    {
        self.base.restrictions = remove(table, self.base.restrictions, place)?;
        Ok(())
    }

    // Closes the sheet, so that rows are worked out and submitted. Refused by 10 where a table is lent under its count, and by 9
    // where no interval is in use or a mark in use stands in none; a refusal hands the sheet back as it was.
    pub fn close(
        self,
        intervals: &[Interval],
        marks: &[StopMark],
    ) -> Result<ClosedSheet, Refused<OpenSheet>>
        ensures { Closes (close_fault (open_heading self) intervals.now marks.now) self result }
    {
        let base = self.base;
        check_ready(base, intervals, marks).map_err(|why| Refused { sheet: self, why })?;
        Ok(ClosedSheet { base })
    }
}
