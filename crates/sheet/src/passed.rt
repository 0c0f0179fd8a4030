// A sheet with a row that has passed: a train is set off over it.
ghost use Rattle.std.specs.Prelude.{◌≡◌};
ghost use Rattle.sheet.specs.Faults.{set_off_fault};
ghost use Rattle.sheet.specs.Reads.{Read, way_fault};
ghost use Rattle.sheet.specs.Ways.{IsWay};
ghost use Rattle.sheet.specs.States.{passed_heading, pass_of, book_of};
ghost use Rattle.sheet.specs.Promises.{SetsOut};

use super::base::Base;
use super::closed::ClosedSheet;
use super::fixed::Fixed;
use super::lending::{in_use, is_row_short};
use super::refused::Refused;
use super::running::RunningSheet;
use super::way::{Way, has_strange_byte};
use books::BrakingBook;
use codes::{Class, Refusal};
use driving::{code_in, depart};
use ground::Entry;
use trains::Train;

// A sheet with a passed row. One book serves from the pass until the sheet is left.
#[derive(Drop)]
pub struct PassedSheet<'b, B> {
    pub(crate) base: Base,
    pub(crate) book: &'b B,
    pub(crate) fixed: Fixed,
}

impl<'b, B: BrakingBook> PassedSheet<'b, B> {
    // Leaves the passed row: the sheet is closed again.
    pub fn leave(self) -> ClosedSheet
        ensures { result.base ≡ self.entry.base }
    {
        let PassedSheet {
            base,
            book: _,
            fixed: _,
        } = self;
        ClosedSheet { base }
    }

    // What a train under way reads. Refused by 10 where the gradients are lent under their count or the row table has fewer than 64
    // bytes, and by 11 where a byte of the passed row is no code.
    pub(super) fn way<'a>(
        &self,
        gradients: &'a [Entry<Class>],
        row_table: &'a [u8],
    ) -> Result<Way<'a>, Refusal>
        ensures { Read (way_fault (passed_heading self.now) gradients.now row_table.now (pass_of self.now)) (IsWay (passed_heading self.now) gradients.now row_table.now (pass_of self.now)) result }
    {
        let gradients = in_use(gradients, self.base.gradients)?;
        if is_row_short(row_table) {
            return Err(Refusal::Size);
        }
        let row = &row_table[0..self.fixed.target.held.interval];
        if has_strange_byte(row) {
            return Err(Refusal::Byte);
        }
        Ok(Way { gradients, row })
    }

    // What a train reads as it is set off. Refused by 14, too, where the train's pace is above the approach code.
    fn way_for<'a, T: Train>(
        &self,
        train: &T,
        gradients: &'a [Entry<Class>],
        row_table: &'a [u8],
    ) -> Result<Way<'a>, Refusal>
        ensures { Read (set_off_fault (passed_heading self.now) gradients.now row_table.now (pass_of self.now) (T.Train.numbers train.now)) (IsWay (passed_heading self.now) gradients.now row_table.now (pass_of self.now)) result }
    {
        let way = self.way(gradients, row_table)?;
        if train.pace() > self.fixed.approach.kmh() {
            return Err(Refusal::Fast);
        }
        Ok(way)
    }

    // Sets a train off at the start: it hears the first code of the passed row, with the class of the 170 m behind. Refused by 10
    // where the gradients are lent under their count or the row table has fewer than 64 bytes, by 11 where a byte of the passed row
    // is no code, and by 14 where the train's pace is above the approach code; a refusal hands the sheet and the train back as they
    // were.
    pub fn set_off<T: Train>(
        self,
        train: T,
        gradients: &[Entry<Class>],
        row_table: &[u8],
    ) -> Result<RunningSheet<'b, B, T>, Refused<(PassedSheet<'b, B>, T)>>
        ensures { SetsOut (B.BrakingBook.emergencies (book_of self.entry)) T.Train.numbers (set_off_fault (passed_heading self.entry) gradients.now row_table.now (pass_of self.entry) (T.Train.numbers train)) self.entry train gradients.now row_table.now result }
    {
        // The sheet and the train go with the refusal or under way, so that no closure can take them for one of the two.
        match self.way_for(&train, gradients, row_table) {
            Err(why) => Err(Refused {
                sheet: (self, train),
                why,
            }),
            Ok(way) => {
                let mut train = train;
                let first = code_in(way.row, 0);
                let head = depart(&mut train, self.book, way.gradients, self.base.start, first);
                Ok(RunningSheet {
                    passed: self,
                    train,
                    head,
                })
            }
        }
    }
}
