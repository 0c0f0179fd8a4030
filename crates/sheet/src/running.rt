// A sheet with a train under way over its passed row.
ghost use Rattle.std.specs.Prelude.{◌≡◌};
ghost use Rattle.driving.specs.Driving.{Advances};
ghost use Rattle.driving.specs.Journeys.{stands};
ghost use Rattle.sheet.specs.Faults.{step_fault};
ghost use Rattle.sheet.specs.States.{running_heading, passed_of, pass_of, book_of, journey_of, report_of};
ghost use Rattle.sheet.specs.Ways.{GoesOn};
ghost use Rattle.sheet.specs.Promises.{Stepped};

use super::closed::ClosedSheet;
use super::lending::in_use;
use super::passed::PassedSheet;
use super::reports::Report;
use super::way::Way;
use books::BrakingBook;
use codes::{Class, Refusal};
use driving::{Head, advance, is_standing};
use ground::Entry;
use rules::Interval;
use trains::Train;

// The passed sheet, the train, and where its head is, with the code that it was told last.
#[derive(Drop)]
pub struct RunningSheet<'b, B, T> {
    pub(crate) passed: PassedSheet<'b, B>,
    pub(crate) train: T,
    pub(crate) head: Head,
}

impl<'b, B: BrakingBook, T: Train> RunningSheet<'b, B, T> {
    // Leaves the passed row: the sheet is closed again, and the train is handed back.
    pub fn leave(self) -> (ClosedSheet, T)
        ensures { (result.0.base ≡ self.entry.passed.base) × (result.1 ≡ self.entry.train) }
    {
        let RunningSheet {
            passed,
            train,
            head: _,
        } = self;
        (passed.leave(), train)
    }

    // Whether the train stands: pace 0, with stop told last.
    fn stands(&self) -> bool
        ensures { result ≡ stands (journey_of T.Train.numbers self.now) }
    {
        is_standing(&self.train, self.head)
    }

    // Where the train is, how fast, and whether it stands.
    pub fn report(&self) -> Report
        ensures { result ≡ report_of (journey_of T.Train.numbers self.now) }
    {
        Report {
            position: self.head.position,
            pace: self.train.pace(),
            stands: self.stands(),
        }
    }

    // Moves the train one metre on over the intervals in use and what it reads on its way.
    fn move_on(&mut self, intervals: &[Interval], way: Way<'_>)
        ensures passed { passed_of self.new ≡ passed_of self.old }
        ensures advances { Advances (B.BrakingBook.emergencies (book_of (passed_of self.old))) (running_heading self.old).start intervals.now way.entry.gradients.now way.entry.row.now (journey_of T.Train.numbers self.old) (journey_of T.Train.numbers self.new) }
    {
        let book = self.passed.book;
        let start = self.passed.base.start;
        self.head = advance(
            &mut self.train,
            book,
            start,
            intervals,
            way.gradients,
            way.row,
            self.head,
        );
    }

    // Moves the train one metre on, unless it stands, and tells where it then is. The two cases return apart, so that each is proved by
    // itself.
    fn go_on(&mut self, intervals: &[Interval], way: Way<'_>) -> Report
        ensures { GoesOn (B.BrakingBook.emergencies (book_of (passed_of self.old))) T.Train.numbers (stands (journey_of T.Train.numbers self.old)) self.old intervals.now way.entry result self.new }
    {
        if self.stands() {
            return self.report();
        }
        self.move_on(intervals, way);
        self.report()
    }

    // Moves the train one metre on, unless it stands, and reports where it is. It rolls the metre, with that metre's class; where it
    // then is at the begin of an interval up to the mark's whose code is not the one told last, it hears that code, with the class of
    // the 170 m behind. Refused by 10 where a table is lent under its count or the row table has fewer than 64 bytes, and by 11 where a
    // byte of the passed row is no code; a refusal, and a train that stands, leave everything as it was.
    pub fn step(
        &mut self,
        intervals: &[Interval],
        gradients: &[Entry<Class>],
        row_table: &[u8],
    ) -> Result<Report, Refusal>
        ensures { Stepped (B.BrakingBook.emergencies (book_of (passed_of self.old))) T.Train.numbers (step_fault (running_heading self.old) intervals.now gradients.now row_table.now (pass_of (passed_of self.old))) (stands (journey_of T.Train.numbers self.old)) self.old intervals.now gradients.now row_table.now result self.new }
    {
        let intervals = in_use(intervals, self.passed.base.intervals)?;
        let way = self.passed.way(gradients, row_table)?;
        Ok(self.go_on(intervals, way))
    }
}
