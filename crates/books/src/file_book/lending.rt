// A file book is made, laid over a lent table, and asked.
ghost use Rattle.std.specs.Prelude.{◌≡◌};
ghost use Rattle.laws.specs.Questions.{emergency_of, service_of};
ghost use Rattle.laws.specs.Judged.{Judged};
ghost use Rattle.books.specs.Printed.{printed_emergency, printed_service};
ghost use Rattle.books.specs.PrintedLaws.{printed};
ghost use Rattle.books.specs.Lent.{Agree, Unlent};
ghost use Rattle.books.specs.FileBooks.{shown, laid, shown_distances, shown_laws};

use super::FileBook;
use crate::braking::BrakingBook;
use crate::published::PublishedBook;
use codes::{Class, Code, RecordFault, Refusal, Speed};
use laws::{Figures, Table, judge};

// No table is lent, and the published figures stand in for it: they are a book, and answer each question as printed.
#[tactic(auto, using(crate::specs::PrintedLaws::printed_fits, crate::proofs::AsPrinted::printed_agree))]
fn nothing_lent<'a>() -> Option<&'a [u16]>
    ensures { Unlent result }
{
    None
}

impl<'a> FileBook<'a> {
    // A file book starts over the published figures.
    pub fn new() -> FileBook<'a>
        ensures figures { shown result ≡ printed }
        ensures answers { Agree (emergency_of (shown result)) (service_of (shown result)) printed_emergency printed_service }
    {
        FileBook {
            table: nothing_lent(),
        }
    }

    // Lays the book over a table in writing order. A table that is no book is refused, and the book stays as it was: by 10 where
    // it has not 594 figures, by 17 where one is outside 1 to 4,095 m, and by 20 where they break a law.
    #[tactic(auto, using(laws::proofs::Fits::fits_from_book))]
    pub fn lay_over(&mut self, table: &'a [u16]) -> Result<(), Refusal>
        ensures judged { Judged table.now result }
        ensures after { shown self.new ≡ laid (shown self.old) table.now result }
    {
        judge(table)?;
        self.table = Some(table);
        Ok(())
    }
}

impl<'a> BrakingBook for FileBook<'a> {
    ghost emergencies = { λ book. emergency_of (shown book) };

    ghost services = { λ book. service_of (shown book) };

    ghost distances = { shown_distances };

    ghost laws = { shown_laws };

    #[tactic(auto, using(crate::proofs::AsPrinted::emergency_as_printed))]
    fn emergency(&self, class: Class, from: Speed, to: Code) -> Result<u16, Refusal> {
        match self.table {
            None => PublishedBook.emergency(class, from, to),
            Some(_) if !(to < Code::Go(from)) => Err(Refusal::Record(RecordFault::Entry)),
            Some(figures) => Ok(Table { figures }.emergency(class, from, to)),
        }
    }

    #[tactic(auto, using(crate::proofs::AsPrinted::service_as_printed))]
    fn service(&self, class: Class, from: Speed) -> u16 {
        match self.table {
            None => PublishedBook.service(class, from),
            Some(figures) => Table { figures }.service(class, from),
        }
    }
}
