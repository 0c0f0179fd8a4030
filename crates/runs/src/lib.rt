// Runs of the nine calls over a sheet, and the law over every run: theorems for the layers above.

#![tactic(auto)]

ghost use Rattle.runs.specs.Runs.{Determined};
ghost use Rattle.runs.specs.Law.{LawOverRuns};

use books::BrakingBook;

// The law over runs, for every book.
fn keeps_law<B: BrakingBook>(book: &B)
    ensures { LawOverRuns (B.BrakingBook.emergencies book.now) (B.BrakingBook.services book.now) }
{}

// What stands after a list of calls is determined by the calls and the paces told.
fn is_determined<B: BrakingBook>(book: &B)
    ensures { Determined (B.BrakingBook.emergencies book.now) (B.BrakingBook.services book.now) }
{}
