// The parts of tables that are lent.
ghost use Rattle.std.specs.Prelude.{◌≡◌, ℕ, List, [], take};
ghost use Rattle.sheet.specs.Changes.{with_row};
ghost use Rattle.sheet.specs.Promises.{tables_of};
ghost use Rattle.runs.specs.Orders.{lent_tables};
ghost use Rattle.replay.specs.Meaning.{lent_of};

use super::calls::Lending;
use sheet::LentTables;

// The first records of a table, as many as are lent, or all where there are fewer.
pub(super) fn part<X>(table: &[X], lent: usize) -> &[X]
    ensures { result.now ≡ take lent table.now }
{
    &table[..lent.min(table.len())]
}

// The parts of the four tables that a call is lent.
pub(super) fn lent_parts<'a>(lent: Lending, whole: &LentTables<'a>) -> LentTables<'a>
    ensures { (row : List ℕ) → tables_of result [] ≡ with_row [] (lent_tables (lent_of lent) (tables_of whole.now row)) }
{
    LentTables {
        intervals: part(whole.intervals, lent.intervals),
        gradients: part(whole.gradients, lent.gradients),
        restrictions: part(whole.restrictions, lent.restrictions),
        marks: part(whole.marks, lent.marks),
    }
}
