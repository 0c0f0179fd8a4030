// Tables that are lent as slices with a count: the first `count` records are in use, and there may be room behind them. The
// count stands beside the slice, since the tables are the callers' own.
ghost use Rattle.std.specs.Prelude.{◌≡◌, length, is_ok, if◌then◌else◌, slice_set};
ghost use Rattle.codes.specs.Refusals.{told};
ghost use Rattle.codes.specs.Refusals.Told.{gives};
ghost use Rattle.ground.specs.Tables.{with_room, appending, removing, closed_up};

use codes::Refusal;

// Whether there is room for a record behind those in use. Refused by 10 where the table is shorter than its count, and by 1
// where the table or the limit is used up.
pub fn check_room<T>(table: &[T], count: usize, limit: usize) -> Result<(), Refusal>
    ensures { told result ≡ with_room (length table.now) count limit (gives tt) }
{
    if table.len() < count {
        return Err(Refusal::Size);
    }
    if count >= limit || count >= table.len() {
        return Err(Refusal::Full);
    }
    Ok(())
}

// Writes one record more behind those in use, and answers how many then are. Refused by 10 where the table is shorter than
// its count, and by 1 where the table or the limit is used up; a refusal leaves the table as it was.
pub fn append<T: Copy>(
    table: &mut [T],
    count: usize,
    limit: usize,
    added: T,
) -> Result<usize, Refusal>
    ensures answer { told result ≡ appending (length table.old) count limit }
    ensures after { table.new ≡ (if is_ok result then slice_set table.old count added else table.old) }
{
    check_room(table, count, limit)?;
    table[count] = added;
    Ok(count + 1)
}

// Takes out the record at a place, counted from 0, copies the later ones down one, and answers how many are then in use;
// the record then behind them stays. Refused by 10 where the table is shorter than its count, and by 8 where no record in
// use has the place; a refusal leaves the table as it was.
#[tactic(auto, using(crate::proofs::InUse::copied_down))]
pub fn remove<T: Copy>(table: &mut [T], count: usize, place: usize) -> Result<usize, Refusal>
    ensures answer { told result ≡ removing (length table.old) count place }
    ensures after { table.new ≡ (if is_ok result then closed_up table.old count place else table.old) }
{
    if table.len() < count {
        return Err(Refusal::Size);
    }
    if place >= count {
        return Err(Refusal::Absent);
    }
    table.copy_within(place + 1..count, place);
    Ok(count - 1)
}
