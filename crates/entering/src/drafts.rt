// Entering a record, whatever its kind: what is checked, and where it is written.
ghost use Rattle.std.specs.Prelude.{◌≡◌, ℕ, ◌+◌, List, Option, is_ok, if◌then◌else◌, OnOk, slice_set};
ghost use Rattle.codes.specs.declared.refusals.Refusal.{Refusal};
ghost use Rattle.codes.specs.Refusals.{told};
ghost use Rattle.ground.specs.Tables.{contents};
ghost use Rattle.entering.specs.Faults.{ruled};
ghost use Rattle.entering.specs.Entering.{room_fault};

use codes::Refusal;
use ground::check_room;

// A record as a caller draws it.
pub trait Draft: Copy {
    // The record that is written for it.
    type Record: Copy;

    // How many records of the kind a line has at most, the first refusal that is due beside the records in use, the record that is
    // written, and what a written record fulfils.
    ghost MOST: { ℕ };

    ghost flaw: { Self → List Self.Record → Option Refusal };

    ghost written: { Self → Self.Record };

    ghost Fit: { Self.Record → Type 0 };

    const MOST: usize;

    // The record that is written for the draft, unless a refusal is due beside the records in use.
    fn checked(&self, in_use: &[Self::Record]) -> Result<Self::Record, Refusal>
        ensures answer { told result ≡ ruled (flaw self.now in_use.now) (written self.now) }
        ensures fit { OnOk result (Fit (written self.now)) };
}

// Writes the record of a draft behind those in use, and answers how many then are. Refused by 10 where the table is shorter than its
// count, by 1 where it or the limit is used up, and then as the draft is; a refusal leaves the table as it was. The
// count stands beside the slice, since the tables are the callers' own; each kind of record has a call of its own, with its arguments.
pub(super) fn enter<D: Draft>(
    table: &mut [D::Record],
    count: usize,
    draft: D,
) -> Result<usize, Refusal>
    ensures answer { told result ≡ ruled (room_fault table.old count D.MOST (D.flaw draft (contents table.old count))) (count + 1) }
    ensures after { table.new ≡ (if is_ok result then slice_set table.old count (D.written draft) else table.old) }
    ensures fit { OnOk result (D.Fit (D.written draft)) }
{
    check_room(table, count, D::MOST)?;
    table[count] = draft.checked(&table[0..count])?;
    Ok(count + 1)
}
