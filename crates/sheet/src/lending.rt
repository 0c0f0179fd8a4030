// What the calls ask of the tables that they are lent, and what they read of them.
ghost use Rattle.std.specs.Prelude.{◌≡◌, None, ◌≤◌, length};
ghost use Rattle.codes.specs.declared.refusals.Refusal.TheVariants as refusal;
ghost use Rattle.ground.specs.Tables.{contents};
ghost use Rattle.entering.specs.Faults.{first};
ghost use Rattle.entering.specs.Entering.{short};
ghost use Rattle.sheet.specs.Faults.{row_short};
ghost use Rattle.sheet.specs.Reads.{Read};

use codes::Refusal;

// How many bytes a row table has at least: one for each interval that a sheet can have.
pub(super) const ROW_TABLE_SIZE: usize = 64;

// The records of a table that are in use. Refused by 10 where the table is lent under its count.
pub(super) fn in_use<T>(table: &[T], count: usize) -> Result<&[T], Refusal>
    ensures { Read (first (short table.now count) refusal.Size None) (λ records. records.now ≡ contents table.now count) result }
{
    table.get(0..count).ok_or(Refusal::Size)
}

// Whether a row table has fewer than 64 bytes.
pub(super) fn is_row_short(row_table: &[u8]) -> bool
    ensures { result ≡ row_short row_table.now }
{
    row_table.len() < ROW_TABLE_SIZE
}
