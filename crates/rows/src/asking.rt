// What a call asks for: a stop mark of a line, an approach code and a row of the right size.
ghost use Rattle.std.specs.Prelude.{length};
ghost use Rattle.rows.specs.Drawings.{drawing_of};
ghost use Rattle.rows.specs.Asking.{AskedFor};

use super::targets::{Target, locate};
use codes::{Refusal, Speed};
use rules::Line;

// Where the mark stands before which a row is asked for, and the speed of the approach code. Refused by 8 (no such mark, or it stands
// in no interval), 4 (the approach code is no speed) and 10 (the row has not a byte for each interval up to the mark's). What is
// asked for comes one by one, as a host hands it in.
pub(super) fn asked_for(
    line: &Line<'_>,
    mark: u16,
    approach: u8,
    row: &[u8],
) -> Result<(Target, Speed), Refusal>
    ensures { AskedFor (drawing_of line.now) mark approach (length row.now) result }
{
    let target = locate(line, mark)?;
    let speed = Speed::try_from(approach)?;
    if row.len() != target.held.interval {
        return Err(Refusal::Size);
    }
    Ok((target, speed))
}
