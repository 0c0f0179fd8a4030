// Entering a speed restriction.
ghost use Rattle.std.specs.Prelude.{◌≡◌, ◌+◌, is_ok, if◌then◌else◌, OnOk, slice_set};
ghost use Rattle.codes.specs.Refusals.{told};
ghost use Rattle.entering.specs.Faults.{ruled};
ghost use Rattle.entering.specs.Entering.{most_restrictions, restriction_flaw, restriction_written, restriction_fault, restriction_of, FitRestriction};

use super::checks::is_impossible_stretch;
use super::drafts::{Draft, enter};
use codes::{Refusal, Speed};
use ground::Entry;

// A restriction is drawn by its km/h. Its check is a gradient's with another value to read; a trait for that one line would be longer.
#[tactic(auto, unfolding(crate::specs::Entering::no_speed, crate::specs::Entering::speed_of_kmh))]
impl Draft for Entry<u8> {
    type Record = Entry<Speed>;

    ghost MOST = { most_restrictions };

    ghost flaw = { restriction_flaw };

    ghost written = { restriction_written };

    ghost Fit = { FitRestriction };

    const MOST: usize = 64;

    fn checked(&self, _in_use: &[Entry<Speed>]) -> Result<Entry<Speed>, Refusal> {
        if is_impossible_stretch(self.from, self.to) {
            return Err(Refusal::Stretch);
        }
        let value = Speed::try_from(self.value)?;
        Ok(Entry {
            from: self.from,
            to: self.to,
            value,
        })
    }
}

// Writes one speed restriction more behind those in use, and answers how many then are. Refused by 10 where the table is
// shorter than its count, by 1 where it or the limit of 64 is used up, by 6 where the stretch has no metres or ends behind
// 500,000, and by 4 where the km/h are none of the nine speeds; a refusal leaves the table as it was.
pub fn enter_restriction(
    table: &mut [Entry<Speed>],
    count: usize,
    from: u32,
    to: u32,
    kmh: u8,
) -> Result<usize, Refusal>
    ensures answer { told result ≡ ruled (restriction_fault table.old count from to kmh) (count + 1) }
    ensures after { table.new ≡ (if is_ok result then slice_set table.old count (restriction_of from to kmh) else table.old) }
    ensures fit { OnOk result (FitRestriction (restriction_of from to kmh)) }
{
    let draft = Entry {
        from,
        to,
        value: kmh,
    };
    enter(table, count, draft)
}
