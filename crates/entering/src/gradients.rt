// Entering a gradient.
ghost use Rattle.std.specs.Prelude.{◌≡◌, ◌+◌, is_ok, if◌then◌else◌, OnOk, slice_set};
ghost use Rattle.codes.specs.Refusals.{told};
ghost use Rattle.entering.specs.Faults.{ruled};
ghost use Rattle.entering.specs.Entering.{most_gradients, gradient_flaw, gradient_written, gradient_fault, gradient_of, FitGradient};

use super::checks::is_impossible_stretch;
use super::drafts::{Draft, enter};
use codes::{Class, Refusal};
use ground::Entry;

// A gradient is drawn by its faldtal in tenths of a permille.
impl Draft for Entry<i32> {
    type Record = Entry<Class>;

    ghost MOST = { most_gradients };

    ghost flaw = { gradient_flaw };

    ghost written = { gradient_written };

    ghost Fit = { FitGradient };

    const MOST: usize = 64;

    fn checked(&self, _in_use: &[Entry<Class>]) -> Result<Entry<Class>, Refusal> {
        if is_impossible_stretch(self.from, self.to) {
            return Err(Refusal::Stretch);
        }
        let value = Class::of_faldtal(self.value)?;
        Ok(Entry {
            from: self.from,
            to: self.to,
            value,
        })
    }
}

// Writes one gradient more behind those in use, of the class of its faldtal in tenths of a permille, and answers how many
// then are. Refused by 10 where the table is shorter than its count, by 1 where it or the limit of 64 is used up, by 6 where
// the stretch has no metres or ends behind 500,000, and by 5 where the faldtal is not -350 to 350; a refusal leaves the
// table as it was.
pub fn enter_gradient(
    table: &mut [Entry<Class>],
    count: usize,
    from: u32,
    to: u32,
    faldtal: i32,
) -> Result<usize, Refusal>
    ensures answer { told result ≡ ruled (gradient_fault table.old count from to faldtal) (count + 1) }
    ensures after { table.new ≡ (if is_ok result then slice_set table.old count (gradient_of from to faldtal) else table.old) }
    ensures fit { OnOk result (FitGradient (gradient_of from to faldtal)) }
{
    let draft = Entry {
        from,
        to,
        value: faldtal,
    };
    enter(table, count, draft)
}
