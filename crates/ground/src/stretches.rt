// The worst value over a stretch of ground: the metres from its begin up to, and not with, its end.
//
// The value changes only where an entry begins or ends, so it is asked for at the stretch's begin and at each change
// within it: how long that takes depends on the number of entries, and not on that of the metres.
//
// Entries, from and to go from function to function as they are: a struct of them would be taken apart again at each change.
ghost use Rattle.std.specs.Prelude.{◌≡◌, fold};
ghost use Rattle.ground.specs.Grading.{Lawful};
ghost use Rattle.ground.specs.Ground.{metre_value, stretch_value};
ghost use Rattle.ground.specs.Steps.{worsened_at, worsened_by};
ghost use Rattle.ground.specs.StretchLaws.{StretchLaws};

use super::entries::{Entry, value_at};
use super::graded::Graded;

// The worst value so far, once the ground at a change is looked at, if the change lies within the stretch.
fn worsened_at<V: Graded>(entries: &[Entry<V>], from: u64, to: u64, worst: V, change: u64) -> V
    ensures { result ≡ worsened_at V.grading entries.now from to worst change }
{
    if from < change && change < to {
        worst.worse(value_at(entries, change))
    } else {
        worst
    }
}

// The worst value so far, once the changes that an entry makes are looked at: where it begins and where it ends.
fn worsened_by<V: Graded>(entries: &[Entry<V>], from: u64, to: u64, worst: V, entry: &Entry<V>) -> V
    ensures { result ≡ worsened_by V.grading entries.now from to worst entry.now }
{
    let at_begin = worsened_at(entries, from, to, worst, entry.from as u64);
    worsened_at(entries, from, to, at_begin, entry.to as u64)
}

// The worst value at the begin and at the changes within, where the stretch has metres.
fn worst_at_changes<V: Graded>(entries: &[Entry<V>], from: u64, to: u64) -> V
    ensures value { result ≡ fold (worsened_by V.grading entries.now from to) (metre_value V.grading entries.now from) entries.now }
    ensures lawful { Lawful V.grading }
{
    entries
        .iter()
        .fold(value_at(entries, from), |worst, entry| {
            worsened_by(entries, from, to, worst, entry)
        })
}

// The worst value of the metres `from` to `to` - 1; a stretch without metres counts as undrawn ground.
#[tactic(auto, using(crate::proofs::Changes::worst_passed))]
pub fn worst_over<V: Graded>(entries: &[Entry<V>], from: u64, to: u64) -> V
    ensures value { result ≡ stretch_value V.grading entries.now from to }
    ensures laws { StretchLaws V.grading }
{
    if to <= from {
        return V::UNDRAWN;
    }
    worst_at_changes(entries, from, to)
}
