// Entries, which give the ground of a stretch a value, and the value of one metre.
//
// Positions are whole metres and grow in the driving direction. A metre is asked for as a u64, so that what is reckoned
// from an entry's end cannot wrap.
ghost use Rattle.std.specs.Prelude.{◌≡◌};
ghost use Rattle.ground.specs.Ground.{covers, metre_value};

use super::graded::Graded;

// A value over the metres `from` to `to` - 1; over none where `to` is not above `from`.
#[derive(Clone, Copy)]
pub struct Entry<V> {
    pub from: u32,
    pub to: u32,
    pub value: V,
}

impl<V> Entry<V> {
    // Whether the metre is one of the entry's.
    pub fn covers(&self, metre: u64) -> bool
        ensures { result ≡ covers metre self.now }
    {
        metre >= self.from as u64 && metre < self.to as u64
    }
}

// The value of a metre: the worst of the entries that cover it, or that of undrawn ground where none does.
pub fn value_at<V: Graded>(entries: &[Entry<V>], metre: u64) -> V
    ensures { result ≡ metre_value V.grading entries.now metre }
{
    entries
        .iter()
        .filter(|entry| entry.covers(metre))
        .map(|entry| entry.value)
        .reduce(
            |worst: V, value: V| -> V
                ensures { result ≡ V.grading.worse worst value }
            { worst.worse(value) },
        )
        .unwrap_or(V::UNDRAWN)
}
