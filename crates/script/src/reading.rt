// Reading the order that a line gives.
ghost use Rattle.std.specs.Prelude.{◌≡◌, []};
ghost use Rattle.texts.specs.Cuts.{words_in, words_of};
ghost use Rattle.script.specs.Orders.{with_row, ordered, Says, IsRead, meaning};

use super::kinds::Kind;
use super::orders::Order;
use texts::{Unread, Words};

// A mark's number, the approach code and the bytes of a row.
fn examine(words: &mut Words<'_>, row: &mut Vec<u8>) -> Result<Order, Unread>
    requires { row.old.items ≡ [] }
    ensures { Says (with_row Order.Examine (words_in words.old.rest.now)) result row.new.items }
{
    let mark = words.number().ok_or(Unread::Unclear)?;
    let approach = words.number().ok_or(Unread::Unclear)?;
    words.bytes(row)?;
    Ok(Order::Examine { mark, approach })
}

// The order of a kind that the words behind its own give.
fn ordered(kind: Kind, mut words: Words<'_>, row: &mut Vec<u8>) -> Result<Order, Unread>
    requires { row.old.items ≡ [] }
    ensures { Says (ordered kind (words_in words.entry.rest.now)) result row.new.items }
{
    let order = match kind {
        Kind::Start => words.one().map(|start| Order::Start { start }),
        Kind::Interval => {
            words
                .two()
                .map(|(number, length)| Order::Interval { number, length })
        }
        Kind::Gradient => {
            words.three().map(|(from, to, faldtal)| Order::Gradient { from, to, faldtal })
        }
        Kind::Restriction => {
            words
                .three()
                .map(|(from, to, speed)| Order::Restriction { from, to, speed })
        }
        Kind::Mark => words.three().map(|(number, position, danger)| Order::Mark {
            number,
            position,
            danger,
        }),
        Kind::WorkOut => {
            words
                .two()
                .map(|(mark, approach)| Order::WorkOut { mark, approach })
        }
        Kind::Examine => return examine(&mut words, row),
    };
    order.ok_or(Unread::Unclear)
}

// Reads a line: the order that it gives, or none where it has no word, and into the buffer the bytes of the row that it has; the
// buffer is empty where it has none. A line that is none of the orders, or has a number that its place cannot hold, is unclear.
// Where memory fails, nothing is said of the buffer. It stands beside the order, so that one buffer serves all lines.
pub fn read_order(line: &[u8], row: &mut Vec<u8>) -> Result<Option<Order>, Unread>
    ensures { IsRead (meaning (words_of line.now)) result row.new.items }
{
    row.clear();
    let mut words = Words::of(line);
    let Some(word) = words.next() else {
        return Ok(None);
    };
    let kind = Kind::of(word).ok_or(Unread::Unclear)?;
    ordered(kind, words, row).map(Some)
}
