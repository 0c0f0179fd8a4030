// Which code a train is told at a position, by a row's bytes and where the intervals begin.
ghost use Rattle.std.specs.Prelude.{◌≡◌, List, length, slice_index};
ghost use Rattle.codes.specs.declared.gradients.Class.{Class};
ghost use Rattle.codes.specs.declared.speeds.Speed.{Speed};
ghost use Rattle.ground.specs.declared.entries.Entry.{Entry};
ghost use Rattle.rules.specs.Tracks.{Mark};
ghost use Rattle.rows.specs.Drawings.{lengths_of};
ghost use Rattle.rows.specs.Passing.{read_code, codes_of};
ghost use Rattle.driving.specs.Driving.{track_over, code_in, is_told, Due};

use super::heads::Head;
use codes::Code;
use rules::Interval;

// The code of a byte; stop where it is no code. As in `rows`: a line, which each crate has for itself.
fn code_of(byte: u8) -> Code
    ensures { result ≡ read_code byte }
{
    Code::try_from(byte).unwrap_or(Code::Stop)
}

// The code of the interval at a place of a row, counted from 0; stop where the byte is no code, and behind the row.
pub fn code_in(row: &[u8], place: usize) -> Code
    ensures { result ≡ code_in row.now place }
{
    row.get(place).copied().map_or(Code::Stop, code_of)
}

// How long the interval at a place is, in metres; 0 behind the last, since a row may reach beyond
// the intervals lent.
fn length_at(intervals: &[Interval], place: usize) -> u32
    ensures { result ≡ slice_index (lengths_of intervals.now) place }
{
    intervals.get(place).map_or(0, |interval| interval.length)
}

// Whether a train hears the code of an interval: it is where that begins, and the code is not the one told last.
fn is_told(begin: u64, position: u64, code: Code, told: Code) -> bool
    ensures { result ≡ is_told begin position code told }
{
    begin == position && code != told
}

// The code that a train hears where its head is: that of the first interval up to the row's last that begins there and whose code is
// not the one told last; none where there is no such interval.
pub(super) fn told_at(start: u32, intervals: &[Interval], row: &[u8], head: Head) -> Option<Code>
    ensures { (gradients : List (Entry Class)) (restrictions : List (Entry Speed)) (mark : Mark) → mark.interval ≡ length row.now → Due (track_over start intervals.now gradients restrictions) mark (codes_of row.now) head.position head.told result }
{
    let sought = head.position as u64;
    let mut begin = start as u64;
    // A row may reach beyond the intervals that are lent, so the two are not zipped.
    for (place, &byte) in row.iter().enumerate() {
        if sought < begin {
            return None;
        }
        let code = code_of(byte);
        if is_told(begin, sought, code, head.told) {
            return Some(code);
        }
        begin += length_at(intervals, place) as u64;
    }
    None
}
