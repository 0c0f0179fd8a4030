// Checks a book file: reads it on standard input, and tells whether it is accepted or by which refusal and where it is refused.

#![tactic(auto)]

ghost use Rattle.std.specs.Prelude.{◌≡◌, IfOk, string_bytes};
ghost use Rattle.bookcheck.specs.Lines.{line_of, Tells};

use bookfile::{Fault, read};
use std::alloc::{AllocError, Global};
use std::io;
use std::io::Read;

// One byte more than a book file may have shows that it is too long; nothing behind that byte is read.
const READ_LIMIT: u64 = 32_769;

// The line for the outcome of reading a file. Where memory fails, there is none.
fn line(heap: Global, outcome: Result<(), Fault>) -> Result<String, AllocError>
    ensures { IfOk result (λ text. string_bytes text ≡ line_of outcome) }
{
    match outcome {
        Ok(()) => String::from_str(heap, "accepted 594"),
        Err(Fault { refusal, place }) => {
            let number = refusal.number();
            format!(in heap; "refused {number} at {place}")
        }
    }
}

// The line that tells what becomes of a file.
fn verdict(heap: Global, file: &[u8]) -> Result<String, AllocError>
    ensures { IfOk result (λ text. Tells file.now (string_bytes text)) }
{
    let mut table = [0u16; 594];
    let outcome = read(file, &mut table);
    line(heap, outcome)
}

fn main(rt: HostRuntime) -> io::Result<()> {
    let heap = rt.alloc();
    let mut file = Vec::new(heap);
    rt.stdin().take(READ_LIMIT).read_to_end(&mut file)?;
    rt.println(verdict(heap, file.as_slice())?)
}
