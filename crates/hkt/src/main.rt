// Answers a script: reads it on standard input, and writes a line for each of its lines that has words.

#![tactic(auto)]

mod answering;
mod faults;
mod sheets;

use answering::answer;
use codes::Refusal;
use std::alloc::Global;
use std::io;
use std::io::Read;
use texts::Lines;
use wording::{Answer, answer_text};

// The longest script in bytes.
const LONGEST: u64 = 16_777_216;

// Answers the lines of a script in turn.
fn answer_lines(rt: &HostRuntime, heap: Global, script: &[u8]) -> io::Result<()> {
    let mut sheet = None;
    let mut row = Vec::new(heap);
    for (place, line) in Lines::of(script).enumerate() {
        if let Some(text) = answer(heap, &mut sheet, line, place + 1, &mut row)? {
            rt.println(text)?;
        }
    }
    Ok(())
}

fn main(rt: HostRuntime) -> io::Result<()> {
    let heap = rt.alloc();
    let mut script = Vec::new(heap);
    rt.stdin().take(LONGEST + 1).read_to_end(&mut script)?;
    if script.len() as u64 > LONGEST {
        return rt.println(answer_text(heap, Answer::Refused(Refusal::Size), &[])?);
    }
    answer_lines(&rt, heap, script.as_slice())
}
