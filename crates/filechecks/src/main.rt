// Tests of book files: a written book against the example file and the way back, and files damaged here, each held to the refusal
// and the place that are due.

#![tactic(auto)]

mod damage;
mod layout;
mod refusing;
mod written;

use damage::{CASES, Case, Damage, Due};
use layout::cut;
use refusing::is_as_due;
use std::fs;

// The written book: its bytes, the buffers that are refused, and the way back.
fn tell_written(rt: &HostRuntime, file: &[u8]) -> anyhow::Result<()> {
    let heap = rt.alloc();
    let example = fs::read(rt, "published.book")?;
    let size = file.len();
    let is_same = example.as_slice() == file;
    println!(rt; "written book: {size} bytes, as the example file: {is_same}")?;
    let is_there = cut(file, 152).item == b"\x07\x00\x01\x00\x03\x78\x64\xa1\x01".as_slice();
    println!(rt; "417 m from 120 to 100 in class 3 is 07 00 01 00 03 78 64 A1 01: {is_there}")?;
    let is_short_refused = written::refuses_buffer(heap, 5_246)?;
    let is_long_refused = written::refuses_buffer(heap, 5_248)?;
    println!(rt;
        "buffers of 5246 and 5248 bytes are refused: {is_short_refused} {is_long_refused}"
    )?;
    // of a refused file no figure is equal
    let back = written::figures_back(file).unwrap_or(0);
    println!(rt; "written and read back: {back} figures equal")?;
    Ok(())
}

// The records in another order, with remarks between.
fn tell_shuffled(rt: &HostRuntime, file: &[u8]) -> anyhow::Result<()> {
    let heap = rt.alloc();
    let other = written::shuffled(heap, file)?;
    let back = written::figures_back(other.as_slice()).unwrap_or(0);
    println!(rt; "shuffled with remarks: {back} figures equal")?;
    let places = written::remarks(heap, other.as_slice())?;
    print!(rt; "remarks at")?;
    for place in places.iter() {
        print!(rt; " {place}")?;
    }
    println!(rt; "")?;
    Ok(())
}

// The damaged files: how many are refused as is due, and which are not.
fn tell_damaged(rt: &HostRuntime, file: &[u8]) -> anyhow::Result<()> {
    let mut as_due: usize = 0;
    // counted by hand, since memory for a damaged file may fail and ends the run
    for case in CASES {
        if is_as_due(rt.alloc(), file, case)? {
            as_due = as_due.saturating_add(1);
        } else {
            let record = case.record;
            let (number, place) = case.due.map_or((0, 0), |due| (due.number, due.place));
            println!(rt; "  not refused as due: record {record}, refusal {number}, place {place}")?;
        }
    }
    let count = CASES.len();
    println!(rt; "damaged files: {as_due} of {count} as due")?;
    Ok(())
}

// A record from 45 km/h is no record.
fn tell_45(rt: &HostRuntime, file: &[u8]) -> anyhow::Result<()> {
    let due = Some(Due {
        number: 17,
        place: 2_628,
    });
    let case = Case {
        record: 297,
        damage: Damage::From(45),
        due,
    };
    let is_refused = is_as_due(rt.alloc(), file, case)?;
    println!(rt; "a record from 45 is refused by 17: {is_refused}")?;
    Ok(())
}

fn run(rt: &HostRuntime) -> anyhow::Result<()> {
    let file = written::published(rt.alloc())?;
    tell_written(rt, file.as_slice())?;
    tell_shuffled(rt, file.as_slice())?;
    tell_45(rt, file.as_slice())?;
    tell_damaged(rt, file.as_slice())
}

fn main(rt: HostRuntime) -> anyhow::Result<()> {
    run(&rt)
}
