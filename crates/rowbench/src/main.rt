// How many rows are worked out in a second. `./run rowbench N` works out N rows of the fullest sheet and N of a usual one, and tells
// how long that took; without a number each row is worked out once, and no time is told.

#![tactic(auto)]

mod sheets;

use anyhow::anyhow;
use books::PublishedBook;
use rows::work_out;
use sheets::Plan;
use std::env;
use std::time::Instant;
use trials::Sheet;

// Works out the row of a sheet so many times, and answers how many microseconds that took.
fn timed(rt: &HostRuntime, sheet: &Sheet, times: u32) -> anyhow::Result<u128> {
    let heap = rt.alloc();
    let line = sheet.line();
    let mut row = vec![in heap; 0u8; line.intervals.len()]?;
    let begun = Instant::now(rt)?;
    for _ in 0..times {
        work_out(heap, &line, 1, 30, &PublishedBook, &mut row).map_err(|_| anyhow!("no row"))?;
    }
    Ok(begun.elapsed(rt)?.as_micros())
}

// Tells how fast the row of a sheet is worked out; no time where no number of times was given.
fn tell_plan(rt: &HostRuntime, plan: Plan, times: Option<u32>) -> anyhow::Result<()> {
    let name = plan.name;
    let sheet = plan.sheet(rt.alloc())?;
    let micros = timed(rt, &sheet, times.unwrap_or(1))?;
    print!(rt; "{name}: worked out")?;
    if let Some(count) = times {
        let rate = count as u128 * 1_000_000 / micros.max(1);
        print!(rt; " {count} times in {micros} microseconds, {rate} a second")?;
    }
    println!(rt; "")?;
    Ok(())
}

// The number of times that is given as the first word, if any.
fn given_times(rt: &HostRuntime) -> anyhow::Result<Option<u32>> {
    let word = env::args(rt)?.nth(1);
    Ok(word.map(|word| word.as_str().parse()).transpose()?)
}

fn run(rt: &HostRuntime) -> anyhow::Result<()> {
    let times = given_times(rt)?;
    tell_plan(rt, Plan::FULLEST, times)?;
    tell_plan(rt, Plan::USUAL, times)
}

fn main(rt: HostRuntime) -> anyhow::Result<()> {
    run(&rt)
}
