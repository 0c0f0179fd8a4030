// Tests of the published book against the print, and of the classes of faldtal.

#![tactic(auto)]

mod classes;
mod printed;

use books::PublishedBook;
use classes::{FALDTAL, is_of_class};
use printed::{Findings, compare_print};
use std::fs;

// The classes of faldtal at each edge and beside it.
fn tell_classes(rt: &HostRuntime) -> anyhow::Result<()> {
    for (faldtal, due) in FALDTAL {
        if !is_of_class(faldtal, due) {
            let class = due.unwrap_or(0);
            println!(rt; "  not of class {class}: {faldtal}")?;
        }
    }
    let as_due = FALDTAL
        .into_iter()
        .filter(|(faldtal, due)| is_of_class(*faldtal, *due))
        .count();
    let count = FALDTAL.len();
    println!(rt; "classes of faldtal: {as_due} of {count} as due")?;
    Ok(())
}

// Tells each figure that the book has otherwise.
fn tell_differences(rt: &HostRuntime, findings: &Findings) -> anyhow::Result<()> {
    for difference in findings.differences.iter() {
        println!(rt; "  {difference}")?;
    }
    Ok(())
}

// Compares one print with the published book, and tells how many figures agree, differ and are missing.
fn tell_print(rt: &HostRuntime, title: &str, name: &str) -> anyhow::Result<Findings> {
    let text = fs::read_to_string(rt, name)?;
    let findings = compare_print(rt.alloc(), &PublishedBook, text.as_str())?;
    let agree = findings.agree;
    let differ = findings.differences.len();
    let missing = findings.missing();
    println!(rt; "{title}: {agree} agree, {differ} differ, {missing} missing")?;
    Ok(findings)
}

// Tells the headings that are no speeds, each once with the number of figures under it.
fn tell_strange(rt: &HostRuntime, findings: &Findings) -> anyhow::Result<()> {
    let figures = findings.strange.len();
    if let Some(kmh) = findings.strange.first() {
        println!(rt; "  {kmh}: no such speed, {figures} figures left out")?;
    }
    Ok(())
}

// The prints: as it is, with a column for 45 km/h, and with a heading for it alone.
fn tell_prints(rt: &HostRuntime) -> anyhow::Result<()> {
    let findings = tell_print(rt, "printed figures", "printed.txt")?;
    tell_differences(rt, &findings)?;
    tell_strange(rt, &findings)?;
    let findings = tell_print(rt, "with a column 45", "printed_45.txt")?;
    tell_differences(rt, &findings)?;
    tell_strange(rt, &findings)?;
    let findings = tell_print(rt, "with a heading 45 alone", "printed_shifted.txt")?;
    tell_strange(rt, &findings)
}

fn run(rt: &HostRuntime) -> anyhow::Result<()> {
    tell_classes(rt)?;
    tell_prints(rt)
}

fn main(rt: HostRuntime) -> anyhow::Result<()> {
    run(&rt)
}
