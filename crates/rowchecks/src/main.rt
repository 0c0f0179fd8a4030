// Holds the library's rows against a second implementation of the five rules, over many small sheets drawn at random and several
// braking books: the verdict on every row, and the highest row.

#![tactic(auto)]

mod comparing;
mod known;
mod metres;
mod plain;
mod recipes;
mod tallies;
mod verdicts;

use anyhow::anyhow;
use books::{BrakingBook, FileBook, PublishedBook};
use comparing::compare_sheets;
use recipes::{Recipe, recipes};

// How many sheets are drawn for each book.
const SHEETS: u32 = 1_000;

// Compares by a book, on sheets of intervals of at most `scale` metres, and tells what came of it.
fn compare<B: BrakingBook>(
    rt: &HostRuntime,
    name: &str,
    book: &B,
    scale: u32,
) -> anyhow::Result<()> {
    let tally = compare_sheets(rt.alloc(), book, scale, SHEETS)?;
    println!(rt; "book {name}: {tally}")?;
    Ok(())
}

// Compares by a book over the figures of a recipe.
fn compare_recipe(rt: &HostRuntime, recipe: &Recipe) -> anyhow::Result<()> {
    let table = recipe.table(rt.alloc())?;
    let mut book = FileBook::new();
    book.lay_over(table.as_slice())
        .map_err(|_| anyhow!("the recipe makes no book"))?;
    compare(rt, recipe.name, &book, recipe.scale)
}

fn run(rt: &HostRuntime) -> anyhow::Result<()> {
    compare(rt, "published", &PublishedBook, 700)?;
    for recipe in recipes() {
        compare_recipe(rt, recipe)?;
    }
    Ok(())
}

fn main(rt: HostRuntime) -> anyhow::Result<()> {
    run(&rt)
}
