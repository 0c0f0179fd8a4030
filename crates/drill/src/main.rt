// A drive over a sheet by its typed calls, as the program of a host makes them: enter, strike, close, work out, submit, set off, step, leave.

#![tactic(auto)]

mod drawing;
mod rides;

use anyhow::anyhow;
use books::PublishedBook;
use codes::{Class, Refusal, Speed};
use drawing::closed_sheet;
use ground::Entry;
use rides::{drive, passed_sheet};
use rules::{Interval, StopMark};
use sheet::LentTables;
use trains::LateTrain;

// Draws the sheet, works out its row and drives a late train over it from 100 km/h.
fn drill(rt: &HostRuntime) -> anyhow::Result<()> {
    let mut intervals = [Interval {
        number: 0,
        length: 0,
    }; 8];
    let mut gradients = [Entry {
        from: 0,
        to: 0,
        value: Class::C11,
    }; 4];
    let mut restrictions = [Entry {
        from: 0,
        to: 0,
        value: Speed::V120,
    }; 4];
    let mut marks = [StopMark {
        number: 0,
        position: 0,
        danger: 0,
    }; 2];
    let mut row_table = [0u8; 64];
    let closed = closed_sheet(
        &mut intervals,
        &mut gradients,
        &mut restrictions,
        &mut marks,
    )
    .map_err(|_| anyhow!("the sheet was refused"))?;
    let lent = LentTables {
        intervals: &intervals,
        gradients: &gradients,
        restrictions: &restrictions,
        marks: &marks,
    };
    let train = LateTrain::new(100).map_err(|_| anyhow!("the train was refused"))?;
    let passed = passed_sheet(closed, &lent, &mut row_table, &PublishedBook).map_err(|_| anyhow!(
        "the row was refused"
    ))?;
    drive(rt, passed, train, &intervals, &gradients, &row_table)
}

fn main(rt: HostRuntime) -> anyhow::Result<()> {
    drill(&rt)
}
