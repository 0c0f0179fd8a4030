// Working out and submitting a row, and driving a train over it.
use anyhow::anyhow;
use books::BrakingBook;
use codes::{Class, Refusal};
use ground::Entry;
use rules::Interval;
use sheet::{ClosedSheet, LentTables, PassedSheet, RunningSheet};
use trains::Train;

// The sheet with the highest row before mark 1 passed, for the approach code 100.
pub fn passed_sheet<'b, B: BrakingBook>(
    closed: ClosedSheet,
    lent: &LentTables<'_>,
    row_table: &mut [u8],
    book: &'b B,
) -> Result<PassedSheet<'b, B>, Refusal> {
    let mut row = [0u8; 4];
    closed.work_out(lent, 1, 100, book, &mut row)?;
    closed
        .submit(lent, row_table, 1, 100, &row, book)
        .map_err(|refused| refused.why)
}

// Steps until the train stands, and tells where its pace changes. Fails where a step is refused. The tables go one by one, as the
// sheet's calls take them.
fn tell_steps<B: BrakingBook, T: Train>(
    rt: &HostRuntime,
    running: &mut RunningSheet<'_, B, T>,
    intervals: &[Interval],
    gradients: &[Entry<Class>],
    row_table: &[u8],
) -> anyhow::Result<()> {
    let mut pace = None;
    for _ in 0..2_000 {
        let report = running
            .step(intervals, gradients, row_table)
            .map_err(|_| anyhow!("a step was refused"))?;
        if pace != Some(report.pace) {
            pace = Some(report.pace);
            let position = report.position;
            let pace = report.pace;
            println!(rt; "at {position} pace {pace}")?;
        }
        if report.stands {
            println!(rt; "stands")?;
            return Ok(());
        }
    }
    Ok(())
}

// Sets the train off, drives until it stands, and leaves the sheet. The tables go one by one, as the sheet's calls take them.
pub fn drive<B: BrakingBook, T: Train + Drop>(
    rt: &HostRuntime,
    passed: PassedSheet<'_, B>,
    train: T,
    intervals: &[Interval],
    gradients: &[Entry<Class>],
    row_table: &[u8],
) -> anyhow::Result<()> {
    let mut running = passed
        .set_off(train, gradients, row_table)
        .map_err(|_| anyhow!("the train was not set off"))?;
    tell_steps(rt, &mut running, intervals, gradients, row_table)?;
    let (_closed, train) = running.leave();
    let pace = train.pace();
    println!(rt; "left at pace {pace}")?;
    Ok(())
}
