// The sheet Alfa as a sheet that owns its records.
use alfa::Variant;
use anyhow::anyhow;
use codes::{Class, Speed};
use ground::Entry;
use rules::{Interval, StopMark};
use std::alloc::Global;
use trials::Sheet;

// A variant of the sheet, with one mark, of number 1.
pub fn alfa_sheet(heap: Global, variant: Variant) -> anyhow::Result<Sheet> {
    let mut sheet = Sheet::new(heap, 10_000);
    for (number, length) in [(1, 420), (2, 280), (3, 210), (4, 200)] {
        sheet.intervals.push(Interval { number, length })?;
    }
    sheet.gradients.push(Entry {
        from: 9_000,
        to: variant.drawn_to,
        value: Class::of_faldtal(-30).map_err(|_| anyhow!("no faldtal"))?,
    })?;
    if let Some(end) = variant.slow_to {
        sheet.restrictions.push(Entry {
            from: 10_200,
            to: end,
            value: Speed::V50,
        })?;
    }
    sheet.marks.push(StopMark {
        number: 1,
        position: 11_110,
        danger: variant.danger,
    })?;
    Ok(sheet)
}
