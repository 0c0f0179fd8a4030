// Tests of working out and examining rows: a sheet that was worked out by hand.

#![tactic(auto)]

mod cases;
mod sheets;
mod tabled;
mod telling;
mod texts;

use telling::tell_alfa;

fn main(rt: HostRuntime) -> anyhow::Result<()> {
    tell_alfa(&rt)
}
