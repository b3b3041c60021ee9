// Runs the cases that are not proved, and prints what each call gives.
#![tactic(auto)]

mod base;
mod fixed_ticks;
mod floors;
mod level_blocks;
mod lone_jobs;
mod paired_tasks;
mod telling;
mod totals;

use std::io;

fn main(rt: HostRuntime) -> io::Result<()> {
    base::run(&rt)?;
    level_blocks::run(&rt)?;
    fixed_ticks::run(&rt)?;
    lone_jobs::run(&rt)?;
    paired_tasks::run(&rt)?;
    totals::run(&rt)?;
    floors::run(&rt)
}
