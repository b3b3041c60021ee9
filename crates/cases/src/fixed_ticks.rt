// Runs cases of fixed ticks (document 02, No. 2), with 01's speeds loaded, and prints what each call gives.
use crate::telling::{tell_order, tell_plan};
use dispatcher_calls::{kilmstra_pass, kilmstra_start};
use plan_calls::kilmstra_plan_read;
use state::STATE_LENGTH;
use std::io;

// One task of period 40 and worst case 300, with 3 fixed ticks and damaged; 255 fixed ticks; a plan that only one fixed tick makes too much.
fn the_editions(rt: &impl Print, levels: &[u8]) -> io::Result<()> {
    let sensor = [32u8, 128, 20, 0, 9, 96, 24];
    tell_plan(rt, "edition 2", kilmstra_plan_read(levels, &sensor))?;
    let third = [48u8, 128, 20, 0, 9, 96, 24];
    tell_plan(rt, "edition 3", kilmstra_plan_read(levels, &third))?;
    let zero = [32u8, 128, 20, 0, 9, 96, 0];
    tell_plan(
        rt,
        "no fixed tick and no floor",
        kilmstra_plan_read(levels, &zero),
    )?;
    let most = [32u8, 128, 128, 0, 0, 87, 248];
    tell_plan(rt, "255 fixed ticks", kilmstra_plan_read(levels, &most))?;
    let over = [
        33u8, 128, 5, 0, 12, 128, 0, 0, 10, 0, 25, 0, 0, 0, 60, 0, 75, 0, 32,
    ];
    tell_plan(rt, "one tick too much", kilmstra_plan_read(levels, &over))
}

// An angle sensor of 7 fixed ticks beside a short task: its job is interrupted within them at tick 6, and finishes early within them at 8.
fn the_sensor(rt: &impl Print, levels: &[u8]) -> io::Result<()> {
    let block = [33u8, 0, 3, 0, 0, 80, 0, 0, 18, 0, 1, 64, 112];
    let mut state = [0u8; STATE_LENGTH];
    tell_order(rt, "start", kilmstra_start(levels, &block, &[], &mut state))?;
    tell_order(rt, "tick 1", kilmstra_pass(&mut state, 1, 1))?;
    tell_order(rt, "tick 6", kilmstra_pass(&mut state, 5, 0))?;
    tell_order(rt, "tick 7", kilmstra_pass(&mut state, 1, 1))?;
    tell_order(rt, "4 unfinished", kilmstra_pass(&mut state, 4, 0))?;
    tell_order(rt, "tick 8", kilmstra_pass(&mut state, 1, 1))
}

pub fn run(rt: &impl Print) -> io::Result<()> {
    let levels = [128u8, 40, 20, 7, 130, 128, 200, 60, 20, 6, 64];
    the_editions(rt, &levels)?;
    the_sensor(rt, &levels)
}
