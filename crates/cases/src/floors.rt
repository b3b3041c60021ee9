// Runs cases of floors (document 02, No. 8), with 01's speeds loaded, and prints what each call gives.
use crate::telling::{tell_order, tell_plan};
use dispatcher_calls::{kilmstra_pass, kilmstra_start};
use plan_calls::{kilmstra_plan_judge, kilmstra_plan_read};
use state::STATE_LENGTH;
use std::io;

// One task of period 40 and worst case 300 with floor 7, over eight levels and over seven; and as numbers, four a task and three.
fn the_loaded(rt: &impl Print, levels: &[u8]) -> io::Result<()> {
    let block = [32u8, 128, 20, 0, 9, 96, 7];
    tell_plan(
        rt,
        "floor 7 of eight levels",
        kilmstra_plan_read(levels, &block),
    )?;
    let seven = [112u8, 40, 20, 7, 130, 128, 200, 60, 20, 0];
    tell_plan(
        rt,
        "floor 7 of seven levels",
        kilmstra_plan_read(&seven, &block),
    )?;
    let last = [40u32, 300, 0, 7];
    tell_plan(
        rt,
        "numbers, floor 7",
        kilmstra_plan_judge(levels, 1, &last),
    )?;
    let over = [40u32, 300, 0, 8];
    tell_plan(
        rt,
        "numbers, floor 8",
        kilmstra_plan_judge(levels, 1, &over),
    )?;
    let one = [40u32, 300, 3];
    tell_plan(
        rt,
        "three numbers, one task",
        kilmstra_plan_judge(levels, 1, &one),
    )?;
    let two = [10u32, 400, 0, 10, 400, 0];
    tell_plan(
        rt,
        "three numbers a task, two tasks",
        kilmstra_plan_judge(levels, 2, &two),
    )
}

// A valve with floor 5 beside another task, where level 1 is nominal: it runs at level 5, among others and alone.
fn the_valve(rt: &impl Print, levels: &[u8]) -> io::Result<()> {
    let block = [33u8, 0, 5, 0, 3, 32, 5, 0, 20, 0, 12, 128, 0];
    let mut state = [0u8; STATE_LENGTH];
    tell_order(rt, "start", kilmstra_start(levels, &block, &[], &mut state))?;
    state[5] = 4;
    tell_order(rt, "below the floor", kilmstra_pass(&mut state, 1, 0))?;
    state[5] = 6;
    tell_order(
        rt,
        "above the floor and nominal",
        kilmstra_pass(&mut state, 1, 0),
    )?;
    state[5] = 5;
    tell_order(rt, "2 unfinished", kilmstra_pass(&mut state, 2, 0))?;
    tell_order(rt, "tick 2", kilmstra_pass(&mut state, 2, 1))?;
    tell_order(rt, "tick 10", kilmstra_pass(&mut state, 8, 0))?;
    tell_order(rt, "tick 14", kilmstra_pass(&mut state, 4, 1))?;
    tell_order(rt, "tick 16", kilmstra_pass(&mut state, 2, 1))?;
    state[10] = 128;
    tell_order(rt, "floor 8 in a state", kilmstra_pass(&mut state, 4, 0))?;
    state[10] = 112;
    tell_order(rt, "floor 7 in a state", kilmstra_pass(&mut state, 4, 0))
}

pub fn run(rt: &impl Print) -> io::Result<()> {
    let levels = [128u8, 40, 20, 7, 130, 128, 200, 60, 20, 6, 64];
    the_loaded(rt, &levels)?;
    the_valve(rt, &levels)
}
