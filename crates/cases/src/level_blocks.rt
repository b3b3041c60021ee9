// Runs cases of level blocks (document 02, No. 1), and prints what each call gives.
use crate::telling::tell_refusal;
use dispatcher_calls::{kilmstra_pass, kilmstra_start};
use plan_calls::kilmstra_levels_read;
use state::STATE_LENGTH;
use std::io;

// A line of a level block: the count of its levels, or a refusal.
fn tell_levels(rt: &impl Print, what: &str, answer: u64) -> io::Result<()> {
    if answer < 256 {
        return tell_refusal(rt, what, answer);
    }
    let count = answer / 256;
    println!(rt; "{what}: levels {count}")
}

// A line of an order: its task, level and hold, or a refusal.
fn tell_order(rt: &impl Print, what: &str, answer: u64) -> io::Result<()> {
    if answer < 256 {
        return tell_refusal(rt, what, answer);
    }
    let task = answer / 65536 % 256;
    let level = answer / 16777216 % 256;
    let hold = answer / 4294967296;
    println!(rt; "{what}: task {task} level {level} hold {hold}")
}

// On each side of 18, 19 and 20.
fn the_level_blocks(rt: &impl Print) -> io::Result<()> {
    let base = [128u8, 40, 20, 7, 130, 128, 200, 60, 20, 6, 64];
    tell_levels(rt, "01's speeds", kilmstra_levels_read(&base))?;
    tell_levels(rt, "count 0", kilmstra_levels_read(&[0u8, 0]))?;
    tell_levels(rt, "count 9", kilmstra_levels_read(&[144u8, 0]))?;
    tell_levels(rt, "a closing bit", kilmstra_levels_read(&[16u8, 5]))?;
    tell_levels(rt, "a byte too long", kilmstra_levels_read(&[16u8, 4, 0]))?;
    tell_levels(rt, "speed 0", kilmstra_levels_read(&[16u8, 0]))?;
    tell_levels(rt, "speed 1", kilmstra_levels_read(&[16u8, 4]))?;
    tell_levels(rt, "speed 1,000", kilmstra_levels_read(&[31u8, 160]))?;
    tell_levels(rt, "speed 1,001", kilmstra_levels_read(&[31u8, 164]))?;
    tell_levels(rt, "speeds 5, 5", kilmstra_levels_read(&[32u8, 20, 5]))
}

// One level alone, of speed 1,000: a job of 1,000 units takes the whole of its period of 1 tick.
fn one_level_alone(rt: &impl Print) -> io::Result<()> {
    let levels = [31u8, 160];
    let block = [16u8, 128, 0, 128, 31, 64];
    let mut state = [0u8; STATE_LENGTH];
    tell_order(
        rt,
        "start",
        kilmstra_start(&levels, &block, &[], &mut state),
    )?;
    tell_order(rt, "tick 1", kilmstra_pass(&mut state, 1, 1))
}

pub fn run(rt: &impl Print) -> io::Result<()> {
    the_level_blocks(rt)?;
    one_level_alone(rt)
}
