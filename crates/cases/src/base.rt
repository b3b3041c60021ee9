// Runs the cases of document 01 that are not starred, with 01's speeds loaded, and prints what each call gives.
use crate::telling::tell_order;
use dispatcher_calls::{kilmstra_pass, kilmstra_show, kilmstra_start};
use plan_calls::{kilmstra_plan_copy, kilmstra_plan_read};
use state::STATE_LENGTH;
use std::io;

// "Bench plan at tick 0, passes: 5 finished, 14; 0, 11." A refusal leaves the state, so one state serves both.
fn at_the_start(rt: &impl Print, levels: &[u8], block: &[u8]) -> io::Result<()> {
    let mut state = [0u8; STATE_LENGTH];
    tell_order(rt, "start", kilmstra_start(levels, block, &[], &mut state))?;
    tell_order(rt, "tick 0, 5 finished", kilmstra_pass(&mut state, 5, 1))?;
    tell_order(rt, "tick 0, 0", kilmstra_pass(&mut state, 0, 0))?;
    tell_order(rt, "tick 0, 1 finished", kilmstra_pass(&mut state, 1, 1))?;
    let mut small = [0u8; 8];
    tell_order(
        rt,
        "tick 1, queue into 8 bytes",
        kilmstra_show(&state, &mut small),
    )
}

// A finish while idle, which by 02, No. 4 is at tick 19 with 1 tick: 13; the levels at ticks 10 and 20 where a scheduler goes astray, and
// the whole listing's orders.
fn along_the_listing(rt: &impl Print, levels: &[u8], block: &[u8]) -> io::Result<()> {
    let mut state = [0u8; STATE_LENGTH];
    tell_order(rt, "start", kilmstra_start(levels, block, &[], &mut state))?;
    tell_order(rt, "tick 1", kilmstra_pass(&mut state, 1, 1))?;
    tell_order(rt, "tick 8", kilmstra_pass(&mut state, 7, 1))?;
    tell_order(rt, "tick 10", kilmstra_pass(&mut state, 2, 1))?;
    tell_order(rt, "tick 14", kilmstra_pass(&mut state, 4, 1))?;
    tell_order(rt, "tick 19", kilmstra_pass(&mut state, 5, 1))?;
    tell_order(rt, "tick 19, 1 finished", kilmstra_pass(&mut state, 1, 1))?;
    tell_order(rt, "tick 20", kilmstra_pass(&mut state, 1, 0))
}

// A byte as two hexadecimal digits.
fn hex(rt: &impl Print, byte: u8) -> io::Result<()> {
    print!(rt; "{byte:02x}")
}

// "One task with period 40 and worst case 300 is, in hex, 10 80 14 00 09 60": read, and written again.
fn the_example_block(rt: &impl Print, levels: &[u8]) -> io::Result<()> {
    let block = [16u8, 128, 20, 0, 9, 96];
    let mut again = [255u8; 8];
    let read = kilmstra_plan_read(levels, &block);
    let level = read / 256 % 256;
    let hyperperiod = read / 65536;
    print!(rt; "example block: level {level}, hyperperiod {hyperperiod}")?;
    let copied = kilmstra_plan_copy(levels, &block, &mut again);
    let length = copied / 256;
    println!(rt; "; written again {length} bytes")?;
    for byte in again {
        hex(rt, byte)?;
    }
    println!(rt; "")
}

pub fn run(rt: &impl Print) -> io::Result<()> {
    let levels = [128u8, 40, 20, 7, 130, 128, 200, 60, 20, 6, 64];
    let block = [17u8, 128, 5, 0, 12, 128, 0, 80, 0, 200, 0, 15, 0, 18, 192];
    at_the_start(rt, &levels, &block)?;
    along_the_listing(rt, &levels, &block)?;
    the_example_block(rt, &levels)
}
