// Runs cases of pairs (document 02, No. 5), with 01's speeds loaded, and prints what each call gives.
use crate::telling::{tell_order, tell_refusal};
use dispatcher_calls::{kilmstra_pass, kilmstra_start};
use plan_calls::kilmstra_pairs;
use state::STATE_LENGTH;
use std::io;

// A line of a list that is asked about: the count of its pairs, or a refusal.
fn ask(rt: &impl Print, levels: &[u8], block: &[u8], what: &str, pairs: &[u8]) -> io::Result<()> {
    let answer = kilmstra_pairs(levels, block, pairs);
    if answer % 256 != 0 {
        return tell_refusal(rt, what, answer);
    }
    let count = answer / 256;
    println!(rt; "{what}: pairs {count}")
}

// A line of a pass: d ticks went by, and the job finished or (0) did not.
fn go_on(rt: &impl Print, state: &mut [u8], what: &str, d: u32, finished: u8) -> io::Result<()> {
    let answer = kilmstra_pass(state, d, finished);
    tell_order(rt, what, answer)
}

// How long a list may be, and that its last pair is looked at.
fn the_lengths(rt: &impl Print, levels: &[u8], block: &[u8]) -> io::Result<()> {
    ask(rt, levels, block, "none", b"")?;
    let most =
        b"\x01\x02\x01\x02\x01\x02\x01\x02\x01\x02\x01\x02\x01\x02\x01\x02\x01\x02\x01\x02\x01\x02\x01\x02\x01\x02\x01\x02\x01\x02\x01\x02";
    ask(rt, levels, block, "16 pairs", most)?;
    let more =
        b"\x01\x02\x01\x02\x01\x02\x01\x02\x01\x02\x01\x02\x01\x02\x01\x02\x01\x02\x01\x02\x01\x02\x01\x02\x01\x02\x01\x02\x01\x02\x01\x02\x01\x02";
    ask(rt, levels, block, "17 pairs", more)?;
    ask(rt, levels, block, "1 byte", b"\x01")?;
    ask(rt, levels, block, "3 bytes", b"\x01\x02\x01")?;
    let last =
        b"\x01\x02\x01\x02\x01\x02\x01\x02\x01\x02\x01\x02\x01\x02\x01\x02\x01\x02\x01\x02\x01\x02\x01\x02\x01\x02\x01\x02\x01\x02\x02\x01";
    ask(rt, levels, block, "the 16th not good", last)
}

// Which pairs are good: of periods 30, 10, 10 and 20.
fn the_pairs(rt: &impl Print, levels: &[u8], block: &[u8]) -> io::Result<()> {
    ask(rt, levels, block, "1 before 2", &[1, 2])?;
    ask(rt, levels, block, "2 before 1", &[2, 1])?;
    ask(rt, levels, block, "1 before 1", &[1, 1])?;
    ask(rt, levels, block, "1 before 0", &[1, 0])?;
    ask(rt, levels, block, "0 before 1", &[0, 1])?;
    ask(rt, levels, block, "3 before 0", &[3, 0])?;
    ask(rt, levels, block, "1 before 3", &[1, 3])?;
    ask(rt, levels, block, "1 before 4", &[1, 4])?;
    ask(rt, levels, block, "4 before 1", &[4, 1])
}

// 22 comes after 8 and before 9.
fn the_order(rt: &impl Print, levels: &[u8], block: &[u8]) -> io::Result<()> {
    let over = [16u8, 128, 0, 128, 3, 40];
    let mut none = [0u8; 0];
    tell_order(
        rt,
        "8 before 22",
        kilmstra_start(levels, &over, &[0, 0], &mut none),
    )?;
    tell_order(
        rt,
        "22 before 9",
        kilmstra_start(levels, block, &[2, 1], &mut none),
    )?;
    tell_order(rt, "9", kilmstra_start(levels, block, &[1, 2], &mut none))?;
    ask(rt, levels, &over, "8 before 22", &[0, 0])
}

// The angle's job is task 1, and the valve's, which reads it, task 2: at 0 and at 10 the valve runs once the angle has finished. A list that
// is not good leaves the state as it was.
fn the_run(rt: &impl Print, levels: &[u8], block: &[u8]) -> io::Result<()> {
    let mut state = [0u8; STATE_LENGTH];
    tell_order(
        rt,
        "start",
        kilmstra_start(levels, block, &[1, 2, 1, 0], &mut state),
    )?;
    go_on(rt, &mut state, "tick 1", 1, 1)?;
    tell_order(
        rt,
        "not good",
        kilmstra_start(levels, block, &[2, 1], &mut state),
    )?;
    go_on(rt, &mut state, "tick 2", 1, 1)?;
    go_on(rt, &mut state, "tick 3", 1, 1)?;
    go_on(rt, &mut state, "tick 4", 1, 1)?;
    go_on(rt, &mut state, "tick 10", 6, 0)?;
    go_on(rt, &mut state, "tick 11", 1, 0)?;
    go_on(rt, &mut state, "tick 12", 1, 1)
}

pub fn run(rt: &impl Print) -> io::Result<()> {
    let levels = [128u8, 40, 20, 7, 130, 128, 200, 60, 20, 6, 64];
    let block = b"\x12\x00\x0f\x00\x03\x20\x00\x50\x00\x32\x00\x05\x00\x03\x20\x00\xa0\x00\x32\x00";
    the_lengths(rt, &levels, block)?;
    the_pairs(rt, &levels, block)?;
    the_order(rt, &levels, block)?;
    the_run(rt, &levels, block)
}
