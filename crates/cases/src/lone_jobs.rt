// Runs cases of lone jobs (document 02, No. 4), and prints what each call gives.
use crate::telling::tell_order;
use dispatcher_calls::{kilmstra_pass, kilmstra_show, kilmstra_start};
use state::STATE_LENGTH;
use std::io;

// Speeds 1 and 2, plan (3, 2), (3, 2): at tick 1 task 1 is alone and takes the gap of 2 ticks; at 2 its plain job is closed, the queue
// is empty, and a tick that does not finish would reach the arrival.
fn past_the_plain_finish(rt: &impl Print) -> io::Result<()> {
    let levels = [32u8, 4, 2];
    let block = [17u8, 0, 1, 128, 0, 16, 0, 24, 0, 1, 0];
    let mut state = [0u8; STATE_LENGTH];
    tell_order(
        rt,
        "start",
        kilmstra_start(&levels, &block, &[], &mut state),
    )?;
    tell_order(rt, "tick 1", kilmstra_pass(&mut state, 1, 1))?;
    tell_order(rt, "tick 2", kilmstra_pass(&mut state, 1, 0))?;
    let mut none = [0u8; 0];
    let length = kilmstra_show(&state, &mut none) / 256;
    println!(rt; "tick 2, bytes of the queue: {length}")?;
    tell_order(rt, "tick 2, 1 unfinished", kilmstra_pass(&mut state, 1, 0))?;
    tell_order(rt, "tick 3", kilmstra_pass(&mut state, 1, 1))
}

// A state of one level of speed 1 and tasks (4, 3) and (8, 2), of which task 0 has finished with 3 plain ticks left: task 1 needs 2 ticks, has
// no plain ticks left, and is behind.
fn behind(clock: u8) -> [u8; STATE_LENGTH] {
    let mut state = [0u8; STATE_LENGTH];
    state[3] = clock;
    state[4] = 1;
    state[6] = 2;
    state[9] = 4;
    state[12] = 3;
    state[17] = 3;
    state[21] = 8;
    state[24] = 2;
    state[27] = 2;
    state[200] = 1;
    state[202] = 1;
    state[220] = 3;
    state
}

// In a gap of 2 ticks it is sound, in one of 1 it is not.
fn behind_in_a_gap(rt: &impl Print) -> io::Result<()> {
    let mut fits = behind(2);
    tell_order(rt, "gap 2, 1 unfinished", kilmstra_pass(&mut fits, 1, 0))?;
    tell_order(rt, "gap 1, 1 finished", kilmstra_pass(&mut fits, 1, 1))?;
    let mut short = behind(3);
    tell_order(rt, "gap 1 for 2 ticks", kilmstra_pass(&mut short, 1, 0))
}

pub fn run(rt: &impl Print) -> io::Result<()> {
    past_the_plain_finish(rt)?;
    behind_in_a_gap(rt)
}
