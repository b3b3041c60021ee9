// Runs cases of the total of the plain ticks left (document 02, No. 6), and prints what each call gives.
use dispatcher_calls::{kilmstra_pass, kilmstra_queued, kilmstra_show, kilmstra_start};
use state::STATE_LENGTH;
use std::io;

// A line: what was asked, and the total, or a refusal.
fn tell(rt: &impl Print, what: &str, answer: u64) -> io::Result<()> {
    if answer % 256 != 0 {
        return println!(rt; "{what}: refused {answer}");
    }
    let total = answer / 256;
    println!(rt; "{what}: {total}")
}

// One level of speed 1 and the plan (3, 1): the job finishes at 1, then 2 ticks are idle, and at 3 the next one arrives.
fn over_an_idle_stretch(rt: &impl Print) -> io::Result<()> {
    let levels = [16u8, 4];
    let block = [16u8, 128, 1, 128, 0, 8];
    let mut state = [0u8; STATE_LENGTH];
    kilmstra_start(&levels, &block, &[], &mut state);
    tell(rt, "start", kilmstra_queued(&state))?;
    kilmstra_pass(&mut state, 1, 1);
    tell(rt, "tick 1", kilmstra_queued(&state))?;
    kilmstra_pass(&mut state, 1, 0);
    tell(rt, "tick 2", kilmstra_queued(&state))?;
    kilmstra_pass(&mut state, 1, 0);
    tell(rt, "tick 3", kilmstra_queued(&state))
}

// Over the same level the plan (2, 2) at clock 1: the job has finished, and 2 plain ticks are left until the next tick replaces the entry.
fn rested(total: u8) -> [u8; STATE_LENGTH] {
    let mut state = [0u8; STATE_LENGTH];
    state[3] = 1;
    state[4] = 255;
    state[6] = 1;
    state[9] = 2;
    state[12] = 2;
    state[17] = 2;
    state[200] = 1;
    state[202] = 1;
    state[220] = total;
    state
}

// The new entry's ticks take the place of the old one's; a total that is one off is told as it stands, and is not sound.
fn over_a_replaced_entry(rt: &impl Print) -> io::Result<()> {
    let mut right = rested(2);
    kilmstra_pass(&mut right, 1, 0);
    tell(rt, "replaced", kilmstra_queued(&right))?;
    let mut wrong = rested(3);
    tell(rt, "one off", kilmstra_queued(&wrong))?;
    tell(rt, "one off, passed", kilmstra_pass(&mut wrong, 1, 0))?;
    let mut none = [0u8; 0];
    tell(rt, "one off, shown", kilmstra_show(&wrong, &mut none))
}

// Every length but a state's is refused; of that length, whatever stands there is told.
fn by_the_length(rt: &impl Print) -> io::Result<()> {
    let short = [0u8; 220];
    tell(rt, "220 bytes", kilmstra_queued(&short))?;
    let long = [0u8; 222];
    tell(rt, "222 bytes", kilmstra_queued(&long))?;
    let full = [255u8; STATE_LENGTH];
    tell(rt, "all ones", kilmstra_queued(&full))
}

pub fn run(rt: &impl Print) -> io::Result<()> {
    over_an_idle_stretch(rt)?;
    over_a_replaced_entry(rt)?;
    by_the_length(rt)
}
