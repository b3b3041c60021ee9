// What the cases print of an answer.
use std::io;

// A line about a refusal.
pub fn tell_refusal(rt: &impl Print, what: &str, n: u64) -> io::Result<()> {
    println!(rt; "{what}: refused {n}")
}

// A line of an order: what was asked, and its kind (1 to run, 2 to stay idle), task, level and hold, or a refusal.
pub fn tell_order(rt: &impl Print, what: &str, answer: u64) -> io::Result<()> {
    if answer < 256 {
        return tell_refusal(rt, what, answer);
    }
    let kind = answer / 256 % 256;
    let task = answer / 65536 % 256;
    let level = answer / 16777216 % 256;
    let hold = answer / 4294967296;
    println!(rt; "{what}: {kind} {task} {level} {hold}")
}

// A line of a plan: its nominal level and hyperperiod, or a refusal.
pub fn tell_plan(rt: &impl Print, what: &str, answer: u64) -> io::Result<()> {
    if answer < 256 {
        return tell_refusal(rt, what, answer);
    }
    let level = answer / 256 % 256;
    let hyperperiod = answer / 65536;
    println!(rt; "{what}: level {level}, hyperperiod {hyperperiod}")
}
