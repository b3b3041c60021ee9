// What the dispatcher promises is in specs/ and proofs/. The code has the types alone.
#![tactic(auto)]

// A task's entry in the state: its plan, with its floor, the work left of its job, the remaining ticks of that job in the plain schedule, the
// task's fixed ticks, and those of them that are left of the job, unspent.
#[derive(Clone, Copy)]
pub struct Entry {
    pub period: u32,
    pub floor: u32,
    pub worst: u32,
    pub work: u32,
    pub remaining: u32,
    pub fixed: u32,
    pub unspent: u32,
}

// What starting and passing answer where they refuse nothing: to run a task at a level, or to stay idle, and for how many ticks.
#[derive(Clone, Copy, Debug, PartialEq, Eq)]
pub enum Order {
    Run { task: u32, level: u32, hold: u32 },
    Idle { hold: u32 },
}
