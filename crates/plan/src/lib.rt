// Plans as values. What is right of them, and how they are judged, read and written, is in specs/ and proofs/.
#![tactic(auto)]

// A task: its period in ticks, its worst case in units of work, the fixed ticks that its job takes at every level, and its floor, the lowest
// level that its job is run at.
#[repr(C)]
#[derive(Clone, Copy)]
pub struct Task {
    pub period: u32,
    pub worst: u32,
    pub fixed: u32,
    pub floor: u32,
}

// What is left of a job: its fixed ticks, and its work.
#[derive(Clone, Copy)]
pub struct Rest {
    pub fixed: u32,
    pub work: u32,
}

// A plan is its first `count` tasks.
#[derive(Clone, Copy)]
pub struct Plan {
    pub count: usize,
    pub tasks: [Task; 16],
}

// A refusal: the number of the question that decided.
#[derive(Clone, Copy, Debug, PartialEq, Eq)]
pub struct Refused {
    pub number: u32,
}

// What reading a level block answers: the count of levels, beside their speeds; past their count, and beside a refusal, they are zero.
#[derive(Clone, Copy)]
pub struct Board {
    pub answer: Result<usize, Refused>,
    pub speeds: [u32; 8],
}

// What is told of a plan that is admitted: its nominal level and its hyperperiod.
#[derive(Clone, Copy, Debug, PartialEq, Eq)]
pub struct Admission {
    pub nominal: usize,
    pub hyperperiod: u32,
}

// What judging and reading answer, with the plan beside it.
#[derive(Clone, Copy)]
pub struct Judged {
    pub verdict: Result<Admission, Refused>,
    pub plan: Plan,
}
