// Whether a plan is admitted: after its ranges, its floors and its hyperperiod, its nominal level.
ghost use Rattle.std.specs.Prelude.{◌≡◌, true, ℕ, ◌*◌, ◌/◌, ◌<◌, ◌≤◌, leb, MatchOption, get_or};
ghost use Rattle.arith.specs.Arrays.{padded};
ghost use Rattle.arith.specs.Choice.{every, first};
ghost use Rattle.arith.specs.Ranges.{list_to};
ghost use Rattle.arith.specs.Sum.{sum_to};
ghost use Rattle.plan.specs.Levels.{hyperperiod, nominal};
ghost use Rattle.plan.specs.Times.{task_time};
ghost use Rattle.levels.specs.Held.{speeds_of};
ghost use Rattle.plan.specs.Questions.{in_range, task_questions};
ghost use Rattle.arith.specs.Asking.{first_no};
ghost use Rattle.plan.specs.Blocks.{no_task, tasks_of};
ghost use Rattle.plan.specs.Answers.{answered};

use crate::ranges::{hyperperiod_of, ranges_asked};
use levels::table::SpeedTable;
use plan::{Admission, Plan, Refused};

// How many jobs each task has within a span, and 0 past the count.
fn jobs_within(p: Plan, span: u32) -> [u32; 16]
    requires { (p.count ≤ 16) × (every in_range (tasks_of p) ≡ true) }
    ensures { result ≡ padded 16 0 (list_to p.count (λ i. span / (get_or p.tasks i no_task).period)) }
{
    let mut jobs = [0u32; 16];
    for i in 0..p.count {
        jobs[i] = span / p.tasks[i].period;
    }
    jobs
}

// The time that the worst cases of so many jobs of each task take at a speed.
fn demand(p: Plan, jobs: &[u32; 16], speed: u32) -> u64
    requires count_bound { (p.count ≤ 16) × (every in_range (tasks_of p) ≡ true) × (0 < speed) × (speed ≤ 1000) }
    requires by_index { (i : ℕ) → i < p.count → get_or jobs.now i 0 ≤ 1000000 }
    ensures { result ≡ sum_to p.count (λ i. task_time speed (get_or p.tasks i no_task) * get_or jobs.now i 0) }
{
    let mut total: u64 = 0;
    for i in 0..p.count {
        let ticks = times::task_time(speed, p.tasks[i]);
        total += (ticks as u64) * (jobs[i] as u64);
    }
    total
}

// The lowest level whose speed does so much work within a span.
fn slowest_for(table: &SpeedTable, work: u64, span: u32) -> Option<usize>
    ensures { MatchOption result
        (first (λ (speed : ℕ). leb work (span * speed)) (speeds_of table.now) ≡ table.now.levels)
        (λ level. (level ≡ first (λ (speed : ℕ). leb work (span * speed)) (speeds_of table.now)) × (level < table.now.levels)) }
{
    for level in 0..table.levels {
        let speed = table.speeds[level];
        if work <= (span as u64) * (speed as u64) {
            return Some(level);
        }
    }
    None // the fastest is too slow
}

// The lowest level that admits a plan of this hyperperiod, which question 8 asks about. A level too slow for the plain work is passed over at
// once.
fn nominal_of(table: &SpeedTable, p: Plan, span: u32) -> Option<usize>
    requires count_bound { (p.count ≤ 16) × (every in_range (tasks_of p) ≡ true) }
    requires span_value { (span ≡ hyperperiod (tasks_of p)) × (span ≤ 1000000) }
    ensures { MatchOption result
        (nominal (speeds_of table.now) (tasks_of p) ≡ table.now.levels)
        (λ level. (level ≡ nominal (speeds_of table.now) (tasks_of p)) × (level < table.now.levels)) }
{
    let jobs = jobs_within(p, span);
    let work = demand(p, &jobs, 1);
    let fast = slowest_for(table, work, span)?;
    for level in fast..table.levels {
        let speed = table.speeds[level];
        if demand(p, &jobs, speed) <= (span as u64) {
            return Some(level);
        }
    }
    None
}

// The questions 6, 24, 7 and 8, in this order.
pub fn verdict_of(table: &SpeedTable, p: Plan) -> Result<Admission, Refused>
    requires { p.count ≤ 16 }
    ensures { result ≡ answered
        (first_no (task_questions (speeds_of table.now) (tasks_of p)))
        (speeds_of table.now) (tasks_of p) }
{
    ranges_asked(p, table.levels)?;
    let Some(span) = hyperperiod_of(p) else {
        return Err(Refused { number: 7 });
    };
    let Some(level) = nominal_of(table, p, span) else {
        return Err(Refused { number: 8 });
    };
    Ok(Admission {
        nominal: level,
        hyperperiod: span,
    })
}
