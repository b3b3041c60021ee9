// Whether the tasks of a plan are in range, whether their floors are loaded levels, and their hyperperiod.
ghost use Rattle.std.specs.Prelude.{◌≡◌, true, ◌<◌, ◌≤◌, MatchOption, MatchResult};
ghost use Rattle.arith.specs.Choice.{every};
ghost use Rattle.plan.specs.Levels.{hyperperiod};
ghost use Rattle.plan.specs.Questions.{in_range, range_question, floor_loaded};
ghost use Rattle.plan.specs.Blocks.{tasks_of};
ghost use Rattle.judging.specs.Ranges.{ranges_no};

use plan::{Plan, Refused, Task};

fn task_in_range(t: Task) -> bool
    ensures { result ≡ in_range t }
{
    if t.period < 1 {
        return false;
    }
    if t.period > 65535 {
        return false;
    }
    if t.worst < 1 {
        return false;
    }
    if t.worst > 1048575 {
        return false;
    }
    t.fixed <= 255
}

// Question 6: whether each task's period, worst case and fixed ticks are in their range.
pub fn in_range(p: Plan) -> bool
    requires { p.count ≤ 16 }
    ensures { result ≡ (range_question (tasks_of p)).reply }
{
    for t in &p.tasks[..p.count] {
        if !task_in_range(*t) {
            return false;
        }
    }
    true
}

// Whether a task's floor is one of so many levels.
fn has_level(t: Task, levels: usize) -> bool
    ensures { result ≡ floor_loaded levels t }
{
    (t.floor as usize) < levels
}

// Questions 6 and 24, in one walk.
pub(crate) fn ranges_asked(p: Plan, levels: usize) -> Result<(), Refused>
    requires { p.count ≤ 16 }
    ensures { MatchResult result (λ _. ranges_no levels (tasks_of p) ≡ 0) (λ e. (0 < e.number) × (ranges_no levels (tasks_of p) ≡ e.number)) }
{
    let mut loaded = true;
    for t in &p.tasks[..p.count] {
        if !task_in_range(*t) {
            return Err(Refused { number: 6 });
        }
        loaded &= has_level(*t, levels);
    }
    if !loaded {
        return Err(Refused { number: 24 });
    }
    Ok(())
}

// The hyperperiod, which question 7 asks about; none where it is above 1,000,000.
pub(crate) fn hyperperiod_of(p: Plan) -> Option<u32>
    requires { (p.count ≤ 16) × (every in_range (tasks_of p) ≡ true) }
    ensures { MatchOption result (1000000 < hyperperiod (tasks_of p)) (λ h. (h ≡ hyperperiod (tasks_of p)) × (h ≤ 1000000)) }
{
    let mut h: u32 = 1;
    for t in p.tasks[..p.count].iter().rev() {
        let l = numeric::lcm_of(t.period, h);
        if l > 1000000 {
            return None;
        }
        h = l as u32;
    }
    Some(h)
}
