// The time that a job needs, and what ticks leave of it: all that the code knows of how work and speeds make a time.
#![tactic(auto)]

ghost use Rattle.std.specs.Prelude.{◌≡◌, ◌<◌, ◌≤◌, leb};
ghost use Rattle.plan.specs.Times.{time_of, worn, whole, no_rest, task_time};

use plan::{Rest, Task};

// A whole job of a task.
pub fn whole_of(t: Task) -> Rest
    ensures { result ≡ whole t }
{
    Rest {
        fixed: t.fixed,
        work: t.worst,
    }
}

// A job of which nothing is left.
pub fn nothing() -> Rest
    ensures { result ≡ no_rest }
{
    Rest { fixed: 0, work: 0 }
}

// The ticks that a job needs at a speed.
pub fn time_of(speed: u32, rest: Rest) -> u32
    requires { (0 < speed) × (speed ≤ 1000) × (rest.fixed < 256) × (rest.work < 16777216) }
    ensures { result ≡ time_of speed rest }
{
    rest.fixed + numeric::time_needed(speed, rest.work)
}

// The ticks that a task's worst case needs at a speed.
pub fn task_time(speed: u32, t: Task) -> u32
    requires { (0 < speed) × (speed ≤ 1000) × (t.fixed < 256) × (t.worst < 16777216) }
    ensures { result ≡ task_time speed t }
{
    time_of(speed, whole_of(t))
}

// Whether some ticks at a speed are enough for a job: told by the work that those past its fixed ones do, without a division.
pub fn is_enough(speed: u32, rest: Rest, ticks: u32) -> bool
    requires { (0 < speed) × (speed ≤ 1000) × (ticks ≤ 1048560) }
    ensures { result ≡ leb (time_of speed rest) ticks }
{
    if ticks < rest.fixed {
        return false;
    }
    rest.work <= speed * (ticks - rest.fixed)
}

// Whether some ticks are at most the time that a job needs at a speed: one tick less is not enough for it.
pub fn is_within(speed: u32, ticks: u32, rest: Rest) -> bool
    requires { (0 < speed) × (speed ≤ 1000) × (ticks ≤ 1048560) × (rest.work < 16777216) }
    ensures { result ≡ leb ticks (time_of speed rest) }
{
    if rest.fixed >= ticks {
        return true;
    }
    speed * (ticks - rest.fixed) < rest.work + speed
}

// What so many ticks at a speed leave of a job: its fixed ticks go first.
pub fn worn_by(speed: u32, ticks: u32, rest: Rest) -> Rest
    requires { (speed ≤ 1000) × (ticks ≤ 65535) }
    ensures { result ≡ worn speed ticks rest }
{
    if ticks <= rest.fixed {
        return Rest {
            fixed: rest.fixed - ticks,
            work: rest.work,
        };
    }
    let done = (ticks - rest.fixed) * speed;
    if rest.work < done {
        return nothing();
    }
    Rest {
        fixed: 0,
        work: rest.work - done,
    }
}
