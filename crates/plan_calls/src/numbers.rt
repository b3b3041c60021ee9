// A plan from plain numbers, as C hands them over.
ghost use Rattle.std.specs.Prelude.{◌≡◌, get_or};
ghost use Rattle.plan.specs.Numbers.{plan_from};

use judging::verdicts::empty_plan;
use plan::{Plan, Task};

// The number at a place of a list, 0 past its end.
fn number_at(numbers: &[u32], k: usize) -> u32
    ensures { result ≡ get_or numbers.now k 0 }
{
    numbers.get(k).copied().unwrap_or(0)
}

// A plan from plain numbers: for each task its period, then its worst case, then its fixed ticks, then its floor; numbers that are not
// there are 0.
pub fn plan_from(count: usize, numbers: &[u32]) -> Plan
    ensures { result ≡ plan_from count numbers.now }
{
    let mut p = empty_plan();
    p.count = count;
    for i in 0..16 {
        let period = number_at(numbers, 4 * i);
        let worst = number_at(numbers, 4 * i + 1);
        let fixed = number_at(numbers, 4 * i + 2);
        let floor = number_at(numbers, 4 * i + 3);
        p.tasks[i] = Task {
            period,
            worst,
            fixed,
            floor,
        };
    }
    p
}
