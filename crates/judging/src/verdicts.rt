// A verdict on a plan whose count is in range, with the plan that stands beside it; a refusal; the empty plan.
ghost use Rattle.std.specs.Prelude.{◌≡◌, [], ◌≤◌};
ghost use Rattle.plan.specs.Questions.{task_questions};
ghost use Rattle.arith.specs.Asking.{first_no};
ghost use Rattle.plan.specs.Blocks.{tasks_of, plan_of};
ghost use Rattle.plan.specs.Answers.{judged_by, refused_with};
ghost use Rattle.levels.specs.Held.{speeds_of};

use crate::admission::verdict_of;
use levels::table::SpeedTable;
use plan::{Judged, Plan, Refused, Task};

pub fn empty_plan() -> Plan
    ensures { result ≡ plan_of [] }
{
    Plan {
        count: 0,
        tasks: [Task {
            period: 0,
            worst: 0,
            fixed: 0,
            floor: 0,
        }; 16],
    }
}

// The same plan with zeros past its count.
fn cleared(p: Plan) -> Plan
    requires { p.count ≤ 16 }
    ensures { result ≡ plan_of (tasks_of p) }
{
    let mut tasks = empty_plan().tasks;
    tasks[..p.count].copy_from_slice(&p.tasks[..p.count]);
    Plan {
        count: p.count,
        tasks,
    }
}

// A refusal, with a plan that is zero throughout.
pub fn refused(n: u32) -> Judged
    ensures { result ≡ refused_with n }
{
    Judged {
        verdict: Err(Refused { number: n }),
        plan: empty_plan(),
    }
}

// A verdict with the plan that stands beside it.
pub fn judged_with(table: &SpeedTable, p: Plan) -> Judged
    requires { p.count ≤ 16 }
    ensures { result ≡ judged_by
        (first_no (task_questions (speeds_of table.now) (tasks_of p)))
        (speeds_of table.now) (tasks_of p) }
{
    let v = verdict_of(table, p);
    match v {
        Err(_) => Judged {
            verdict: v,
            plan: empty_plan(),
        },
        Ok(_) => Judged {
            verdict: v,
            plan: cleared(p),
        },
    }
}
