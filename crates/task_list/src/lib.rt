// A list of tasks as a host holds it, judged without being packed.
#![tactic(auto)]

ghost use Rattle.std.specs.Prelude.{◌≡◌, [], length};
ghost use Rattle.plan.specs.Blocks.{plan_of};
ghost use Rattle.plan.specs.Answers.{judged_list};
ghost use Rattle.task_list.specs.Lists.{put_task, gathered_from};

use judging::judge;
use judging::verdicts::empty_plan;
use plan::{Judged, Plan, Task};

// One more task: stored while there is a place for it, and counted up to 17.
fn put(p: Plan, t: Task) -> Plan
    ensures { result ≡ put_task p t }
{
    let count = p.count;
    let mut q = p;
    if count < 16 {
        q.tasks[count] = t;
        q.count = count + 1;
        return q;
    }
    q.count = 17;
    q
}

// A lent list of any length as a plan: its first 16 tasks, and its length as the count, 17 for every longer list.
pub fn gathered(tasks: &[Task]) -> Plan
    ensures { result ≡ gathered_from (plan_of []) tasks.now }
{
    let mut q = empty_plan();
    for task in tasks {
        q = put(q, *task);
    }
    q
}

// A lent list judged over a level block: the questions put to that, then 3, 6, 24, 7, 8.
pub fn judge_list(levels: &[u8], tasks: &[Task]) -> Judged
    ensures { result ≡ judged_list levels.now (length tasks.now) tasks.now }
{
    let p = gathered(tasks);
    judge(levels, p)
}
