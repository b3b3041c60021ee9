// A list of tasks that C lends, judged.
ghost use Rattle.std.specs.Prelude.{◌≡◌, length};
ghost use Rattle.plan.specs.Answers.{judged_list};
ghost use Rattle.plan.specs.Numbers.{verdict_number};

use crate::judged::judged_number;
use plan::Task;
use task_list::gathered;

// Judges a list that C lends over a level block, with an answer as `kilmstra_plan_judge` has.
pub fn kilmstra_judge_list(levels: &[u8], tasks: &[Task]) -> u64
    ensures { result ≡ verdict_number
        (judged_list levels.now (length tasks.now) tasks.now).verdict }
{
    let p = gathered(tasks);
    judged_number(levels, p)
}
