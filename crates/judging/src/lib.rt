// Judging a plan: over a table of speeds, and over a level block.
#![tactic(auto)]

pub mod admission;
pub mod ranges;
pub mod verdicts;

ghost use Rattle.std.specs.Prelude.{◌≡◌};
ghost use Rattle.arith.specs.Asking.{first_no};
ghost use Rattle.plan.specs.Questions.{judging};
ghost use Rattle.plan.specs.Blocks.{tasks_of};
ghost use Rattle.plan.specs.Answers.{judged_by, judged_plan};
ghost use Rattle.levels.specs.Held.{speeds_of};

use crate::verdicts::{judged_with, refused};
use levels::reading::table_of;
use levels::table::SpeedTable;
use plan::{Judged, Plan};

// A plan judged over a table of speeds: the questions 3, 6, 24, 7, 8.
fn judge_over(table: &SpeedTable, p: Plan) -> Judged
    ensures { result ≡ judged_by
        (first_no (judging (speeds_of table.now) p.count (tasks_of p)))
        (speeds_of table.now) (tasks_of p) }
{
    let count = p.count;
    if count < 1 {
        return refused(3);
    }
    if count > 16 {
        return refused(3);
    }
    judged_with(table, p)
}

// A plan judged over a level block: the questions put to that, then 3, 6, 24, 7, 8.
pub fn judge(levels: &[u8], p: Plan) -> Judged
    ensures { result ≡ judged_plan levels.now p }
{
    match table_of(levels) {
        Err(e) => refused(e.number),
        Ok(table) => judge_over(&table, p),
    }
}
