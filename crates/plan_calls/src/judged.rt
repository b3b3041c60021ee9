// What a plan, however it was handed over, is judged as for C.
ghost use Rattle.std.specs.Prelude.{◌≡◌};
ghost use Rattle.plan.specs.Answers.{judged_plan};
ghost use Rattle.plan.specs.Numbers.{verdict_number};

use answers::verdict_number;
use judging::judge;
use plan::Plan;

// A plan judged over a level block, with the verdict as one number.
pub fn judged_number(levels: &[u8], p: Plan) -> u64
    ensures { result ≡ verdict_number (judged_plan levels.now p).verdict }
{
    let j = judge(levels, p);
    let v = j.verdict;
    verdict_number(v)
}
