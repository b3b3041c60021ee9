// The list of pairs that comes with a plan: what question 22 asks.
#![tactic(auto)]

pub mod reading;

ghost use Rattle.std.specs.Prelude.{◌≡◌, true, ◌≤◌, ◌%◌, length};
ghost use Rattle.arith.specs.Choice.{every};
ghost use Rattle.plan.specs.Blocks.{tasks_of};
ghost use Rattle.plan.specs.Questions.{in_range};
ghost use Rattle.plan.specs.Pairs.{pairs_in, periods_good, good_pair, pairs_good};

use plan::Plan;

// Whether the periods of a pair of tasks are good.
fn periods_good(earlier: usize, later: usize, first: u32, second: u32) -> bool
    requires { (1 ≤ first) × (1 ≤ second) }
    ensures { result ≡ periods_good (record { earlier = earlier; later = later }) first second }
{
    if second % first != 0 {
        return false;
    }
    if first == second {
        return earlier < later;
    }
    true
}

// Whether each pair of a list without an odd byte is good for a plan whose tasks are in range.
fn each_good(p: Plan, pairs: &[u8]) -> bool
    requires { (p.count ≤ 16) × (every in_range (tasks_of p) ≡ true) × (length pairs.now % 2 ≡ 0) }
    ensures { result ≡ every (good_pair (tasks_of p)) (pairs_in pairs.now) }
{
    let (whole, _) = pairs.as_chunks::<2>();
    for pair in whole {
        let earlier = pair[0] as usize;
        let later = pair[1] as usize;
        if p.count <= earlier {
            return false;
        }
        if p.count <= later {
            return false;
        }
        let first = p.tasks[earlier];
        let second = p.tasks[later];
        if !periods_good(earlier, later, first.period, second.period) {
            return false;
        }
    }
    true
}

// Whether a list of pairs is good for a plan whose tasks are in range.
pub(crate) fn pairs_good(p: Plan, pairs: &[u8]) -> bool
    requires { (p.count ≤ 16) × (every in_range (tasks_of p) ≡ true) }
    ensures { result ≡ pairs_good (tasks_of p) pairs.now }
{
    if pairs.len() > 32 {
        return false;
    }
    if pairs.len() % 2 != 0 {
        return false;
    }
    each_good(p, pairs)
}
