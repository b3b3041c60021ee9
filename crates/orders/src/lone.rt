// Whether a job is the only open one, and its allowance, which then reaches to the next arrival.
ghost use Rattle.std.specs.Prelude.{◌≡◌, not, ◌<◌, ◌≤◌, leb, length};
ghost use Rattle.plan.specs.Times.{time_of};
ghost use Rattle.reclaiming.specs.StateBlock.{places, state_length};
ghost use Rattle.orders.specs.Lone.{other_in, allowed_until};

use plan::Rest;
use state::{ENTRY_LENGTH, PLACES, WORK_AT, WORK_WIDTH};
use urgency::{allowance_of, task_in};

// Whether no task but i has work left.
pub fn is_lone(block: &[u8], count: usize, i: usize) -> bool
    requires { (count ≤ places) × (length block.now ≡ state_length) }
    ensures { result ≡ not (other_in block.now count i) }
{
    for j in 0..count {
        let work = numeric::get_number(block, WORK_AT + ENTRY_LENGTH * j, WORK_WIDTH);
        if work != 0 {
            if j != i {
                return false;
            }
        }
    }
    true
}

// The allowance of the most urgent open job, by its key, where the next arrival is so many ticks away. Whether it is alone is looked
// at only where the gap is the larger.
pub(crate) fn allowance_until(
    block: &[u8],
    keys: &[u64; PLACES],
    count: usize,
    key: u64,
    next: u32,
) -> u32
    requires { (count ≤ places) × (length block.now ≡ state_length) × (next ≤ 1048560) }
    ensures { (result ≡ allowed_until block.now keys.now count key next) × (result ≤ 1048560) }
{
    let allowed = allowance_of(block, keys, count, key);
    if next <= allowed {
        return allowed;
    }
    if is_lone(block, count, task_in(key)) {
        return next;
    }
    allowed
}

// Whether what is left of that job is done at a speed within that allowance. Whether it is alone is looked at only where 01's is too small.
pub fn meets_until(
    block: &[u8],
    keys: &[u64; PLACES],
    count: usize,
    key: u64,
    next: u32,
    speed: u32,
    rest: Rest,
) -> bool
    requires { (count ≤ places) × (length block.now ≡ state_length) × (next ≤ 1048560) × (0 < speed) × (speed ≤ 1000) }
    ensures { result ≡ leb (time_of speed rest) (allowed_until block.now keys.now count key next) }
{
    let allowed = allowance_of(block, keys, count, key);
    if times::is_enough(speed, rest, allowed) {
        return true;
    }
    if !times::is_enough(speed, rest, next) {
        return false;
    }
    is_lone(block, count, task_in(key))
}
