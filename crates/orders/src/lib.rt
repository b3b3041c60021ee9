// An order: which one is chosen, which one stands, and its hold.
#![tactic(auto)]

pub mod choosing;
pub mod lone;

ghost use Rattle.std.specs.Prelude.{◌≡◌, ◌<◌, ◌≤◌, max};
ghost use Rattle.std.specs.declared.result.Result.TheVariants.{Ok};
ghost use Rattle.plan.specs.Times.{time_of};
ghost use Rattle.plan.specs.Levels.{speed_of};
ghost use Rattle.levels.specs.Held.{speeds_of};
ghost use Rattle.reclaiming.specs.StateBlock.{state_count, decode, places};
ghost use Rattle.reclaiming.specs.Orders.{next_arrival, lowest_level};
ghost use Rattle.state.specs.Code.{Holds, timing_in};
ghost use Rattle.urgency.specs.Code.{Keyed};
ghost use Rattle.orders.specs.Code.{choice_of, run_of, chosen_in, hold_by, order_of, Runnable, Enough};

use crate::lone::allowance_until;
use levels::table::SpeedTable;
use plan::Rest;
use reclaiming::Order;
use state::{LEVEL_AT, PLACES, TASK_AT, WORK_AT, WORK_WIDTH, floor_at, rest_at};
use urgency::{NO_KEY, most_urgent, task_in};

// An order without its hold: the task (255 for idle), the level, and the time that is left of its job there.
#[derive(Clone, Copy)]
pub struct Choice {
    pub task: u32,
    pub level: u32,
    pub time: u32,
}

// The highest level that an order may have: the nominal one, or a higher floor.
pub fn higher_of(nominal: usize, floor: usize) -> usize
    ensures { result ≡ max nominal floor }
{
    if nominal < floor {
        return floor;
    }
    nominal
}

// The lowest level from a floor on at which what is left needs no more than is allowed: at which the ticks that are allowed are enough. At
// the highest they are, and a faster level needs no more, so the levels from the one to the other are halved.
fn level_for(table: &SpeedTable, rest: Rest, allowed: u32, floor: usize, highest: usize) -> usize
    requires bounds { (allowed ≤ 1048560) × (floor ≤ highest) × (highest < table.now.levels) }
    requires rest_bound { time_of (speed_of (speeds_of table.now) highest) rest ≤ allowed }
    ensures { (result ≡ lowest_level (speeds_of table.now) floor rest allowed) × (result ≤ highest) }
{
    let mut low: usize = floor;
    let mut high: usize = highest;
    while low < high {
        let middle = (low + high) / 2;
        if times::is_enough(table.speeds[middle], rest, allowed) {
            high = middle;
        } else {
            low = middle + 1;
        }
    }
    low
}

// A run order of task i, with the time that is left of its job.
fn running_order(table: &SpeedTable, i: usize, level: usize, rest: Rest) -> Choice
    requires { (i < places) × (level < table.now.levels) × (rest.fixed < 256) × (rest.work < 16777216) }
    ensures { result ≡ run_of (speeds_of table.now) i level rest }
{
    let time = times::time_of(table.speeds[level], rest);
    Choice {
        task: i as u32,
        level: level as u32,
        time,
    }
}

// The order that is chosen in a state, where a level is known at which every job can be done in time, and the ticks to the next arrival.
pub(crate) fn chosen(
    table: &SpeedTable,
    block: &[u8],
    keys: &[u64; PLACES],
    count: usize,
    highest: usize,
    next: u32,
) -> Choice
    requires holds { Holds block.now × (count ≡ state_count block.now) }
    requires enough { Enough (speeds_of table.now) (decode block.now) highest }
    requires keyed { Keyed (timing_in (speeds_of table.now) block.now) (decode block.now).clock keys.now }
    requires next_value { next ≡ next_arrival (timing_in (speeds_of table.now) block.now) (decode block.now).clock }
    ensures value { result ≡ choice_of (speeds_of table.now) (chosen_in (speeds_of table.now) block.now) }
    ensures task_bound { (result.task < 256) × (result.level < 256) }
{
    let best = most_urgent(block, keys, count, WORK_AT, WORK_WIDTH);
    if best == NO_KEY {
        return Choice {
            task: 255,
            level: 0,
            time: 0,
        };
    }
    let i = task_in(best);
    let rest = rest_at(block, i);
    let allowed = allowance_until(block, keys, count, best, next);
    let floor = floor_at(block, i);
    let top = higher_of(highest, floor);
    let level = level_for(table, rest, allowed, floor, top);
    running_order(table, i, level, rest)
}

// The order that stands in a state.
pub fn standing(table: &SpeedTable, block: &[u8]) -> Choice
    requires holds { Holds block.now }
    requires runnable { Runnable table.now.levels (decode block.now) }
    ensures { result ≡ choice_of (speeds_of table.now) (decode block.now) }
{
    let task = block[TASK_AT] as usize;
    let level = block[LEVEL_AT] as usize;
    if task == 255 {
        return Choice {
            task: 255,
            level: level as u32,
            time: 0,
        };
    }
    running_order(table, task, level, rest_at(block, task))
}

// The hold of an order, where the next arrival is so many ticks away.
pub fn hold_of(c: Choice, next: u32) -> u32
    ensures { result ≡ hold_by c next }
{
    if c.task == 255 {
        return next;
    }
    if c.time < next {
        return c.time;
    }
    next
}

// An order, with a hold.
pub fn order_of(c: Choice, hold: u32) -> Order
    ensures { Ok result ≡ order_of c hold }
{
    if c.task == 255 {
        return Order::Idle { hold };
    }
    Order::Run {
        task: c.task,
        level: c.level,
        hold,
    }
}
