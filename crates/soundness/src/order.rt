// Whether the order that stands in a state block is sound.
ghost use Rattle.std.specs.Prelude.{◌≡◌, ℕ, ◌<◌};
ghost use Rattle.levels.specs.Held.{speeds_of};
ghost use Rattle.reclaiming.specs.StateBlock.{floor_of, state_count, decode};
ghost use Rattle.reclaiming.specs.Orders.{next_arrival};
ghost use Rattle.reclaiming.specs.Questions.{level_sound};
ghost use Rattle.state.specs.Code.{Holds, timing_in};
ghost use Rattle.urgency.specs.Code.{Keyed};
ghost use Rattle.soundness.specs.SoundOrder.{order_in};

use levels::table::SpeedTable;
use orders::higher_of;
use orders::lone::meets_until;
use state::{LEVEL_AT, PLACES, TASK_AT, WORK_AT, WORK_WIDTH, floor_at, rest_at};
use urgency::{NO_KEY, most_urgent, task_in};

// Whether a run order's level is at or above the floor, and at most the higher of nominal and floor.
fn level_sound(highest: usize, floor: usize, level: usize) -> bool
    ensures { result ≡ level_sound highest floor level }
{
    if level < floor {
        return false;
    }
    level <= higher_of(highest, floor)
}

// Whether the order that stands is sound: idle exactly if no job is open, else the most urgent open job at a sound level that meets its
// allowance: 01's or, if the job is alone, the gap, where the next arrival is so many ticks away.
pub fn order_sound(
    table: &SpeedTable,
    block: &[u8],
    keys: &[u64; PLACES],
    count: usize,
    highest: usize,
    next: u32,
) -> bool
    requires holds { Holds block.now × (count ≡ state_count block.now) × (highest < table.now.levels) }
    requires keyed { Keyed (timing_in (speeds_of table.now) block.now) (decode block.now).clock keys.now }
    requires next_value { next ≡ next_arrival (timing_in (speeds_of table.now) block.now) (decode block.now).clock }
    requires by_index { (i : ℕ) → i < count → floor_of (decode block.now) i < table.now.levels }
    ensures { result ≡ order_in (speeds_of table.now) block.now highest }
{
    let task = block[TASK_AT] as usize;
    let level = block[LEVEL_AT] as usize;
    let best = most_urgent(block, keys, count, WORK_AT, WORK_WIDTH);
    if best == NO_KEY {
        if task != 255 {
            return false;
        }
        return level == 0;
    }
    if task != task_in(best) {
        return false;
    }
    let floor = floor_at(block, task);
    if !level_sound(highest, floor, level) {
        return false;
    }
    let rest = rest_at(block, task);
    meets_until(block, keys, count, best, next, table.speeds[level], rest)
}
