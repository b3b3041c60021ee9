// What d ticks make of a state, in its bytes.
#![tactic(auto)]

mod arriving;
mod draining;

ghost use Rattle.std.specs.Prelude.{◌≡◌, ℕ, ◌<◌, ◌≤◌, length, get_or};
ghost use Rattle.levels.specs.Held.{speeds_of};
ghost use Rattle.reclaiming.specs.Orders.{next_arrival};
ghost use Rattle.reclaiming.specs.Passes.{largest_clock};
ghost use Rattle.reclaiming.specs.StateBlock.{places, state_length, encode, decode};
ghost use Rattle.reclaiming.specs.States.{moved_state};
ghost use Rattle.state.specs.Code.{timing_in};
ghost use Rattle.urgency.specs.Code.{no_key};
ghost use Rattle.orders.specs.Code.{choice_of};
ghost use Rattle.ticks.specs.Code.{Stepping, renewed_keys};

use crate::arriving::arrive_if;
use crate::draining::{drain, work_off};
use levels::table::SpeedTable;
use orders::Choice;
use state::clock::Clock;
use state::storing::put_total;
use state::totals::left_of;
use state::{CLOCK_AT, CLOCK_WIDTH, PLACES, clock_at, count_at, period_at, total_at};
use urgency::{deadline_in, key_of};

// The keys at a clock where each task whose deadline is there has a new job.
pub fn renewed(block: &[u8], keys: &[u64; PLACES], count: usize, clock: u32) -> [u64; PLACES]
    requires count_le_places { (count ≤ places) × (length block.now ≡ state_length) × (clock ≤ largest_clock) }
    requires by_index { (i : ℕ) → i < count → get_or keys.now i 0 < no_key }
    ensures { result ≡ renewed_keys block.now keys.now count clock }
{
    let mut r = [0u64; PLACES];
    for i in 0..count {
        let key = keys[i];
        r[i] = key;
        if deadline_in(key) == clock {
            let period = period_at(block, i);
            r[i] = key_of(clock + period, period, i);
        }
    }
    r
}

// Moves a state on by d ticks, before an order is chosen. Its total is kept by what the ticks take and the arrivals change, not summed anew.
pub fn move_on(
    table: &SpeedTable,
    block: &mut [u8],
    keys: &[u64; PLACES],
    c: Choice,
    highest: usize,
    next: u32,
    d: u32,
    finished: bool,
)
    requires step { Stepping (speeds_of table.now) block.old keys.now highest d }
    requires c_value { c ≡ choice_of (speeds_of table.now) (decode block.old) }
    requires next_value { next ≡ next_arrival (timing_in (speeds_of table.now) block.old) (decode block.old).clock }
    ensures { block.new ≡ encode (moved_state (speeds_of table.now)
        (timing_in (speeds_of table.now) block.old)
        (decode block.old) d finished) }
{
    let count = count_at(block);
    let clock = Clock::new(clock_at(block)).after(d);
    let speed = table.speeds[highest];
    let left = left_of(total_at(block), d);
    drain(block, keys, count, d);
    work_off(table, block, c, d, finished);
    numeric::put_number(block, CLOCK_AT, CLOCK_WIDTH, clock.ticks);
    let total = arrive_if(block, keys, count, clock.ticks, speed, left, d == next);
    put_total(block, total);
}
