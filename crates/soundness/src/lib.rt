// Whether a state block is sound.
#![tactic(auto)]

mod entries;
mod order;

ghost use Rattle.std.specs.Prelude.{◌≡◌, true, false, ◌≤◌, length, MatchOption};
ghost use Rattle.plan.specs.Levels.{nominal};
ghost use Rattle.levels.specs.Held.{speeds_of};
ghost use Rattle.plan.specs.Questions.{task_questions};
ghost use Rattle.arith.specs.Choice.{pick};
ghost use Rattle.arith.specs.Asking.{first_no};
ghost use Rattle.plan.specs.Blocks.{plan_of};
ghost use Rattle.reclaiming.specs.Orders.{next_arrival};
ghost use Rattle.reclaiming.specs.Passes.{largest_clock};
ghost use Rattle.reclaiming.specs.StateBlock.{plan_in, state_length, state_count, decode};
ghost use Rattle.reclaiming.specs.States.{view_of};
ghost use Rattle.reclaiming.specs.Questions.{fits_gap, state_sound, sound_at};
ghost use Rattle.state.specs.Code.{Holds, timing_in};
ghost use Rattle.orders.specs.Code.{Runnable};
ghost use Rattle.soundness.specs.Code.{timed_sound, TestedBlock};

use crate::entries::{Entries, entries_sound};
use crate::order::order_sound;
use levels::table::SpeedTable;
use orders::lone::is_lone;
use orders::standing;
use plan::Plan;
use state::clock::Clock;
use state::layout::laid_out;
use state::{COUNT_AT, PLACES, clock_at, task_at};
use urgency::{keys_of, next_arrival};

// What the test of a sound block tells: its nominal level, the keys of its jobs and the ticks to the next arrival.
#[derive(Clone, Copy)]
pub struct Tested {
    pub next: u32,
    pub nominal: usize,
    pub keys: [u64; PLACES],
}

// The plan in a block.
fn plan_of(block: &[u8], count: usize) -> Plan
    requires { Holds block.now × (count ≡ state_count block.now) }
    ensures { result ≡ plan_of (plan_in (decode block.now)) }
{
    let mut p = judging::verdicts::empty_plan();
    p.count = count;
    for i in 0..count {
        p.tasks[i] = task_at(block, i);
    }
    p
}

// Whether a state keeps up: every job is ahead, or the one that runs is the only open one and can be done by the next arrival.
fn keeps_up(table: &SpeedTable, block: &[u8], count: usize, next: u32, ahead: bool) -> bool
    requires holds { Holds block.now × (count ≡ state_count block.now) }
    requires runnable { Runnable table.now.levels (decode block.now) × (ahead ≡ false → (decode block.now).task ≡ 255 → ⊥) }
    requires next_value { next ≡ next_arrival (timing_in (speeds_of table.now) block.now) (decode block.now).clock }
    ensures { result ≡ pick ahead true (fits_gap (speeds_of table.now)
        (timing_in (speeds_of table.now) block.now)
        (view_of (decode block.now))) }
{
    if ahead {
        return true;
    }
    let c = standing(table, block);
    if c.time > next {
        return false;
    }
    is_lone(block, count, c.task as usize)
}

// A block that is laid out, whose clock is in range and whose plan is admitted at a nominal level. Built into its caller it would take
// some 370 bytes more of the stack: its keys would be kept several times over.
#[inline(never)]
fn test_admitted(
    table: &SpeedTable,
    block: &[u8],
    count: usize,
    clock: u32,
    level: usize,
) -> Option<Tested>
    requires holds { Holds block.now × (count ≡ state_count block.now) × (1 ≤ count) }
    requires clock_value { (clock ≡ (decode block.now).clock) × (clock ≤ largest_clock) }
    requires block_value { (first_no (task_questions (speeds_of table.now) (plan_in (decode block.now))) ≡ 0) × (level ≡ nominal (speeds_of table.now) (plan_in (decode block.now))) }
    ensures { MatchOption result (state_sound (speeds_of table.now) (decode block.now) ≡ false)
        (λ t. TestedBlock (speeds_of table.now) (state_sound (speeds_of table.now) (decode block.now)) block.now t) }
{
    let ahead = match entries_sound(block, count, table.speeds[level]) {
        Entries::NotSound => return None,
        Entries::Behind => false,
        Entries::Ahead => true,
    };
    let keys = keys_of(block, count, clock);
    let next = next_arrival(&keys, count, clock);
    if !order_sound(table, block, &keys, count, level, next) {
        return None;
    }
    if !keeps_up(table, block, count, next, ahead) {
        return None;
    }
    Some(Tested {
        next,
        nominal: level,
        keys,
    })
}

// A block that is laid out, of at least one task.
fn test_state(table: &SpeedTable, block: &[u8], count: usize) -> Option<Tested>
    requires { Holds block.now × (count ≡ state_count block.now) × (1 ≤ count) }
    ensures { MatchOption result (timed_sound (speeds_of table.now) (decode block.now) ≡ false)
        (λ t. TestedBlock (speeds_of table.now) (timed_sound (speeds_of table.now) (decode block.now)) block.now t) }
{
    let clock = Clock::new(clock_at(block));
    if !clock.in_range() {
        return None;
    }
    let p = plan_of(block, count);
    let v = judging::admission::verdict_of(table, p);
    match v {
        Err(_) => None,
        Ok(admission) => test_admitted(table, block, count, clock.ticks, admission.nominal),
    }
}

// A block of a state's length tested: where it is sound, its nominal level, its keys and the ticks to the next arrival.
pub fn test_block(table: &SpeedTable, block: &[u8]) -> Option<Tested>
    requires { length block.now ≡ state_length }
    ensures { MatchOption result (sound_at (speeds_of table.now) block.now ≡ false)
        (λ t. TestedBlock (speeds_of table.now) (sound_at (speeds_of table.now) block.now) block.now t) }
{
    let count = block[COUNT_AT] as usize;
    if count < 1 {
        return None;
    }
    if count > PLACES {
        return None;
    }
    if !laid_out(block) {
        return None;
    }
    test_state(table, block, count)
}
