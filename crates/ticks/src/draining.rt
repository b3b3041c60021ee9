// What d ticks take from the queue and from the running job, in a state's bytes.
ghost use Rattle.std.specs.Prelude.{◌≡◌, ℕ, ◌-◌, ◌%◌, ◌<◌, ◌≤◌, min, length, get_or};
ghost use Rattle.levels.specs.Held.{speeds_of};
ghost use Rattle.reclaiming.specs.StateBlock.{State, remaining_of, rest_of, places, remaining_field, state_length, encode};
ghost use Rattle.reclaiming.specs.States.{worked_of};
ghost use Rattle.state.specs.Code.{entry_in, entry_stored, with_jobs, FitRest};
ghost use Rattle.urgency.specs.Code.{no_key, drained_by};

use levels::table::SpeedTable;
use orders::Choice;
use state::storing::{put_remaining, put_rest};
use state::{PLACES, REMAINING_AT, REMAINING_WIDTH, remaining_at, rest_at};
use urgency::{NO_KEY, most_urgent, task_in};

// Takes ticks from task i's remaining ones, as many as there are; answers how many it took.
fn take_from(block: &mut [u8], i: usize, ticks: u32) -> u32
    requires { (i < places) × (length block.old ≡ state_length) }
    ensures value { result ≡ min ticks (entry_in block.old i).remaining }
    ensures block_after { block.new ≡ entry_stored block.old remaining_field i ((entry_in block.old i).remaining - ticks) }
{
    let left = remaining_at(block, i);
    if ticks < left {
        put_remaining(block, i, left - ticks);
        return ticks;
    }
    put_remaining(block, i, 0);
    left
}

// Takes d ticks from the queue, most urgent entry first.
pub fn drain(block: &mut [u8], keys: &[u64; PLACES], count: usize, d: u32)
    requires count_le_places { (count ≤ places) × (length block.old ≡ state_length) }
    requires by_index { (i : ℕ) → i < count → (get_or keys.now i 0 % 16 ≡ i) × (get_or keys.now i 0 < no_key) }
    ensures { (s : State) → block.old ≡ encode s → length s.entries ≡ count → ((i : ℕ) → i < count → remaining_of s i ≤ 65535) → block.new ≡ encode (with_jobs s (rest_of s) (drained_by keys.now (remaining_of s) count d)) }
{
    let mut ticks = d;
    while 0 < ticks {
        let first = most_urgent(block, keys, count, REMAINING_AT, REMAINING_WIDTH);
        if first == NO_KEY {
            return;
        }
        ticks -= take_from(block, task_in(first), ticks);
    }
}

// Of the running job d ticks at its level take their part, or nothing is left of it if it finished.
pub fn work_off(table: &SpeedTable, block: &mut [u8], c: Choice, d: u32, finished: bool)
    requires few_ticks { (length block.old ≡ state_length) × (d ≤ 65535) }
    requires task_lt_places { (c.task ≡ 255 → ⊥) → (c.task < places) × (c.level < table.now.levels) }
    ensures { (s : State) → block.old ≡ encode s → c.task ≡ s.task → c.level ≡ s.level → length s.entries ≤ places → ((s.task ≡ 255 → ⊥) → (s.task < length s.entries) × FitRest (rest_of s s.task)) → block.new ≡ encode (with_jobs s (worked_of (speeds_of table.now) s d finished) (remaining_of s)) }
{
    if c.task == 255 {
        return;
    }
    let i = c.task as usize;
    if finished {
        put_rest(block, i, times::nothing());
        return;
    }
    let level = c.level as usize;
    let rest = rest_at(block, i);
    put_rest(block, i, times::worn_by(table.speeds[level], d, rest));
}
