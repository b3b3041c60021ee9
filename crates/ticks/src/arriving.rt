// The jobs that arrive, in a state's bytes: each task whose deadline is the clock gets a new one.
ghost use Rattle.std.specs.Prelude.{◌≡◌, false, ℕ, ◌+◌, ◌-◌, ◌<◌, ◌≤◌, length, get_or};
ghost use Rattle.reclaiming.specs.StateBlock.{State, no_entry, task_of, places, state_length, encode};
ghost use Rattle.plan.specs.Times.{task_time};
ghost use Rattle.state.specs.Code.{FitTask, entry_in, queued_to};
ghost use Rattle.urgency.specs.Code.{no_key, due_at};
ghost use Rattle.ticks.specs.Arriving.{Allots, renewed_bytes, arrived_state};

use state::storing::{put_remaining, put_rest};
use state::{PLACES, remaining_at, task_at};
use urgency::deadline_in;

// Gives task i a new job with full worst case and allotment. Of a total that has the entry's remaining ticks in it, it answers what it
// becomes: the allotment takes their place.
fn renew(block: &mut [u8], i: usize, speed: u32, total: u32) -> u32
    requires i_lt_places { (i < places) × (length block.old ≡ state_length) × (0 < speed) × (speed ≤ 1000) }
    requires i_bound { ((entry_in block.old i).remaining ≤ total) × (total ≤ 2097120) × (task_time speed (task_of (entry_in block.old i)) ≤ 65535) }
    ensures value { result ≡ total - (entry_in block.old i).remaining + task_time speed (task_of (entry_in block.old i)) }
    ensures block_after { block.new ≡ renewed_bytes block.old i speed }
{
    let t = task_at(block, i);
    let old = remaining_at(block, i);
    let new = times::task_time(speed, t);
    put_rest(block, i, times::whole_of(t));
    put_remaining(block, i, new);
    total - old + new
}

// Gives each task whose deadline is the clock a new job, and answers what the total of the remaining ticks becomes.
fn arrive(
    block: &mut [u8],
    keys: &[u64; PLACES],
    count: usize,
    clock: u32,
    speed: u32,
    total: u32,
) -> u32
    requires count_le_places { (count ≤ places) × (length block.old ≡ state_length) × (0 < speed) × (speed ≤ 1000) }
    requires by_index { (i : ℕ) → i < count → get_or keys.now i 0 < no_key }
    requires allots { Allots block.old count speed × (total ≡ queued_to block.old count) × (total ≤ 1048560) }
    ensures value { result ≡ queued_to block.new count }
    ensures block_after { (s : State) → block.old ≡ encode s → length s.entries ≡ count → ((i : ℕ) → i < count → FitTask (task_of (get_or s.entries i no_entry))) → block.new ≡ encode (arrived_state keys.now clock speed s) }
{
    let mut sum: u32 = total;
    for i in 0..count {
        if deadline_in(keys[i]) == clock {
            sum = renew(block, i, speed, sum);
        }
    }
    sum
}

// The same where it is known whether some deadline is the clock.
pub fn arrive_if(
    block: &mut [u8],
    keys: &[u64; PLACES],
    count: usize,
    clock: u32,
    speed: u32,
    total: u32,
    some: bool,
) -> u32
    requires count_le_places { (count ≤ places) × (length block.old ≡ state_length) × (0 < speed) × (speed ≤ 1000) }
    requires by_index { ((i : ℕ) → i < count → get_or keys.now i 0 < no_key) × (some ≡ false → (i : ℕ) → i < count → due_at keys.now clock i ≡ false) }
    requires allots { Allots block.old count speed × (total ≡ queued_to block.old count) × (total ≤ 1048560) }
    ensures value { result ≡ queued_to block.new count }
    ensures block_after { (s : State) → block.old ≡ encode s → length s.entries ≡ count → ((i : ℕ) → i < count → FitTask (task_of (get_or s.entries i no_entry))) → block.new ≡ encode (arrived_state keys.now clock speed s) }
{
    if some {
        return arrive(block, keys, count, clock, speed, total);
    }
    total
}
