// Whether the entries of a state block and their total are sound, and the entries ahead.
ghost use Rattle.std.specs.Prelude.{◌≡◌, ◌<◌, ◌≤◌, length};
ghost use Rattle.reclaiming.specs.StateBlock.{places, state_length, state_count, decode};
ghost use Rattle.state.specs.Code.{Holds, entry_in};
ghost use Rattle.soundness.specs.SoundEntries.{rest_sound, entry_passes, entries_pass, entries_tested};

use plan::Rest;
use state::{remaining_at, rest_at, task_at, total_at};

// What was found of the entries and their total.
#[derive(Clone, Copy, Debug, PartialEq, Eq)]
pub enum Entries {
    // An entry is not sound, or they do not come to the total.
    NotSound,
    // All are sound, but some job needs more than its remaining ticks at the nominal speed.
    Behind,
    // All are sound, and each job's remaining ticks are enough for it at the nominal speed.
    Ahead,
}

// Whether no more is left of a job than of a whole one, and no fixed ticks where it has finished.
fn rest_sound(rest: Rest, whole: Rest) -> bool
    ensures { result ≡ rest_sound rest whole }
{
    if rest.work > whole.work {
        return false;
    }
    if rest.fixed > whole.fixed {
        return false;
    }
    if rest.work == 0 {
        return rest.fixed == 0;
    }
    true
}

// Whether what is left of task i's job and its remaining ticks are sound and, where that is asked too, enough for it, at the nominal speed.
fn entry_passes(block: &[u8], i: usize, speed: u32, ahead: bool) -> bool
    requires { (i < places) × (length block.now ≡ state_length) × (0 < speed) × (speed ≤ 1000) }
    ensures { result ≡ entry_passes ahead speed (entry_in block.now i) }
{
    let rest = rest_at(block, i);
    let whole = times::whole_of(task_at(block, i));
    if !rest_sound(rest, whole) {
        return false;
    }
    let remaining = remaining_at(block, i);
    if !times::is_within(speed, remaining, whole) {
        return false;
    }
    if !ahead {
        return true;
    }
    times::is_enough(speed, rest, remaining)
}

// Whether every task's entry is sound and, where that is asked too, ahead, at the nominal speed, and their remaining ticks come to the
// total. They are summed on the way: a walk of its own would read them all once more.
fn entries_pass(block: &[u8], count: usize, speed: u32, ahead: bool) -> bool
    requires { Holds block.now × (count ≡ state_count block.now) × (0 < speed) × (speed ≤ 1000) }
    ensures { result ≡ entries_pass ahead speed (decode block.now) }
{
    let mut sum: u32 = 0;
    for i in 0..count {
        if !entry_passes(block, i, speed, ahead) {
            return false;
        }
        sum += remaining_at(block, i);
    }
    total_at(block) == sum
}

// Whether every task's entry and the total are sound and, if so, whether every entry is ahead, at the nominal speed. Both are asked at once first, since most
// states pass both.
pub fn entries_sound(block: &[u8], count: usize, speed: u32) -> Entries
    requires { Holds block.now × (count ≡ state_count block.now) × (0 < speed) × (speed ≤ 1000) }
    ensures { result ≡ entries_tested speed (decode block.now) }
{
    if entries_pass(block, count, speed, true) {
        return Entries::Ahead;
    }
    if entries_pass(block, count, speed, false) {
        return Entries::Behind;
    }
    Entries::NotSound
}
