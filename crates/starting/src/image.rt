// The image of a fresh state: every task of a plan has a new job, and no order is chosen yet.
ghost use Rattle.std.specs.Prelude.{◌≡◌, ◌<◌, ◌≤◌, true, replicate};
ghost use Rattle.plan.specs.Blocks.{tasks_of};
ghost use Rattle.plan.specs.Questions.{in_range, floor_loaded};
ghost use Rattle.std.proofs.lemmas.List.Edits.{sets};
ghost use Rattle.arith.specs.Arrays.{padded};
ghost use Rattle.arith.specs.Choice.{every};
ghost use Rattle.reclaiming.specs.StateBlock.{places, task_field, count_field, tail_at, state_length, encode};
ghost use Rattle.levels.specs.Code.{loaded};
ghost use Rattle.state.specs.Code.{head_stored};
ghost use Rattle.state.specs.Tables.{table_bytes};
ghost use Rattle.starting.specs.Image.{new_state};

use plan::Plan;
use reclaiming::Entry;
use state::storing::{put_entry, put_total};
use state::tables::put_table;
use state::{COUNT_AT, STATE_LENGTH, TASK_AT};

// The image of a state at clock 0, with a table of speeds and no entries yet.
fn blank(speeds: &[u32; 8], levels: usize, count: usize) -> [u8; STATE_LENGTH]
    requires { (count ≤ places) × (levels ≤ 8) × (speeds.now ≡ padded 8 0 (loaded speeds.now levels)) }
    ensures { result ≡ sets (head_stored (head_stored (replicate state_length 0) task_field 255) count_field count) tail_at
        (table_bytes (loaded speeds.now levels)) }
{
    let mut image = [0u8; STATE_LENGTH];
    image[TASK_AT] = 255;
    image[COUNT_AT] = count as u8;
    put_table(&mut image, speeds, levels);
    image
}

// A fresh image, filled at its offsets: every task of a plan has a new job at a speed, and no order is chosen.
pub fn fresh(speeds: &[u32; 8], levels: usize, p: Plan, speed: u32) -> [u8; STATE_LENGTH]
    requires levels_bound { (levels ≤ 8) × (speeds.now ≡ padded 8 0 (loaded speeds.now levels)) }
    requires count_le_places { (p.count ≤ places) × (every in_range (tasks_of p) ≡ true) × (every (floor_loaded levels) (tasks_of p) ≡ true) }
    requires speed_nonzero { (0 < speed) × (speed ≤ 1000) }
    ensures { result ≡ encode (new_state (loaded speeds.now levels) speed (tasks_of p)) }
{
    let count = p.count;
    let mut image = blank(speeds, levels, count);
    let mut total: u32 = 0;
    for i in 0..count {
        let t = p.tasks[i];
        let rest = times::whole_of(t);
        let remaining = times::task_time(speed, t);
        let e = Entry {
            period: t.period,
            floor: t.floor,
            worst: t.worst,
            work: rest.work,
            remaining,
            fixed: t.fixed,
            unspent: rest.fixed,
        };
        put_entry(&mut image, i, e);
        total += remaining;
    }
    put_total(&mut image, total);
    image
}
