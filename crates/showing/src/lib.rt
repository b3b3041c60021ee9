// Showing the queue: the tasks that have remaining ticks, most urgent first.
#![tactic(auto)]

mod ready;

ghost use Rattle.std.specs.Prelude.{◌≡◌, ◌++◌, ℕ, ◌*◌, ◌<◌, ◌≤◌, length, get_or, take, drop};
ghost use Rattle.reclaiming.specs.StateBlock.{places, state_length};
ghost use Rattle.reclaiming.specs.Calls.{show_reply, show_buffer};
ghost use Rattle.state.specs.Code.{entry_in};
ghost use Rattle.state.specs.Tables.{Owns};
ghost use Rattle.showing.specs.Ready.{tasks_bytes};

use crate::ready::{ReadyList, ready};
use levels::table::SpeedTable;
use plan::Refused;
use soundness::test_block;
use state::tables::own_table;
use state::{UNSOUND, count_at, remaining_at};

// Stores three bytes for each task of a list: its number, then its remaining ticks.
fn put_queue(buffer: &mut [u8], state: &[u8], q: ReadyList)
    requires state_len { (length state.now ≡ state_length) × (q.len ≤ places) × (3 * q.len ≤ length buffer.old) }
    requires by_index { (k : ℕ) → k < q.len → get_or q.tasks k 0 < places }
    ensures { buffer.new ≡ tasks_bytes (λ i. (entry_in state.now i).remaining) (take q.len q.tasks) ++ drop (3 * q.len) buffer.old }
{
    for (k, &task) in q.tasks[..q.len].iter().enumerate() {
        buffer[3 * k] = task;
        let left = remaining_at(state, task as usize);
        numeric::put_number(buffer, 3 * k + 1, 2, left);
    }
}

// Showing the queue of a state, at the table that it owns.
fn show_over(table: &SpeedTable, state: &[u8], buffer: &mut [u8]) -> Result<usize, Refused>
    requires { Owns state.now table.now.speeds table.now.levels }
    ensures value { result ≡ show_reply state.now (length buffer.old) }
    ensures buffer_after { buffer.new ≡ show_buffer state.now buffer.old }
{
    let Some(tested) = test_block(table, state) else {
        return Err(Refused { number: UNSOUND });
    };
    let keys = tested.keys;
    let q = ready(state, &keys, count_at(state));
    let wanted = 3 * q.len;
    if buffer.len() < wanted {
        return Err(Refused { number: 9 });
    }
    put_queue(buffer, state, q);
    Ok(wanted)
}

// Showing the queue of a state: 10, then 9; the count of bytes.
pub fn show(state: &[u8], buffer: &mut [u8]) -> Result<usize, Refused>
    ensures value { result ≡ show_reply state.now (length buffer.old) }
    ensures buffer_after { buffer.new ≡ show_buffer state.now buffer.old }
{
    let Some(table) = own_table(state) else {
        return Err(Refused { number: UNSOUND });
    };
    show_over(&table, state, buffer)
}
