// Starting: a state in which every task of a plan has a new job, with an order chosen in it.
#![tactic(auto)]

mod image;

ghost use Rattle.std.specs.Prelude.{◌≡◌, ◌<◌, length};
ghost use Rattle.plan.specs.Levels.{nominal};
ghost use Rattle.plan.specs.Blocks.{tasks_of, tasks_in};
ghost use Rattle.plan.specs.Questions.{judging};
ghost use Rattle.arith.specs.Arrays.{padded};
ghost use Rattle.arith.specs.Asking.{first_no};
ghost use Rattle.plan.specs.Answers.{room_number, stored_by};
ghost use Rattle.reclaiming.specs.Replies.{replied_by};
ghost use Rattle.reclaiming.specs.StateBlock.{state_length, encode};
ghost use Rattle.reclaiming.specs.States.{start_state};
ghost use Rattle.reclaiming.specs.Calls.{start_order, start_reply, start_buffer};
ghost use Rattle.levels.specs.Held.{speeds_of};
ghost use Rattle.starting.specs.Code.{start_no};

use crate::image::fresh;
use levels::reading::table_of;
use levels::table::SpeedTable;
use orders::choosing::choose;
use pairs::reading::read_paired;
use plan::{Plan, Refused};
use reclaiming::Order;
use state::STATE_LENGTH;
use state::storing::store;
use urgency::keys_of;

// Starting a plan that was accepted over a table of speeds, of which the nominal level is known: 9 for the 221 bytes.
fn started(table: &SpeedTable, p: Plan, highest: usize, state: &mut [u8]) -> Result<Order, Refused>
    requires padded { table.now.speeds ≡ padded 8 0 (speeds_of table.now) }
    requires p_value { first_no (judging (speeds_of table.now) p.count (tasks_of p)) ≡ 0 }
    requires highest_value { highest ≡ nominal (speeds_of table.now) (tasks_of p) }
    ensures value { result ≡ replied_by (room_number state_length (length state.old))
        (start_order (speeds_of table.now) (start_state (speeds_of table.now) (tasks_of p))) }
    ensures state_after { state.new ≡ stored_by (room_number state_length (length state.old))
        (encode (start_state (speeds_of table.now) (tasks_of p))) state.old }
{
    if state.len() < STATE_LENGTH {
        return Err(Refused { number: 9 });
    }
    let speed = table.speeds[highest];
    let mut image = fresh(&table.speeds, table.levels, p, speed);
    let keys = keys_of(&image, p.count, 0);
    let order = choose(table, &mut image, &keys, highest);
    store(state, &image);
    Ok(order)
}

// Starting over a table of speeds whose numbers past its count are zero: those questions of the block that reading puts, 22 of its pairs,
// then 9 for the 221 bytes.
fn start_over(
    table: &SpeedTable,
    block: &[u8],
    pairs: &[u8],
    state: &mut [u8],
) -> Result<Order, Refused>
    requires { table.now.speeds ≡ padded 8 0 (speeds_of table.now) }
    ensures value { result ≡ replied_by
        (start_no (speeds_of table.now) block.now pairs.now (length state.old))
        (start_order (speeds_of table.now) (start_state (speeds_of table.now) (tasks_in block.now))) }
    ensures state_after { state.new ≡ stored_by
        (start_no (speeds_of table.now) block.now pairs.now (length state.old))
        (encode (start_state (speeds_of table.now) (tasks_in block.now))) state.old }
{
    let j = read_paired(table, block, pairs);
    let p = j.plan;
    let admission = j.verdict?;
    started(table, p, admission.nominal, state)
}

// Starting: the questions 18 to 20 of the level block, those of the plan's that reading puts, 22 of its pairs, then 9 for the 221 bytes.
pub fn start(levels: &[u8], block: &[u8], pairs: &[u8], state: &mut [u8]) -> Result<Order, Refused>
    ensures value { result ≡ start_reply levels.now block.now pairs.now (length state.old) }
    ensures state_after { state.new ≡ start_buffer levels.now block.now pairs.now state.old }
{
    let table = table_of(levels)?;
    start_over(&table, block, pairs, state)
}
