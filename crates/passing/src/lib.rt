// A pass on a state block: whether it is accepted, what it makes of the state, and the order that stands then.
#![tactic(auto)]

mod accepted;
mod questions;

ghost use Rattle.std.specs.Prelude.{◌≡◌};
ghost use Rattle.reclaiming.specs.Calls.{pass_reply, pass_bytes};
ghost use Rattle.state.specs.Tables.{Owns};

use crate::accepted::passed;
use crate::questions::pass_asked;
use levels::table::SpeedTable;
use orders::standing;
use plan::Refused;
use reclaiming::Order;
use soundness::test_block;
use state::clock::Clock;
use state::tables::own_table;
use state::{UNSOUND, clock_at};

// A pass over the state in a block, at the table that it owns.
fn pass_over(table: &SpeedTable, state: &mut [u8], d: u32, finished: bool) -> Result<Order, Refused>
    requires { Owns state.old table.now.speeds table.now.levels }
    ensures value { result ≡ pass_reply state.old d finished }
    ensures state_after { state.new ≡ pass_bytes state.old d finished }
{
    let Some(tested) = test_block(table, state) else {
        return Err(Refused { number: UNSOUND });
    };
    let next = tested.next;
    let c = standing(table, state);
    pass_asked(Clock::new(clock_at(state)), c, next, d, finished)?;
    Ok(passed(
        table,
        state,
        &tested.keys,
        c,
        tested.nominal,
        next,
        d,
        finished,
    ))
}

// A pass over the state in a block. Refused, it leaves every byte; accepted, the block holds the state after it.
pub fn pass(state: &mut [u8], d: u32, finished: bool) -> Result<Order, Refused>
    ensures value { result ≡ pass_reply state.old d finished }
    ensures state_after { state.new ≡ pass_bytes state.old d finished }
{
    let Some(table) = own_table(state) else {
        return Err(Refused { number: UNSOUND });
    };
    pass_over(&table, state, d, finished)
}
