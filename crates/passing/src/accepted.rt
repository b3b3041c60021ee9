// A pass that the questions let through: what it makes of a state, in its bytes, and its order.
ghost use Rattle.std.specs.Prelude.{◌≡◌, true, ◌≤◌};
ghost use Rattle.std.specs.declared.result.Result.TheVariants.{Ok};
ghost use Rattle.levels.specs.Held.{speeds_of};
ghost use Rattle.arith.specs.Asking.{first_no};
ghost use Rattle.reclaiming.specs.Orders.{next_arrival};
ghost use Rattle.reclaiming.specs.Passes.{chooses_anew, pass_questions};
ghost use Rattle.reclaiming.specs.StateBlock.{encode, decode};
ghost use Rattle.reclaiming.specs.States.{passed_state, view_of};
ghost use Rattle.reclaiming.specs.Questions.{sound_at};
ghost use Rattle.reclaiming.specs.Calls.{pass_order};
ghost use Rattle.state.specs.Code.{timing_in};
ghost use Rattle.state.specs.Tables.{Owns};
ghost use Rattle.orders.specs.Code.{choice_of};
ghost use Rattle.soundness.specs.Code.{Good};

use levels::table::SpeedTable;
use orders::choosing::{choose, choose_until};
use orders::{Choice, hold_of, order_of};
use reclaiming::Order;
use state::{PLACES, clock_at, count_at};
use ticks::{move_on, renewed};

// Whether an order is chosen anew after d ticks, of which the block knows nothing yet: the job finished, or one arrives.
fn chooses_anew(table: &SpeedTable, block: &[u8], next: u32, d: u32, finished: bool) -> bool
    requires sound { (sound_at (speeds_of table.now) block.now ≡ true) × (1 ≤ d) × (d ≤ next) }
    requires next_value { next ≡ next_arrival (timing_in (speeds_of table.now) block.now) (decode block.now).clock }
    ensures { result ≡ chooses_anew (timing_in (speeds_of table.now) block.now) (view_of (decode block.now)) d finished }
{
    if finished {
        return true;
    }
    d == next
}

// A pass that the questions let through: the state after it, and its order.
pub fn passed(
    table: &SpeedTable,
    block: &mut [u8],
    keys: &[u64; PLACES],
    c: Choice,
    highest: usize,
    next: u32,
    d: u32,
    finished: bool,
) -> Order
    requires owns { Owns block.old table.now.speeds table.now.levels × Good (speeds_of table.now) block.old keys.now highest }
    requires c_value { c ≡ choice_of (speeds_of table.now) (decode block.old) }
    requires next_value { next ≡ next_arrival (timing_in (speeds_of table.now) block.old) (decode block.old).clock }
    requires finished_value { first_no (pass_questions (speeds_of table.now) (timing_in (speeds_of table.now) block.old) (view_of (decode block.old)) d finished) ≡ 0 }
    ensures value { Ok result ≡ pass_order (speeds_of table.now) (decode block.old) d finished }
    ensures block_after { block.new ≡ encode (passed_state (speeds_of table.now)
        (timing_in (speeds_of table.now) block.old)
        (decode block.old) d finished) }
{
    let anew = chooses_anew(table, block, next, d, finished);
    move_on(table, block, keys, c, highest, next, d, finished);
    if !anew {
        return order_of(c, hold_of(c, next) - d);
    }
    if d < next {
        return choose_until(table, block, keys, highest, next - d);
    }
    let u = renewed(block, keys, count_at(block), clock_at(block));
    choose(table, block, &u, highest)
}
