// Chooses an order, stores it and answers it.
ghost use Rattle.std.specs.Prelude.{◌≡◌, ◌≤◌, length};
ghost use Rattle.std.specs.declared.result.Result.TheVariants.{Ok};
ghost use Rattle.levels.specs.Held.{speeds_of};
ghost use Rattle.reclaiming.specs.StateBlock.{task_field, level_field, state_length, state_count, encode, decode};
ghost use Rattle.reclaiming.specs.Orders.{next_arrival};
ghost use Rattle.state.specs.Code.{Holds, head_stored, timing_in};
ghost use Rattle.urgency.specs.Code.{Keyed};
ghost use Rattle.orders.specs.Code.{chosen_in, chosen_reply, Enough};

use crate::{Choice, chosen, hold_of, order_of};
use levels::table::SpeedTable;
use reclaiming::Order;
use state::{LEVEL_AT, LEVEL_WIDTH, PLACES, TASK_AT, TASK_WIDTH, clock_at, count_at};
use urgency::next_arrival;

// Stores an order.
fn put_order(block: &mut [u8], c: Choice)
    requires { length block.old ≡ state_length }
    ensures { block.new ≡ head_stored (head_stored block.old task_field c.task) level_field c.level }
{
    numeric::put_number(block, TASK_AT, TASK_WIDTH, c.task);
    numeric::put_number(block, LEVEL_AT, LEVEL_WIDTH, c.level);
}

// Chooses an order where the next arrival is so many ticks away, stores it, and answers it with its hold.
pub fn choose_until(
    table: &SpeedTable,
    block: &mut [u8],
    keys: &[u64; PLACES],
    highest: usize,
    next: u32,
) -> Order
    requires holds { Holds block.old × (encode (decode block.old) ≡ block.old) }
    requires enough { Enough (speeds_of table.now) (decode block.old) highest }
    requires keyed { Keyed (timing_in (speeds_of table.now) block.old) (decode block.old).clock keys.now }
    requires next_value { next ≡ next_arrival (timing_in (speeds_of table.now) block.old) (decode block.old).clock }
    ensures value { Ok result ≡ chosen_reply (speeds_of table.now) block.old }
    ensures block_after { block.new ≡ encode (chosen_in (speeds_of table.now) block.old) }
{
    let c = chosen(table, block, keys, count_at(block), highest, next);
    put_order(block, c);
    order_of(c, hold_of(c, next))
}

// The same where the next arrival is still to be found.
pub fn choose(table: &SpeedTable, block: &mut [u8], keys: &[u64; PLACES], highest: usize) -> Order
    requires holds { Holds block.old × (1 ≤ state_count block.old) × (encode (decode block.old) ≡ block.old) }
    requires enough { Enough (speeds_of table.now) (decode block.old) highest }
    requires keyed { Keyed (timing_in (speeds_of table.now) block.old) (decode block.old).clock keys.now }
    ensures value { Ok result ≡ chosen_reply (speeds_of table.now) block.old }
    ensures block_after { block.new ≡ encode (chosen_in (speeds_of table.now) block.old) }
{
    let next = next_arrival(keys, count_at(block), clock_at(block));
    choose_until(table, block, keys, highest, next)
}
