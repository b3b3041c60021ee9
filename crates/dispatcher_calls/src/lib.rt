// The dispatcher's calls, for C and for tests: on numbers and lent slices, an answer packed into one number.
#![tactic(auto)]

ghost use Rattle.std.specs.Prelude.{◌≡◌, length};
ghost use Rattle.plan.specs.Counted.{counted_number};
ghost use Rattle.reclaiming.specs.Calls.{start_reply, start_buffer, pass_reply, pass_bytes, show_reply, show_buffer, queued_reply};
ghost use Rattle.reclaiming.specs.Numbers.{reply_number, is_yes};

use answers::{counted_number, reply_number, total_number};
use passing::pass;
use showing::show;
use starting::start;
use state::totals::queued;

// Starts a plan's block with its list of pairs over a level block into a state of 221 bytes: 18 to 20, 1 to 9, 21, 22 or 24 is a refusal's
// number; else the order.
pub fn kilmstra_start(levels: &[u8], block: &[u8], pairs: &[u8], state: &mut [u8]) -> u64
    ensures value { result ≡ reply_number (start_reply levels.now block.now pairs.now (length state.old)) }
    ensures state_after { state.new ≡ start_buffer levels.now block.now pairs.now state.old }
{
    let r = start(levels, block, pairs, state);
    reply_number(r)
}

// Passes d ticks to a state, in which the running job finished or (0) did not: 10 to 15 is a refusal's number; else the order.
pub fn kilmstra_pass(state: &mut [u8], d: u32, finished: u8) -> u64
    ensures value { result ≡ reply_number (pass_reply state.old d (is_yes finished)) }
    ensures state_after { state.new ≡ pass_bytes state.old d (is_yes finished) }
{
    let r = pass(state, d, finished != 0);
    reply_number(r)
}

// Shows the queue of a state: 9 or 10 is a refusal's number; else the count of bytes stands from bit 8 on.
pub fn kilmstra_show(state: &[u8], buffer: &mut [u8]) -> u64
    ensures value { result ≡ counted_number (show_reply state.now (length buffer.old)) }
    ensures buffer_after { buffer.new ≡ show_buffer state.now buffer.old }
{
    let w = show(state, buffer);
    counted_number(w)
}

// Tells how many plain ticks are queued in all, without going through the entries of the state: 10 is a refusal's number; else the total
// stands from bit 8 on.
pub fn kilmstra_queued(state: &[u8]) -> u64
    ensures { result ≡ counted_number (queued_reply state.now) }
{
    let q = queued(state);
    total_number(q)
}
