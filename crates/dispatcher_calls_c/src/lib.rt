// The dispatcher's calls, exported to C: each only calls the function of its name in dispatcher_calls, and promises what that does.
#![tactic(auto)]

ghost use Rattle.std.specs.Prelude.{◌≡◌, length};
ghost use Rattle.plan.specs.Counted.{counted_number};
ghost use Rattle.reclaiming.specs.Calls.{start_reply, start_buffer, pass_reply, pass_bytes, show_reply, show_buffer, queued_reply};
ghost use Rattle.reclaiming.specs.Numbers.{reply_number, is_yes};

// Starts a plan's block with its list of pairs over a level block into a state of 221 bytes: 18 to 20, 1 to 9, 21, 22 or 24 is a refusal's
// number; else the order.
#[unsafe(no_mangle)]
pub extern "C" fn kilmstra_start(levels: &[u8], block: &[u8], pairs: &[u8], state: &mut [u8]) -> u64
    ensures value { result ≡ reply_number (start_reply levels.now block.now pairs.now (length state.old)) }
    ensures state_after { state.new ≡ start_buffer levels.now block.now pairs.now state.old }
{
    dispatcher_calls::kilmstra_start(levels, block, pairs, state)
}

// Passes d ticks to a state, in which the running job finished or (0) did not: 10 to 15 is a refusal's number; else the order.
#[unsafe(no_mangle)]
pub extern "C" fn kilmstra_pass(state: &mut [u8], d: u32, finished: u8) -> u64
    ensures value { result ≡ reply_number (pass_reply state.old d (is_yes finished)) }
    ensures state_after { state.new ≡ pass_bytes state.old d (is_yes finished) }
{
    dispatcher_calls::kilmstra_pass(state, d, finished)
}

// Shows the queue of a state: 9 or 10 is a refusal's number; else the count of bytes stands from bit 8 on.
#[unsafe(no_mangle)]
pub extern "C" fn kilmstra_show(state: &[u8], buffer: &mut [u8]) -> u64
    ensures value { result ≡ counted_number (show_reply state.now (length buffer.old)) }
    ensures buffer_after { buffer.new ≡ show_buffer state.now buffer.old }
{
    dispatcher_calls::kilmstra_show(state, buffer)
}

// Tells how many plain ticks are queued in all, without going through the entries of the state: 10 is a refusal's number; else the total
// stands from bit 8 on.
#[unsafe(no_mangle)]
pub extern "C" fn kilmstra_queued(state: &[u8]) -> u64
    ensures { result ≡ counted_number (queued_reply state.now) }
{
    dispatcher_calls::kilmstra_queued(state)
}
