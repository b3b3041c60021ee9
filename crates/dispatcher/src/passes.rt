// Passes played on a state, one by one, as numbers.
ghost use Rattle.std.specs.Prelude.{◌≡◌, ◌++◌, length, drop};
ghost use Rattle.reclaiming.specs.Calls.{pass_reply, pass_bytes};
ghost use Rattle.reclaiming.specs.Run.{trace, bytes_after};
ghost use Rattle.reclaiming.specs.Numbers.{reply_number};
ghost use Rattle.reclaiming.specs.Play.{pass_from, played_passes, reply_numbers};

use answers::reply_number;
use passing::pass;

// One pass, as a number, played on a state; the reply as a number.
fn play_one(state: &mut [u8], p: u64) -> u64
    ensures value { result ≡ reply_number (pass_reply state.old (pass_from p).d (pass_from p).finished) }
    ensures state_after { state.new ≡ pass_bytes state.old (pass_from p).d (pass_from p).finished }
{
    let d = (p % 4294967296) as u32;
    let finished = p / 4294967296 % 2 == 1;
    let r = pass(state, d, finished);
    reply_number(r)
}

// Plays passes on a state, as many as there is room for replies.
pub fn play_all(state: &mut [u8], passes: &[u64], replies: &mut [u64])
    ensures state_after { state.new ≡ bytes_after state.old (played_passes passes.now (length replies.old)) }
    ensures replies_after { replies.new ≡ reply_numbers (trace state.old (played_passes passes.now (length replies.old))) ++ drop (length (played_passes passes.now (length replies.old))) replies.old }
{
    for i in 0..passes.len().min(replies.len()) {
        replies[i] = play_one(state, passes[i]);
    }
}
