// A whole list of passes played on lent blocks: the run of demand 3, from its start to its last reply.
ghost use Rattle.std.specs.Prelude.{◌≡◌, length};
ghost use Rattle.reclaiming.specs.Replies.{is_order};
ghost use Rattle.reclaiming.specs.Calls.{start_reply};
ghost use Rattle.reclaiming.specs.Numbers.{reply_number};
ghost use Rattle.reclaiming.specs.Play.{played_passes, played_state, played_replies, PlayedOnTime, PlayedInTime, PlayedMostUrgent, PlayedPairsKept, PlayedTotalTold};
ghost use Rattle.reclaiming.specs.Play.{PlayedByBooks, PlayedEarliness, PlayedAhead, PlayedWithin, PlayedPlainly, PlayedAboveFloor};
ghost use Rattle.reclaiming.specs.Play.{played_shown, played_queue, PlayedQueueShown};

use crate::passes::play_all;
use answers::reply_number;
use plan::Refused;
use reclaiming::Order;
use showing::show;
use starting::start;
use state::STATE_LENGTH;

// Whether a reply is an order, and no refusal.
fn is_order(reply: Result<Order, Refused>) -> bool
    ensures { result ≡ is_order reply }
{
    reply.is_ok()
}

// Starts a plan with its pairs over a level block and plays a list of passes on it. The start's reply is returned; those of the passes stand in the lent block.
pub fn play(
    levels: &[u8],
    block: &[u8],
    pairs: &[u8],
    state: &mut [u8],
    passes: &[u64],
    replies: &mut [u64],
) -> u64
    ensures value { result ≡ reply_number (start_reply levels.now block.now pairs.now (length state.old)) }
    ensures state_after { state.new ≡ played_state levels.now block.now pairs.now state.old (played_passes passes.now (length replies.old)) }
    ensures replies_after { replies.new ≡ played_replies levels.now block.now pairs.now state.old (played_passes passes.now (length replies.old)) replies.old }
    ensures played_on_time { PlayedOnTime levels.now block.now result (played_passes passes.now (length replies.old)) replies.new }
    ensures played_in_time { PlayedInTime levels.now block.now result (played_passes passes.now (length replies.old)) replies.new }
    ensures played_most_urgent { PlayedMostUrgent levels.now block.now result (played_passes passes.now (length replies.old)) replies.new }
    ensures played_pairs_kept { PlayedPairsKept levels.now block.now result (played_passes passes.now (length replies.old)) replies.new pairs.now }
    ensures played_total_told { PlayedTotalTold levels.now block.now result (played_passes passes.now (length replies.old)) replies.new state.new }
    ensures played_by_books { PlayedByBooks levels.now block.now result (played_passes passes.now (length replies.old)) replies.new state.new }
    ensures played_earliness { PlayedEarliness levels.now block.now result (played_passes passes.now (length replies.old)) replies.new }
    ensures played_ahead { PlayedAhead levels.now block.now result (played_passes passes.now (length replies.old)) replies.new }
    ensures played_within { PlayedWithin levels.now block.now result (played_passes passes.now (length replies.old)) replies.new }
    ensures played_plainly { PlayedPlainly levels.now block.now result (played_passes passes.now (length replies.old)) replies.new }
    ensures played_above_floor { PlayedAboveFloor levels.now block.now result (played_passes passes.now (length replies.old)) replies.new }
{
    let first = start(levels, block, pairs, state);
    if !is_order(first) {
        return reply_number(first);
    }
    play_all(&mut state[..STATE_LENGTH], passes, replies);
    reply_number(first)
}

// What playing a list and then showing the queue answer: the start's reply as a number, and what showing answers.
#[derive(Clone, Copy)]
pub struct Played {
    pub first: u64,
    pub shown: Result<usize, Refused>,
}

// Plays a list of passes as `play` does and, where the start was accepted, shows the queue of the state that they leave.
// (Each goal is answered by hand: the check's tactics compute the run's definitions for minutes where one is false.)
#[tactic(none)]
pub fn play_and_show(
    levels: &[u8],
    block: &[u8],
    pairs: &[u8],
    state: &mut [u8],
    passes: &[u64],
    replies: &mut [u64],
    buffer: &mut [u8],
) -> Played
    ensures first_value { result.first ≡ reply_number (start_reply levels.now block.now pairs.now (length state.old)) }
    ensures shown_value { result.shown ≡ played_shown levels.now block.now pairs.now state.old (played_passes passes.now (length replies.old)) (length buffer.old) }
    ensures state_after { state.new ≡ played_state levels.now block.now pairs.now state.old (played_passes passes.now (length replies.old)) }
    ensures replies_after { replies.new ≡ played_replies levels.now block.now pairs.now state.old (played_passes passes.now (length replies.old)) replies.old }
    ensures buffer_after { buffer.new ≡ played_queue levels.now block.now pairs.now state.old (played_passes passes.now (length replies.old)) buffer.old }
    ensures played_queue_shown { PlayedQueueShown levels.now block.now result.first (played_passes passes.now (length replies.old)) replies.new buffer.old result.shown buffer.new }
{
    let first = play(levels, block, pairs, state, passes, replies);
    if first < 256 {
        return Played {
            first,
            shown: Ok(0),
        };
    }
    let shown = show(&state[..STATE_LENGTH], buffer);
    Played { first, shown }
}
