// The valve job in a whole run: the run is played through the dispatcher, and how often a valve job finishes follows from what that promises.
ghost use Rattle.std.specs.Prelude.{◌≡◌, length};
ghost use Rattle.reclaiming.specs.Calls.{start_reply};
ghost use Rattle.reclaiming.specs.Numbers.{reply_number};
ghost use Rattle.reclaiming.specs.Play.{played_passes, played_state, played_replies};
ghost use Rattle.knee.specs.Refresh.{PlayedRefreshApart, PlayedRefreshGoesOn, PlayedRefreshAge};

use dispatcher::play::play;

// Starts a plan with its pairs over a level block and plays a list of passes on it, as the dispatcher does. The start's reply is returned; those
// of the passes stand in the lent block. Task 0 is the valve job.
pub fn play_valve(
    levels: &[u8],
    block: &[u8],
    pairs: &[u8],
    state: &mut [u8],
    passes: &[u64],
    replies: &mut [u64],
) -> u64
    ensures value { result ≡ reply_number (start_reply levels.now block.now pairs.now (length state.old)) }
    ensures state_after { state.new ≡ played_state levels.now block.now pairs.now state.old (played_passes passes.now (length replies.old)) }
    ensures replies_after { replies.new ≡ played_replies levels.now block.now pairs.now state.old (played_passes passes.now (length replies.old)) replies.old }
    ensures played_refresh_apart { PlayedRefreshApart levels.now block.now result (played_passes passes.now (length replies.old)) replies.new }
    ensures played_refresh_goes_on { PlayedRefreshGoesOn levels.now block.now result (played_passes passes.now (length replies.old)) replies.new }
    ensures played_refresh_age { PlayedRefreshAge levels.now block.now result (played_passes passes.now (length replies.old)) replies.new }
{
    play(levels, block, pairs, state, passes, replies)
}
