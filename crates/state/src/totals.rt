// The total of the plain ticks left: what ticks leave of it, and what asking a state's bytes for it answers.
ghost use Rattle.std.specs.Prelude.{◌≡◌, ◌-◌};
ghost use Rattle.reclaiming.specs.Calls.{queued_reply};

use crate::{STATE_LENGTH, UNSOUND, total_at};
use plan::Refused;

// What d ticks leave of a total: they take no more than there is.
pub fn left_of(total: u32, d: u32) -> u32
    ensures { result ≡ total - d }
{
    if d < total {
        return total - d;
    }
    0
}

// The total of a state, sound or not: 10 where it has not a state's length.
pub fn queued(state: &[u8]) -> Result<u32, Refused>
    ensures { result ≡ queued_reply state.now }
{
    if state.len() != STATE_LENGTH {
        return Err(Refused { number: UNSOUND });
    }
    Ok(total_at(state))
}
