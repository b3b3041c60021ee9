// Whether a state block is laid out as a state is: its zero byte, the places past its count, and the speeds past its count of levels.
ghost use Rattle.std.specs.Prelude.{◌≡◌, ◌≤◌, eqb, length, take, drop};
ghost use Rattle.arith.specs.Choice.{every};
ghost use Rattle.reclaiming.specs.StateBlock.{places, state_length, tail_at, state_count, laid_out};
ghost use Rattle.state.specs.Code.{unused_zero};

use crate::{
    ENTRY_LENGTH, HEAD_LENGTH, LEVEL_PLACES, TAIL_AT, ZERO_AT, count_at, levels_at, speed_at,
};

// Whether every speed past the count of levels is zero.
fn unused_zero(block: &[u8]) -> bool
    requires { length block.now ≡ state_length }
    ensures { result ≡ unused_zero block.now }
{
    for k in levels_at(block)..LEVEL_PLACES {
        if speed_at(block, k) != 0 {
            return false;
        }
    }
    true
}

// Whether every byte from a place on is zero, up to the end of the places: their sum is. A sum has no way out in its loop, so several bytes are added at once.
fn zero_from(block: &[u8], at: usize) -> bool
    requires { (at ≤ tail_at) × (length block.now ≡ state_length) }
    ensures { result ≡ every (eqb 0) (drop at (take tail_at block.now)) }
{
    let mut sum: u32 = 0;
    for byte in &block[at..TAIL_AT] {
        sum += u32::from(*byte);
    }
    sum == 0
}

// Whether a block of a state's length with a count of at most 16 is laid out as a state is.
pub fn laid_out(block: &[u8]) -> bool
    requires { (length block.now ≡ state_length) × (state_count block.now ≤ places) }
    ensures { result ≡ laid_out block.now }
{
    if block[ZERO_AT] != 0 {
        return false;
    }
    let count = count_at(block);
    if !zero_from(block, HEAD_LENGTH + ENTRY_LENGTH * count) {
        return false;
    }
    unused_zero(block)
}
