// The table of speeds in a state block: reading and testing it, and storing it.
ghost use Rattle.std.specs.Prelude.{◌≡◌, false, ◌≤◌, length, MatchOption};
ghost use Rattle.std.proofs.lemmas.List.Edits.{sets};
ghost use Rattle.arith.specs.Arrays.{padded};
ghost use Rattle.arith.specs.Ranges.{list_to};
ghost use Rattle.reclaiming.specs.StateBlock.{level_places, tail_at, state_length, speed_in};
ghost use Rattle.levels.specs.Code.{loaded};
ghost use Rattle.state.specs.Tables.{own_table, OwnTable, table_bytes};

use crate::{
    LEVEL_PLACES, LEVELS_AT, LEVELS_WIDTH, SPEED_WIDTH, SPEEDS_AT, STATE_LENGTH, levels_at,
    speed_at,
};
use levels::table::SpeedTable;

// The numbers at all places of a block's table. Their count is fixed, so the loop is unrolled, and no test of the levels' stands in it.
fn speeds_of(block: &[u8]) -> [u32; 8]
    requires { length block.now ≡ state_length }
    ensures { result ≡ list_to level_places (speed_in block.now) }
{
    let mut speeds = [0u32; 8];
    for (k, speed) in speeds.iter_mut().enumerate() {
        *speed = speed_at(block, k);
    }
    speeds
}

// The table of a block, where it has a state's length and its speeds may be loaded.
pub fn own_table(block: &[u8]) -> Option<SpeedTable>
    ensures { MatchOption result (own_table block.now ≡ false) (λ t. OwnTable block.now t) }
{
    if block.len() != STATE_LENGTH {
        return None;
    }
    let count = levels_at(block);
    if count < 1 {
        return None;
    }
    if count > LEVEL_PLACES {
        return None;
    }
    let speeds = speeds_of(block);
    if !levels::rises(&speeds, count) {
        return None;
    }
    Some(SpeedTable {
        speeds,
        levels: count,
    })
}

// Stores a table of speeds whose numbers past its count are zero.
pub fn put_table(image: &mut [u8], speeds: &[u32; 8], levels: usize)
    requires image_len { (length image.old ≡ state_length) × (levels ≤ 8) }
    requires speeds_value { speeds.now ≡ padded 8 0 (loaded speeds.now levels) }
    ensures { image.new ≡ sets image.old tail_at (table_bytes (loaded speeds.now levels)) }
{
    numeric::put_number(image, LEVELS_AT, LEVELS_WIDTH, levels as u32);
    for k in 0..LEVEL_PLACES {
        numeric::put_number(image, SPEEDS_AT + SPEED_WIDTH * k, SPEED_WIDTH, speeds[k]);
    }
}
