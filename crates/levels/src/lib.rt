// Tables of speeds as the code holds them, eight numbers, of which the first so many are the levels' speeds; the length of a level block, and the
// speeds in it.
#![tactic(auto)]

pub mod reading;
pub mod table;

ghost use Rattle.std.specs.Prelude.{◌≡◌, ◌*◌, ◌≤◌, length};
ghost use Rattle.arith.specs.Arrays.{padded};
ghost use Rattle.arith.specs.Ranges.{list_to};
ghost use Rattle.plan.specs.LevelBlocks.{level_bit_count, level_length, speed_at, rises_from};
ghost use Rattle.levels.specs.Code.{loaded};

// Whether the first so many numbers rise from above 0 and are at most 1,000: where they rise, the last one tells. A proof learns nothing of
// a lent array's length, so it is asked.
pub fn rises(speeds: &[u32; 8], levels: usize) -> bool
    requires { (levels ≤ 8) × (length speeds.now ≡ 8) }
    ensures { result ≡ rises_from 0 (loaded speeds.now levels) }
{
    let mut last: u32 = 0;
    for i in 0..levels {
        let s = speeds[i];
        if s <= last {
            return false;
        }
        last = s;
    }
    last <= 1000
}

// How many bytes the block of so many levels has.
pub fn level_length(count: usize) -> usize
    requires { count ≤ 8 }
    ensures { result ≡ level_length count }
{
    (4 + 10 * count + 7) / 8
}

// The speeds of a block of so many levels, zeros past them.
pub(crate) fn speeds_in(block: &[u8], count: usize) -> [u32; 8]
    requires { (count ≤ 8) × (level_bit_count count ≤ 8 * length block.now) }
    ensures { result ≡ padded 8 0 (list_to count (speed_at block.now)) }
{
    let mut speeds = [0u32; 8];
    for i in 0..count {
        speeds[i] = numeric::bits_at(block, 4 + 10 * i, 10);
    }
    speeds
}
