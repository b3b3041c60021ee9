// The state block: its fields, and reading them.
#![tactic(auto)]

pub mod clock;
pub mod layout;
pub mod storing;
pub mod tables;
pub mod totals;

ghost use Rattle.std.specs.Prelude.{◌≡◌, ◌+◌, ◌-◌, ◌^◌, ◌<◌, ◌≤◌, length};
ghost use Rattle.reclaiming.specs.StateBlock.{places, level_places, state_length, rest_in, task_of, state_count, level_count, speed_in, total_in, decode};
ghost use Rattle.state.specs.Code.{Holds, entry_at, entry_in, field_in};

use plan::{Rest, Task};

// The fields of a block: where each begins, and its count of bytes.
pub const CLOCK_AT: usize = 0;

pub const CLOCK_WIDTH: usize = 4;

pub const TASK_AT: usize = CLOCK_AT + CLOCK_WIDTH;

pub const TASK_WIDTH: usize = 1;

pub const LEVEL_AT: usize = TASK_AT + TASK_WIDTH;

pub const LEVEL_WIDTH: usize = 1;

pub const COUNT_AT: usize = LEVEL_AT + LEVEL_WIDTH;

pub const COUNT_WIDTH: usize = 1;

pub const ZERO_AT: usize = COUNT_AT + COUNT_WIDTH;

pub const ZERO_WIDTH: usize = 1;

pub const HEAD_LENGTH: usize = ZERO_AT + ZERO_WIDTH;

// The fields of an entry, where they stand in the first one.
pub const PERIOD_AT: usize = HEAD_LENGTH;

pub const PERIOD_WIDTH: usize = 2;

pub const WORST_AT: usize = PERIOD_AT + PERIOD_WIDTH;

pub const WORST_WIDTH: usize = 3;

// The floor stands above the worst case, in the top four bits of its bytes: a floor of 1 counts for so much in the number there.
pub const FLOOR_UNIT: u32 = 1_048_576;

pub const WORK_AT: usize = WORST_AT + WORST_WIDTH;

pub const WORK_WIDTH: usize = 3;

pub const REMAINING_AT: usize = WORK_AT + WORK_WIDTH;

pub const REMAINING_WIDTH: usize = 2;

pub const FIXED_AT: usize = REMAINING_AT + REMAINING_WIDTH;

pub const FIXED_WIDTH: usize = 1;

pub const UNSPENT_AT: usize = FIXED_AT + FIXED_WIDTH;

pub const UNSPENT_WIDTH: usize = 1;

pub const ENTRY_LENGTH: usize = UNSPENT_AT + UNSPENT_WIDTH - HEAD_LENGTH;

// The places for entries, and what follows them.
pub const PLACES: usize = 16;

pub const TAIL_AT: usize = HEAD_LENGTH + ENTRY_LENGTH * PLACES;

// The count of levels, and the places for their speeds.
pub const LEVELS_AT: usize = TAIL_AT;

pub const LEVELS_WIDTH: usize = 1;

pub const SPEEDS_AT: usize = LEVELS_AT + LEVELS_WIDTH;

pub const SPEED_WIDTH: usize = 2;

pub const LEVEL_PLACES: usize = 8;

// The total of the remaining ticks.
pub const TOTAL_AT: usize = SPEEDS_AT + SPEED_WIDTH * LEVEL_PLACES;

pub const TOTAL_WIDTH: usize = 4;

pub const STATE_LENGTH: usize = TOTAL_AT + TOTAL_WIDTH;

// The number of a state that is not sound.
pub const UNSOUND: u32 = 10;

// The clock of a block.
pub fn clock_at(block: &[u8]) -> u32
    requires { length block.now ≡ state_length }
    ensures { result ≡ (decode block.now).clock }
{
    numeric::get_number(block, CLOCK_AT, CLOCK_WIDTH)
}

// How many tasks a block has.
pub fn count_at(block: &[u8]) -> usize
    requires { Holds block.now }
    ensures { result ≡ state_count block.now }
{
    block[COUNT_AT] as usize
}

// The period of task i.
pub fn period_at(block: &[u8], i: usize) -> u32
    requires { (i < places) × (length block.now ≡ state_length) }
    ensures { (result ≡ (entry_in block.now i).period) × (result ≤ 65535) }
{
    numeric::get_number(block, PERIOD_AT + ENTRY_LENGTH * i, PERIOD_WIDTH)
}

// The remaining ticks of task i's job.
pub fn remaining_at(block: &[u8], i: usize) -> u32
    requires { (i < places) × (length block.now ≡ state_length) }
    ensures { (result ≡ (entry_in block.now i).remaining) × (result ≤ 65535) }
{
    numeric::get_number(block, REMAINING_AT + ENTRY_LENGTH * i, REMAINING_WIDTH)
}

// The number in a field of entry i: any field, by where it stands in the first entry and by its count of bytes.
fn field_at(block: &[u8], at: usize, n: usize, i: usize) -> u32
    requires { (i < places) × (length block.now ≡ state_length) × (n ≤ 4) × (at + n ≤ entry_at 1) }
    ensures { (result ≡ field_in block.now at n i) × (result ≤ 256 ^ n - 1) }
{
    numeric::get_number(block, at + ENTRY_LENGTH * i, n)
}

// Task i.
pub fn task_at(block: &[u8], i: usize) -> Task
    requires { (i < places) × (length block.now ≡ state_length) }
    ensures { (result ≡ task_of (entry_in block.now i)) × (result.worst ≤ 1048575) × (result.fixed ≤ 255) }
{
    let shared = field_at(block, WORST_AT, WORST_WIDTH, i);
    Task {
        period: period_at(block, i),
        worst: shared % FLOOR_UNIT,
        fixed: field_at(block, FIXED_AT, FIXED_WIDTH, i),
        floor: shared / FLOOR_UNIT,
    }
}

// The floor of task i.
pub fn floor_at(block: &[u8], i: usize) -> usize
    requires { (i < places) × (length block.now ≡ state_length) }
    ensures { result ≡ (entry_in block.now i).floor }
{
    (field_at(block, WORST_AT, WORST_WIDTH, i) / FLOOR_UNIT) as usize
}

// What is left of task i's job.
pub fn rest_at(block: &[u8], i: usize) -> Rest
    requires { (i < places) × (length block.now ≡ state_length) }
    ensures { (result ≡ rest_in (entry_in block.now i)) × (result.work ≤ 16777215) × (result.fixed ≤ 255) }
{
    Rest {
        fixed: field_at(block, UNSPENT_AT, UNSPENT_WIDTH, i),
        work: field_at(block, WORK_AT, WORK_WIDTH, i),
    }
}

// How many levels a block has.
pub(crate) fn levels_at(block: &[u8]) -> usize
    requires { length block.now ≡ state_length }
    ensures { result ≡ level_count block.now }
{
    block[LEVELS_AT] as usize
}

// The speed at place k of the table.
pub(crate) fn speed_at(block: &[u8], k: usize) -> u32
    requires { (k < level_places) × (length block.now ≡ state_length) }
    ensures { (result ≡ speed_in block.now k) × (result ≤ 65535) }
{
    numeric::get_number(block, SPEEDS_AT + SPEED_WIDTH * k, SPEED_WIDTH)
}

// The total of a block.
pub fn total_at(block: &[u8]) -> u32
    requires { length block.now ≡ state_length }
    ensures { result ≡ total_in block.now }
{
    numeric::get_number(block, TOTAL_AT, TOTAL_WIDTH)
}
