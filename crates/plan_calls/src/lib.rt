// The calls on plans, for C and for tests: on numbers and lent slices, an answer packed into one number.
#![tactic(auto)]

mod judged;
pub mod lists;
mod numbers;

ghost use Rattle.std.specs.Prelude.{◌≡◌, length};
ghost use Rattle.plan.specs.LevelBlocks.{read_levels};
ghost use Rattle.plan.specs.Pairs.{ask_pairs};
ghost use Rattle.plan.specs.Answers.{judged_plan, read_block, write_plan, write_buffer, written_by, stored_by, copy_number};
ghost use Rattle.plan.specs.Counted.{counted_number};
ghost use Rattle.plan.specs.Numbers.{plan_from, verdict_number};

use crate::judged::judged_number;
use crate::numbers::plan_from;
use answers::{counted_number, verdict_number};
use levels::reading::read_levels;
use pairs::reading::ask_pairs;
use plan_reading::read;
use plan_writing::round_trips::copy;
use plan_writing::write;

// Reads a level block: 18 to 20 is a refusal's number; else the count of levels stands from bit 8 on.
pub fn kilmstra_levels_read(levels: &[u8]) -> u64
    ensures { result ≡ counted_number (read_levels levels.now).answer }
{
    let board = read_levels(levels);
    counted_number(board.answer)
}

// Judges a plan over a level block: a number below 256 is a refusal's; else the level stands from bit 8 on and the hyperperiod from
// bit 16 on.
pub fn kilmstra_plan_judge(levels: &[u8], count: usize, numbers: &[u32]) -> u64
    ensures { result ≡ verdict_number
        (judged_plan levels.now (plan_from count numbers.now)).verdict }
{
    let p = plan_from(count, numbers);
    judged_number(levels, p)
}

// Reads a block over a level block, with an answer as judging has.
pub fn kilmstra_plan_read(levels: &[u8], block: &[u8]) -> u64
    ensures { result ≡ verdict_number (read_block levels.now block.now).verdict }
{
    let j = read(levels, block);
    let v = j.verdict;
    verdict_number(v)
}

// Asks whether a list of pairs is good for a plan's block over a level block: 18 to 20, 1 to 8, 21, 22 or 24 is a refusal's number; else the
// count of pairs stands from bit 8 on.
pub fn kilmstra_pairs(levels: &[u8], block: &[u8], pairs: &[u8]) -> u64
    ensures { result ≡ counted_number (ask_pairs levels.now block.now pairs.now) }
{
    let p = ask_pairs(levels, block, pairs);
    counted_number(p)
}

// Writes a plan's block, judged over a level block: a number below 256 is a refusal's; else the count of bytes stands from bit 8 on.
pub fn kilmstra_plan_write(levels: &[u8], count: usize, numbers: &[u32], buffer: &mut [u8]) -> u64
    ensures value { result ≡ counted_number
        (write_plan levels.now (plan_from count numbers.now) (length buffer.old)) }
    ensures buffer_after { buffer.new ≡
        write_buffer levels.now (plan_from count numbers.now) buffer.old }
{
    let p = plan_from(count, numbers);
    let written = write(levels, p, buffer);
    counted_number(written)
}

// Reads a block over a level block and writes it again, with an answer as writing has.
pub fn kilmstra_plan_copy(levels: &[u8], block: &[u8], buffer: &mut [u8]) -> u64
    ensures value { result ≡ counted_number (written_by
        (copy_number levels.now block.now (length buffer.old))
        block.now) }
    ensures buffer_after { buffer.new ≡ stored_by
        (copy_number levels.now block.now (length buffer.old))
        block.now buffer.old }
{
    let copied = copy(levels, block, buffer);
    counted_number(copied)
}
