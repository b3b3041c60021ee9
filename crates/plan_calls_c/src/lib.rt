// The calls on plans, exported to C: each only calls the function of its name in plan_calls, and promises what that does.
#![tactic(auto)]

ghost use Rattle.std.specs.Prelude.{◌≡◌, length};
ghost use Rattle.plan.specs.LevelBlocks.{read_levels};
ghost use Rattle.plan.specs.Pairs.{ask_pairs};
ghost use Rattle.plan.specs.Answers.{judged_plan, judged_list, read_block, write_plan, write_buffer, written_by, stored_by, copy_number};
ghost use Rattle.plan.specs.Counted.{counted_number};
ghost use Rattle.plan.specs.Numbers.{plan_from, verdict_number};

use plan::Task;

// Reads a level block: 18 to 20 is a refusal's number; else the count of levels stands from bit 8 on.
#[unsafe(no_mangle)]
pub extern "C" fn kilmstra_levels_read(levels: &[u8]) -> u64
    ensures { result ≡ counted_number (read_levels levels.now).answer }
{
    plan_calls::kilmstra_levels_read(levels)
}

// Judges a plan over a level block: a number below 256 is a refusal's; else the level stands from bit 8 on and the hyperperiod from
// bit 16 on.
#[unsafe(no_mangle)]
pub extern "C" fn kilmstra_plan_judge(levels: &[u8], count: usize, numbers: &[u32]) -> u64
    ensures { result ≡ verdict_number
        (judged_plan levels.now (plan_from count numbers.now)).verdict }
{
    plan_calls::kilmstra_plan_judge(levels, count, numbers)
}

// Judges a list that C lends over a level block, with an answer as `kilmstra_plan_judge` has.
#[unsafe(no_mangle)]
pub extern "C" fn kilmstra_judge_list(levels: &[u8], tasks: &[Task]) -> u64
    ensures { result ≡ verdict_number
        (judged_list levels.now (length tasks.now) tasks.now).verdict }
{
    plan_calls::lists::kilmstra_judge_list(levels, tasks)
}

// Reads a block over a level block, with an answer as judging has.
#[unsafe(no_mangle)]
pub extern "C" fn kilmstra_plan_read(levels: &[u8], block: &[u8]) -> u64
    ensures { result ≡ verdict_number (read_block levels.now block.now).verdict }
{
    plan_calls::kilmstra_plan_read(levels, block)
}

// Asks whether a list of pairs is good for a plan's block over a level block: 18 to 20, 1 to 8, 21, 22 or 24 is a refusal's number; else the
// count of pairs stands from bit 8 on.
#[unsafe(no_mangle)]
pub extern "C" fn kilmstra_pairs(levels: &[u8], block: &[u8], pairs: &[u8]) -> u64
    ensures { result ≡ counted_number (ask_pairs levels.now block.now pairs.now) }
{
    plan_calls::kilmstra_pairs(levels, block, pairs)
}

// Writes a plan's block, judged over a level block: a number below 256 is a refusal's; else the count of bytes stands from bit 8 on.
#[unsafe(no_mangle)]
pub extern "C" fn kilmstra_plan_write(
    levels: &[u8],
    count: usize,
    numbers: &[u32],
    buffer: &mut [u8],
) -> u64
    ensures value { result ≡ counted_number
        (write_plan levels.now (plan_from count numbers.now) (length buffer.old)) }
    ensures buffer_after { buffer.new ≡
        write_buffer levels.now (plan_from count numbers.now) buffer.old }
{
    plan_calls::kilmstra_plan_write(levels, count, numbers, buffer)
}

// Reads a block over a level block and writes it again, with an answer as writing has.
#[unsafe(no_mangle)]
pub extern "C" fn kilmstra_plan_copy(levels: &[u8], block: &[u8], buffer: &mut [u8]) -> u64
    ensures value { result ≡ counted_number (written_by
        (copy_number levels.now block.now (length buffer.old))
        block.now) }
    ensures buffer_after { buffer.new ≡ stored_by
        (copy_number levels.now block.now (length buffer.old))
        block.now buffer.old }
{
    plan_calls::kilmstra_plan_copy(levels, block, buffer)
}
