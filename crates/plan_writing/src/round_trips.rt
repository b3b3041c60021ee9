// The round trips of plan blocks: a block read and written again, a plan written and read back.
ghost use Rattle.std.specs.Prelude.{◌≡◌, length};
ghost use Rattle.plan.specs.LevelBlocks.{speeds_in};
ghost use Rattle.plan.specs.Blocks.{tasks_of};
ghost use Rattle.plan.specs.Answers.{write_buffer, written_by, stored_by, write_number, judged_by, copy_number};

use crate::write;
use judging::verdicts::refused;
use plan::{Judged, Plan, Refused};
use plan_reading::read;

// A block read and written again: the very same bytes, where the reading accepts it and there is room.
pub fn copy(levels: &[u8], block: &[u8], buffer: &mut [u8]) -> Result<usize, Refused>
    ensures value { result ≡ written_by
        (copy_number levels.now block.now (length buffer.old))
        block.now }
    ensures buffer_after { buffer.new ≡ stored_by
        (copy_number levels.now block.now (length buffer.old))
        block.now buffer.old }
{
    let j = read(levels, block);
    j.verdict?;
    let q = j.plan;
    write(levels, q, buffer)
}

// A plan written and read back: judged as the plan itself is, where there is room for its block.
pub fn reread(levels: &[u8], p: Plan, buffer: &mut [u8]) -> Judged
    ensures value { result ≡ judged_by
        (write_number levels.now p (length buffer.old))
        (speeds_in levels.now) (tasks_of p) }
    ensures buffer_after { buffer.new ≡ write_buffer levels.now p buffer.old }
{
    let w = write(levels, p, buffer);
    match w {
        Err(e) => refused(e.number),
        Ok(n) => read(levels, &buffer[..n]),
    }
}
