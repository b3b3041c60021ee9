// Writing a plan block.
#![tactic(auto)]

mod bits;
pub mod round_trips;

ghost use Rattle.std.specs.Prelude.{◌≡◌, ◌<◌, length};
ghost use Rattle.arith.specs.Asking.{first_no};
ghost use Rattle.plan.specs.Blocks.{tasks_of, plan_block};
ghost use Rattle.plan.specs.Questions.{writing};
ghost use Rattle.levels.specs.Held.{speeds_of};
ghost use Rattle.plan.specs.Answers.{write_plan, write_buffer, written_by, stored_by};

use crate::bits::put_block;
use judging::admission::verdict_of;
use levels::reading::table_of;
use levels::table::SpeedTable;
use plan::{Plan, Refused};
use plan_reading::fields::{block_length, edition_of};

// A plan written over a table of speeds: the questions 3, 6, 24, 7, 8, then 9.
fn write_over(table: &SpeedTable, p: Plan, buffer: &mut [u8]) -> Result<usize, Refused>
    ensures value { result ≡ written_by
        (first_no (writing (speeds_of table.now) p (length buffer.old)))
        (plan_block (tasks_of p)) }
    ensures buffer_after { buffer.new ≡ stored_by
        (first_no (writing (speeds_of table.now) p (length buffer.old)))
        (plan_block (tasks_of p)) buffer.old }
{
    let count = p.count;
    if count < 1 {
        return Err(Refused { number: 3 });
    }
    if count > 16 {
        return Err(Refused { number: 3 });
    }
    verdict_of(table, p)?;
    let edition = edition_of(p);
    let wanted = block_length(edition, count);
    if buffer.len() < wanted {
        return Err(Refused { number: 9 });
    }
    put_block(p, edition, buffer);
    Ok(wanted)
}

// A plan written over a level block: the questions put to that, then those of `write_over`.
pub fn write(levels: &[u8], p: Plan, buffer: &mut [u8]) -> Result<usize, Refused>
    ensures value { result ≡ write_plan levels.now p (length buffer.old) }
    ensures buffer_after { buffer.new ≡ write_buffer levels.now p buffer.old }
{
    let table = table_of(levels)?;
    write_over(&table, p, buffer)
}
