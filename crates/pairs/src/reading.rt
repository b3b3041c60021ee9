// A plan read with its list of pairs, and what is answered about such a list.
ghost use Rattle.std.specs.Prelude.{◌≡◌};
ghost use Rattle.arith.specs.Asking.{first_no};
ghost use Rattle.plan.specs.Blocks.{tasks_in};
ghost use Rattle.plan.specs.Answers.{judged_by};
ghost use Rattle.plan.specs.Pairs.{pairs_in, paired_reading, paired_by, ask_pairs};
ghost use Rattle.levels.specs.Held.{speeds_of};

use crate::pairs_good;
use judging::verdicts::refused;
use levels::reading::table_of;
use levels::table::SpeedTable;
use plan::{Judged, Refused};
use plan_reading::read_over;

// A block read with its pairs over a table of speeds: the questions of reading, then 22.
pub fn read_paired(table: &SpeedTable, block: &[u8], pairs: &[u8]) -> Judged
    ensures { result ≡ judged_by
        (first_no (paired_reading (speeds_of table.now) block.now pairs.now))
        (speeds_of table.now) (tasks_in block.now) }
{
    let j = read_over(table, block);
    let p = j.plan;
    match j.verdict {
        Err(e) => refused(e.number),
        Ok(_) => {
            if !pairs_good(p, pairs) {
                return refused(22);
            }
            j
        }
    }
}

// What is answered about a list of pairs over a table of speeds.
fn ask_over(table: &SpeedTable, block: &[u8], pairs: &[u8]) -> Result<usize, Refused>
    ensures { result ≡ paired_by
        (first_no (paired_reading (speeds_of table.now) block.now pairs.now))
        (pairs_in pairs.now) }
{
    let j = read_paired(table, block, pairs);
    j.verdict?;
    Ok(pairs.len() / 2)
}

// Whether a list of pairs is good for a plan: the questions of starting up to 22, and the count of pairs.
pub fn ask_pairs(levels: &[u8], block: &[u8], pairs: &[u8]) -> Result<usize, Refused>
    ensures { result ≡ ask_pairs levels.now block.now pairs.now }
{
    let table = table_of(levels)?;
    ask_over(&table, block, pairs)
}
