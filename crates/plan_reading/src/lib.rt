// Reading a plan block.
#![tactic(auto)]

pub mod fields;

ghost use Rattle.std.specs.Prelude.{◌≡◌, ◌≤◌, false, [], ◌∷◌, length};
ghost use Rattle.arith.specs.Asking.{ask, first_no};
ghost use Rattle.plan.specs.Blocks.{block_length, edition_in, count_in, tasks_in, tasks_of};
ghost use Rattle.plan.specs.Questions.{range_question, reading};
ghost use Rattle.plan.specs.Answers.{judged_by, read_block};
ghost use Rattle.levels.specs.Held.{speeds_of};

use crate::fields::{bit_count, block_length, edition_of, plan_in};
use judging::ranges::in_range;
use judging::verdicts::{judged_with, refused};
use levels::reading::table_of;
use levels::table::SpeedTable;
use plan::{Judged, Plan};

// The number that a block is refused with which names another edition than its plan is written in: 6 is asked before 21.
fn misnamed(p: Plan) -> u32
    requires { p.count ≤ 16 }
    ensures { result ≡ first_no (range_question (tasks_of p) ∷ ask 21 false ∷ []) }
{
    if in_range(p) {
        return 21;
    }
    6
}

// Questions 5, 6, 21, 24, 7 and 8, of a block of which 1 to 4 are answered yes.
fn read_counted(table: &SpeedTable, block: &[u8], edition: u32, count: usize) -> Judged
    requires edition_value { (edition ≡ edition_in block.now) × (1 ≤ edition) × (edition ≤ 2) × (count ≡ count_in block.now) }
    requires le_count { (1 ≤ count) × (count ≤ 16) × (length block.now ≡ block_length edition count) }
    ensures { result ≡ judged_by
        (first_no (reading (speeds_of table.now) block.now))
        (speeds_of table.now) (tasks_in block.now) }
{
    let used = bit_count(edition, count);
    let closing = numeric::bits_at(block, used, 8 * block.len() - used);
    if closing != 0 {
        return refused(5);
    }
    let p = plan_in(block, edition, count);
    if edition_of(p) != edition {
        return refused(misnamed(p));
    }
    judged_with(table, p)
}

// A block read over a table of speeds: the questions 1 to 6, 21, 24, 7 and 8.
pub fn read_over(table: &SpeedTable, block: &[u8]) -> Judged
    ensures { result ≡ judged_by
        (first_no (reading (speeds_of table.now) block.now))
        (speeds_of table.now) (tasks_in block.now) }
{
    if block.len() < 2 {
        return refused(1);
    }
    let edition = numeric::bits_at(block, 0, 4);
    if edition < 1 {
        return refused(2);
    }
    if edition > 2 {
        return refused(2);
    }
    let count = numeric::bits_at(block, 4, 5) as usize;
    if count < 1 {
        return refused(3);
    }
    if count > 16 {
        return refused(3);
    }
    if block.len() != block_length(edition, count) {
        return refused(4);
    }
    read_counted(table, block, edition, count)
}

// A block read over a level block: the questions put to that, then those of `read_over`.
pub fn read(levels: &[u8], block: &[u8]) -> Judged
    ensures { result ≡ read_block levels.now block.now }
{
    match table_of(levels) {
        Err(e) => refused(e.number),
        Ok(table) => read_over(&table, block),
    }
}
