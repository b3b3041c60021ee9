// Reading a level block: the questions 18, 19 and 20, and the table of speeds beside the answer.
ghost use Rattle.std.specs.Prelude.{◌≡◌, ◌≤◌, length, MatchResult};
ghost use Rattle.plan.specs.LevelBlocks.{level_count_in, read_levels};
ghost use Rattle.levels.specs.Reading.{unloaded_with, LoadedFrom, RefusedFor};

use crate::table::SpeedTable;
use crate::{level_length, rises, speeds_in};
use plan::{Board, Refused};

// A refusal, with a table that is zero throughout.
fn unloaded(n: u32) -> Board
    ensures { result ≡ unloaded_with n }
{
    Board {
        answer: Err(Refused { number: n }),
        speeds: [0u32; 8],
    }
}

// Questions 19 and 20, of a block of which 18 is answered yes.
fn read_counted(block: &[u8], count: usize) -> Board
    requires count_value { (count ≡ level_count_in block.now) × (1 ≤ count) × (count ≤ 8) }
    requires in_bounds { 1 ≤ length block.now }
    ensures { result ≡ read_levels block.now }
{
    if block.len() != level_length(count) {
        return unloaded(19);
    }
    let used = 4 + 10 * count;
    let closing = numeric::bits_at(block, used, 8 * block.len() - used);
    if closing != 0 {
        return unloaded(19);
    }
    let speeds = speeds_in(block, count);
    if !rises(&speeds, count) {
        return unloaded(20);
    }
    Board {
        answer: Ok(count),
        speeds,
    }
}

// A level block read: the questions 18, 19, 20.
pub fn read_levels(block: &[u8]) -> Board
    ensures { result ≡ read_levels block.now }
{
    if block.len() < 1 {
        return unloaded(18);
    }
    let count = numeric::bits_at(block, 0, 4) as usize;
    if count < 1 {
        return unloaded(18);
    }
    if count > 8 {
        return unloaded(18);
    }
    read_counted(block, count)
}

// The table of a level block, or its refusal.
pub fn table_of(block: &[u8]) -> Result<SpeedTable, Refused>
    ensures { MatchResult result (λ t. LoadedFrom block.now t) (λ e. RefusedFor block.now e) }
{
    let board = read_levels(block);
    let speeds = board.speeds;
    let levels = board.answer?;
    Ok(SpeedTable { speeds, levels })
}
