// The fields of a plan block: where each stands, and the tasks that are read from them.
ghost use Rattle.std.specs.Prelude.{◌≡◌, ◌+◌, ◌*◌, ◌<◌, ◌≤◌, eqb, length, drop};
ghost use Rattle.arith.specs.Choice.{pick};
ghost use Rattle.arith.specs.Digits.{number};
ghost use Rattle.arith.specs.Bits.{unpacked};
ghost use Rattle.plan.specs.Blocks.{task_width, task_from, tasks_from, bit_count, block_length, edition_of, tasks_of, plan_of};

use judging::verdicts::empty_plan;
use plan::{Plan, Task};

// How many bits a task takes in an edition.
pub fn task_width(edition: u32) -> usize
    ensures { result ≡ task_width edition }
{
    if edition == 2 {
        return 47;
    }
    36
}

// How many bits a block of so many tasks takes; they are too where the next task stands.
pub(crate) fn bit_count(edition: u32, count: usize) -> usize
    requires { count ≤ 16 }
    ensures { result ≡ bit_count edition count }
{
    9 + task_width(edition) * count
}

// What a task adds, in so many bits at a place; only edition 2 has a field for it.
fn addition_in(block: &[u8], edition: u32, at: usize, n: usize) -> u32
    requires { (n ≤ 8) × (at ≤ 1024) × (edition ≡ 2 → at + n ≤ 8 * length block.now) }
    ensures { result ≡ pick (eqb edition 2) (number 2 n (drop at (unpacked block.now))) 0 }
{
    if edition != 2 {
        return 0;
    }
    numeric::bits_at(block, at, n)
}

// Task i of a block.
fn task_in(block: &[u8], edition: u32, i: usize) -> Task
    requires { (i < 16) × (bit_count edition (i + 1) ≤ 8 * length block.now) }
    ensures { result ≡ task_from edition (drop (bit_count edition i) (unpacked block.now)) }
{
    let at = bit_count(edition, i);
    let period = numeric::bits_at(block, at, 16);
    let worst = numeric::bits_at(block, at + 16, 20);
    let fixed = addition_in(block, edition, at + 36, 8);
    let floor = addition_in(block, edition, at + 44, 3);
    Task {
        period,
        worst,
        fixed,
        floor,
    }
}

// The plan of a block of so many tasks.
pub(crate) fn plan_in(block: &[u8], edition: u32, count: usize) -> Plan
    requires { (count ≤ 16) × (bit_count edition count ≤ 8 * length block.now) }
    ensures { result ≡ plan_of (tasks_from edition count (drop 9 (unpacked block.now))) }
{
    let mut q = empty_plan();
    q.count = count;
    for i in 0..count {
        q.tasks[i] = task_in(block, edition, i);
    }
    q
}

// The edition that a plan is written in: 2 where a task has fixed ticks or a floor.
pub fn edition_of(p: Plan) -> u32
    requires { p.count ≤ 16 }
    ensures { result ≡ edition_of (tasks_of p) }
{
    if p.tasks[..p.count]
        .iter()
        .all(|t| t.fixed == 0 && t.floor == 0)
    {
        return 1;
    }
    2
}

// How many bytes the block of so many tasks has.
pub fn block_length(edition: u32, count: usize) -> usize
    requires { count ≤ 16 }
    ensures { result ≡ block_length edition count }
{
    (bit_count(edition, count) + 7) / 8
}
