// The block of a plan, bit by bit and byte by byte.
ghost use Rattle.std.specs.Prelude.{◌≡◌, ◌*◌, ◌/◌, ◌%◌, ◌^◌, ◌<◌, ◌≤◌, length, drop, get_or};
ghost use Rattle.arith.specs.Digits.{number};
ghost use Rattle.plan.specs.Blocks.{tasks_of, edition_of, plan_bits, plan_block, block_length};
ghost use Rattle.plan.specs.Answers.{stored_by};

use plan::Plan;
use plan_reading::fields::{block_length, task_width};

// Bit k of a number, counted from its lowest.
fn bit_of(x: u32, k: usize) -> u32
    requires { k < 32 }
    ensures { result ≡ x / 2 ^ k % 2 }
{
    (x >> k) % 2
}

// Bit k of a plan's block, past the edition and the count.
fn task_bit(p: Plan, edition: u32, k: usize) -> u32
    requires { (p.count ≤ 16) × (9 ≤ k) × (k < 1024) }
    ensures { result ≡ get_or (plan_bits edition (tasks_of p)) k 0 }
{
    let width = task_width(edition);
    let i = (k - 9) / width;
    let r = (k - 9) % width;
    let count = p.count;
    if count <= i {
        return 0;
    }
    let t = p.tasks[i];
    if r < 16 {
        return bit_of(t.period, 15 - r);
    }
    if r < 36 {
        return bit_of(t.worst, 35 - r);
    }
    if r < 44 {
        return bit_of(t.fixed, 43 - r);
    }
    bit_of(t.floor, 46 - r)
}

// Bit k of a plan's block.
fn plan_bit(p: Plan, edition: u32, k: usize) -> u32
    requires { (p.count ≤ 16) × (k < 1024) }
    ensures { result ≡ get_or (plan_bits edition (tasks_of p)) k 0 }
{
    if k < 4 {
        return bit_of(edition, 3 - k);
    }
    if k < 9 {
        return bit_of(p.count as u32, 8 - k);
    }
    task_bit(p, edition, k)
}

// Byte j of a plan's block.
fn plan_byte(p: Plan, edition: u32, j: usize) -> u8
    requires { (p.count ≤ 16) × (j < 128) }
    ensures { result ≡ number 2 8 (drop (8 * j) (plan_bits edition (tasks_of p))) }
{
    let mut acc: u32 = 0;
    for i in 0..8 {
        acc = acc * 2 + plan_bit(p, edition, 8 * j + i);
    }
    acc as u8
}

// Stores the block of a plan.
pub fn put_block(p: Plan, edition: u32, buffer: &mut [u8])
    requires { (p.count ≤ 16) × (edition ≡ edition_of (tasks_of p)) × (block_length edition p.count ≤ length buffer.old) }
    ensures { buffer.new ≡ stored_by 0 (plan_block (tasks_of p)) buffer.old }
{
    let n = block_length(edition, p.count);
    for j in 0..n {
        buffer[j] = plan_byte(p, edition, j);
    }
}
