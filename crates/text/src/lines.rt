// The lines of the bench program: that of a plan, of a refusal, of a reply.
ghost use Rattle.std.specs.Prelude.{◌+◌, ◌≤◌, length};
ghost use Rattle.transcript.specs.Listing.{plan_line, refused_line, reply_line};
ghost use Rattle.text.specs.Stores.{Put};
ghost use Rattle.reclaiming.specs.Replies.{run_task, stay_idle};

use crate::{put_byte, put_decimal, put_spaced, put_word};
use plan::Refused;
use reclaiming::Order;

// Stores the line of a plan: its count, its nominal level and its hyperperiod.
pub fn plan_line(out: &mut [u8], at: usize, count: usize, level: usize, span: u32) -> usize
    requires { at + 52 ≤ length out.old }
    ensures { Put 52 out.old at (plan_line count level span) result out.new }
{
    let worded = put_word(out, at, b"plan");
    let counted = put_spaced(out, worded, count as u64);
    let levelled = put_spaced(out, counted, level as u64);
    let spanned = put_spaced(out, levelled, span as u64);
    put_byte(out, spanned, b'\n')
}

// Stores the line of a refusal.
pub fn refused_line(out: &mut [u8], at: usize, n: u32) -> usize
    requires { at + 52 ≤ length out.old }
    ensures { Put 52 out.old at (refused_line n) result out.new }
{
    let worded = put_word(out, at, b"refused");
    let numbered = put_spaced(out, worded, n as u64);
    put_byte(out, numbered, b'\n')
}

// Stores the line of an order to run a task.
fn run_line(out: &mut [u8], at: usize, clock: u32, task: u32, level: u32, hold: u32) -> usize
    requires { at + 52 ≤ length out.old }
    ensures { Put 52 out.old at (reply_line clock (run_task task level hold)) result out.new }
{
    let clocked = put_decimal(out, at, clock as u64);
    let worded = put_word(out, clocked, b" run");
    let tasked = put_spaced(out, worded, task as u64);
    let levelled = put_spaced(out, tasked, level as u64);
    let held = put_spaced(out, levelled, hold as u64);
    put_byte(out, held, b'\n')
}

// Stores the line of an order to stay idle.
fn idle_line(out: &mut [u8], at: usize, clock: u32, hold: u32) -> usize
    requires { at + 52 ≤ length out.old }
    ensures { Put 52 out.old at (reply_line clock (stay_idle hold)) result out.new }
{
    let clocked = put_decimal(out, at, clock as u64);
    let worded = put_word(out, clocked, b" idle");
    let held = put_spaced(out, worded, hold as u64);
    put_byte(out, held, b'\n')
}

// Stores the line of a reply at a clock.
pub fn reply_line(out: &mut [u8], at: usize, clock: u32, reply: Result<Order, Refused>) -> usize
    requires { at + 52 ≤ length out.old }
    ensures { Put 52 out.old at (reply_line clock reply) result out.new }
{
    match reply {
        Ok(Order::Run { task, level, hold }) => run_line(out, at, clock, task, level, hold),
        Ok(Order::Idle { hold }) => idle_line(out, at, clock, hold),
        Err(refused) => refused_line(out, at, refused.number),
    }
}
