// The bench program's library: the listing of an input.
#![tactic(auto)]

mod cutting;
mod run_lines;

ghost use Rattle.std.specs.Prelude.{◌≡◌, ◌++◌, ◌≤◌, length, take, drop};
ghost use Rattle.arith.specs.Asking.{number_of};
ghost use Rattle.plan.specs.Answers.{verdict_answer};
ghost use Rattle.transcript.specs.Listing.{plan_listing, listing};
ghost use Rattle.text.specs.Stores.{Put};

use crate::cutting::{level_cut, plan_cut};
use crate::run_lines::started_lines;
use plan::{Admission, Refused};
use text::lines::{plan_line, refused_line};

// The number of a refusal, 0 where there is none.
fn refusal_of(v: Result<Admission, Refused>) -> u32
    ensures { result ≡ number_of (verdict_answer v) }
{
    match v {
        Err(e) => e.number,
        Ok(_) => 0,
    }
}

// Stores the listing of a plan block and passes, over a level block: a refusal of either ends it.
fn plan_listing(levels: &[u8], input: &[u8], out: &mut [u8]) -> usize
    requires { (length input.now ≤ 65536) × (1950000 ≤ length out.old) }
    ensures { Put 1950000 out.old 0 (plan_listing levels.now input.now) result out.new }
{
    let cut = plan_cut(input);
    let judged = plan_reading::read(levels, &input[..cut]);
    let verdict = judged.verdict;
    let Ok(admission) = verdict else {
        return refused_line(out, 0, refusal_of(verdict));
    };
    let p = judged.plan;
    let at = plan_line(out, 0, p.count, admission.nominal, admission.hyperperiod);
    started_lines(levels, &input[..cut], &input[cut..], out, at)
}

// Stores the listing of an input at the front of a buffer, and returns its length.
pub fn list_into(input: &[u8], out: &mut [u8]) -> usize
    requires { 2000000 ≤ length out.old }
    ensures value { result ≡ length (listing input.now) }
    ensures out_after { out.new ≡ listing input.now ++ drop (length (listing input.now)) out.old }
    ensures upper_bound { (result ≤ length out.new) × (result ≡ length (take result out.new)) }
{
    if input.len() > 65536 {
        return refused_line(out, 0, 17);
    }
    let cut = level_cut(input);
    plan_listing(&input[..cut], &input[cut..], out)
}
