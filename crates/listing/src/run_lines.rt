// The lines of a run: that of the start, and those of its passes.
ghost use Rattle.std.specs.Prelude.{◌≡◌, List, ℕ, ◌+◌, ◌^◌, ◌<◌, ◌≤◌, length};
ghost use Rattle.plan.specs.declared.Task.{Task};
ghost use Rattle.reclaiming.specs.Passes.{Pass};
ghost use Rattle.reclaiming.specs.Books.{DispatcherBook, booked};
ghost use Rattle.reclaiming.specs.Run.{bytes_after};
ghost use Rattle.transcript.specs.Listing.{passes_in, started_lines};
ghost use Rattle.text.specs.Stores.{Put};
ghost use Rattle.listing.specs.RunLines.{passes_text};

use passing::pass;
use plan::Refused;
use reclaiming::Order;
use starting::start;
use state::STATE_LENGTH;
use text::lines::{refused_line, reply_line};

// The clock of the dispatcher's book after a reply: it rises by d where the pass was accepted.
fn clock_after(clock: u32, d: u32, reply: Result<Order, Refused>) -> u32
    requires { clock + d < 2 ^ 32 }
    ensures by_index { (speeds : List ℕ) (ts : List Task) (b : DispatcherBook) (p : Pass) → b.clock ≡ clock → p.d ≡ d → (booked speeds ts b p reply).clock ≡ result }
    ensures upper_bound { result ≤ clock + d }
{
    match reply {
        Ok(_) => clock + d,
        Err(_) => clock,
    }
}

// Stores the lines of all passes from a state on: of a book only its clock is told, so they are those of any book at clock 0.
fn pass_lines(passes: &[u8], state: &mut [u8], out: &mut [u8], from: usize) -> usize
    requires { (length passes.now ≤ 65536) × (from + 1800000 ≤ length out.old) }
    ensures by_index { (speeds : List ℕ) (ts : List Task) (b : DispatcherBook) → b.clock ≡ 0 →
        Put 1800000 out.old from (passes_text speeds ts b state.old passes.now) result out.new }
    ensures state_after { state.new ≡ bytes_after state.old (passes_in passes.now) }
{
    let mut at = from;
    let mut clock: u32 = 0;
    let (pairs, odd) = passes.as_chunks::<2>();
    for &[first, second] in pairs {
        let high = u32::from(first);
        let d = high % 128 * 256 + u32::from(second);
        let reply = pass(state, d, 128 <= high);
        clock = clock_after(clock, d, reply);
        at = reply_line(out, at, clock, reply);
    }
    if !odd.is_empty() {
        return refused_line(out, at, 16);
    }
    at
}

// Stores the lines from the start on, over a fresh state.
pub fn started_lines(
    levels: &[u8],
    block: &[u8],
    passes: &[u8],
    out: &mut [u8],
    from: usize,
) -> usize
    requires { (length passes.now ≤ 65536) × (from + 1900000 ≤ length out.old) }
    ensures { Put 1900000 out.old from (started_lines levels.now block.now passes.now) result out.new }
{
    let mut state = [0u8; STATE_LENGTH];
    let reply = start(levels, block, &[], &mut state);
    let at = reply_line(out, from, 0, reply);
    pass_lines(passes, &mut state, out, at)
}
