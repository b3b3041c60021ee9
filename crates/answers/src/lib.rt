// An answer packed into one number, as C gets it.
#![tactic(auto)]

ghost use Rattle.std.specs.Prelude.{◌≡◌, ◌<◌, ◌^◌};
ghost use Rattle.plan.specs.Counted.{counted_number};
ghost use Rattle.plan.specs.Numbers.{verdict_number};
ghost use Rattle.reclaiming.specs.Numbers.{reply_number};

use plan::{Admission, Refused};
use reclaiming::Order;

// A count as one number.
pub fn counted_number(answer: Result<usize, Refused>) -> u64
    requires { counted_number answer < 2 ^ 36 }
    ensures { result ≡ counted_number answer }
{
    match answer {
        Err(refused) => refused.number as u64,
        Ok(count) => 256 * (count as u64),
    }
}

// A count of 32 bits as one number: it always fits.
pub fn total_number(answer: Result<u32, Refused>) -> u64
    ensures { result ≡ counted_number answer }
{
    match answer {
        Err(refused) => refused.number as u64,
        Ok(total) => 256 * (total as u64),
    }
}

// A verdict as one number.
pub fn verdict_number(verdict: Result<Admission, Refused>) -> u64
    requires { verdict_number verdict < 2 ^ 36 }
    ensures { result ≡ verdict_number verdict }
{
    match verdict {
        Err(refused) => refused.number as u64,
        Ok(admission) => {
            256 * (admission.nominal as u64) + 65536 * (admission.hyperperiod as u64)
        }
    }
}

// A reply as one number.
pub fn reply_number(reply: Result<Order, Refused>) -> u64
    requires { reply_number reply < 2 ^ 64 }
    ensures { result ≡ reply_number reply }
{
    match reply {
        Err(refused) => refused.number as u64,
        Ok(Order::Idle { hold }) => 512 + 4294967296 * (hold as u64),
        Ok(Order::Run { task, level, hold }) => 256
            + 65536 * (task as u64)
            + 16777216 * (level as u64)
            + 4294967296 * (hold as u64),
    }
}
