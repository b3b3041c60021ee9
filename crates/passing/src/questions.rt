// The questions 11 to 15 of a pass.
ghost use Rattle.std.specs.Prelude.{◌≡◌, ◌≤◌};
ghost use Rattle.arith.specs.Asking.{first_no};
ghost use Rattle.reclaiming.specs.Passes.{largest_clock};
ghost use Rattle.passing.specs.Questions.{asked_by, finish_questions, time_questions};

use orders::Choice;
use plan::Refused;
use state::clock::Clock;

// The questions 13 and 14.
fn finish_asked(c: Choice, d: u32, finished: bool) -> Result<(), Refused>
    ensures { result ≡ asked_by (first_no (finish_questions c d finished)) }
{
    if c.task == 255 {
        if finished {
            return Err(Refused { number: 13 });
        }
        return Ok(());
    }
    if d < c.time {
        return Ok(());
    }
    if d > c.time {
        return Err(Refused { number: 14 });
    }
    if finished {
        return Ok(());
    }
    Err(Refused { number: 14 })
}

// The questions 11 to 15.
pub fn pass_asked(clock: Clock, c: Choice, next: u32, d: u32, finished: bool) -> Result<(), Refused>
    requires { clock.ticks ≤ largest_clock }
    ensures { result ≡ asked_by (first_no (time_questions clock.ticks c next d finished)) }
{
    if d < 1 {
        return Err(Refused { number: 11 });
    }
    if d > next {
        return Err(Refused { number: 12 });
    }
    finish_asked(c, d, finished)?;
    if !clock.has_room(d) {
        return Err(Refused { number: 15 });
    }
    Ok(())
}
