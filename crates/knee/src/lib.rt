// The knee itself: the damping at an angle, with its call for C. Beside it, how often a run sets the valve.
#![tactic(auto)]

mod curve;
pub mod valve;

ghost use Rattle.std.specs.Prelude.{◌≡◌};
ghost use Rattle.plan.specs.Counted.{counted_number};
ghost use Rattle.knee.specs.Curve.{damping_reply};

use crate::curve::damping_from;
use answers::total_number;
use plan::Refused;

// The angles that have a damping, in tenths of a degree.
const LOWEST_ANGLE: i32 = -50;

const HIGHEST_ANGLE: i32 = 1300;

// The damping at every angle below 0.
const BELOW_ZERO: u32 = 12;

// The damping at an angle in tenths of a degree; 23 for one outside its range.
pub fn damping(angle: i32) -> Result<u32, Refused>
    ensures { result ≡ damping_reply angle }
{
    if angle < LOWEST_ANGLE {
        return Err(Refused { number: 23 });
    }
    if HIGHEST_ANGLE < angle {
        return Err(Refused { number: 23 });
    }
    if angle < 0 {
        return Ok(BELOW_ZERO);
    }
    let found = damping_from(angle as usize);
    Ok(found)
}

// Looks the damping up at an angle in tenths of a degree: 23 is a refusal's number; else the damping stands from bit 8 on.
pub fn kilmstra_damping(angle: i32) -> u64
    ensures { result ≡ counted_number (damping_reply angle) }
{
    let d = damping(angle);
    total_number(d)
}
