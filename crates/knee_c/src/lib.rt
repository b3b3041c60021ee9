// The knee's call, exported to C: it only calls the function of its name in knee, and promises what that does.
#![tactic(auto)]

ghost use Rattle.std.specs.Prelude.{◌≡◌};
ghost use Rattle.plan.specs.Counted.{counted_number};
ghost use Rattle.knee.specs.Curve.{damping_reply};

// Looks the damping up at an angle in tenths of a degree: 23 is a refusal's number; else the damping stands from bit 8 on.
#[unsafe(no_mangle)]
pub extern "C" fn kilmstra_damping(angle: i32) -> u64
    ensures { result ≡ counted_number (damping_reply angle) }
{
    knee::kilmstra_damping(angle)
}
