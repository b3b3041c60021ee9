// The clock: a count of ticks with a largest value.
ghost use Rattle.std.specs.Prelude.{◌≡◌, ◌+◌, ◌≤◌, leb};
ghost use Rattle.reclaiming.specs.Passes.{largest_clock};

#[derive(Clone, Copy)]
pub struct Clock {
    pub ticks: u32,
}

impl Clock {
    // The largest clock, in ticks.
    pub const LARGEST: u32 = 4_000_000_000;

    pub fn new(ticks: u32) -> Self
        ensures { result.ticks ≡ ticks }
    {
        Self { ticks }
    }

    pub fn in_range(self) -> bool
        ensures { result ≡ leb self.ticks largest_clock }
    {
        self.ticks <= Clock::LARGEST
    }

    // Whether d ticks more stay within the largest clock.
    pub fn has_room(self, d: u32) -> bool
        requires { self.ticks ≤ largest_clock }
        ensures { result ≡ leb (self.ticks + d) largest_clock }
    {
        d <= Clock::LARGEST - self.ticks
    }

    pub fn after(self, d: u32) -> Self
        requires { self.ticks + d ≤ largest_clock }
        ensures { result.ticks ≡ self.ticks + d }
    {
        Self {
            ticks: self.ticks + d,
        }
    }
}
