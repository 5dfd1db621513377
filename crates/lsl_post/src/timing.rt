//! Setting and reading timers.

ghost use Rattle.std.specs.Prelude.{◌≡◌, ◌≤◌};
ghost use Rattle.lsl_post.specs.Timer.{timing_of};
ghost use Rattle.lsl_post.specs.Timing.{is_due, latest_clock, stopped, timing_after, timing_set};

use crate::timer::Timer;

/// How many milliseconds a second has.
const SECOND: u64 = 1000;

impl Timer {
    /// A timer that doesn't run.
    pub fn new() -> Timer
        ensures { timing_of result ≡ stopped }
    {
        Timer { period: 0, due: 0 }
    }

    /// Sets the timer to fire every `seconds` from now on; it stops if that isn't above 0.
    pub fn set(&mut self, seconds: i32, clock: u64)
        requires { clock ≤ latest_clock }
        ensures { timing_of self.new ≡ timing_set seconds clock }
    {
        *self = if seconds > 0 {
            let period = seconds as u32;
            Timer {
                period,
                due: clock + SECOND * u64::from(period),
            }
        } else {
            Timer::new()
        };
    }

    /// Whether the timer runs and is due. If so, it is next due one period from now.
    pub fn read(&mut self, clock: u64) -> bool
        requires { clock ≤ latest_clock }
        ensures due { result ≡ is_due clock (timing_of self.old) }
        ensures after { timing_of self.new ≡ timing_after clock (timing_of self.old) }
    {
        let due = self.period > 0 && self.due <= clock;
        if due {
            *self = Timer {
                period: self.period,
                due: clock + SECOND * u64::from(self.period),
            };
        }
        due
    }
}
