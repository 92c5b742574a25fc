// A Clock: the seconds since it last fired.
ghost use Rattle.std.specs.Prelude.{◌≡◌};
ghost use Rattle.model.specs.Delays.{advance_elapsed};
ghost use Rattle.delays.specs.States.{clock, clock_moved};

use floats::{le64, plus64};

// `elapsed` is f64 bits; `fired` says whether it fired as it last moved on.
#[derive(Clone, Copy)]
pub struct Clock {
    pub elapsed: u64,
    pub fired: bool,
}

impl Clock {
    // One tick of dt seconds: at its interval it fires and goes back to 0.0, and the excess is lost. Disabled it keeps its time.
    pub fn advance(mut self, dt: u64, interval: u64, enabled: bool) -> Self
        ensures { clock_moved result ≡ advance_elapsed dt interval enabled (clock self) }
    {
        self.fired = false;
        if enabled {
            self.elapsed = plus64(self.elapsed, dt);
            if le64(interval, self.elapsed) {
                self.elapsed = 0;
                self.fired = true;
            }
        }
        self
    }
}
