// A Stopwatch: the seconds that it has run.
ghost use Rattle.std.specs.Prelude.{◌≡◌, []};
ghost use Rattle.model.specs.Delays.{moved, advance_time, pressed};
ghost use Rattle.delays.specs.States.{stopwatch, stopwatch_moved};

use floats::{le64, lt64, plus64};

// `time` is f64 bits. `shows` says whether it shows its time anew as it last moved on, and `expired` whether it came to its limit.
#[derive(Clone, Copy)]
pub struct Stopwatch {
    pub time: u64,
    pub running: bool,
    pub shows: bool,
    pub expired: bool,
}

impl Stopwatch {
    // One tick of dt seconds, if it runs: it shows its time. At its limit, if that is above zero, it stops there and expires.
    pub fn advance(mut self, dt: u64, limit: u64) -> Self
        ensures { stopwatch_moved result ≡ advance_time dt limit (stopwatch self) }
    {
        self.shows = self.running;
        self.expired = false;
        if self.running {
            self.time = plus64(self.time, dt);
            if lt64(0, limit) {
                if le64(limit, self.time) {
                    self.time = limit;
                    self.running = false;
                    self.expired = true;
                }
            }
        }
        self
    }

    // Restart: it runs from 0.0.
    pub fn restart(mut self) -> Self
        ensures { stopwatch_moved result ≡ moved (pressed 0 (stopwatch self)) [] 0 }
    {
        self.time = 0;
        self.resume()
    }

    // Pause: it stands at its time.
    pub fn pause(mut self) -> Self
        ensures { stopwatch_moved result ≡ moved (pressed 1 (stopwatch self)) [] 0 }
    {
        self.running = false;
        self.shows = false;
        self.expired = false;
        self
    }

    // Resume: it runs on from its time.
    pub fn resume(mut self) -> Self
        ensures { stopwatch_moved result ≡ moved (pressed 2 (stopwatch self)) [] 0 }
    {
        self.running = true;
        self.shows = false;
        self.expired = false;
        self
    }
}
