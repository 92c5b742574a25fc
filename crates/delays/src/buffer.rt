// A value buffer: each input lands later, and while one is in flight only the last later input is remembered.
ghost use Rattle.std.specs.Prelude.{◌≡◌, []};
ghost use Rattle.model.specs.Delays.{moved, buffer_input, landed, advance_flight};
ghost use Rattle.delays.specs.States.{counted, buffer, buffer_moved, starts};

use crate::countdown::{Countdown, buffer_countdown};
use model::Value;
use value::truthy;

// A value in flight, with its countdown.
#[derive(Clone, Copy)]
pub struct Flight {
    pub what: Value,
    pub left: Countdown,
}

// The value in flight, the last later input, and, as the buffer last moved on, what landed and whether narrowing changed the wait of the input that started then.
#[derive(Clone, Copy)]
pub struct Buffer {
    pub flight: Option<Flight>,
    pub later: Option<Value>,
    pub landed: Option<Value>,
    pub changed: bool,
}

impl Buffer {
    // A new input with its countdown. While a value is in flight it is only remembered.
    pub fn input(mut self, v: Value, k: Countdown) -> Self
        ensures { buffer_moved result ≡ moved (buffer_input (buffer self) v (counted k)) [] 0 }
    {
        self.landed = None;
        self.changed = false;
        match self.flight {
            None => self.flight = Some(Flight { what: v, left: k }),
            Some(_) => self.later = Some(v),
        }
        self
    }

    // v lands. The remembered input starts a countdown of its own, worked out only now.
    fn land(mut self, v: Value, seconds: bool, wait: Value, zero_wait: Value) -> Self
        ensures { buffer_moved result ≡ landed (starts seconds wait zero_wait) (buffer self) v }
    {
        self.landed = Some(v);
        match self.later {
            None => {
                self.flight = None;
                self.changed = false;
            }
            Some(u) => {
                let k = buffer_countdown(seconds, truthy(u), wait, zero_wait);
                self.flight = Some(Flight {
                    what: u,
                    left: k.left,
                });
                self.later = None;
                self.changed = k.changed;
            }
        }
        self
    }

    // One tick, of the length dt in f32 bits: the value in flight lands when its countdown is due.
    pub fn advance(mut self, dt: u32, seconds: bool, wait: Value, zero_wait: Value) -> Self
        ensures { buffer_moved result ≡ advance_flight (starts seconds wait zero_wait) dt (buffer self) }
    {
        self.landed = None;
        self.changed = false;
        let Some(f) = self.flight else {
            return self;
        };
        let left = f.left.tick_down(dt);
        if left.due() {
            return self.land(f.what, seconds, wait, zero_wait);
        }
        self.flight = Some(Flight { left, ..f });
        self
    }
}
