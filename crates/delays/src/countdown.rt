// Countdowns: how long until a value lands, a fire fires or a record is handed out.
ghost use Rattle.std.specs.Prelude.{◌≡◌};
ghost use Rattle.model.specs.Delays.{in_ticks, in_seconds, tick_down, due, countdown_ticks, countdown_seconds};
ghost use Rattle.delays.specs.States.{counted, started, word_of, of_word, counts_seconds, countdown_by};

use floats::narrowing::narrow;
use floats::{le32, le64, plus32};
use model::Value;
use value::{as_float, as_int};

// -1.0
const MINUS_ONE: u64 = 0xbff0_0000_0000_0000;

// Ticks left, 0 when it is due; or seconds to wait and seconds so far, as f32 bits.
#[derive(Clone, Copy)]
pub enum Countdown {
    Ticks(u64),
    Seconds(u32, u32),
}

// A countdown that starts, and whether narrowing changed its wait.
#[derive(Clone, Copy)]
pub struct Started {
    pub left: Countdown,
    pub changed: bool,
}

// A wait of t ticks, at least 1.
pub fn in_ticks(t: i64) -> Started
    ensures { started result ≡ in_ticks t }
{
    Started {
        left: Countdown::Ticks(t.max(1) as u64),
        changed: false,
    }
}

// A wait of seconds, given as f64 bits and narrowed to f32.
pub fn in_seconds(wait: u64) -> Started
    ensures { started result ≡ in_seconds wait }
{
    let w = narrow(wait);
    Started {
        left: Countdown::Seconds(w.bits, 0),
        changed: w.changed,
    }
}

// A buffer's countdown in ticks: the zero wait for a value that is not true (not rising), unless it is negative.
fn countdown_ticks(rising: bool, wait: Value, zero_wait: Value) -> Started
    ensures { started result ≡ countdown_ticks rising wait zero_wait }
{
    if rising {
        return in_ticks(as_int(wait, 0));
    }
    let zero = as_int(zero_wait, -1);
    if 0 <= zero {
        in_ticks(zero)
    } else {
        in_ticks(as_int(wait, 0))
    }
}

// The same in seconds.
fn countdown_seconds(rising: bool, wait: Value, zero_wait: Value) -> Started
    ensures { started result ≡ countdown_seconds rising wait zero_wait }
{
    if rising {
        return in_seconds(as_float(wait, 0));
    }
    let zero = as_float(zero_wait, MINUS_ONE);
    if le64(0, zero) {
        in_seconds(zero)
    } else {
        in_seconds(as_float(wait, 0))
    }
}

// The countdown that a buffer starts, by its settings wait and zero wait.
pub fn buffer_countdown(seconds: bool, rising: bool, wait: Value, zero_wait: Value) -> Started
    ensures { started result ≡ countdown_by seconds rising wait zero_wait }
{
    if seconds {
        countdown_seconds(rising, wait, zero_wait)
    } else {
        countdown_ticks(rising, wait, zero_wait)
    }
}

// The countdown that a word of an area holds.
pub fn of_word(seconds: bool, w: u64) -> Countdown
    ensures { counted result ≡ of_word seconds w }
{
    if seconds {
        Countdown::Seconds((w % 0x1_0000_0000) as u32, (w / 0x1_0000_0000) as u32)
    } else {
        Countdown::Ticks(w)
    }
}

impl Countdown {
    // One tick, of the length dt in f32 bits. What is due stays due.
    pub fn tick_down(mut self, dt: u32) -> Self
        ensures { counted result ≡ tick_down dt (counted self) }
    {
        match &mut self {
            Countdown::Ticks(n) => *n = n.saturating_sub(1),
            Countdown::Seconds(_, elapsed) => *elapsed = plus32(*elapsed, dt),
        }
        self
    }

    // Whether its ticks are over, or its seconds have come to the wait.
    pub fn due(self) -> bool
        ensures { result ≡ due (counted self) }
    {
        match self {
            Countdown::Ticks(n) => n == 0,
            Countdown::Seconds(wait, elapsed) => le32(wait, elapsed),
        }
    }

    // The word that an area holds for it. `of_word` makes the countdown of it again.
    pub fn word(self) -> u64
        ensures { (result ≡ word_of (counted self)) × (of_word (counts_seconds (counted self)) result ≡ counted self) }
    {
        match self {
            Countdown::Ticks(n) => n,
            Countdown::Seconds(wait, elapsed) => wait as u64 + (elapsed as u64) * 0x1_0000_0000,
        }
    }
}
