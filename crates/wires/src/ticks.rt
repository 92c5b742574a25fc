// This tick, the Unions that have passed in it, and the next tick.
ghost use Rattle.std.specs.Prelude.{◌≡◌, true, false, slice_index_or, slice_set};
ghost use Rattle.model.specs.State.{unions_passed≔};
ghost use Rattle.model.specs.Opening.{next_tick};
ghost use Rattle.links.specs.Lent.{Room};
ghost use Rattle.wires.specs.Lent.{wires_in, Turns, TickFits};

use crate::bits::set_bit;
use crate::layout::{DT, RUNS_LEFT, TICK, UNIONS_PASSED, UPTIME};
use floats::plus64;
use links::Links;
use words::{get, put};

// Whether Union g has passed in this tick.
pub fn passed(links: &Links, values: &[u8], g: usize) -> bool
    requires { Room values.now }
    ensures { result ≡ slice_index_or (wires_in links.now values.now).unions_passed g false }
{
    g < links.gates() && (get(values, UNIONS_PASSED) >> g) % 2 != 0
}

// Union g passes.
pub fn pass(links: &Links, values: &mut [u8], g: usize)
    requires { Room values.old }
    ensures { Turns links.now (values.old, values.new) (λ _ w. unions_passed≔ w (slice_set w.unions_passed g true)) }
{
    if g < links.gates() {
        set_bit(values, UNIONS_PASSED, g);
    }
}

// The number of this tick.
pub fn tick(links: &Links, values: &[u8]) -> u64
    requires { Room values.now }
    ensures { result ≡ (wires_in links.now values.now).tick }
{
    get(values, TICK)
}

// The length of this tick, as f64 bits.
pub fn dt(links: &Links, values: &[u8]) -> u64
    requires { Room values.now }
    ensures { result ≡ (wires_in links.now values.now).dt }
{
    get(values, DT)
}

// How often bodies may be run in a tick.
pub const MOST_RUNS: u64 = 100000;

// The next tick begins, of this length: no Union has passed, and no body was run.
pub fn next_tick(links: &Links, values: &mut [u8], dt: u64)
    requires { Room values.old × TickFits links.now values.old }
    ensures { Turns links.now (values.old, values.new) (λ _ w. next_tick w dt) }
{
    let tick = get(values, TICK);
    let uptime = get(values, UPTIME);
    put(values, TICK, tick + 1);
    put(values, DT, dt);
    put(values, UPTIME, plus64(uptime, dt));
    put(values, UNIONS_PASSED, 0);
    put(values, RUNS_LEFT, MOST_RUNS);
}
