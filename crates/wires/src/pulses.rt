// Pulses: outputs that go up, and fall in the second tick after.
ghost use Rattle.std.specs.Prelude.{◌≡◌, ◌+◌, ◌*◌, ◌<◌, ◌&&◌, length, nat_le, nat_lt, slice_index, slice_set};
ghost use Rattle.model.specs.Base.{each, from};
ghost use Rattle.model.specs.State.{pulses≔};
ghost use Rattle.model.specs.Settle.{pulse};
ghost use Rattle.model.specs.Opening.{lower};
ghost use Rattle.links.specs.Lent.{Room};
ghost use Rattle.wires.specs.Lent.{wires_in, Turns};

use crate::bits::set_bit;
use crate::layout::{TICK, TICKS, UP};
use crate::marking::set_out;
use links::Links;
use model::Value;
use words::bits::Bits;
use words::{get, put};

// The tick in which the pulse of output o was last raised, 0 for none.
fn raised_at(links: &Links, values: &[u8], o: usize) -> u64
    requires { Room values.now }
    ensures { result ≡ slice_index (wires_in links.now values.now).pulses o }
{
    if links.outputs() <= o {
        return 0;
    }
    let d = get(values, UP + o / 64);
    if (d >> (o % 64)) % 2 == 0 {
        return 0;
    }
    get(values, TICKS + o)
}

// The pulse of output o is raised in this tick.
fn set_pulse(links: &Links, values: &mut [u8], o: usize)
    requires { Room values.old }
    ensures { Turns links.now (values.old, values.new) (λ _ w. pulses≔ w (slice_set w.pulses o w.tick)) }
{
    if o < links.outputs() {
        let tick = get(values, TICK);
        set_bit(values, UP + o / 64, o % 64);
        put(values, TICKS + o, tick);
    }
}

// The pulse of output o has ended.
fn end_pulse(links: &Links, values: &mut [u8], o: usize)
    requires { Room values.old }
    ensures { Turns links.now (values.old, values.new) (λ _ w. pulses≔ w (slice_set w.pulses o 0)) }
{
    if o < links.outputs() {
        let d = get(values, UP + o / 64);
        if (d >> (o % 64)) % 2 != 0 {
            put(values, UP + o / 64, d ^ 1 << (o % 64));
        }
    }
}

// A detector's output o goes up, or stays up, from this tick on.
pub fn pulse(links: &Links, values: &mut [u8], o: usize)
    requires { Room values.old }
    ensures { Turns links.now (values.old, values.new) (λ c w. pulse c w o) }
{
    set_out(links, values, o, Value::Bool(true));
    set_pulse(links, values, o);
}

// Whether a pulse raised in tick `at` has ended in this tick.
fn has_ended(at: u64, tick: u64) -> bool
    ensures { result ≡ (nat_lt 0 at && nat_le (at + 2) tick) }
{
    0 < at && 2 <= tick && at <= tick - 2
}

// The pulse of output o falls, if it has ended.
pub fn lower(links: &Links, values: &mut [u8], o: usize)
    requires { Room values.old }
    ensures { Turns links.now (values.old, values.new) (λ c w. lower c w o) }
{
    let at = raised_at(links, values, o);
    if has_ended(at, get(values, TICK)) {
        end_pulse(links, values, o);
        set_out(links, values, o, Value::Bool(false));
    }
}

// The pulses of the 64 outputs of word j that have ended fall, in their order.
fn lower_word(links: &Links, values: &mut [u8], j: usize)
    requires { Room values.old × (j < 9) }
    ensures { Turns links.now (values.old, values.new) (λ c w. each (lower c) w (from (64 * j) 64)) }
{
    for b in Bits::of(get(values, UP + j)) {
        lower(links, values, 64 * j + b);
    }
}

// All pulses that have ended fall, in the order of their outputs.
pub fn lower_all(links: &Links, values: &mut [u8])
    requires { Room values.old }
    ensures { Turns links.now (values.old, values.new) (λ c w. each (lower c) w (from 0 (length c.outputs))) }
{
    let n = (links.outputs() + 63) / 64;
    for j in 0..n {
        lower_word(links, values, j);
    }
}
