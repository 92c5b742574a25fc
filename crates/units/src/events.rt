// Events: two halves of 64 places each. One is the outbox of this tick, the other holds what the tick before sent.
ghost use Rattle.words.specs.Words.{words};
ghost use Rattle.std.specs.Prelude.{◌≡◌, cond, [], map, ◌+◌, ◌<◌, ◌≤◌, min, length, get_or};
ghost use Rattle.model.specs.declared.Value.TheVariants.{Nothing};
ghost use Rattle.model.specs.Base.{among, from};
ghost use Rattle.model.specs.Circuit.{most_gates};
ghost use Rattle.links.specs.Lent.{Room};
ghost use Rattle.units.specs.View.{cut, second_half, counts_at, senders_at};
ghost use Rattle.units.specs.Calls.{with_outbox, sent};
ghost use Rattle.units.specs.Lent.{Reads, Changes};

use crate::layout::{COUNTS, HALF, MOST_EVENTS, ROW, ROWS, SENDERS};
use model::Value;
use value::rows::{contents_of, kinds_of};
use value::value_of;
use words::rows::put_row;
use words::{get, put};

// The half that is the outbox.
fn outbox(units: &[u8]) -> usize
    requires { Room units.now }
    ensures { (result ≡ cond (second_half (cut (words units.now))) 1 0) × (result < 2) }
{
    if get(units, HALF) == 0 { 0 } else { 1 }
}

// How many events half h holds.
fn held(units: &[u8], h: usize) -> usize
    requires { Room units.now × (h < 2) }
    ensures { (result ≡ min (get_or (words units.now) (counts_at + h) 0) most_gates) × (result ≤ most_gates) }
{
    (get(units, COUNTS + h) as usize).min(MOST_EVENTS)
}

// Whether gate g sent one of the n events from place a on.
fn sent_by(units: &[u8], a: usize, n: usize, g: usize) -> bool
    requires { Room units.now × (a + n ≤ 128) }
    ensures { result ≡ among g (map (λ k. get_or (words units.now) (senders_at + k) 0) (from a n)) }
{
    for i in 0..n {
        if g == get(units, SENDERS + (a + i)) as usize {
            return true;
        }
    }
    false
}

// Gate g sends an event with eight values. A second one in a tick is ignored.
pub fn send(units: &mut [u8], g: usize, row: [Value; 8])
    requires { Room units.old }
    ensures { Changes (units.old, units.new) (λ _ old new. new ≡ with_outbox old (sent (record { gate = g; row = row }) old.outbox)) }
{
    let h = outbox(units);
    let n = held(units, h);
    if MOST_EVENTS <= n {
        return;
    }
    if sent_by(units, h * MOST_EVENTS, n, g) {
        return;
    }
    let k = h * MOST_EVENTS + n;
    put(units, SENDERS + k, g as u64);
    put_row(units, ROWS + ROW * k, &kinds_of(&row));
    put_row(units, ROWS + (ROW * k + 8), &contents_of(&row));
    put(units, COUNTS + h, (n + 1) as u64);
}

// Whether gate g has sent an event in this tick.
pub fn has_sent(units: &[u8], g: usize) -> bool
    requires { Room units.now }
    ensures { Reads units.now (λ _ u. result ≡ among g (map (λ m. m.gate) u.outbox)) }
{
    let h = outbox(units);
    let n = held(units, h);
    sent_by(units, h * MOST_EVENTS, n, g)
}

// How many events the tick before sent.
pub fn events(units: &[u8]) -> usize
    requires { Room units.now }
    ensures reads { Reads units.now (λ _ u. result ≡ length u.events) }
    ensures upper_bound { result ≤ most_gates }
{
    held(units, 1 - outbox(units))
}

// The gate that sent event e of these.
pub fn sender(units: &[u8], e: usize) -> usize
    requires { Room units.now }
    ensures { Reads units.now (λ _ u. result ≡ get_or (map (λ m. m.gate) u.events) e 0) }
{
    let h = 1 - outbox(units);
    if held(units, h) <= e {
        return 0;
    }
    get(units, SENDERS + (h * MOST_EVENTS + e)) as usize
}

// Value j of the row of event e.
pub fn event_value(units: &[u8], e: usize, j: usize) -> Value
    requires { Room units.now }
    ensures { Reads units.now (λ _ u. result ≡ get_or (get_or (map (λ m. m.row) u.events) e []) j Nothing) }
{
    let h = 1 - outbox(units);
    if held(units, h) <= e {
        return Value::Nothing;
    }
    if 8 <= j {
        return Value::Nothing;
    }
    let k = h * MOST_EVENTS + e;
    let kind = get(units, ROWS + (ROW * k + j));
    value_of(kind, get(units, ROWS + (ROW * k + 8 + j)))
}
