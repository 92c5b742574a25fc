// Question 4: is each source -1 or a value output, each stored 0 to K, at most one of the two given, no constant on an E,
// no source on an S or a kind 11 or 13 Input, each setting as it has to be?
ghost use Rattle.std.specs.Prelude.{◌≡◌, true, ◌&&◌, ◌||◌, eqb};
ghost use Rattle.words.specs.Words.{words};
ghost use Rattle.model.specs.Base.{if◌then◌otherwise◌};
ghost use Rattle.model.specs.Circuit.{minus_one, kind_of_gate};
ghost use Rattle.model.specs.Questions.{within, question_1, value_output, int_such_that, int_or_nothing, float_or_nothing, good_setting, names_constant, good_input, question_4};
ghost use Rattle.kinds.specs.Pins.{in_of};
ghost use Rattle.links.specs.Lent.{net_of};

use kinds::numbers::{LOOP, VAR};
use kinds::{Out, Pin};
use links::Links;
use links::layout::MINUS_ONE;
use model::Value;
use words::get;

// The last channel.
const LAST_CHANNEL: u64 = 255;

// ---- sources

// Whether a pin may have a source.
fn takes_source(pin: Pin) -> bool
    ensures { result ≡ (in_of pin).source }
{
    matches!(pin, Pin::Exec | Pin::Value | Pin::Watched | Pin::Route)
}

// Whether output o is there and shows a value; `out_at` says of one that is not there that it fires.
pub fn value_output(links: &Links, o: usize) -> bool
    ensures { result ≡ value_output (net_of links.now) o }
{
    matches!(links.out_at(o), Out::Shows | Out::Passes)
}

// Whether the pin's source is -1, or a value output where the pin takes one and no constant is stored.
fn good_source(links: &Links, pin: Pin, source: u64, stored: u64) -> bool
    ensures { result ≡ (if eqb source minus_one then true otherwise value_output (net_of links.now) source && (in_of pin).source && eqb stored 0) }
{
    source == MINUS_ONE || value_output(links, source as usize) && takes_source(pin) && stored == 0
}

// ---- constants

// Whether a pin may have a constant.
fn takes_constant(pin: Pin) -> bool
    ensures { result ≡ (in_of pin).constant }
{
    !matches!(pin, Pin::Exec | Pin::ExecOnly)
}

// Whether a constant has this name; 0 names nothing.
fn names_constant(links: &Links, k: usize) -> bool
    ensures { result ≡ names_constant (net_of links.now) k }
{
    k < links.constants()
}

// Whether nothing is stored, or the pin takes a constant.
fn may_store(pin: Pin, stored: u64) -> bool
    ensures { result ≡ (eqb stored 0 || (in_of pin).constant) }
{
    stored == 0 || takes_constant(pin)
}

// ---- settings

// An Int or nothing.
fn int_or_nothing(v: Value) -> bool
    ensures { result ≡ int_or_nothing v }
{
    matches!(v, Value::Nothing | Value::Int(_))
}

// A Float or nothing.
fn float_or_nothing(v: Value) -> bool
    ensures { result ≡ float_or_nothing v }
{
    matches!(v, Value::Nothing | Value::Float(_))
}

// The Int number of a gate of this kind.
fn names_gate(links: &Links, kind: u64, v: Value) -> bool
    ensures { result ≡ int_such_that (λ g. eqb (kind_of_gate (net_of links.now) g) kind) v }
{
    if let Value::Int(g) = v {
        links.kind_of_gate(g as usize) == kind
    } else {
        false
    }
}

// An Int 0 to 255.
fn names_channel(v: Value) -> bool
    ensures { result ≡ int_such_that (within 0 255) v }
{
    if let Value::Int(b) = v {
        b <= LAST_CHANNEL
    } else {
        false
    }
}

// Whether a pin, if it is a setting, may be set to v.
fn good_setting(links: &Links, pin: Pin, v: Value) -> bool
    ensures { result ≡ good_setting (net_of links.now) (in_of pin).setting v }
{
    match pin {
        Pin::Ticks => int_or_nothing(v),
        Pin::Seconds => float_or_nothing(v),
        Pin::Variable => names_gate(links, VAR, v),
        Pin::Channel => names_channel(v),
        Pin::Loop => names_gate(links, LOOP, v),
        _ => true,
    }
}

// ---- inputs

// Whether an input is good, by what it is, its words for source and stored, and the value stored.
fn good_input(links: &Links, pin: Pin, source: u64, stored: u64, v: Value) -> bool
    ensures { result ≡ good_input (net_of links.now) (in_of pin) source stored v }
{
    good_source(links, pin, source, stored)
        && names_constant(links, stored as usize)
        && may_store(pin, stored)
        && good_setting(links, pin, v)
}

// Whether each input is good.
pub fn inputs_good(circuit: &[u8], links: &Links) -> bool
    requires { question_1 circuit.now (words circuit.now) ≡ true }
    ensures { result ≡ question_4 (words circuit.now) (net_of links.now) }
{
    let n = get(circuit, 2) as usize;
    let first = 4 + 2 * (get(circuit, 1) as usize + get(circuit, 0) as usize);
    for i in 0..n {
        let source = get(circuit, first + i);
        let stored = get(circuit, first + n + i);
        if !good_input(links, links.pin_at(i), source, stored, links.stored_in(i)) {
            return false;
        }
    }
    true
}
