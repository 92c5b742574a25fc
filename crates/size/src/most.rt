// The two figures: the most steps that any one unit can cause, and the most bytes of a log.
ghost use Rattle.std.specs.Prelude.{◌≡◌, ℕ, Bool, ◌<◌, ◌≤◌, Option, map, get_or};
ghost use Rattle.std.specs.Bool.{then_some};
ghost use Rattle.model.specs.Base.{each, keep, from};
ghost use Rattle.model.specs.Kinds.{value, fires};
ghost use Rattle.model.specs.Circuit.{gate_at_input};
ghost use Rattle.model.specs.Script.{most_ticks};
ghost use Rattle.kinds.specs.Pins.{in_of, out_of};
ghost use Rattle.links.specs.Links.{net};
ghost use Rattle.links.specs.Lent.{net_of};
ghost use Rattle.figures.specs.Figures.{greatest, is-E, is_exec, entered_from, most_unit_steps, most_log_bytes};
ghost use Rattle.size.specs.Numbers.{with_number, Numbers, most_of_inputs, most_of_outputs};

use crate::numbers::{number_of, with_output};
use kinds::{Out, Pin};
use links::Links;
use records::head::HEAD;
use records::{MOST_UNITS, MOST_WAITING};

// Whether an input is an E.
fn is_e(pin: Pin) -> bool
    ensures { result ≡ is-E (in_of pin) }
{
    matches!(pin, Pin::Exec | Pin::ExecOnly)
}

// Whether an output is an exec output.
fn is_exec(out: Out) -> bool
    ensures { result ≡ is_exec (out_of out) }
{
    matches!(out, Out::Fires)
}

// The greatest of n numbers, of those that count.
fn greatest<F: Fn(usize) -> Option<u64>>(n: usize, number: F) -> u64
    requires { F.IsAlwaysCallable number }
    ensures { (p : ℕ → Bool) (f : ℕ → ℕ) → ((i : ℕ) (x : Option ℕ) → i < n → F.post number i x → x ≡ then_some (p i) (f i)) → result ≡ greatest (map f (keep p (from 0 n))) }
{
    let mut most: u64 = 0;
    for i in 0..n {
        if let Some(x) = number(i) {
            most = most.max(x);
        }
    }
    most
}

// The number of the gate of input i, if that is an E.
fn number_of_input(links: &Links, numbers: &[u64], i: usize) -> Option<u64>
    ensures { result ≡ then_some (is-E (get_or (net_of links.now).pins i value)) (get_or numbers.now (gate_at_input (net_of links.now) i) 0) }
{
    if is_e(links.pin_at(i)) {
        Some(number_of(numbers, links.gate_at_input(i)))
    } else {
        None
    }
}

// The sum of the calls of output o, if that is an exec output.
fn number_of_output(links: &Links, numbers: &[u64], o: usize) -> Option<u64>
    ensures { result ≡ then_some (is_exec (get_or (net_of links.now).outputs o fires)) (each (with_number numbers.now) 0 (entered_from (net_of links.now) o)) }
{
    if is_exec(links.out_at(o)) {
        Some(with_output(links, numbers, 0, o))
    } else {
        None
    }
}

// The greatest number of an E's gate.
fn of_inputs(links: &Links, numbers: &[u64]) -> u64
    ensures { result ≡ most_of_inputs (net_of links.now) numbers.now }
{
    greatest(links.inputs(), |i| number_of_input(links, numbers, i))
}

// The greatest sum of an exec output's calls.
fn of_outputs(links: &Links, numbers: &[u64]) -> u64
    ensures { result ≡ most_of_outputs (net_of links.now) numbers.now }
{
    greatest(links.outputs(), |o| number_of_output(links, numbers, o))
}

// The most steps that any one unit can cause; 50,000,001 for more than 50,000,000.
pub fn unit_steps(links: &Links, numbers: &[u64]) -> u64
    requires { Numbers (net links.now) numbers.now }
    ensures { result ≡ most_unit_steps (net_of links.now) }
{
    of_inputs(links, numbers).max(of_outputs(links, numbers))
}

// The most bytes of a log of so many ticks.
pub fn log_bytes(links: &Links, ticks: u64) -> u64
    requires { ticks ≤ most_ticks }
    ensures { result ≡ most_log_bytes (net_of links.now) ticks }
{
    let words = HEAD + 2 * MOST_UNITS + 2 * MOST_WAITING + 2 * links.outputs();
    8 * (ticks * words as u64)
}
