// What a gate passes on to: the gates that the calls of all its outputs enter, as a word.
ghost use Rattle.std.specs.Prelude.{◌≡◌, ℕ};
ghost use Rattle.model.specs.Base.{each};
ghost use Rattle.links.specs.Lent.{net_of};
ghost use Rattle.circuit.specs.Gates.{with_gate};
ghost use Rattle.figures.specs.Figures.{entered_from, passed_on};
ghost use Rattle.size.specs.Numbers.{entered};

use circuit::sets::gate_bit;
use links::Links;

// The gate that call k of all enters.
pub fn entered(links: &Links, k: usize) -> usize
    ensures { result ≡ entered links.now k }
{
    links.gate_at_input(links::called_input(links.call(k)))
}

// From `start` on, a step for each gate that the calls of output o enter.
pub fn over_calls<F: Fn(u64, usize) -> u64>(links: &Links, start: u64, o: usize, step: F) -> u64
    requires callable { F.IsAlwaysCallable step }
    ensures { (f : ℕ → ℕ → ℕ) → ((x g y : ℕ) → F.post step x g y → y ≡ f x g) → result ≡ each f start (entered_from (net_of links.now) o) }
{
    let first = links.first_call(o);
    let n = links.call_count(o);
    let mut x = start;
    for k in 0..n {
        x = step(x, entered(links, first + k));
    }
    x
}

// From `start` on, a step for each output of gate g.
pub fn over_outputs<F: Fn(u64, usize) -> u64>(links: &Links, start: u64, g: usize, step: F) -> u64
    requires callable { F.IsAlwaysCallable step }
    ensures { (f : ℕ → ℕ → ℕ) → ((x o y : ℕ) → F.post step x o y → y ≡ each f x (entered_from (net_of links.now) o)) → result ≡ each f start (passed_on (net_of links.now) g) }
{
    let first = links.output(g, 0);
    let n = kinds::outputs(links.kind_of_gate(g));
    let mut x = start;
    for p in 0..n {
        x = step(x, first + p);
    }
    x
}

// The gates of a word, and those that the calls of output o enter.
fn with_entered(links: &Links, gates: u64, o: usize) -> u64
    ensures { result ≡ each with_gate gates (entered_from (net_of links.now) o) }
{
    over_calls(links, gates, o, |word, g| word | gate_bit(g))
}

// The gates that gate g passes on to.
pub fn passed_on(links: &Links, g: usize) -> u64
    ensures { result ≡ each with_gate 0 (passed_on (net_of links.now) g) }
{
    over_outputs(links, 0, g, |word, o| with_entered(links, word, o))
}
