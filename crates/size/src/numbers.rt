// The steps of each gate, as its number: one, and the numbers of all gates that it passes on to, in sums that stop at 50,000,001.
// In each round those gates get theirs of which all that they pass on to have one; where as many rounds as there are gates leave a gate without, the calls form a ring.
ghost use Rattle.std.specs.Prelude.{◌≡◌, true, ◌+◌, ◌≤◌, length, get_or, replicate};
ghost use Rattle.model.specs.Base.{each};
ghost use Rattle.model.specs.Circuit.{most_gates};
ghost use Rattle.links.specs.Links.{gates_of_word};
ghost use Rattle.links.specs.Lent.{net_of};
ghost use Rattle.figures.specs.Figures.{entered_from, passed_on, no_ring};
ghost use Rattle.size.specs.Numbers.{cap, with_number, numbered, Numbers};

use crate::calls::{over_calls, over_outputs, passed_on};
use circuit::sets::{all_gates, round, words_of_gates};
use links::{Links, first_gate, later_gates};
use records::MOST_STEPS;

// Where sums stop.
const CAP: u64 = MOST_STEPS + 1;

// A sum that stops at 50,000,001.
fn capped_sum(a: u64, b: u64) -> u64
    ensures { result ≡ cap (a + b) }
{
    a.saturating_add(b).min(CAP)
}

// The number of gate g, and 0 where it has none.
pub fn number_of(numbers: &[u64], g: usize) -> u64
    ensures { result ≡ get_or numbers.now g 0 }
{
    numbers.get(g).copied().unwrap_or(0)
}

// A sum, and the numbers of the gates that the calls of output o enter.
pub fn with_output(links: &Links, numbers: &[u64], sum: u64, o: usize) -> u64
    ensures { result ≡ each (with_number numbers.now) sum (entered_from (net_of links.now) o) }
{
    over_calls(
        links,
        sum,
        o,
        |total, g| capped_sum(total, number_of(numbers, g)),
    )
}

// One, and the numbers of all gates that gate g passes on to.
fn gate_steps(links: &Links, numbers: &[u64], g: usize) -> u64
    ensures { result ≡ each (with_number numbers.now) 1 (passed_on (net_of links.now) g) }
{
    let itself = 1;
    over_outputs(
        links,
        itself,
        g,
        |total, o| with_output(links, numbers, total, o),
    )
}

// Each gate of a word gets its number.
fn number_gates(links: &Links, numbers: &mut [u64], gates: u64)
    requires { most_gates ≤ length numbers.old }
    ensures { numbers.new ≡ each (numbered (net_of links.now)) numbers.old (gates_of_word gates) }
{
    let mut word = gates as usize;
    let mut g = first_gate(word);
    while g < 64 {
        numbers[g] = gate_steps(links, numbers, g);
        word = later_gates(word);
        g = first_gate(word);
    }
}

// Whether the calls form no ring; then each gate has its number.
pub fn number_all(links: &Links, numbers: &mut [u64]) -> bool
    requires { numbers.old ≡ replicate most_gates 0 }
    ensures { (result ≡ no_ring (net_of links.now)) × (result ≡ true → Numbers (net_of links.now) numbers.new) }
{
    let n = links.gates();
    let words = words_of_gates(|g| passed_on(links, g));
    let mut unplaced = all_gates(n);
    for _k in 0..n {
        if unplaced == 0 {
            return true;
        }
        let left = round(&words, n, unplaced);
        number_gates(links, numbers, unplaced - left);
        unplaced = left;
    }
    unplaced == 0
}
