// Question 6: is there an order in which each pure gate comes after its pure sources?
ghost use Rattle.std.specs.Prelude.{◌≡◌, ℕ, ◌<◌, ◌≤◌, length, get_or};
ghost use Rattle.model.specs.Kinds.{pure};
ghost use Rattle.model.specs.Circuit.{kind_of_gate, most_gates};
ghost use Rattle.model.specs.Questions.{question_6};
ghost use Rattle.links.specs.Lent.{net_of};
ghost use Rattle.circuit.specs.Gates.{gates_where, source_bit, awaited};

use crate::sets::{gate_bit, gates_where, round, words_of_gates};
use links::Links;
use links::layout::MOST_GATES;

// The word of the gate that input i reads; 0 where it reads none.
fn source_bit(links: &Links, i: usize) -> u64
    ensures { result ≡ source_bit (net_of links.now) i }
{
    match links.source(i) {
        Some(o) => gate_bit(links.gate_at_output(o)),
        None => 0,
    }
}

// The gates that gate g waits for: those that it reads, if it is pure.
fn awaited(links: &Links, g: usize) -> u64
    ensures { result ≡ awaited (net_of links.now) g }
{
    let kind = links.kind_of_gate(g);
    if !kinds::is_pure(kind) {
        return 0;
    }
    let first = links.input(g, 0);
    let n = kinds::inputs(kind);
    let mut word: u64 = 0;
    for p in 0..n {
        word |= source_bit(links, first + p);
    }
    word
}

// What each gate waits for.
fn all_awaited(links: &Links) -> [u64; MOST_GATES]
    ensures { (g : ℕ) → g < most_gates → get_or result g 0 ≡ awaited (net_of links.now) g }
{
    words_of_gates(|g| awaited(links, g))
}

// At most as many rounds as there are gates: what is unplaced then stands in a ring, or behind one.
pub fn ordered(links: &Links) -> bool
    ensures { result ≡ question_6 (net_of links.now) }
{
    let n = links.gates();
    let words = all_awaited(links);
    let mut unplaced = gates_where(n, |g| kinds::is_pure(links.kind_of_gate(g)));
    for _k in 0..n {
        if unplaced == 0 {
            return true;
        }
        unplaced = round(&words, n, unplaced);
    }
    unplaced == 0
}
