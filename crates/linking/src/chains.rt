// Lists as chains of numbers.
ghost use Rattle.words.specs.Words.{words};
ghost use Rattle.std.specs.Prelude.{◌≡◌, map, ◌+◌, ◌≤◌, get_or};
ghost use Rattle.std.proofs.lemmas.List.Edits.{sets};
ghost use Rattle.model.specs.Base.{joined};
ghost use Rattle.links.specs.Links.{listed};
ghost use Rattle.linking.specs.Building.{blank, no_chains, chained, all_chained, chain_at, size_at, target};
ghost use Rattle.linking.specs.Lent.{Near};

use crate::cells::{at, put, word};
use links::Links;
use links::layout::{MOST_INPUTS, MOST_OUTPUTS};

// No chain has more members.
const LONGEST: usize = MOST_INPUTS;

// What ends a chain: no input and no call has this number.
const END: usize = MOST_INPUTS;

// Chain o begins with heads[o], and next[i] comes behind i.
#[derive(Drop)]
pub struct Chains {
    heads: [usize; MOST_OUTPUTS],
    next: [usize; MOST_INPUTS],
}

impl Chains {
    // Room for chains: zeros, which are made in their place.
    pub fn blank() -> Chains
        ensures { result ≡ blank }
    {
        Chains {
            heads: [0; MOST_OUTPUTS],
            next: [0; MOST_INPUTS],
        }
    }

    // The numbers below n, each in the chain of its key, ascending. The keys are the words of the circuit from word `keys` on.
    pub fn fill_by_keys(&mut self, circuit: &[u8], keys: usize, n: usize)
        requires blank { self.old ≡ blank }
        requires near { Near keys }
        requires near_2 { Near n }
        ensures { self.new ≡ all_chained (λ i. get_or (words circuit.now) (keys + i) 0) n no_chains }
    {
        self.heads.fill(END);
        self.next.fill(END);
        for i in (0..n).rev() {
            let key = word(circuit, keys + i);
            self.add(i, key);
        }
    }

    // Number i comes first in chain `key`, if there is one.
    fn add(&mut self, i: usize, key: usize)
        ensures { self.new ≡ chained self.old i key }
    {
        let head = at(&self.heads, key);
        put(&mut self.next, i, head);
        put(&mut self.heads, key, i);
    }

    // How many members chain o has.
    pub fn size(&self, o: usize) -> usize
        ensures { result ≡ size_at self.now o }
    {
        let mut p = at(&self.heads, o);
        for n in 0..LONGEST {
            if self.next.len() <= p {
                return n;
            }
            p = self.next[p];
        }
        LONGEST
    }

    // The cells from cell `base` on become the members of n chains, one behind the other.
    pub fn write(&self, circuit: &[u8], targets: usize, n: usize, cells: &mut Links, base: usize)
        requires near { Near targets }
        requires near_2 { Near n }
        requires near_3 { Near base }
        ensures { cells.new ≡ sets cells.old base (joined (listed n (λ o. map (target (words circuit.now) targets) (chain_at self.now o)))) }
    {
        let mut done: usize = 0;
        for o in 0..n {
            self.write_one(circuit, targets, o, cells, base + done);
            done += self.size(o);
        }
    }

    // The cells from cell `base` on become the members of chain o.
    fn write_one(&self, circuit: &[u8], targets: usize, o: usize, cells: &mut Links, base: usize)
        requires near { Near targets }
        requires base_bound { base ≤ 4294967296 }
        ensures { cells.new ≡ sets cells.old base (map (target (words circuit.now) targets) (chain_at self.now o)) }
    {
        let mut p = at(&self.heads, o);
        for n in 0..LONGEST {
            if self.next.len() <= p {
                return;
            }
            let v = target(circuit, targets, p);
            cells.put(base + n, v);
            p = self.next[p];
        }
    }
}

// What is written of member i: word `targets` + i, or i itself where `targets` is 0.
fn target(circuit: &[u8], targets: usize, i: usize) -> usize
    requires near { Near targets }
    requires near_2 { Near i }
    ensures { result ≡ target (words circuit.now) targets i }
{
    if targets == 0 {
        return i;
    }
    word(circuit, targets + i)
}
