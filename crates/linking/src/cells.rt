// Words of a circuit and cells of the links: reading one, writing one, writing several in a row.
ghost use Rattle.words.specs.Words.{words};
ghost use Rattle.std.specs.Prelude.{◌≡◌, ℕ, ◌<◌, get_or, set};
ghost use Rattle.links.specs.Links.{packed};
ghost use Rattle.links.specs.Lent.{Short};
ghost use Rattle.linking.specs.Building.{written};
ghost use Rattle.linking.specs.Lent.{Near};

use links::Links;
use links::layout::DIGIT;

// Word i of the circuit, and 0 past the end.
pub fn word(circuit: &[u8], i: usize) -> usize
    ensures { result ≡ get_or (words circuit.now) i 0 }
{
    words::read(circuit, i) as usize
}

// Cell i, and 0 past the end.
pub fn at(cells: &[usize], i: usize) -> usize
    ensures { result ≡ get_or cells.now i 0 }
{
    cells.get(i).copied().unwrap_or(0)
}

// Cell i becomes v. Where there is no cell i, nothing changes.
pub fn put(cells: &mut [usize], i: usize, v: usize)
    ensures { cells.new ≡ set cells.old i v }
{
    // Stays: of what `get_mut` lent, a proof knows the length when it comes back, and no cell.
    if i < cells.len() {
        cells[i] = v;
    }
}

// n cells, from cell `base` on, become f(0), f(1), ..
pub fn write_each<F: Fn(usize) -> usize>(cells: &mut Links, base: usize, n: usize, f: F)
    requires near { Near base }
    requires near_2 { Near n }
    requires callable { (k : ℕ) → k < n → F.pre f k }
    ensures { (v : ℕ → ℕ) → ((k r : ℕ) → k < n → F.post f k r → r ≡ v k) → cells.new ≡ written cells.old base n v }
{
    for k in 0..n {
        cells.put(base + k, f(k));
    }
}

// Four numbers below 65,536 in one cell, the first one lowest.
pub fn pack(a: usize, b: usize, c: usize, d: usize) -> usize
    requires short { Short a }
    requires short_2 { Short b }
    requires short_3 { Short c }
    requires short_4 { Short d }
    ensures { result ≡ packed a b c d }
{
    a + DIGIT * (b + DIGIT * (c + DIGIT * d))
}
