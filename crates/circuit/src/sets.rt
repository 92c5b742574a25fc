// Sets of gates are words: gate g is bit g. Each gate has the word of those that it waits for, and in a round it is placed if it waits for none that is unplaced.
ghost use Rattle.std.specs.Prelude.{◌≡◌, ℕ, Bool, true, ◌+◌, ◌*◌, ◌<◌, ◌≤◌, ◌^◌, length, get_or};
ghost use Rattle.model.specs.Value.{bit};
ghost use Rattle.model.specs.Circuit.{most_gates};
ghost use Rattle.circuit.specs.Gates.{gates_where, gate_bit, waits};

use links::layout::MOST_GATES;

// The word of gate g alone; 0 for a number above 63, for which a word has no bit.
pub fn gate_bit(g: usize) -> u64
    ensures { result ≡ gate_bit g }
{
    if g < 64 { 1 << g } else { 0 }
}

// A word moved up by one bit, with b below it.
pub fn with_bit(word: u64, b: bool) -> u64
    requires { word < 2 ^ 63 }
    ensures { result ≡ word * 2 + bit b }
{
    word * 2 + u64::from(b)
}

// The word of those of n gates that pass a test.
pub(crate) fn gates_where<F: Fn(usize) -> bool>(n: usize, passes: F) -> u64
    requires few { n ≤ most_gates }
    requires callable { (g : ℕ) → g < n → F.pre passes g }
    ensures { (p : ℕ → Bool) → ((g : ℕ) (t : Bool) → g < n → F.post passes g t → t ≡ p g) → result ≡ gates_where p n }
{
    let mut word: u64 = 0;
    for g in (0..n).rev() {
        word = with_bit(word, passes(g));
    }
    word
}

// The word of each gate.
pub fn words_of_gates<F: Fn(usize) -> u64>(word: F) -> [u64; MOST_GATES]
    requires callable { F.IsAlwaysCallable word }
    ensures { (f : ℕ → ℕ) → ((g y : ℕ) → F.post word g y → y ≡ f g) → (g : ℕ) → g < most_gates → get_or result g 0 ≡ f g }
{
    let mut words = [0; MOST_GATES];
    for g in 0..MOST_GATES {
        words[g] = word(g);
    }
    words
}

// All of n gates.
pub fn all_gates(n: usize) -> u64
    requires { n ≤ most_gates }
    ensures { result ≡ gates_where (λ _. true) n }
{
    gates_where(n, |_| true)
}

// One round: of n gates those that wait for one of `unplaced`, where `words` has what each waits for.
pub fn round(words: &[u64], n: usize, unplaced: u64) -> u64
    requires { (n ≤ most_gates) × (n ≤ length words.now) }
    ensures { result ≡ gates_where (waits words.now unplaced) n }
{
    gates_where(n, |g| words[g] & unplaced != 0)
}
