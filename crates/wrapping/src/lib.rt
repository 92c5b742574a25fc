// Sums and products that wrap at 64 bits, and the index of a loop.
#![tactic(auto)]

ghost use Rattle.std.specs.Prelude.{◌≡◌, ◌*◌, ◌%◌, ◌^◌};
ghost use Rattle.words.specs.Words.{signed};
ghost use Rattle.model.specs.Loops.{index};

// Half the bits of a word.
const HALF: u64 = 0x1_0000_0000;

// a * b, modulo 2^64. Each number is cut into halves of 32 bits; of the upper halves' products only what reaches the lower 64 bits is added.
// Stays: a multiply helper of the program's own is the form that the project's rules name (docs/DECISIONS.md, "Forms").
pub fn wrapping_mul(a: u64, b: u64) -> u64
    ensures { result ≡ (a * b) % 2 ^ 64 }
{
    let low = a % HALF * (b % HALF);
    let middle = (a / HALF * (b % HALF)).wrapping_add(a % HALF * (b / HALF));
    low.wrapping_add(middle % HALF * HALF)
}

// The index of a run, of the words of the first and the step: the first plus done times step, wrapping at 64 bits.
pub fn loop_index(first: u64, done: u64, step: u64) -> u64
    ensures { result ≡ index (signed first) done (signed step) }
{
    first.wrapping_add(wrapping_mul(done, step))
}
