// The bits of a word of the area, of which each stands for a gate or an output.
ghost use Rattle.std.specs.Prelude.{◌+◌, ◌*◌, ◌^◌, ◌<◌, ◌≤◌, length, get_or, bit_or};
ghost use Rattle.words.specs.Words.{words, Stored};

use words::{get, put};

// Bit b of word i is set.
pub fn set_bit(values: &mut [u8], i: usize, b: usize)
    requires { (i * 8 + 8 ≤ length values.old) × (b < 64) }
    ensures { Stored values.old values.new i (bit_or (get_or (words values.old) i 0) (2 ^ b)) }
{
    put(values, i, get(values, i) | 1 << b);
}
