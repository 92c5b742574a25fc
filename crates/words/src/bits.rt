// The set bits of a word.
ghost use Rattle.std.specs.Prelude.{◌≡◌};
ghost use Rattle.std.specs.Iterator.{YieldsFirst, item_count};
ghost use Rattle.words.specs.Bits.{bits_of, bits_left};

// Those that are still to come, the lowest first.
#[derive(Clone, Copy)]
pub struct Bits {
    left: u64,
}

impl Bits {
    // All of a word.
    pub fn of(word: u64) -> Bits
        ensures { bits_left result ≡ bits_of word }
    {
        Bits { left: word }
    }
}

impl Iterator for Bits {
    type Item = usize;

    ghost next_gives = { YieldsFirst bits_left };

    ghost remaining = { item_count bits_left };

    // Ones count how many remain, and trailing zeros find the lowest.
    fn next(&mut self) -> Option<usize> {
        let d = self.left;
        if u64::count_ones(d) == 0 {
            return None;
        }
        self.left = d & (d - 1);
        Some(u64::trailing_zeros(d) as usize)
    }
}
