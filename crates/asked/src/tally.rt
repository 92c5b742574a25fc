// How many cases were asked, and what came of them.
ghost use Rattle.std.specs.Prelude.{◌≡◌};
ghost use Rattle.asked.specs.Tally.{counted, with_right, with_wrong, with_cut};

// The cases that were right by their number (0, 1 to 10, and 19), and all that were asked.
#[derive(Clone, Copy, Default)]
pub struct Tally {
    pub right: [u64; 20],
    pub all: packed::tally::Tally,
}

// One more of this number.
fn counted(mut right: [u64; 20], number: u64) -> [u64; 20]
    ensures { result ≡ counted right number }
{
    if 20 <= number {
        return right;
    }
    let i = number as usize;
    right[i] = right[i].wrapping_add(1);
    right
}

impl Tally {
    // One more, right, with this number.
    pub fn with_right(self, number: u64) -> Self
        ensures { result ≡ with_right self number }
    {
        Self {
            right: counted(self.right, number),
            all: self.all.with_right(),
        }
    }

    // One more, wrong.
    pub fn with_wrong(self) -> Self
        ensures { result ≡ with_wrong self }
    {
        Self {
            all: self.all.with_wrong(),
            ..self
        }
    }

    // One could not be read whole.
    pub fn with_cut(self) -> Self
        ensures { result ≡ with_cut self }
    {
        Self {
            all: self.all.with_cut(),
            ..self
        }
    }
}
