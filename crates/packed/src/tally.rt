// How many were tried, and what came of them.
ghost use Rattle.std.specs.Prelude.{◌≡◌};
ghost use Rattle.packed.specs.Tally.{with_right, with_wrong, with_cut};

// How many were tried, how many of them came out wrong, and whether one could not be read whole.
#[derive(Clone, Copy, Default)]
pub struct Tally {
    pub tried: u64,
    pub wrong: u64,
    pub cut: bool,
}

impl Tally {
    // One more, as it should be.
    pub fn with_right(self) -> Self
        ensures { result ≡ with_right self }
    {
        Self {
            tried: self.tried.wrapping_add(1),
            ..self
        }
    }

    // One more, which is not.
    pub fn with_wrong(self) -> Self
        ensures { result ≡ with_wrong self }
    {
        Self {
            wrong: self.wrong.wrapping_add(1),
            ..self.with_right()
        }
    }

    // One could not be read whole.
    pub fn with_cut(self) -> Self
        ensures { result ≡ with_cut self }
    {
        Self { cut: true, ..self }
    }
}
