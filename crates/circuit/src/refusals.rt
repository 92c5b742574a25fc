// What a call is refused with, and its number.
ghost use Rattle.std.specs.Prelude.{◌≡◌};
ghost use Rattle.circuit.specs.Numbers.{number_of, refused};

// The question whose answer is no, by its number. Crate `class` asks 15, `whole` 16, `hours` 17 and 18, `size` 23 and 24, this one the others.
#[derive(Clone, Copy, PartialEq, Eq, Debug)]
pub enum Refusal {
    Sizes = 1,
    Constants = 2,
    Gates = 3,
    Inputs = 4,
    Calls = 5,
    Order = 6,
    Areas = 7,
    ScriptSizes = 8,
    Ticks = 9,
    Stimuli = 10,
    NoBook = 15,
    NotWhole = 16,
    WrongNames = 17,
    NoRoom = 18,
    Bodies = 19,
    RingOrLoop = 23,
    WrongTicks = 24,
}

impl Refusal {
    // Its number.
    pub fn number(self) -> u64
        ensures { result ≡ number_of self }
    {
        self as u64
    }
}

// The number that a call with this answer is refused with, or 0.
pub fn refused(answer: Result<(), Refusal>) -> u64
    ensures { result ≡ refused answer }
{
    match answer {
        Ok(()) => 0,
        Err(refusal) => refusal.number(),
    }
}
