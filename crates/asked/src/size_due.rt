// A size of the packed ones: its numbers, and whether what came of it is what was due.
ghost use Rattle.words.specs.Words.{words};
ghost use Rattle.std.specs.Prelude.{◌≡◌};
ghost use Rattle.asked.specs.SizeDue.{size_due_of, size_as_due};

use words::read;

// The bytes of these numbers.
pub const SIZE_HEAD: usize = 48;

// The numbers before a size's circuit: the ticks; the words lent for what is told; the number that is due, and both figures; the circuit's length.
#[derive(Clone, Copy)]
pub struct SizeDue {
    pub ticks: u64,
    pub told: usize,
    pub number: u64,
    pub steps: u64,
    pub bytes: u64,
    pub circuit: usize,
}

// The numbers from their six words.
impl From<&[u8; SIZE_HEAD]> for SizeDue {
    ghost from_gives = { λ head due. due ≡ size_due_of (words head.now) };

    fn from(head: &[u8; SIZE_HEAD]) -> Self {
        Self {
            ticks: read(head, 0),
            told: read(head, 1) as usize,
            number: read(head, 2),
            steps: read(head, 3),
            bytes: read(head, 4),
            circuit: read(head, 5) as usize,
        }
    }
}

// Whether the call's number is the one due, and the words that it leaves are these.
pub fn is_size_as_due(due: SizeDue, number: u64, told: &[u64], words: &[u64]) -> bool
    ensures { result ≡ size_as_due due number told.now words.now }
{
    number == due.number && told == words
}
