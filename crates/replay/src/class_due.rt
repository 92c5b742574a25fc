// A class of the packed ones: its numbers, and whether what came of it is what was due.
ghost use Rattle.words.specs.Words.{words};
ghost use Rattle.std.specs.Prelude.{◌≡◌};
ghost use Rattle.replay.specs.ClassDue.{class_due_of, area_byte, class_as_due};

use crate::bytes::{are_alike, is_answered};
use packed::filled::FILLED;
use words::read;

// The bytes of the numbers before a class's circuit. The last of them, the bytes of all records together, is not used.
pub const CLASS_HEAD: usize = 104;

// The numbers before a class's circuit: the bytes lent, and the words for what is told; the call's number that is due, and whether the areas are zero afterwards (1) or
// as they were (0); the lengths of circuit and book; the words told; the bytes of a part of the log, and how many parts there are.
#[derive(Clone, Copy)]
pub struct ClassDue {
    pub log: usize,
    pub values: usize,
    pub units: usize,
    pub delays: usize,
    pub told: usize,
    pub number: u64,
    pub cleared: u64,
    pub circuit: usize,
    pub book: usize,
    pub words: usize,
    pub part: usize,
    pub parts: u64,
}

// The numbers from their words.
impl From<&[u8; CLASS_HEAD]> for ClassDue {
    ghost from_gives = { λ head due. due ≡ class_due_of (words head.now) };

    fn from(head: &[u8; CLASS_HEAD]) -> Self {
        Self {
            log: read(head, 0) as usize,
            values: read(head, 1) as usize,
            units: read(head, 2) as usize,
            delays: read(head, 3) as usize,
            told: read(head, 4) as usize,
            number: read(head, 5),
            cleared: read(head, 6),
            circuit: read(head, 7) as usize,
            book: read(head, 8) as usize,
            words: read(head, 9) as usize,
            part: read(head, 10) as usize,
            parts: read(head, 11),
        }
    }
}

// What every byte of the areas is afterwards.
fn area_byte(due: ClassDue) -> u8
    ensures { result ≡ area_byte due }
{
    if due.cleared == 0 { FILLED } else { 0 }
}

// Whether the number is the one due, the log and the words told are these, and the areas are zero or as they were.
pub fn is_class_as_due(
    due: ClassDue,
    number: u64,
    records: &[u8],
    words: &[u64],
    log: &[u8],
    values: &[u8],
    units: &[u8],
    delays: &[u8],
    told: &[u64],
) -> bool
    ensures { result ≡ class_as_due due number records.now words.now log.now values.now units.now delays.now told.now }
{
    is_answered(number, due.number, log, records, told, words)
        && are_alike(values, units, delays, area_byte(due))
}
