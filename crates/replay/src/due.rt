// A run of the packed ones: its numbers, and whether what came of it is what was due.
ghost use Rattle.words.specs.Words.{words};
ghost use Rattle.std.specs.Prelude.{◌≡◌};
ghost use Rattle.circuit.specs.Numbers.{numbered};
ghost use Rattle.replay.specs.Due.{due_of, ends, as_due};

use crate::bytes::{are_alike, is_holding};
use circuit::refusals::Refusal;
use run::Played;
use words::read;

// The bytes of the numbers before a run's circuit.
pub const RUN_HEAD: usize = 72;

// The numbers before a run's circuit: the bytes lent, the stop and the ticks due, and the lengths of circuit, script and records.
#[derive(Clone, Copy)]
pub struct Due {
    pub log: usize,
    pub values: usize,
    pub units: usize,
    pub delays: usize,
    pub stop: u64,
    pub ticks: u64,
    pub circuit: usize,
    pub script: usize,
    pub records: usize,
}

// The numbers from their nine words.
impl From<&[u8; RUN_HEAD]> for Due {
    ghost from_gives = { λ head due. due ≡ due_of (words head.now) };

    fn from(head: &[u8; RUN_HEAD]) -> Self {
        Self {
            log: read(head, 0) as usize,
            values: read(head, 1) as usize,
            units: read(head, 2) as usize,
            delays: read(head, 3) as usize,
            stop: read(head, 4),
            ticks: read(head, 5),
            circuit: read(head, 6) as usize,
            script: read(head, 7) as usize,
            records: read(head, 8) as usize,
        }
    }
}

// Whether the answer is of a run with the stop, the ticks and the bytes of records that are due.
pub fn is_end(due: Due, answer: Result<Played, Refusal>) -> bool
    ensures { result ≡ ends due (numbered answer) }
{
    match answer {
        Ok(played) => {
            played.stop == due.stop
                && played.ticks == due.ticks
                && played.bytes == due.records as u64
        }
        Err(_) => false,
    }
}

// Whether the answer is the one due, the log holds the records and behind them what it was filled with, and the areas are zero.
pub fn is_as_due(
    due: Due,
    answer: Result<Played, Refusal>,
    records: &[u8],
    filled: u8,
    log: &[u8],
    values: &[u8],
    units: &[u8],
    delays: &[u8],
) -> bool
    ensures { result ≡ as_due due (numbered answer) records.now filled log.now values.now units.now delays.now }
{
    is_end(due, answer) && (is_holding(log, records, filled) && are_alike(values, units, delays, 0))
}
