// A report of the packed ones: its numbers.
ghost use Rattle.words.specs.Words.{words};
ghost use Rattle.std.specs.Prelude.{◌≡◌};
ghost use Rattle.replay.specs.ReportDue.{report_due_of};

use words::read;

// The bytes of the numbers before a report's circuit.
pub const REPORT_HEAD: usize = 72;

// The numbers before a report's circuit: what is named; the bytes lent for the report, and the words for what is told; the call's number that is due; the lengths of
// circuit and log, and the bytes of the lines.
#[derive(Clone, Copy)]
pub struct ReportDue {
    pub driver: u64,
    pub activity: u64,
    pub length: u64,
    pub report: usize,
    pub told: usize,
    pub number: u64,
    pub circuit: usize,
    pub log: usize,
    pub lines: usize,
}

// The numbers from their words.
impl From<&[u8; REPORT_HEAD]> for ReportDue {
    ghost from_gives = { λ head due. due ≡ report_due_of (words head.now) };

    fn from(head: &[u8; REPORT_HEAD]) -> Self {
        Self {
            driver: read(head, 0),
            activity: read(head, 1),
            length: read(head, 2),
            report: read(head, 3) as usize,
            told: read(head, 4) as usize,
            number: read(head, 5),
            circuit: read(head, 6) as usize,
            log: read(head, 7) as usize,
            lines: read(head, 8) as usize,
        }
    }
}
