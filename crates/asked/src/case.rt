// A case of the packed questions: its numbers, and what the two functions answer to it.
ghost use Rattle.words.specs.Words.{words};
ghost use Rattle.std.specs.Prelude.{◌≡◌};
ghost use Rattle.asked.specs.Case.{case_of, answers, right};

use circuit::refusals::refused;
use circuit::{check, refusal};
use words::read;

// The bytes of the numbers before a case's circuit.
pub const HEAD: usize = 48;

// The numbers before a case's circuit: what `check` and `refusal` have to answer, the bytes lent, and the circuit's length.
#[derive(Clone, Copy)]
pub struct Case {
    pub check: u64,
    pub refusal: u64,
    pub values: usize,
    pub units: usize,
    pub delays: usize,
    pub circuit: usize,
}

// The numbers that the two functions answered.
#[derive(Clone, Copy)]
pub struct Answers {
    pub check: u64,
    pub refusal: u64,
}

// The numbers from their six words.
impl From<&[u8; HEAD]> for Case {
    ghost from_gives = { λ head case. case ≡ case_of (words head.now) };

    fn from(head: &[u8; HEAD]) -> Self {
        Self {
            check: read(head, 0),
            refusal: read(head, 1),
            values: read(head, 2) as usize,
            units: read(head, 3) as usize,
            delays: read(head, 4) as usize,
            circuit: read(head, 5) as usize,
        }
    }
}

// What both answer to this circuit and script, with areas of the case's lengths lent to `refusal`.
pub fn ask(case: Case, circuit: &[u8], script: &[u8]) -> Answers
    ensures { result ≡ answers case circuit.now script.now }
{
    Answers {
        check: refused(check(circuit, script)),
        refusal: refused(refusal(circuit, script, case.values, case.units, case.delays)),
    }
}

// Whether both answered as they should.
pub fn is_right(case: Case, answers: Answers) -> bool
    ensures { result ≡ right case answers }
{
    if answers.check != case.check {
        return false;
    }
    answers.refusal == case.refusal
}
