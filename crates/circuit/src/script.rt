// Questions 8, 9 and 10, of a script: its sizes, its ticks, its stimuli.
ghost use Rattle.std.specs.Prelude.{◌≡◌, true, ◌+◌, ◌*◌, ◌≤◌, get_or};
ghost use Rattle.words.specs.Words.{words};
ghost use Rattle.std.specs.Bool.{then_some};
ghost use Rattle.model.specs.Circuit.{part, circuit as circuit_of};
ghost use Rattle.model.specs.Script.{most_ticks};
ghost use Rattle.model.specs.Questions.{question_1, question_8, question_9, question_10, good_length, within};

use super::columns::{Column, within};
use floats::MINUS_ZERO;
use kinds::numbers::WORLD_EVENT;
use records::MOST_TICKS;
use words::get;

// ---- sizes

// The number of a script's words.
fn words_of(ticks: u64, stimuli: u64) -> u64
    requires { (ticks ≤ most_ticks) × (stimuli ≤ 65535) }
    ensures { result ≡ 2 + 2 * (ticks + stimuli) }
{
    2 + 2 * (ticks + stimuli)
}

// Whether the bytes are whole words, at least two, the two sizes in range and the length as they give.
pub fn script_sizes(script: &[u8]) -> bool
    ensures { result ≡ question_8 script.now (words script.now) }
{
    let bytes = script.len();
    if bytes % 8 != 0 {
        return false;
    }
    if bytes < 16 {
        return false;
    }
    let ticks = get(script, 0);
    let stimuli = get(script, 1);
    let fit = within(0, MOST_TICKS, ticks) & within(0, 65535, stimuli);
    if fit {
        bytes as u64 / 8 == words_of(ticks, stimuli)
    } else {
        false
    }
}

// ---- ticks

// The bits of 3,600.0.
const LONGEST: u64 = 0x40AC_2000_0000_0000;

// Whether a tick may have this length: -0.0, or 0.0 to 3,600.0. From 0.0 on the bits of floats are in the order of the floats, and those below 0.0 lie above.
fn good_length(bits: u64) -> bool
    ensures { result ≡ good_length bits }
{
    if bits == MINUS_ZERO {
        return true;
    }
    bits <= LONGEST
}

// A count of stimuli, of at most 64.
fn counted(stimuli: u64) -> Option<u64>
    ensures { result ≡ then_some (within 0 64 stimuli) stimuli }
{
    within(0, 64, stimuli).then_some(stimuli)
}

// Whether all ticks of a script are good.
pub fn ticks(script: &[u8]) -> bool
    requires { question_8 script.now (words script.now) ≡ true }
    ensures { result ≡ question_9 (words script.now) }
{
    let count = get(script, 0) as usize;
    let stimuli = get(script, 1);
    let lengths = Column {
        area: script,
        first: 2,
        count,
    };
    let counts = Column {
        area: script,
        first: 2 + count,
        count,
    };
    lengths.all(good_length) && counts.come_to(counted, stimuli)
}

// ---- stimuli

// The kind of gate g, where these are the kinds; 0 where there is no gate g.
fn kind_of_gate(kinds: &Column, g: u64) -> u64
    ensures { result ≡ get_or (part (words kinds.now.area.now) kinds.now.first kinds.now.count) g 0 }
{
    if g < kinds.count as u64 {
        kinds.get(g as usize)
    } else {
        0
    }
}

// Whether all stimuli of a script are good for a circuit.
pub fn stimuli(circuit: &[u8], script: &[u8]) -> bool
    requires { (question_1 circuit.now (words circuit.now) ≡ true) × (question_8 script.now (words script.now) ≡ true) }
    ensures { result ≡ question_10 (words script.now) (circuit_of (words circuit.now)) }
{
    let constants = get(circuit, 1);
    let kinds = Column {
        area: circuit,
        first: 4 + 2 * constants as usize,
        count: get(circuit, 0) as usize,
    };
    let count = get(script, 1) as usize;
    let first = 2 + 2 * get(script, 0) as usize;
    let gates = Column {
        area: script,
        first,
        count,
    };
    let values = Column {
        area: script,
        first: first + count,
        count,
    };
    gates.all(|g| kind_of_gate(&kinds, g) == WORLD_EVENT) && values.all(|k| within(0, constants, k))
}
