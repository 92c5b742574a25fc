// Question 3: are kinds 1 to 31, ranks 0 to 65,535, bodies 0 to 64, and are the inputs as many as these kinds have?
ghost use Rattle.std.specs.Prelude.{◌≡◌, true, length};
ghost use Rattle.words.specs.Words.{words};
ghost use Rattle.std.specs.Bool.{then_some};
ghost use Rattle.model.specs.Kinds.{kind_at};
ghost use Rattle.model.specs.Circuit.{circuit as circuit_of};
ghost use Rattle.model.specs.Questions.{question_1, question_3, within};

use super::columns::{Column, within};
use kinds::numbers::{BREAK, SELECT};
use links::layout::{MOST_GATES, RANKS};
use words::get;

// The last word of a rank and a body: the last body is that of the last gate that there can be.
const LAST_PLACE: u64 = (RANKS * MOST_GATES + RANKS - 1) as u64;

// The inputs of a kind 1 to 31.
fn inputs_of(kind: u64) -> Option<u64>
    ensures { result ≡ then_some (within 1 31 kind) (length (kind_at kind).ins) }
{
    within(SELECT, BREAK, kind).then_some(kinds::inputs(kind) as u64)
}

// Whether all gates of a circuit are good.
pub fn gates(circuit: &[u8]) -> bool
    requires { question_1 circuit.now (words circuit.now) ≡ true }
    ensures { result ≡ question_3 (words circuit.now) (circuit_of (words circuit.now)) }
{
    let count = get(circuit, 0) as usize;
    let first = 4 + 2 * get(circuit, 1) as usize;
    let inputs = get(circuit, 2);
    let kinds = Column {
        area: circuit,
        first,
        count,
    };
    let places = Column {
        area: circuit,
        first: first + count,
        count,
    };
    kinds.come_to(inputs_of, inputs) && places.all(|place| within(0, LAST_PLACE, place))
}
