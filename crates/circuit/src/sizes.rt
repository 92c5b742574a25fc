// Question 1: are the bytes whole words, and as many as the circuit's sizes give?
ghost use Rattle.words.specs.Words.{words};
ghost use Rattle.std.specs.Prelude.{◌≡◌, ◌+◌, ◌*◌, ◌≤◌};
ghost use Rattle.model.specs.Questions.{question_1};
ghost use Rattle.model.specs.Circuit.{most_gates, most_inputs};
ghost use Rattle.model.specs.Chain.{most_calls};
ghost use Rattle.links.specs.Links.{most_constants};

use super::columns::within;
use words::get;

// The number of a circuit's words.
fn words_of(gates: u64, constants: u64, inputs: u64, calls: u64) -> u64
    requires { (gates ≤ most_gates) × (constants ≤ most_constants) × (inputs ≤ most_inputs) × (calls ≤ most_calls) }
    ensures { result ≡ 4 + 2 * (gates + constants + inputs + calls) }
{
    4 + 2 * (gates + constants + inputs + calls)
}

// Whether the bytes are whole words, at least four, the four sizes in range and the length as they give.
pub fn sizes(circuit: &[u8]) -> bool
    ensures { result ≡ question_1 circuit.now (words circuit.now) }
{
    let bytes = circuit.len();
    if bytes % 8 != 0 {
        return false;
    }
    if bytes < 32 {
        return false;
    }
    let gates = get(circuit, 0);
    let constants = get(circuit, 1);
    let inputs = get(circuit, 2);
    let calls = get(circuit, 3);
    let fit = within(1, 64, gates)
        & within(0, 64, constants)
        & within(0, 640, inputs)
        & within(0, 256, calls);
    if fit {
        bytes as u64 / 8 == words_of(gates, constants, inputs, calls)
    } else {
        false
    }
}
