// How many outputs the records of a circuit show.
ghost use Rattle.words.specs.Words.{words};
ghost use Rattle.std.specs.Prelude.{◌≡◌, true, ◌≤◌, length};
// The definition `circuit` is named for what it is of, beside the slice of that name.
ghost use Rattle.model.specs.Circuit.{circuit as circuit_of};
ghost use Rattle.model.specs.Questions.{question_1};
ghost use Rattle.links.specs.Links.{most_outputs};
ghost use Rattle.play.specs.Outputs.{outputs_of};

use links::layout::{MOST_CONSTANTS, MOST_GATES};
use words::counting::least;
use words::read;

// How many outputs the circuit has.
pub fn outputs(circuit: &[u8]) -> usize
    ensures value { result ≡ outputs_of (words circuit.now) }
    ensures value_2 { question_1 circuit.now (words circuit.now) ≡ true → result ≡ length (circuit_of (words circuit.now)).outputs }
    ensures upper_bound { result ≤ most_outputs }
{
    let gates = least(read(circuit, 0), MOST_GATES);
    let constants = least(read(circuit, 1), MOST_CONSTANTS);
    let first = 4 + 2 * constants;
    let mut total = 0;
    for g in 0..gates {
        total += kinds::outputs(read(circuit, first + g));
    }
    total
}
