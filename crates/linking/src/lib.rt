// Fills the array of links from a circuit's bytes, once per run.
#![tactic(auto)]

ghost use Rattle.std.specs.Prelude.{◌≡◌, true, ◌+◌, ◌*◌, ◌≤◌};
ghost use Rattle.words.specs.Words.{words};
ghost use Rattle.model.specs.Circuit.{circuit as circuit_of, most_gates, most_inputs};
ghost use Rattle.model.specs.Questions.{question_1, question_2, question_3};
ghost use Rattle.model.specs.Chain.{most_calls};
ghost use Rattle.links.specs.Links.{cells, most_constants};
ghost use Rattle.linking.specs.Building.{below, Small, ins_at, constants_written, all_written};

use crate::cells::{word, write_each};
use crate::gates::{GateTable, count_outputs, link_gates};
use crate::inputs::link_inputs;
use crate::lists::link_lists;
use links::Links;
use links::layout::*;

mod cells;
mod chains;
mod entries;
mod gate_words;
mod gates;
mod inputs;
mod lists;

// Where the constants of a circuit begin, in words: their kinds, and then their contents.
const CONSTANTS: usize = 4;

// Writes the links of a circuit down. Questions 1 to 3 about it are answered yes.
pub fn link(circuit: &[u8], links: &mut Links)
    requires circuit_value { question_1 circuit.now (words circuit.now) ≡ true }
    requires circuit_value_2 { question_2 (words circuit.now) ≡ true }
    requires circuit_value_3 { question_3 (words circuit.now) (circuit_of (words circuit.now)) ≡ true }
    ensures { links.new ≡ cells (circuit_of (words circuit.now)) }
{
    let gates = word(circuit, 0);
    let constants = word(circuit, 1);
    let inputs = word(circuit, 2);
    let calls = word(circuit, 3);
    link_all(circuit, gates, constants, inputs, calls, links);
}

// All tables of a circuit of these sizes.
fn link_all(
    circuit: &[u8],
    gates: usize,
    constants: usize,
    inputs: usize,
    calls: usize,
    cells: &mut Links,
)
    requires gates_le_most_gates { gates ≤ most_gates }
    requires constants_le_most_constants { constants ≤ most_constants }
    requires inputs_le_most_inputs { inputs ≤ most_inputs }
    requires calls_le_most_calls { calls ≤ most_calls }
    requires inputs_value { inputs ≡ below (ins_at (words circuit.now) (4 + 2 * constants)) gates }
    requires small { Small (words circuit.now) (4 + 2 * constants) gates 256 }
    requires small_2 { Small (words circuit.now) (4 + 2 * constants + gates) gates 16777216 }
    ensures { cells.new ≡ all_written (words circuit.now) gates constants inputs calls }
{
    let kinds = CONSTANTS + 2 * constants;
    let sources = kinds + 2 * gates;
    let callers = sources + 2 * inputs;
    let table = GateTable {
        circuit,
        kinds,
        count: gates,
    };
    let outputs = count_outputs(table);
    cells.clear();
    link_gates(table, sources + inputs, constants, inputs, outputs, cells);
    link_inputs(table, sources, inputs, constants, cells);
    link_lists(circuit, sources, inputs, callers, calls, outputs, cells);
    link_constants(circuit, constants, cells);
}

// The tables of the constants.
fn link_constants(circuit: &[u8], constants: usize, cells: &mut Links)
    requires { constants ≤ most_constants }
    ensures { cells.new ≡ constants_written (words circuit.now) constants cells.old }
{
    write_each(
        cells,
        CONSTANT_KINDS,
        constants,
        |k| word(circuit, CONSTANTS + k),
    );
    write_each(
        cells,
        CONSTANT_CONTENTS,
        constants,
        |k| word(circuit, CONSTANTS + constants + k),
    );
}
