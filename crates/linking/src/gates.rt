// What is written of the gates, and of their outputs the gate.
ghost use Rattle.std.specs.Prelude.{◌≡◌, [], ◌∷◌, ◌+◌, ◌≤◌};
ghost use Rattle.std.proofs.lemmas.List.Edits.{sets};
ghost use Rattle.words.specs.Words.{words};
ghost use Rattle.model.specs.Base.{joined};
ghost use Rattle.model.specs.Circuit.{most_gates};
ghost use Rattle.links.specs.Links.{listed, most_constants};
ghost use Rattle.linking.specs.Building.{written, below, Small, Gates, ins_at, outs_at, gate_cell, output_cells, gates_written};
ghost use Rattle.linking.specs.Lent.{Near};

use crate::cells::{at, pack, put, word, write_each};
use crate::entries::find_entries;
use crate::gate_words::write_words;
use links::Links;
use links::layout::*;

// The gates of a circuit: their kinds are the words from word `kinds` on, and the words of their ranks and bodies stand behind these.
#[derive(Clone, Copy)]
pub struct GateTable<'a> {
    pub circuit: &'a [u8],
    pub kinds: usize,
    pub count: usize,
    ghost near: { kinds ≤ 32768 },
    ghost few: { count ≤ most_gates },
}

// The tables of counts, gates and outputs.
pub fn link_gates(
    gates: GateTable,
    stored: usize,
    constants: usize,
    inputs: usize,
    outputs: usize,
    cells: &mut Links,
)
    requires stored_bound { stored ≤ 32768 }
    requires constants_le_most_constants { constants ≤ most_constants }
    requires inputs_value { inputs ≡ below (ins_at (words gates.circuit.now) gates.kinds) gates.count }
    requires small { Small (words gates.circuit.now) gates.kinds gates.count 256 }
    requires small_2 { Small (words gates.circuit.now) (gates.kinds + gates.count) gates.count 16777216 }
    ensures { cells.new ≡ gates_written (words gates.entry.circuit.now) gates.entry.kinds gates.entry.count stored constants inputs outputs cells.old }
{
    let mut entries = [0usize; MOST_GATES];
    find_entries(gates, stored, inputs, constants, &mut entries);
    write_counts(gates.count, constants, inputs, outputs, cells);
    write_words(gates, cells);
    write_gates(gates, &entries, cells, GATES);
    write_outputs(gates, cells, OUTPUTS);
}

// The counts.
fn write_counts(gates: usize, constants: usize, inputs: usize, outputs: usize, cells: &mut Links)
    ensures { cells.new ≡ sets cells.old 0 (gates ∷ constants ∷ inputs ∷ outputs ∷ []) }
{
    cells.put(GATE_COUNT, gates);
    cells.put(CONSTANT_COUNT, constants);
    cells.put(INPUT_COUNT, inputs);
    cells.put(OUTPUT_COUNT, outputs);
}

// The cells from cell `base` on become those of the gates: kind and body, rank, first input and entry, first output.
fn write_gates(gates: GateTable, entries: &[usize], cells: &mut Links, base: usize)
    requires gates { Gates entries.now gates.count }
    requires near { Near base }
    requires small { Small (words gates.circuit.now) gates.kinds gates.count 256 }
    requires small_2 { Small (words gates.circuit.now) (gates.kinds + gates.count) gates.count 16777216 }
    ensures { cells.new ≡ written cells.old base gates.entry.count (gate_cell (words gates.entry.circuit.now) gates.entry.kinds gates.entry.count entries.now) }
{
    let mut inputs: usize = 0;
    let mut outputs: usize = 0;
    for g in 0..gates.count {
        let kind = word(gates.circuit, gates.kinds + g);
        let place = word(gates.circuit, gates.kinds + gates.count + g);
        let entry = at(entries, g);
        let kind_and_body = kind + BODY * (place / RANKS);
        let input_and_entry = inputs + ENTRY * entry;
        let gate = pack(kind_and_body, place % RANKS, input_and_entry, outputs);
        cells.put(base + g, gate);
        inputs += inputs_of(gates, g);
        outputs += outputs_of(gates, g);
    }
}

// The cells from cell `base` on become those of the outputs of the gates: each output's gate.
fn write_outputs(gates: GateTable, cells: &mut Links, base: usize)
    requires base_bound { base ≤ 32768 }
    ensures { cells.new ≡ sets cells.old base (joined (listed gates.entry.count (output_cells (words gates.entry.circuit.now) gates.entry.kinds))) }
{
    let mut done: usize = 0;
    for g in 0..gates.count {
        let outputs = outputs_of(gates, g);
        write_each(cells, base + done, outputs, move |_| g);
        done += outputs;
    }
}

// How many outputs the gates have.
pub fn count_outputs(gates: GateTable) -> usize
    ensures { result ≡ below (outs_at (words gates.entry.circuit.now) gates.entry.kinds) gates.entry.count }
{
    let mut outputs: usize = 0;
    for g in 0..gates.count {
        outputs += outputs_of(gates, g);
    }
    outputs
}

// Stays: these two are one line each over the two of `kinds`; one function over either would be longer than both.
// How many inputs gate g has.
pub fn inputs_of(gates: GateTable, g: usize) -> usize
    requires near { Near g }
    ensures { result ≡ ins_at (words gates.entry.circuit.now) gates.entry.kinds g }
{
    kinds::inputs(words::read(gates.circuit, gates.kinds + g))
}

// How many outputs gate g has, likewise.
fn outputs_of(gates: GateTable, g: usize) -> usize
    requires near { Near g }
    ensures { result ≡ outs_at (words gates.entry.circuit.now) gates.entry.kinds g }
{
    kinds::outputs(words::read(gates.circuit, gates.kinds + g))
}
