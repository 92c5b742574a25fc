// What is written of the inputs: the source, the stored value, the gate, and whether it is watched.
ghost use Rattle.words.specs.Words.{words};
ghost use Rattle.std.specs.Prelude.{◌≡◌, ◌+◌, ◌≤◌, length, get_or};
ghost use Rattle.std.proofs.lemmas.List.Edits.{sets};
ghost use Rattle.model.specs.Base.{joined};
ghost use Rattle.model.specs.Kinds.{kind_at, value};
ghost use Rattle.model.specs.Circuit.{is_watched, source_of, most_inputs};
ghost use Rattle.links.specs.Links.{listed, most_constants};
ghost use Rattle.links.specs.Lent.{Short};
ghost use Rattle.linking.specs.Building.{written, named_word, input_cell, input_cells, inputs_written};
ghost use Rattle.linking.specs.Lent.{Near};

use crate::CONSTANTS;
use crate::cells::{pack, word, write_each};
use crate::gates::{GateTable, inputs_of};
use kinds::{Pin, pin_at};
use links::Links;
use links::layout::*;

// The tables of the inputs.
pub fn link_inputs(
    gates: GateTable,
    sources: usize,
    inputs: usize,
    constants: usize,
    cells: &mut Links,
)
    requires sources_bound { sources ≤ 32768 }
    requires inputs_le_most_inputs { inputs ≤ most_inputs }
    requires constants_le_most_constants { constants ≤ most_constants }
    ensures { cells.new ≡ inputs_written (words gates.entry.circuit.now) gates.entry.kinds gates.entry.count sources inputs constants cells.old }
{
    let stored = sources + inputs;
    write_each(cells, SOURCES, inputs, |i| word(gates.circuit, sources + i));
    write_each(cells, STORED_KINDS, inputs, |i| {
        word_named(
            gates.circuit,
            CONSTANTS,
            constants,
            word(gates.circuit, stored + i),
        )
    });
    write_each(cells, STORED_CONTENTS, inputs, |i| {
        word_named(
            gates.circuit,
            CONSTANTS + constants,
            constants,
            word(gates.circuit, stored + i),
        )
    });
    write_inputs(gates, sources, cells, INPUTS);
}

// The word of name k, where `count` words from word `named` on are named from 1 on. No other name has one.
pub fn word_named(circuit: &[u8], named: usize, count: usize, k: usize) -> usize
    requires near { Near named }
    requires near_2 { Near count }
    ensures { result ≡ named_word (words circuit.now) named count k }
{
    if k == 0 {
        return 0;
    }
    if count < k {
        return 0;
    }
    word(circuit, named + (k - 1))
}

// The cells from cell `base` on become those of the inputs of the gates, whose sources are the words from word `sources` on.
fn write_inputs(gates: GateTable, sources: usize, cells: &mut Links, base: usize)
    requires sources_bound { sources ≤ 32768 }
    requires base_bound { base ≤ 32768 }
    ensures { cells.new ≡ sets cells.old base (joined (listed gates.entry.count (input_cells (words gates.entry.circuit.now) gates.entry.kinds sources))) }
{
    let mut done: usize = 0;
    for g in 0..gates.count {
        let kind = words::read(gates.circuit, gates.kinds + g);
        write_inputs_of(gates.circuit, kind, sources + done, g, cells, base + done);
        done += inputs_of(gates, g);
    }
}

// The cells from cell `base` on become those of the inputs of gate g, whose sources are the words from word `sources` on.
fn write_inputs_of(
    circuit: &[u8],
    kind: u64,
    sources: usize,
    g: usize,
    cells: &mut Links,
    base: usize,
)
    requires near { Near sources }
    requires short { Short g }
    requires near_2 { Near base }
    ensures { cells.new ≡ written cells.old base (length (kind_at kind).ins) (λ p. input_cell kind g (get_or (words circuit.now) (sources + p) 0) p) }
{
    write_each(cells, base, kinds::inputs(kind), |p| {
        input_cell(kind, g, words::read(circuit, sources + p), p)
    });
}

// The cell of input p of gate g, of this kind: the gate, and whether the input is watched.
fn input_cell(kind: u64, g: usize, source: u64, p: usize) -> usize
    requires { Short g }
    ensures { result ≡ input_cell kind g source p }
{
    pack(g, usize::from(watched(kind, source, p)), 0, 0)
}

// Whether input p of a gate of this kind is watched, by the word of its source.
fn watched(kind: u64, source: u64, p: usize) -> bool
    ensures { result ≡ is_watched (get_or (kind_at kind).ins p value) (source_of source) }
{
    match pin_at(kind, p) {
        Pin::Exec => source != MINUS_ONE,
        Pin::Watched => true,
        _ => false,
    }
}
