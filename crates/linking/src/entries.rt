// The entries of Loops: each gate's is the first entry that names it, and 0 where there is none.
ghost use Rattle.std.specs.Prelude.{◌≡◌, ◌≤◌};
ghost use Rattle.words.specs.Words.{words};
ghost use Rattle.links.specs.Links.{most_constants};
ghost use Rattle.linking.specs.Building.{below, ins_at, value_named, gate_of, gate_named, named_by, entered};
ghost use Rattle.linking.specs.Lent.{Near};

use crate::CONSTANTS;
use crate::cells::{put, word};
use crate::gates::{GateTable, inputs_of};
use crate::inputs::word_named;
use kinds::numbers::LOOP_ENTRY;
use links::layout::MOST_GATES;
use model::Value;
use value::value_of;

// Writes each of the gates down at the gate that it names, from the last down, so that the first one counts. The names of the constants in all their inputs are the
// words from word `stored` on.
pub fn find_entries(
    gates: GateTable,
    stored: usize,
    inputs: usize,
    constants: usize,
    entries: &mut [usize],
)
    requires near { Near stored }
    requires inputs_value { inputs ≡ below (ins_at (words gates.circuit.now) gates.kinds) gates.count }
    requires constants_le_most_constants { constants ≤ most_constants }
    ensures { entries.new ≡ entered (named_by (words gates.entry.circuit.now) gates.entry.kinds stored constants) gates.entry.count entries.old }
{
    let mut i = inputs;
    for e in (0..gates.count).rev() {
        i -= inputs_of(gates, e);
        let kind = words::read(gates.circuit, gates.kinds + e);
        let name = word(gates.circuit, stored + i);
        let v = value_named(gates.circuit, constants, name);
        put(entries, gate_named(kind, v), e);
    }
}

// Stays: of a gate that names none, 64 is what `find_entries` writes to, where there is no entry; an Option would be taken apart at that one place.
// The gate that one of this kind names by its setting, if it is an entry, and 64 where it names none.
fn gate_named(kind: u64, v: Value) -> usize
    ensures { result ≡ gate_named kind v }
{
    if kind == LOOP_ENTRY {
        return gate_of(v);
    }
    MOST_GATES
}

// The gate whose number a value is, and 64 for what is no Int.
#[tactic(auto, unfolding(crate::specs::Building::gate_of))]
fn gate_of(v: Value) -> usize
    ensures { result ≡ gate_of v }
{
    match v {
        Value::Int(g) => g as usize,
        _ => MOST_GATES,
    }
}

// The constant named k, and nothing where there is none.
#[tactic(auto, unfolding(crate::specs::Building::value_named))]
fn value_named(circuit: &[u8], constants: usize, k: usize) -> Value
    requires { constants ≤ most_constants }
    ensures { result ≡ value_named (words circuit.now) constants k }
{
    let kind = word_named(circuit, CONSTANTS, constants, k);
    let content = word_named(circuit, CONSTANTS + constants, constants, k);
    value_of(kind as u64, content as u64)
}
