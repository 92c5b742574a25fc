// What is written of who reads an output and whom it calls.
ghost use Rattle.words.specs.Words.{words};
ghost use Rattle.std.specs.Prelude.{◌≡◌, ◌<◌, ◌≤◌};
ghost use Rattle.model.specs.Circuit.{most_inputs};
ghost use Rattle.links.specs.Lent.{Short};
ghost use Rattle.links.specs.Links.{most_outputs};
ghost use Rattle.linking.specs.Building.{written, below, size_at, row_of, lists_written};
ghost use Rattle.linking.specs.Lent.{Near};

use crate::cells::{pack, put};
use crate::chains::Chains;
use links::Links;
use links::layout::*;

// The tables of readers, calls and rows. The keys of the inputs are their sources; the keys of the calls are the outputs that they come from.
pub fn link_lists(
    circuit: &[u8],
    sources: usize,
    inputs: usize,
    calls: usize,
    count: usize,
    outputs: usize,
    cells: &mut Links,
)
    requires sources_bound { sources ≤ 32768 }
    requires inputs_le_most_inputs { inputs ≤ most_inputs }
    requires calls_nonzero { 0 < calls }
    requires calls_bound { calls ≤ 32768 }
    requires count_le_most_inputs { count ≤ most_inputs }
    requires outputs_le_most_outputs { outputs ≤ most_outputs }
    ensures { cells.new ≡ lists_written (words circuit.now) sources inputs calls count outputs cells.old }
{
    let mut readers = Chains::blank();
    readers.fill_by_keys(circuit, sources, inputs);
    let mut called = Chains::blank();
    called.fill_by_keys(circuit, calls, count);
    readers.write(circuit, 0, outputs, cells, READERS);
    called.write(circuit, calls + count, outputs, cells, CALLS);
    write_rows(&readers, &called, outputs, cells, ROWS);
}

// n cells, from cell `base` on, become the rows of n outputs: where the readers begin and how many they are, and the same of the calls.
fn write_rows(readers: &Chains, called: &Chains, n: usize, cells: &mut Links, base: usize)
    requires near { Near n }
    requires near_2 { Near base }
    requires short { Short (below (size_at readers.now) n) }
    requires short_2 { Short (below (size_at called.now) n) }
    ensures { cells.new ≡ written cells.old base n (row_of (size_at readers.now) (size_at called.now)) }
{
    let mut first_reader: usize = 0;
    let mut first_call: usize = 0;
    for o in 0..n {
        let more_readers = readers.size(o);
        let more_calls = called.size(o);
        let row = pack(first_reader, more_readers, first_call, more_calls);
        cells.put(base + o, row);
        first_reader += more_readers;
        first_call += more_calls;
    }
}
