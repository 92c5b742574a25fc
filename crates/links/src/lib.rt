// The links of a circuit, read. Each function looks one thing up in the array that specs/Links.antt lays out; what the array holds makes no difference.
#![tactic(auto)]

ghost use Rattle.std.specs.Prelude.{◌≡◌, ◌+◌, ◌<◌, ◌≤◌, min, length, get_or, drop, replicate, set};
ghost use Rattle.words.specs.Options.{option_of};
ghost use Rattle.model.specs.Circuit.{kind_of_gate, rank_of_gate, body_of_gate, entry_of_loop, input, output, gate_at_input, gate_at_output, watching, source, stored_in, setting, most_gates, most_inputs};
ghost use Rattle.model.specs.declared.Value.TheVariants.{Nothing};
ghost use Rattle.model.specs.Kinds.{value, fires};
ghost use Rattle.kinds.specs.Pins.{in_of, out_of};
ghost use Rattle.links.specs.Links.{total, gates_at, inputs_at, rows_at, entries, call_of, cell, first_reader, reader_count, reader_at, first_call, call_count, target, gates_of_word, most_outputs};
ghost use Rattle.links.specs.Lent.{net_of, Short};

use crate::layout::*;
use model::Value;
use std::marker::Model;
use value::value_of;
use words::counting::less;

pub mod layout;

// The links of a circuit: one array of cells, which lies in memory as an array does (tools/twin hands one from C).
#[repr(C)]
#[derive(Drop)]
pub struct Links {
    cells: [usize; CELLS],
}

// What a clause sees of them is the cells.
impl Model for Links {
    ghost use Rattle.std.specs.Prelude.{List, ℕ};

    ghost Value = { List ℕ };

    ghost view = { λ l. l.cells };

    ghost inverse = { λ cells. record { cells = cells } };
}

impl Links {
    // ---- making them

    // No cell is written yet.
    pub fn new() -> Self
        ensures { result ≡ replicate total 0 }
    {
        Links { cells: [0; CELLS] }
    }

    // No cell is written any more.
    pub fn clear(&mut self)
        ensures { self.new ≡ replicate total 0 }
    {
        self.cells.fill(0);
    }

    // Cell i becomes v. Where there is no cell i, nothing changes.
    pub fn put(&mut self, i: usize, v: usize)
        ensures { self.new ≡ set self.old i v }
    {
        if i < CELLS {
            self.cells[i] = v;
        }
    }

    // ---- cells

    // Cell at + i, which is 0 past the last.
    fn cell(&self, at: usize, i: usize) -> usize
        requires { at ≤ total }
        ensures { result ≡ cell self.now (at + i) }
    {
        if i < CELLS - at {
            return self.cells[at + i];
        }
        0
    }

    // The count in cell n, at most `most`.
    fn counted(&self, n: usize, most: usize) -> usize
        requires { n < 16 }
        ensures { result ≡ min (cell self.now n) most }
    {
        self.cells[n].min(most)
    }

    // Cell i of the table that begins at `at`, of which cell n says how many are in use, and `missing` past those.
    fn entry(&self, n: usize, most: usize, at: usize, i: usize, missing: usize) -> usize
        requires { (n < 16) × (at + most ≤ total) }
        ensures { result ≡ get_or (entries self.now n most at) i missing }
    {
        if i < most {
            if i < self.cells[n] {
                return self.cells[at + i];
            }
        }
        missing
    }

    // ---- counts

    // How many gates there are.
    pub fn gates(&self) -> usize
        ensures { (result ≡ length (net_of self.now).kinds) × (result ≤ most_gates) }
    {
        self.counted(GATE_COUNT, MOST_GATES)
    }

    // How many inputs there are.
    pub fn inputs(&self) -> usize
        ensures { (result ≡ length (net_of self.now).pins) × (result ≤ most_inputs) }
    {
        self.counted(INPUT_COUNT, MOST_INPUTS)
    }

    // How many outputs there are.
    pub fn outputs(&self) -> usize
        ensures { (result ≡ length (net_of self.now).outputs) × (result ≤ most_outputs) }
    {
        self.counted(OUTPUT_COUNT, MOST_OUTPUTS)
    }

    // How many constants there are, nothing among them.
    pub fn constants(&self) -> usize
        ensures { (result ≡ length (net_of self.now).constants) × (result ≤ 65) }
    {
        self.counted(CONSTANT_COUNT, MOST_CONSTANTS) + 1
    }

    // The constant named k, which is nothing for 0 and where there is none.
    pub fn constant(&self, k: usize) -> Value
        ensures { result ≡ get_or (net_of self.now).constants k Nothing }
    {
        if k == 0 {
            return Value::Nothing;
        }
        let kind = self.entry(CONSTANT_COUNT, MOST_CONSTANTS, CONSTANT_KINDS, k - 1, 0);
        let content = self.entry(CONSTANT_COUNT, MOST_CONSTANTS, CONSTANT_CONTENTS, k - 1, 0);
        value_of(kind as u64, content as u64)
    }

    // ---- gates

    // What is written of gate g.
    fn gate_entry(&self, g: usize) -> usize
        ensures { result ≡ get_or (entries self.now 0 most_gates gates_at) g 0 }
    {
        self.entry(GATE_COUNT, MOST_GATES, GATES, g, 0)
    }

    // The kind of gate g, and 0 where there is none.
    pub fn kind_of_gate(&self, g: usize) -> u64
        ensures { result ≡ kind_of_gate (net_of self.now) g }
    {
        (self.gate_entry(g) % DIGIT % BODY) as u64
    }

    // The rank of gate g, and 0 where there is none.
    pub fn rank_of_gate(&self, g: usize) -> u64
        ensures { result ≡ rank_of_gate (net_of self.now) g }
    {
        (self.gate_entry(g) / SECOND % DIGIT) as u64
    }

    // The body that gate g lies in: 0 outside, and where there is no gate g, else 1 + the Loop's gate.
    pub fn body_of_gate(&self, g: usize) -> usize
        ensures { result ≡ body_of_gate (net_of self.now) g }
    {
        self.gate_entry(g) % DIGIT / BODY
    }

    // The entry of Loop g's body, and 0 where there is none.
    pub fn entry_of_loop(&self, g: usize) -> usize
        ensures { result ≡ entry_of_loop (net_of self.now) g }
    {
        self.gate_entry(g) / THIRD % DIGIT / ENTRY
    }

    // Input p of gate g.
    pub fn input(&self, g: usize, p: usize) -> usize
        requires { Short p }
        ensures { (result ≡ input (net_of self.now) g p) × (result < 131072) }
    {
        self.gate_entry(g) / THIRD % DIGIT % ENTRY + p
    }

    // Output p of gate g.
    pub fn output(&self, g: usize, p: usize) -> usize
        requires { Short p }
        ensures { (result ≡ output (net_of self.now) g p) × (result < 131072) }
    {
        self.gate_entry(g) / FOURTH % DIGIT + p
    }

    // ---- inputs

    // What is written of input i.
    fn input_entry(&self, i: usize) -> usize
        ensures { result ≡ get_or (entries self.now 2 most_inputs inputs_at) i 0 }
    {
        self.entry(INPUT_COUNT, MOST_INPUTS, INPUTS, i, 0)
    }

    // What input i is, and a value where there is none.
    pub fn pin_at(&self, i: usize) -> kinds::Pin
        ensures { in_of result ≡ get_or (net_of self.now).pins i value }
    {
        if self.inputs() <= i {
            return kinds::Pin::Value;
        }
        let g = self.input_entry(i) % DIGIT;
        let gate = self.cell(GATES, g);
        let p = less(i, gate / THIRD % DIGIT % ENTRY);
        kinds::pin_at((gate % DIGIT % BODY) as u64, p)
    }

    // The gate that has input i, and 0 where there is none.
    pub fn gate_at_input(&self, i: usize) -> usize
        ensures { result ≡ gate_at_input (net_of self.now) i }
    {
        self.input_entry(i) % DIGIT
    }

    // Whether a change of what input i reads is acted on.
    pub fn watching(&self, i: usize) -> bool
        ensures { result ≡ watching (net_of self.now) i }
    {
        self.input_entry(i) / SECOND % DIGIT == 1
    }

    // The output that input i reads.
    pub fn source(&self, i: usize) -> Option<usize>
        ensures { option_of result ≡ source (net_of self.now) i }
    {
        let o = self.entry(INPUT_COUNT, MOST_INPUTS, SOURCES, i, NO_SOURCE);
        if o == NO_SOURCE {
            return None;
        }
        Some(o)
    }

    // The value stored in input i.
    pub fn stored_in(&self, i: usize) -> Value
        ensures { result ≡ stored_in (net_of self.now) i }
    {
        let kind = self.entry(INPUT_COUNT, MOST_INPUTS, STORED_KINDS, i, 0);
        let content = self.entry(INPUT_COUNT, MOST_INPUTS, STORED_CONTENTS, i, 0);
        value_of(kind as u64, content as u64)
    }

    // Setting p of gate g.
    pub fn setting(&self, g: usize, p: usize) -> Value
        requires { Short p }
        ensures { result ≡ setting (net_of self.now) g p }
    {
        self.stored_in(self.input(g, p))
    }

    // ---- outputs

    // The gate that has output o, and 0 where there is none.
    pub fn gate_at_output(&self, o: usize) -> usize
        ensures { result ≡ gate_at_output (net_of self.now) o }
    {
        self.entry(OUTPUT_COUNT, MOST_OUTPUTS, OUTPUTS, o, 0)
    }

    // What output o is; it fires where there is none.
    pub fn out_at(&self, o: usize) -> kinds::Out
        ensures { out_of result ≡ get_or (net_of self.now).outputs o fires }
    {
        if self.outputs() <= o {
            return kinds::Out::Fires;
        }
        let g = self.gate_at_output(o);
        let gate = self.cell(GATES, g);
        let p = less(o, gate / FOURTH % DIGIT);
        kinds::out_at((gate % DIGIT % BODY) as u64, p)
    }

    // The row of output o.
    fn row(&self, o: usize) -> usize
        ensures { result ≡ get_or (entries self.now 3 most_outputs rows_at) o 0 }
    {
        self.entry(OUTPUT_COUNT, MOST_OUTPUTS, ROWS, o, 0)
    }

    // Where the readers of output o begin.
    pub fn first_reader(&self, o: usize) -> usize
        ensures { (result ≡ first_reader self.now o) × Short result }
    {
        self.row(o) % DIGIT
    }

    // How many inputs read output o.
    pub fn reader_count(&self, o: usize) -> usize
        ensures { (result ≡ reader_count self.now o) × Short result }
    {
        self.row(o) / SECOND % DIGIT
    }

    // Reader k of all, an input.
    pub fn reader(&self, k: usize) -> usize
        ensures { result ≡ reader_at self.now k }
    {
        self.cell(READERS, k)
    }

    // Where the calls of output o begin.
    pub fn first_call(&self, o: usize) -> usize
        ensures { (result ≡ first_call self.now o) × Short result }
    {
        self.row(o) / THIRD % DIGIT
    }

    // How many calls output o makes.
    pub fn call_count(&self, o: usize) -> usize
        ensures { (result ≡ call_count self.now o) × Short result }
    {
        self.row(o) / FOURTH % DIGIT
    }

    // The target of call k of all: 2 × input + remote.
    pub fn call(&self, k: usize) -> usize
        ensures { result ≡ target self.now k }
    {
        self.cell(CALLS, k)
    }

    // ---- gates of some kinds, as words

    // The time sources.
    pub fn time_sources(&self) -> usize
        ensures { result ≡ cell self.now 4 }
    {
        self.cells[TIME_SOURCES]
    }

    // The buffers and Queues.
    pub fn buffers(&self) -> usize
        ensures { result ≡ cell self.now 5 }
    {
        self.cells[BUFFERS]
    }

    // The Clocks.
    pub fn clocks(&self) -> usize
        ensures { result ≡ cell self.now 6 }
    {
        self.cells[CLOCKS]
    }

    // The Stopwatches.
    pub fn stopwatches(&self) -> usize
        ensures { result ≡ cell self.now 7 }
    {
        self.cells[STOPWATCHES]
    }

    // The receivers of events.
    pub fn receivers(&self) -> usize
        ensures { result ≡ cell self.now 8 }
    {
        self.cells[RECEIVERS]
    }
}

// The input that a call with this target goes to.
pub fn called_input(target: usize) -> usize
    ensures { result ≡ (call_of target).to }
{
    target / 2
}

// Whether a call with this target is remote.
pub fn is_remote(target: usize) -> bool
    ensures { result ≡ (call_of target).remote }
{
    target % 2 == 1
}

// The first gate of a word, and 64 where it has none.
pub fn first_gate(word: usize) -> usize
    ensures { result ≡ get_or (gates_of_word word) 0 64 }
{
    u64::trailing_zeros(word as u64) as usize
}

// The word without its first gate.
pub fn later_gates(word: usize) -> usize
    ensures { gates_of_word result ≡ drop 1 (gates_of_word word) }
{
    let g = first_gate(word);
    if g < 64 {
        return word - (1 << g);
    }
    0
}
