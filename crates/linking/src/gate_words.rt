// The words of gates: bit g is set where gate g is of some kinds.
ghost use Rattle.words.specs.Words.{words};
ghost use Rattle.std.specs.Prelude.{◌≡◌, ◌<◌, ◌≤◌};
ghost use Rattle.std.proofs.lemmas.List.Edits.{sets};
ghost use Rattle.linking.specs.Building.{gate_bit, bits_of, word_cells};

use crate::cells::put;
use crate::gates::GateTable;
use kinds::numbers::*;
use links::Links;
use links::layout::*;

// The words of gates: DeltaTime and ServerUptime, buffers and Queues, Clocks, Stopwatches, receivers of events.
pub fn write_words(gates: GateTable, cells: &mut Links)
    ensures { cells.new ≡ sets cells.old 4 (word_cells (words gates.entry.circuit.now) gates.entry.kinds gates.entry.count) }
{
    let time_sources = gates_within(gates, DELTA_TIME, SERVER_UPTIME);
    let buffers = gates_within(gates, BUFFER_TICKS, BUFFER_SECONDS_EXEC);
    let queues = gates_within(gates, QUEUE_IN_TICKS, QUEUE_IN_SECONDS);
    let clocks = gates_within(gates, CLOCK, CLOCK);
    let stopwatches = gates_within(gates, STOPWATCH, STOPWATCH);
    let receivers = gates_within(gates, EVENT_CUSTOM, EVENT_CUSTOM_GLOBAL);
    cells.put(TIME_SOURCES, time_sources);
    cells.put(BUFFERS, buffers + queues);
    cells.put(CLOCKS, clocks);
    cells.put(STOPWATCHES, stopwatches);
    cells.put(RECEIVERS, receivers);
}

// A word of the gates: bit g is set where the kind of gate g is one of low to high.
fn gates_within(gates: GateTable, low: u64, high: u64) -> usize
    ensures { result ≡ bits_of (words gates.entry.circuit.now) gates.entry.kinds gates.entry.count low high }
{
    let mut found: usize = 0;
    for g in 0..gates.count {
        let kind = words::read(gates.circuit, gates.kinds + g);
        found += gate_bit(low, high, kind, g);
    }
    found
}

// Bit g, if the kind is one of low to high.
fn gate_bit(low: u64, high: u64, kind: u64, g: usize) -> usize
    requires { g < 64 }
    ensures { result ≡ gate_bit low high kind g }
{
    if kind < low {
        return 0;
    }
    if high < kind {
        return 0;
    }
    1 << g
}
