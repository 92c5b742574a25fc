// The Vars written, and how they reach what reads them.
ghost use Rattle.words.specs.Words.{words};
ghost use Rattle.std.specs.Prelude.{◌≡◌, ◌≤◌, true, false, not, length, take, slice_index_or, slice_set};
ghost use Rattle.model.specs.Base.{if◌then◌otherwise◌, among, each};
ghost use Rattle.model.specs.State.{written_outside≔};
ghost use Rattle.model.specs.Exec.{write_once, record_write};
ghost use Rattle.model.specs.Settle.{publish_write, publish_writes};
ghost use Rattle.model.specs.Circuit.{most_gates, gate_at_output};
ghost use Rattle.links.specs.Lent.{net_of, Room};
ghost use Rattle.wires.specs.View.{cut};
ghost use Rattle.wires.specs.Lent.{wires_in, Turns};

use crate::bits::set_bit;
use crate::layout::{MOST_WRITTEN, WRITTEN, WRITTEN_COUNT, WRITTEN_OUTSIDE};
use crate::marking::mark_readers_for;
use links::Links;
use links::layout::MOST_GATES;
use words::{get, put};

// Whether o is one of the first n Vars written.
fn is_written(values: &[u8], n: usize, o: usize) -> bool
    requires { Room values.now × (n ≤ 64) }
    ensures { result ≡ among o (take n (cut (words values.now)).written) }
{
    for k in 0..n {
        if get(values, WRITTEN + k) as usize == o {
            return true;
        }
    }
    false
}

// A Var written, once; o is its output.
fn write_once(links: &Links, values: &mut [u8], o: usize)
    requires { Room values.old }
    ensures { Turns links.now (values.old, values.new) (λ c w. write_once c w o) }
{
    let n = get(values, WRITTEN_COUNT) as usize;
    if MOST_WRITTEN <= n {
        return;
    }
    if is_written(values, n, o) {
        return;
    }
    put(values, WRITTEN + n, o as u64);
    put(values, WRITTEN_COUNT, n as u64 + 1);
}

// The Var of output o is marked as written outside bodies, unless `inside` says that one is running.
fn mark_outside(links: &Links, values: &mut [u8], o: usize, inside: bool)
    requires { Room values.old }
    ensures { Turns links.now (values.old, values.new) (λ c w. if inside then w otherwise written_outside≔ w (slice_set w.written_outside (gate_at_output c o) true)) }
{
    if inside {
        return;
    }
    let g = links.gate_at_output(o);
    if g < MOST_GATES {
        set_bit(values, WRITTEN_OUTSIDE, g);
    }
}

// A Var written, once, while a body is running (`inside`) or outside; o is its output.
pub fn record_write(links: &Links, values: &mut [u8], o: usize, inside: bool)
    requires { Room values.old }
    ensures { Turns links.now (values.old, values.new) (λ c w. record_write c inside w o) }
{
    mark_outside(links, values, o, inside);
    write_once(links, values, o);
}

// Whether the Var of output o was not written outside bodies.
fn only_inside(links: &Links, values: &[u8], o: usize) -> bool
    requires { Room values.now }
    ensures { result ≡ not (slice_index_or (wires_in links.now values.now).written_outside (gate_at_output (net_of links.now) o) false) }
{
    let g = links.gate_at_output(o);
    links.gates() <= g || (get(values, WRITTEN_OUTSIDE) >> g) % 2 == 0
}

// The Var of output o, which was written, reaches what reads it, for a late check if it was written only inside bodies.
fn publish_write(links: &Links, values: &mut [u8], o: usize)
    requires { Room values.old }
    ensures { Turns links.now (values.old, values.new) (λ c w. publish_write c w o) }
{
    let late = only_inside(links, values, o);
    mark_readers_for(links, values, o, late);
}

// How many Vars are written.
fn written(links: &Links, values: &[u8]) -> usize
    requires { Room values.now }
    ensures { (result ≡ length (wires_in links.now values.now).written) × (result ≤ most_gates) }
{
    (get(values, WRITTEN_COUNT) as usize).min(MOST_WRITTEN)
}

// All that reads the Vars written is marked, in the order of their first write.
fn mark_written(links: &Links, values: &mut [u8])
    requires { Room values.old }
    ensures { Turns links.now (values.old, values.new) (λ c w. each (publish_write c) w w.written) }
{
    let n = written(links, values);
    for k in 0..n {
        publish_write(links, values, get(values, WRITTEN + k) as usize);
    }
}

// The Vars written reach what reads them, also where the value did not change; then none is written.
pub fn publish_writes(links: &Links, values: &mut [u8])
    requires { Room values.old }
    ensures { Turns links.now (values.old, values.new) (λ c w. publish_writes c w) }
{
    mark_written(links, values);
    put(values, WRITTEN_COUNT, 0);
    put(values, WRITTEN_OUTSIDE, 0);
}
