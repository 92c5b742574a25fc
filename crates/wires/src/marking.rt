// Marking: everything that reads an output is stale, through any depth of pure gates, and the watched inputs that this reaches wait to be checked.
ghost use Rattle.std.specs.Prelude.{◌≡◌, true, slice_set};
ghost use Rattle.model.specs.Base.{if◌then◌otherwise◌, each};
ghost use Rattle.model.specs.Circuit.{readers_of};
ghost use Rattle.model.specs.State.{late_checks≔};
ghost use Rattle.model.specs.Wires.{watch_for, mark_reader, mark_on, mark_readers_for, mark_readers, invalidate, set_out};
ghost use Rattle.links.specs.Lent.{net_of, Room};
ghost use Rattle.wires.specs.Marking.{area, area_for};
ghost use Rattle.wires.specs.Lent.{Turns, TurnsBesideStack, FewToDo, marking_in, Marks};

use crate::checks::watch;
use crate::layout::{LATE_CHECKS, MARKING_LATE, STACK};
use crate::reading::{show, shown};
use crate::stale::{is_clean, soil};
use kinds;
use links::Links;
use links::layout::MOST_INPUTS;
use model::Value;
use value::same;
use words::bits::Bits;
use words::{get, put};

// Input i is marked for a late check, if marking is for one.
fn mark_late(links: &Links, values: &mut [u8], i: usize)
    requires { Room values.old }
    ensures { TurnsBesideStack links.now (values.old, values.new) (λ c w. if (area c values.old).late then late_checks≔ w (slice_set w.late_checks i true) otherwise w) }
{
    if get(values, MARKING_LATE) != 0 {
        if i < MOST_INPUTS {
            put(values, LATE_CHECKS + i, 1);
        }
    }
}

// Watched input i waits to be checked, for a late check if marking is for one, also where it waits already.
fn watch_for(links: &Links, values: &mut [u8], i: usize)
    requires { Room values.old }
    ensures { TurnsBesideStack links.now (values.old, values.new) (λ c w. watch_for (area c values.old).late w i) }
{
    watch(links, values, i);
    mark_late(links, values, i);
}

// One reader, input i, where n outputs are on the stack: how many there are then. A pure gate that is stale already marks nothing further.
fn mark_reader(links: &Links, values: &mut [u8], n: usize, i: usize) -> usize
    requires linked { Room values.old }
    requires few_to_do { FewToDo links.now values.old n }
    ensures { Marks links.now (values.old, values.new) n result (λ c m. mark_reader c m i) }
{
    let g = links.gate_at_input(i);
    if kinds::is_pure(links.kind_of_gate(g)) {
        if is_clean(links, values, g) {
            soil(links, values, g);
            put(values, STACK + n, links.output(g, 0) as u64);
            n + 1
        } else {
            n
        }
    } else if links.watching(i) {
        watch_for(links, values, i);
        n
    } else {
        n
    }
}

// The readers of output o, in their order.
fn mark_row(links: &Links, values: &mut [u8], n: usize, o: usize) -> usize
    requires linked { Room values.old }
    requires few_to_do { FewToDo links.now values.old n }
    ensures { Marks links.now (values.old, values.new) n result (λ c m. each (mark_reader c) m (readers_of c o)) }
{
    let first = links.first_reader(o);
    let count = links.reader_count(o);
    let mut h = n;
    for k in 0..count {
        h = mark_reader(links, values, h, links.reader(first + k));
    }
    h
}

// The readers of the n outputs on the stack and of all that this finds, the last one found first, in at most `rounds` rounds.
fn mark_on(links: &Links, values: &mut [u8], n: usize, rounds: usize)
    requires linked { Room values.old }
    requires few_to_do { FewToDo links.now values.old n }
    ensures { Turns links.now (values.old, values.new) (λ c _. mark_on c rounds (marking_in links.now values.old n)) }
{
    let mut h = n;
    for m in (0..rounds).rev() {
        if h == 0 {
            return;
        }
        let o = get(values, STACK + (h - 1)) as usize;
        h = mark_row(links, values, h - 1, o);
    }
}

// All that reads output o, for what marking is for.
fn mark_from(links: &Links, values: &mut [u8], o: usize)
    requires { Room values.old }
    ensures { Turns links.now (values.old, values.new) (λ c w. mark_readers_for c (area c values.old).late w o) }
{
    put(values, STACK, o as u64);
    mark_on(links, values, 1, links.gates() + 1);
}

// Marking is for a late check, or not.
fn set_marking(links: &Links, values: &mut [u8], late: bool)
    requires { Room values.old }
    ensures { area (net_of links.now) values.new ≡ area_for (area (net_of links.now) values.old) late }
{
    put(values, MARKING_LATE, u64::from(late));
}

// All that reads output o, for a late check if `late` says so: of a Var written only inside bodies.
pub fn mark_readers_for(links: &Links, values: &mut [u8], o: usize, late: bool)
    requires { Room values.old }
    ensures { Turns links.now (values.old, values.new) (λ c w. mark_readers_for c late w o) }
{
    set_marking(links, values, late);
    mark_from(links, values, o);
}

// All that reads any other output o.
pub fn mark_readers(links: &Links, values: &mut [u8], o: usize)
    requires { Room values.old }
    ensures { Turns links.now (values.old, values.new) (λ c w. mark_readers c w o) }
{
    set_marking(links, values, false);
    mark_from(links, values, o);
}

// Time source g becomes stale itself, and all that reads it is marked.
pub fn invalidate(links: &Links, values: &mut [u8], g: usize)
    requires { Room values.old }
    ensures { Turns links.now (values.old, values.new) (λ c w. invalidate c w g) }
{
    soil(links, values, g);
    mark_readers(links, values, links.output(g, 0));
}

// All time sources, in their order.
pub fn invalidate_all(links: &Links, values: &mut [u8])
    requires { Room values.old }
    ensures { Turns links.now (values.old, values.new) (λ c w. each (invalidate c) w c.time_sources) }
{
    for g in Bits::of(links.time_sources() as u64) {
        invalidate(links, values, g);
    }
}

// Output o gets value v, which reaches its readers at once if it is not equal to the old one.
pub fn set_out(links: &Links, values: &mut [u8], o: usize, v: Value)
    requires { Room values.old }
    ensures { Turns links.now (values.old, values.new) (λ c w. set_out c w o v) }
{
    let old = shown(links, values, o);
    if same(old, v) {
        return;
    }
    show(links, values, o, v);
    // as mark_readers does, without a slice handed on once more
    set_marking(links, values, false);
    mark_from(links, values, o);
}
