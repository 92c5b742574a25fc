// A unit: what it brings, its chain and forks, and what follows them.
#![tactic(auto)]

ghost use Rattle.std.specs.Prelude.{◌≡◌, List, [], map, ◌&&◌, ◌<◌, leb, ltb, length, get_or};
ghost use Rattle.model.specs.declared.Value.{Value as Values};
ghost use Rattle.model.specs.Circuit.{output};
ghost use Rattle.model.specs.Wires.{set_outs};
ghost use Rattle.model.specs.Unit.{begin, fired};
ghost use Rattle.links.specs.Links.{net};
ghost use Rattle.links.specs.Lent.{net_of, Room, Short};
ghost use Rattle.wires.specs.Lent.{Turns};
ghost use Rattle.states.specs.Lent.{Slots, SlotsStay};
ghost use Rattle.units.specs.View.{gate_of, form_of, brings, row_of, units as units_view};
ghost use Rattle.units.specs.Calls.{with_calls};
ghost use Rattle.units.specs.Lent.{UnitsChange, units_in};
ghost use Rattle.areas.specs.Lent.{OverAll, AllLent};
ghost use Rattle.unit.specs.Unit.{FewCalls, act_in, stop_of, finished, ran, Finishes, RanAs};

use chain::Ran;
use chain::pushing::push_calls;
use kinds::numbers::STOPWATCH;
use links::Links;
use lists::Full;
use loops::run_chain;
use records::forms::STIMULUS;
use settling::check_waiting;
use stops::LIST_FULL;
use units::Place;
use units::calls::{clear_calls, push_call};
use units::entries::{brings, form_of, gate_of};
use units::events::{event_value, events};
use wires::checks::checks_waiting;
use wires::marking::set_out;
use wires::refreshing::refresh_all;
use wires::written::publish_writes;

// The entry that a unit begins with: one that waited, or a delivered event.
#[derive(Clone, Copy)]
pub enum Act {
    Waiting(u64),
    Event(u64),
}

// How many values an event has.
const ROW: usize = 8;

// ---- what it brings

// What entry x of those that wait brings is put on the outputs of its gate from 1 on.
fn enter_waiting(links: &Links, values: &mut [u8], x: u64)
    requires { Room values.old }
    ensures { Turns links.now (values.old, values.new) (λ c w. set_outs c w (output c (gate_of x) 1) (row_of c (form_of x) (brings x))) }
{
    if form_of(x) != STIMULUS {
        return;
    }
    let k = brings(x);
    if k == 0 {
        return;
    }
    let v = links.constant(k);
    set_out(links, values, links.output(gate_of(x), 1), v);
}

// The values of event e are put on the outputs from o on.
fn set_event(links: &Links, values: &mut [u8], units: &[u8], o: usize, e: usize)
    requires { Room values.old × Room units.now × (o < 131072) × (e < length (units_view (net links.now) units.now).events) }
    ensures { Turns links.now (values.old, values.new) (λ c w. set_outs c w o (get_or (map (λ m. m.row) (units_in links.now units.now).events) e [])) }
{
    for j in 0..ROW {
        let v = event_value(units, e, j);
        set_out(links, values, o + j, v);
    }
}

// What delivered event x brings is put on the outputs of its gate from 1 on.
fn enter_event(links: &Links, values: &mut [u8], units: &[u8], x: u64)
    requires { Room values.old × Room units.now }
    ensures { Turns links.now (values.old, values.new) (λ c w. set_outs c w (output c (gate_of x) 1) (get_or (map (λ m. m.row) (units_in links.now units.now).events) (brings x) [])) }
{
    let e = brings(x);
    if events(units) <= e {
        return;
    }
    set_event(links, values, units, links.output(gate_of(x), 1), e);
}

// What the unit brings is put on the outputs of its gate from 1 on.
fn enter(links: &Links, values: &mut [u8], units: &[u8], a: Act)
    requires { Room values.old × Room units.now }
    ensures { Turns links.now (values.old, values.new) (λ c w. set_outs c w (output c (act_in c (units_in links.now units.now).events a).gate 1) (act_in c (units_in links.now units.now).events a).row) }
{
    match a {
        Act::Waiting(x) => enter_waiting(links, values, x),
        Act::Event(x) => enter_event(links, values, units, x),
    }
}

// ---- what it calls first

// The output that gate g fires in this form.
fn fired(links: &Links, g: usize, form: usize) -> usize
    requires { Short form }
    ensures { result ≡ fired (net_of links.now) g form }
{
    if 32 <= form {
        return links.output(g, form - 32);
    }
    if links.kind_of_gate(g) == STOPWATCH {
        return links.output(g, 1);
    }
    links.output(g, 0)
}

// Whether a unit of this form enters its gate through a pin.
fn is_pin(form: usize) -> bool
    ensures { result ≡ (leb 16 form && ltb form 32) }
{
    if form < 16 {
        return false;
    }
    form < 32
}

// The unit of gate g in this form begins: the calls that it makes first, and no others.
fn begin(links: &Links, units: &mut [u8], g: usize, form: usize)
    requires { Room units.old × Short form × FewCalls (net links.now) }
    ensures { UnitsChange links.now (units.old, units.new) (λ c old new. ((row : List Values) → new ≡ with_calls old (begin c (record { gate = g; form = form; row = row })))) }
{
    clear_calls(units);
    if is_pin(form) {
        // one call fits where none waits
        let _ = push_call(units, links.input(g, form - 16));
        return;
    }
    // as do those of an output
    let _ = push_calls(links, units, fired(links, g, form));
}

// The calls that a unit makes first.
fn begin_act(links: &Links, units: &mut [u8], a: Act)
    requires { Room units.old × FewCalls (net links.now) }
    ensures { UnitsChange links.now (units.old, units.new) (λ c old new. new ≡ with_calls old (begin c (act_in c old.events a))) }
{
    match a {
        Act::Waiting(x) => begin(links, units, gate_of(x), form_of(x)),
        Act::Event(x) => begin(links, units, gate_of(x), 1),
    }
}

// ---- its chain, and what follows

// A full list stops the tick.
fn stop_of(filed: Result<(), Full>) -> u64
    ensures { result ≡ stop_of filed }
{
    match filed {
        Err(_) => LIST_FULL,
        Ok(()) => 0,
    }
}

// After the chain and its forks: if they ended without a stop, the Vars written are published, and what changed is settled; what this raises goes where `to` says.
fn finish(
    links: &Links,
    values: &mut [u8],
    units: &mut [u8],
    delays: &mut [u8],
    left: u64,
    stop: u64,
    to: Place,
) -> u64
    requires { AllLent links.now values.old units.old delays.old }
    ensures over_all { OverAll links.now (values.old, values.new) (units.old, units.new) (delays.old, delays.new) (λ c old new. Finishes old new result (finished c to old.state left stop old.lists)) }
    ensures slots_stay { SlotsStay links.now delays.new }
{
    if stop != 0 {
        return stop;
    }
    publish_writes(links, values);
    refresh_all(links, values);
    if checks_waiting(links, values) == 0 {
        return 0;
    }
    stop_of(check_waiting(links, values, units, delays, to))
}

// A unit, whose tick may still make `left` steps; what it raises goes where `to` says.
pub fn unit(
    links: &Links,
    values: &mut [u8],
    units: &mut [u8],
    delays: &mut [u8],
    a: Act,
    left: u64,
    to: Place,
) -> Ran
    requires { Room values.old × Room units.old × Slots links.now delays.old × FewCalls (net links.now) }
    ensures over_all { OverAll links.now (values.old, values.new) (units.old, units.new) (delays.old, delays.new) (λ c old new. RanAs old new result (ran c to left (act_in c old.kept.events a) old.state old.lists)) }
    ensures slots_stay { SlotsStay links.now delays.new }
{
    enter(links, values, units, a);
    begin_act(links, units, a);
    let chain = run_chain(links, values, units, delays, left);
    let stop = finish(links, values, units, delays, chain.left, chain.stop, to);
    Ran {
        left: chain.left,
        stop,
    }
}
