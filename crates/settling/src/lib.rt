// Settling: each watched input that a change reached is read again and acted on.
#![tactic(auto)]

ghost use Rattle.std.specs.Prelude.{◌≡◌, true, ℕ, ◌+◌, ◌<◌};
ghost use Rattle.schedule.specs.Schedule.{When, by_rank, put_off};
ghost use Rattle.model.specs.Value.{truthy};
ghost use Rattle.model.specs.Circuit.{Circuit, output, most_inputs};
ghost use Rattle.model.specs.State.{form_output, State, wires≔};
ghost use Rattle.model.specs.Settle.{Settled, calm, raise, pulse, edge, check, most_checks};
ghost use Rattle.links.specs.Lent.{net_of, Room, Short};
ghost use Rattle.states.specs.Lent.{Slots, SlotsStay};
ghost use Rattle.units.specs.View.{act_of};
ghost use Rattle.units.specs.Raising.{activate, place_for};
ghost use Rattle.units.specs.Lent.{UnitsChange};
ghost use Rattle.areas.specs.Lent.{OverAll, OverValuesDelays, Goes, AllLent};
ghost use Rattle.settling.specs.declared.Raised.TheVariants.{Nothing};
ghost use Rattle.settling.specs.Settling.{settled};
ghost use Rattle.settling.specs.Rounds.{acted, hit_by, goes_on, round_of};
ghost use Rattle.settling.specs.Lent.{ActsInValues, ActsInBoth, PinRaises, Settles, FilesInRound, GoesRound};

use floats::lt64;
use links::Links;
use lists::Full;
use model::Value;
use records::forms::{BY_OUTPUT, BY_PIN, FIRE, FORMS};
use states::slots::buffer_input;
use units::Place;
use units::entries::entry;
use units::raising::activate;
use value::{as_float, same, truthy};
use wires::checks::{Check, last, set_last, take_check};
use wires::pulses::pulse;
use wires::reading::look;
use wires::refreshing::ready;
use words::counting::less;

// No rank is above this.
const MOST_RANK: u64 = 65535;

// What a check raises: nothing, the activation of an entry, or one that a late check puts off.
#[derive(Clone, Copy)]
pub enum Raised {
    Nothing,
    Entry(u64),
    MayWait(u64),
}

// How a value moved.
#[derive(Clone, Copy)]
enum Edge {
    Rising,
    Falling,
    Level,
}

// How a value moved, as a Float; nothing is 0.0.
fn edge_of(was: Value, v: Value) -> Edge
    ensures { (c : Circuit) (s : State) (hit : State → ℕ → Settled) → hit_by result s hit ≡ edge c s was v hit }
{
    let before = as_float(was, 0);
    let after = as_float(v, 0);
    if lt64(before, after) {
        return Edge::Rising;
    }
    if lt64(after, before) {
        return Edge::Falling;
    }
    Edge::Level
}

// An Edge: its output for the direction goes up.
fn edge_pulse(links: &Links, values: &mut [u8], g: usize, was: Value, v: Value)
    requires { Room values.old }
    ensures { ActsInValues links.now (values.old, values.new) (λ c _ s. edge c s was v (λ t o. calm (wires≔ t (pulse c t.wires (output c g o))))) Nothing }
{
    let e = edge_of(was, v);
    match e {
        Edge::Rising => {
            pulse(links, values, links.output(g, 0));
        }
        Edge::Falling => {
            pulse(links, values, links.output(g, 1));
        }
        Edge::Level => {}
    }
}

// An EdgeExec: it is raised, by its output for the direction.
fn edge_raised(g: usize, was: Value, v: Value) -> Raised
    ensures { Short g → (c : Circuit) (when : When) (s : State) → settled c when s result ≡ edge c s was v (λ t o. raise by_rank t g (form_output + o)) }
{
    let e = edge_of(was, v);
    match e {
        Edge::Rising => Raised::Entry(entry(g, BY_OUTPUT, 0)),
        Edge::Falling => Raised::Entry(entry(g, BY_OUTPUT + 1, 0)),
        Edge::Level => Raised::Nothing,
    }
}

// Input i of gate g, an exec pin: the gate is raised where the value is true.
fn pin_raised(links: &Links, g: usize, i: usize, v: Value) -> Raised
    ensures { Short g → (truthy v ≡ true → i < most_inputs) → PinRaises (net_of links.now) g i v result }
{
    if truthy(v) {
        let p = less(i, links.input(g, 0));
        return Raised::MayWait(entry(g, BY_PIN + p % FORMS, 0));
    }
    Raised::Nothing
}

// What watched input i reads changed from `was` to v: a detector, a value buffer, or an exec pin.
fn detect(
    links: &Links,
    values: &mut [u8],
    delays: &mut [u8],
    i: usize,
    was: Value,
    v: Value,
) -> Raised
    requires { Room values.old × Slots links.now delays.old }
    ensures acts_in_both { (truthy v ≡ true → i < most_inputs) → ActsInBoth links.now (values.old, values.new) (delays.old, delays.new) (λ c. acted c i was v) result }
    ensures slots_stay { SlotsStay links.now delays.new }
{
    let g = links.gate_at_input(i);
    match links.kind_of_gate(g) {
        // a ChangeDetector
        6 => Raised::MayWait(entry(g, FIRE, 0)),
        // an Edge
        7 => {
            edge_pulse(links, values, g, was, v);
            Raised::Nothing
        }
        // a Change
        8 => {
            pulse(links, values, links.output(g, 0));
            Raised::Nothing
        }
        // an EdgeExec
        9 => edge_raised(g, was, v),
        // a buffer
        10 | 12 => {
            buffer_input(links, delays, g, v);
            Raised::Nothing
        }
        // an exec pin
        _ => pin_raised(links, g, i, v),
    }
}

// Watched input i is read again, and acted on if it changed.
pub fn check(links: &Links, values: &mut [u8], delays: &mut [u8], i: usize) -> Raised
    requires { Room values.old × Slots links.now delays.old }
    ensures over_values_delays { OverValuesDelays links.now (values.old, values.new) (delays.old, delays.new) (λ c old new. Settles c old new result (λ when. check c when old.state i)) }
    ensures slots_stay { SlotsStay links.now delays.new }
{
    let was = last(links, values, i);
    ready(links, values, i);
    let v = look(links, values, i);
    set_last(links, values, i, v);
    match was {
        None => detect(links, values, delays, i, Value::Nothing, v),
        Some(u) => {
            if same(u, v) {
                return Raised::Nothing;
            }
            detect(links, values, delays, i, u, v)
        }
    }
}

// Where what is put off is filed, `to` being the place of what is raised by rank: in the main pass as after every rank.
fn put_off(to: Place) -> Place
    ensures { result ≡ place_for put_off to }
{
    match to {
        Place::Late => Place::Late,
        Place::Pending => Place::Pending,
        Place::After(_) => Place::After(MOST_RANK),
    }
}

// Entry x is filed where `to` says; a round that does so made a check.
fn file(links: &Links, units: &mut [u8], to: Place, x: u64) -> Result<bool, Full>
    requires { Room units.old }
    ensures { UnitsChange links.now (units.old, units.new) (λ c old new. FilesInRound old new result (activate c to (act_of c x) old.lists)) }
{
    activate(links, units, to, x)?;
    Ok(true)
}

// A round: the input that waits longest is checked, and what this raises is filed. Whether one waited.
fn check_next(
    links: &Links,
    values: &mut [u8],
    units: &mut [u8],
    delays: &mut [u8],
    to: Place,
) -> Result<bool, Full>
    requires { AllLent links.now values.old units.old delays.old }
    ensures over_all { OverAll links.now (values.old, values.new) (units.old, units.new) (delays.old, delays.new) (λ c old new. GoesRound old new result (round_of c to old.state old.lists)) }
    ensures slots_stay { SlotsStay links.now delays.new }
{
    let next = take_check(links, values);
    match next {
        None => Ok(false),
        Some(Check { input, late }) => {
            let raised = check(links, values, delays, input);
            match raised {
                Raised::Nothing => Ok(true),
                Raised::Entry(x) => file(links, units, to, x),
                Raised::MayWait(x) => {
                    if late {
                        return file(links, units, put_off(to), x);
                    }
                    file(links, units, to, x)
                }
            }
        }
    }
}

// At most n rounds, up to the first that finds nothing waiting or a list full.
fn settle_on(
    links: &Links,
    values: &mut [u8],
    units: &mut [u8],
    delays: &mut [u8],
    to: Place,
    n: usize,
) -> Result<(), Full>
    requires { AllLent links.now values.old units.old delays.old }
    ensures over_all { OverAll links.now (values.old, values.new) (units.old, units.new) (delays.old, delays.new) (λ c old new. Goes old new result (goes_on c to n old.state old.lists)) }
    ensures slots_stay { SlotsStay links.now delays.new }
{
    for _ in 0..n {
        let checked = check_next(links, values, units, delays, to)?;
        if !checked {
            return Ok(());
        }
    }
    Ok(())
}

// Each input that waits is checked; what this raises goes where `to` says, up to the first that finds its list full. Once what is stale is refreshed, this settles;
// callers ask first whether any input waits, since most often none does.
pub fn check_waiting(
    links: &Links,
    values: &mut [u8],
    units: &mut [u8],
    delays: &mut [u8],
    to: Place,
) -> Result<(), Full>
    requires { AllLent links.now values.old units.old delays.old }
    ensures over_all { OverAll links.now (values.old, values.new) (units.old, units.new) (delays.old, delays.new) (λ c old new. Goes old new result (goes_on c to (most_checks c) old.state old.lists)) }
    ensures slots_stay { SlotsStay links.now delays.new }
{
    let rounds = (links.inputs() + 1) * (links.outputs() + 1);
    settle_on(links, values, units, delays, to, rounds)
}
