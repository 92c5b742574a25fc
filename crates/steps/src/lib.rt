// One step of a chain: a gate, entered through one of its inputs, by kind.
#![tactic(auto)]

ghost use Rattle.std.specs.Prelude.{◌≡◌, true, ◌-◌, eqb};
ghost use Rattle.model.specs.Circuit.{kind_of_gate, input};
ghost use Rattle.model.specs.Exec.{var, exec-Buffer, exec-Stopwatch, exec-Queue, exec-VarGet, exec-VarSet, exec-Branch, exec-Union, exec-Toggle, exec-Cycle, exec-SendEvent, exec-Break, exec_gate};
ghost use Rattle.links.specs.Links.{net};
ghost use Rattle.links.specs.Lent.{net_of, Room};
ghost use Rattle.states.specs.View.{is_queue, queue_countdown};
ghost use Rattle.states.specs.Lent.{Slots, SlotsStay};
ghost use Rattle.areas.specs.Lent.{OverAll, OverValues, OverDelays, OverValuesDelays, OverValuesUnits, AllLent};
ghost use Rattle.steps.specs.Steps.{Entered, Makes};

use cycle::cycle_next;
use links::Links;
use lists::Full;
use model::Value;
use queues::queue_record;
use reading::{look_row, readied};
use states::slots::{add_fire, stopwatch_press};
use units::events::{has_sent, send};
use value::{as_int, truthy};
use wires::bodies::set_breaking;
use wires::marking::set_out;
use wires::reading::{look, show, shown};
use wires::refreshing::ready;
use wires::ticks::{pass, passed};
use wires::written::record_write;
use words::counting::less;

pub mod reading;

// What a step comes to: the output to fire next, or none where the chain ends there; or a list was full.
pub type Step = Result<Option<usize>, Full>;

// ---- Vars

// The output of the Var that setting 1 of gate g names.
fn var(links: &Links, g: usize) -> usize
    ensures { result ≡ var (net_of links.now) g }
{
    let n = as_int(links.setting(g, 1), 0);
    if n < 0 {
        return links.output(0, 0);
    }
    links.output(n as usize, 0)
}

// 18 VarGet: the Var's value, as it stands in storage, to Value.
fn exec_var_get(links: &Links, values: &mut [u8], g: usize) -> Step
    requires { Room values.old }
    ensures { OverValues links.now (values.old, values.new) (λ c old new. Makes old new result (exec-VarGet c old.state g)) }
{
    let v = shown(links, values, var(links, g));
    set_out(links, values, links.output(g, 1), v);
    Ok(Some(links.output(g, 0)))
}

// 19 VarSet: Value, as it reads, to the Var, with no conversion; direct readers see it at once. `inside` says whether a body is running.
fn exec_var_set(links: &Links, values: &mut [u8], g: usize, inside: bool) -> Step
    requires { Room values.old }
    ensures { OverValues links.now (values.old, values.new) (λ c old new. Makes old new result (exec-VarSet c inside old.state g)) }
{
    let i = links.input(g, 2);
    let o = var(links, g);
    ready(links, values, i);
    let v = look(links, values, i);
    show(links, values, o, v);
    record_write(links, values, o, inside);
    Ok(Some(links.output(g, 0)))
}

// ---- Branch, Union, Toggle, Cycle

// 20 Branch: a condition that is true to ExecOutA, else to ExecOutB.
fn exec_branch(links: &Links, values: &mut [u8], g: usize) -> Step
    requires { Room values.old }
    ensures { OverValues links.now (values.old, values.new) (λ c old new. Makes old new result (exec-Branch c old.state g)) }
{
    let i = links.input(g, 1);
    ready(links, values, i);
    let v = look(links, values, i);
    if truthy(v) {
        return Ok(Some(links.output(g, 0)));
    }
    Ok(Some(links.output(g, 1)))
}

// 21 Union: it passes once a tick, and inside a body once in each run of it.
fn exec_union(links: &Links, values: &mut [u8], g: usize) -> Step
    requires { Room values.old }
    ensures { OverValues links.now (values.old, values.new) (λ c old new. Makes old new result (exec-Union c old.state g)) }
{
    if passed(links, values, g) {
        return Ok(None);
    }
    pass(links, values, g);
    Ok(Some(links.output(g, 0)))
}

// 22 Toggle: what is true becomes false, anything else true.
fn exec_toggle(links: &Links, values: &mut [u8], g: usize) -> Step
    requires { Room values.old }
    ensures { OverValues links.now (values.old, values.new) (λ c old new. Makes old new result (exec-Toggle c old.state g)) }
{
    let o = links.output(g, 1);
    let v = shown(links, values, o);
    set_out(links, values, o, Value::Bool(!truthy(v)));
    Ok(Some(links.output(g, 0)))
}

// 23 Cycle, entered through pin p: pin 1 down, any other up, each to its own output.
fn exec_cycle(links: &Links, values: &mut [u8], g: usize, p: usize) -> Step
    requires { Room values.old }
    ensures { OverValues links.now (values.old, values.new) (λ c old new. Makes old new result (exec-Cycle c old.state g p)) }
{
    let i = links.input(g, 2);
    let o = links.output(g, 2);
    ready(links, values, i);
    let now = as_int(shown(links, values, o), 0);
    let count = as_int(look(links, values, i), 0);
    let n = cycle_next(p == 1, count, now);
    set_out(links, values, o, Value::Int(n));
    if p == 1 {
        return Ok(Some(links.output(g, 1)));
    }
    Ok(Some(links.output(g, 0)))
}

// ---- buffers, Stopwatches, Queues

// 11, 13, a buffer in exec mode: one fire more is under way.
fn exec_buffer(links: &Links, delays: &mut [u8], g: usize) -> Step
    requires { Slots links.now delays.old }
    ensures { OverDelays links.now (delays.old, delays.new) (λ c old new. Makes old new result (exec-Buffer c old.state g)) }
{
    add_fire(links, delays, g)?;
    Ok(None)
}

// 15, a Stopwatch, entered through pin p: Restart shows 0.0 at once.
fn exec_stopwatch(links: &Links, values: &mut [u8], delays: &mut [u8], g: usize, p: usize) -> Step
    requires { Room values.old × Slots links.now delays.old }
    ensures { OverValuesDelays links.now (values.old, values.new) (delays.old, delays.new) (λ c old new. Makes old new result (exec-Stopwatch c old.state g p)) }
{
    stopwatch_press(links, delays, g, p);
    if p != 0 {
        return Ok(None);
    }
    set_out(links, values, links.output(g, 0), Value::Float(0));
    Ok(None)
}

// 16, 17, a Queue: all nine inputs are read, also for a record that is dropped.
fn exec_queue(links: &Links, values: &mut [u8], delays: &mut [u8], g: usize) -> Step
    requires { Room values.old × Slots links.now delays.old × (is_queue (net links.now) g ≡ true) }
    ensures { OverValuesDelays links.now (values.old, values.new) (delays.old, delays.new) (λ c old new. Makes old new result (exec-Queue c old.state g (queue_countdown (eqb (kind_of_gate c g) 17)))) }
{
    let i = links.input(g, 1);
    readied(links, values, i, 9);
    let row = look_row(links, values, i);
    let wait = look(links, values, i + 8);
    queue_record(links, delays, g, row, wait);
    Ok(None)
}

// ---- events

// 24, 25, a sender of events: the eight values are read, also for a second event of the gate in this tick, which is ignored.
fn exec_send(links: &Links, values: &mut [u8], units: &mut [u8], g: usize) -> Step
    requires { Room values.old × Room units.old }
    ensures { OverValuesUnits links.now (values.old, values.new) (units.old, units.new) (λ c old new. Makes old new result (exec-SendEvent c old.state g)) }
{
    let i = links.input(g, 2);
    readied(links, values, i, 8);
    if has_sent(units, g) {
        return Ok(Some(links.output(g, 0)));
    }
    let row = look_row(links, values, i);
    send(units, g, row);
    Ok(Some(links.output(g, 0)))
}

// 31 Break: the loop whose body is running ends after this run of it, which goes on.
fn exec_break(links: &Links, values: &mut [u8], g: usize) -> Step
    requires { Room values.old }
    ensures { OverValues links.now (values.old, values.new) (λ c old new. Makes old new result (exec-Break c old.state g)) }
{
    set_breaking(links, values, true);
    Ok(Some(links.output(g, 0)))
}

// ---- by kind

// The pin of gate g that input i is.
fn pin(links: &Links, g: usize, i: usize) -> usize
    ensures { result ≡ i - input (net_of links.now) g 0 }
{
    less(i, links.input(g, 0))
}

// Gate g, of kind k, entered through its input i; `inside` says whether a body is running.
pub fn exec(
    links: &Links,
    values: &mut [u8],
    units: &mut [u8],
    delays: &mut [u8],
    i: usize,
    g: usize,
    k: u64,
    inside: bool,
) -> Step
    requires all_lent { AllLent links.now values.old units.old delays.old }
    requires entered { Entered (net links.now) i g k }
    ensures over_all { OverAll links.now (values.old, values.new) (units.old, units.new) (delays.old, delays.new) (λ c old new. Makes old new result (exec_gate c inside old.state i)) }
    ensures slots_stay { SlotsStay links.now delays.new }
{
    match k {
        2 => Ok(Some(links.output(g, 0))),
        11 | 13 => exec_buffer(links, delays, g),
        15 => exec_stopwatch(links, values, delays, g, pin(links, g, i)),
        16..=17 => exec_queue(links, values, delays, g),
        18 => exec_var_get(links, values, g),
        19 => exec_var_set(links, values, g, inside),
        20 => exec_branch(links, values, g),
        21 => exec_union(links, values, g),
        22 => exec_toggle(links, values, g),
        23 => exec_cycle(links, values, g, pin(links, g, i)),
        24..=25 => exec_send(links, values, units, g),
        31 => exec_break(links, values, g),
        _ => Ok(None),
    }
}
