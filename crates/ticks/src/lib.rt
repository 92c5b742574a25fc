// A tick: its opening, its passes, its record.
#![tactic(auto)]

ghost use Rattle.words.specs.Words.{words};
ghost use Rattle.std.specs.Prelude.{◌≡◌, ◌*◌, ◌^◌, ◌<◌, ◌≤◌, length};
ghost use Rattle.words.specs.Slices.{HasWords};
ghost use Rattle.model.specs.Run.{allow};
// The definitions `values` and `units` are named for what they hold, beside the slices of their names.
ghost use Rattle.links.specs.Links.{net};
ghost use Rattle.links.specs.Lent.{net_of, Room};
ghost use Rattle.wires.specs.Lent.{values_in, values_out, Turns, TickFits};
ghost use Rattle.states.specs.Lent.{Slots, SlotsStay};
ghost use Rattle.units.specs.Lent.{units_in};
ghost use Rattle.areas.specs.Lent.{OverAll};
ghost use Rattle.unit.specs.Unit.{FewCalls, stop_of};
ghost use Rattle.opening.specs.Lent.{given_at};
ghost use Rattle.ticks.specs.Stages.{RanLate, RanMain, steps_made, outputs_read, head_of, Closes};
ghost use Rattle.ticks.specs.Lent.{TicksAs};

use chain::Ran;
use links::Links;
use lists::Full;
use logging::{Head, write_record};
use opening::open;
use passes::{late_pass, main_pass};
use states::counting::changed;
use stops::{LIST_FULL, LOG_FULL, RUNAWAY};
use units::begun::begun;
use wires;
use wires::refreshing::refresh_all;

// What a tick comes to: how many words its record has, 0 where it does not fit, and its stop, or 0.
#[derive(Clone, Copy)]
pub struct Ticked {
    pub size: usize,
    pub stop: u64,
}

// The late pass, unless the opening found a list full.
fn run_late(
    links: &Links,
    values: &mut [u8],
    units: &mut [u8],
    delays: &mut [u8],
    opened: Result<(), Full>,
    limit: u64,
) -> Ran
    requires { Room values.old × Room units.old × Slots links.now delays.old × FewCalls (net links.now) }
    ensures over_all { OverAll links.now (values.old, values.new) (units.old, units.new) (delays.old, delays.new) (λ c old new. RanLate c old new limit (stop_of opened) result) }
    ensures slots_stay { SlotsStay links.now delays.new }
{
    match opened {
        Err(_) => Ran {
            left: limit,
            stop: LIST_FULL,
        },
        Ok(()) => late_pass(links, values, units, delays, limit),
    }
}

// The main pass, unless the late pass stopped.
fn run_main(links: &Links, values: &mut [u8], units: &mut [u8], delays: &mut [u8], late: Ran) -> Ran
    requires { Room values.old × Room units.old × Slots links.now delays.old × FewCalls (net links.now) }
    ensures over_all { OverAll links.now (values.old, values.new) (units.old, units.new) (delays.old, delays.new) (λ c old new. RanMain c old new late.left late.stop result) }
    ensures slots_stay { SlotsStay links.now delays.new }
{
    if late.stop != 0 {
        return late;
    }
    main_pass(links, values, units, delays, late.left)
}

// The steps made, where so many are left; of a tick stopped by 11 with the one not made.
fn steps(limit: u64, left: u64, stop: u64) -> u64
    requires { limit < 2 ^ 63 }
    ensures { result ≡ steps_made limit left stop }
{
    let made = limit.saturating_sub(left);
    if stop == RUNAWAY { made + 1 } else { made }
}

// Where the tick has no stop its record shows the outputs, so what is stale is refreshed.
fn read_outputs(links: &Links, values: &mut [u8], stop: u64)
    requires { Room values.old }
    ensures { Turns links.now (values.old, values.new) (λ c w. outputs_read c w stop) }
{
    if stop != 0 {
        return;
    }
    refresh_all(links, values);
}

// The head of the tick's record, where `late` units began in the late pass and so many narrowings changed their number.
fn head(
    links: &Links,
    values: &[u8],
    limit: u64,
    late: usize,
    changed: u64,
    left: u64,
    stop: u64,
) -> Head
    requires { Room values.now × (limit < 2 ^ 63) }
    ensures { result ≡ head_of limit late changed left stop (values_in links.now values.now) }
{
    Head {
        tick: wires::ticks::tick(links, values),
        steps: steps(limit, left, stop),
        late,
        stop,
        changed,
    }
}

// The end of a tick after the passes' answer r, where `late` units began in the late pass and so many narrowings changed their number: its record becomes the words of the log from word `at` on, if it fits there.
fn close(
    links: &Links,
    values: &mut [u8],
    units: &[u8],
    log: &mut [u8],
    at: usize,
    limit: u64,
    late: usize,
    changed: u64,
    r: Ran,
) -> Ticked
    requires { Room values.old × Room units.now × (at * 8 ≤ length log.old) × (limit < 2 ^ 63) }
    ensures { Closes (net_of links.now) limit late changed r (values_in links.now values.old) (values_out links.now values.new) (units_in links.now units.now) log.old log.new at result }
{
    let left = r.left;
    let stop = r.stop;
    read_outputs(links, values, stop);
    let h = head(links, values, limit, late, changed, left, stop);
    match write_record(links, values, units, log, at, h) {
        Some(n) => Ticked { size: n, stop },
        None => Ticked {
            size: 0,
            stop: LOG_FULL,
        },
    }
}

// A tick of the length dt that may make `limit` steps, with n stimuli: their gates and constants stand in the script from these words on. Its record becomes the words of the log from word `at` on, if it fits there.
pub fn tick(
    links: &Links,
    values: &mut [u8],
    units: &mut [u8],
    delays: &mut [u8],
    script: &[u8],
    gates_at: usize,
    constants_at: usize,
    n: usize,
    dt: u64,
    log: &mut [u8],
    at: usize,
    limit: u64,
) -> Ticked
    requires linked { Room values.old × Room units.old × Slots links.now delays.old × FewCalls (net links.now) }
    requires has_words { HasWords script.now gates_at n × HasWords script.now constants_at n × TickFits links.now values.old × (at * 8 ≤ length log.old) × (limit < 2 ^ 63) }
    ensures over_all { OverAll links.now (values.old, values.new) (units.old, units.new) (delays.old, delays.new) (λ c old new. TicksAs c old new log.old log.new at result (allow limit (given_at c (words script.now) dt gates_at constants_at n))) }
    ensures slots_stay { SlotsStay links.now delays.new }
{
    let opened = open(
        links,
        values,
        units,
        delays,
        script,
        gates_at,
        constants_at,
        n,
        dt,
    );
    let first = run_late(links, values, units, delays, opened, limit);
    let late = begun(units);
    let second = run_main(links, values, units, delays, first);
    let narrowed = changed(links, delays);
    close(links, values, units, log, at, limit, late, narrowed, second)
}
