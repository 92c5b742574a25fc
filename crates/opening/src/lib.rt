// The opening of a tick: all that comes before its passes.
#![tactic(auto)]

ghost use Rattle.words.specs.Words.{words};
ghost use Rattle.std.specs.Prelude.{◌≡◌};
ghost use Rattle.words.specs.Slices.{HasWords};
ghost use Rattle.model.specs.Value.{narrow};
ghost use Rattle.model.specs.Opening.{begin_tick};
ghost use Rattle.links.specs.Lent.{Room};
ghost use Rattle.wires.specs.Lent.{TickFits};
ghost use Rattle.states.specs.Lent.{Slots, SlotsStay};
ghost use Rattle.areas.specs.Areas.{with_state};
ghost use Rattle.areas.specs.Lent.{OverAll, OverUnits, Goes, AllLent};
ghost use Rattle.opening.specs.Opening.{Opens, stimuli_of, reopened, opened};
ghost use Rattle.opening.specs.Stages.{arrived, lowered, advanced_all, finished};
ghost use Rattle.opening.specs.Lent.{given_at};

use crate::filing::{deliver_all, stimulate};
use crate::moving::{advance_buffers, advance_clocks, advance_timers};
use floats::narrowing::narrow;
use links::Links;
use lists::Full;
use settling::check_waiting;
use states::counting::begin_count;
use units::Place;
use wires;
use wires::checks::checks_waiting;
use wires::marking::invalidate_all;
use wires::pulses::lower_all;
use wires::refreshing::refresh_all;

mod filing;
mod moving;

// The next tick begins, of this length, which is narrowed here and counted: what was carried is late, and what was sent is to be delivered. The length as f32 bits.
fn begin_tick(links: &Links, values: &mut [u8], units: &mut [u8], delays: &mut [u8], dt: u64) -> u32
    requires { Room values.old × Room units.old × Slots links.now delays.old × TickFits links.now values.old }
    ensures over_all { OverAll links.now (values.old, values.new) (units.old, units.new) (delays.old, delays.new) (λ c old new. new ≡ with_state (reopened c old) (begin_tick old.state dt)) }
    ensures value { (result ≡ narrow dt) × SlotsStay links.now delays.new }
{
    let length = narrow(dt);
    units::raising::next_tick(links, units);
    wires::ticks::next_tick(links, values, dt);
    begin_count(links, delays, length.changed);
    length.bits
}

// The events of the tick before are delivered, then the stimuli come.
fn arrive(
    links: &Links,
    units: &mut [u8],
    script: &[u8],
    gates_at: usize,
    constants_at: usize,
    n: usize,
) -> Result<(), Full>
    requires { Room units.old × HasWords script.now gates_at n × HasWords script.now constants_at n }
    ensures { OverUnits links.now (units.old, units.new) (λ c old new. Opens c old new result (arrived c old.state old.kept.events (stimuli_of c (words script.now) gates_at constants_at n))) }
{
    deliver_all(links, units)?;
    stimulate(links, units, script, gates_at, constants_at, n)
}

// Buffers and Queues, Clocks, Stopwatches move on; dt is the tick's length in f32 bits.
fn advance(
    links: &Links,
    values: &mut [u8],
    units: &mut [u8],
    delays: &mut [u8],
    dt: u32,
) -> Result<(), Full>
    requires { AllLent links.now values.old units.old delays.old }
    ensures over_all { OverAll links.now (values.old, values.new) (units.old, units.new) (delays.old, delays.new) (λ c old new. Opens c old new result (advanced_all c dt old.state)) }
    ensures slots_stay { SlotsStay links.now delays.new }
{
    advance_buffers(links, values, units, delays, dt)?;
    advance_clocks(links, values, units, delays)?;
    advance_timers(links, values, units, delays)
}

// Ended pulses fall, gates move on, time sources become stale, and what waits is settled; dt is the tick's length in f32 bits.
fn finish(
    links: &Links,
    values: &mut [u8],
    units: &mut [u8],
    delays: &mut [u8],
    dt: u32,
) -> Result<(), Full>
    requires { AllLent links.now values.old units.old delays.old }
    ensures over_all { OverAll links.now (values.old, values.new) (units.old, units.new) (delays.old, delays.new) (λ c old new. Opens c old new result (finished c (advanced_all c dt (lowered c old.state)))) }
    ensures slots_stay { SlotsStay links.now delays.new }
{
    lower_all(links, values);
    advance(links, values, units, delays, dt)?;
    invalidate_all(links, values);
    refresh_all(links, values);
    if checks_waiting(links, values) == 0 {
        return Ok(());
    }
    check_waiting(links, values, units, delays, Place::Pending)
}

// A tick of the length dt, with n stimuli: their gates and constants stand in the script from these words on. It stops at the first list that is full.
pub fn open(
    links: &Links,
    values: &mut [u8],
    units: &mut [u8],
    delays: &mut [u8],
    script: &[u8],
    gates_at: usize,
    constants_at: usize,
    n: usize,
    dt: u64,
) -> Result<(), Full>
    requires { Room values.old × Room units.old × Slots links.now delays.old × HasWords script.now gates_at n × HasWords script.now constants_at n × TickFits links.now values.old }
    ensures over_all { OverAll links.now (values.old, values.new) (units.old, units.new) (delays.old, delays.new) (λ c old new. Goes (reopened c old) new result (opened c old (given_at c (words script.now) dt gates_at constants_at n))) }
    ensures slots_stay { SlotsStay links.now delays.new }
{
    let length = begin_tick(links, values, units, delays, dt);
    arrive(links, units, script, gates_at, constants_at, n)?;
    finish(links, values, units, delays, length)
}
