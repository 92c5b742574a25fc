// The gates that move on by a tick: buffers and Queues, Clocks, Stopwatches. What they hand out is shown, and what they raise is filed.
ghost use Rattle.std.specs.Prelude.{◌≡◌, true, [], ◌∷◌, ◌+◌, ◌^◌, ◌<◌};
ghost use Rattle.schedule.specs.Schedule.{to_late, to_pending};
ghost use Rattle.model.specs.declared.Value.TheVariants.{Float};
ghost use Rattle.model.specs.Base.{if◌then◌otherwise◌, both, each};
ghost use Rattle.model.specs.Value.{value_of, as_float, bit, one_point_zero};
ghost use Rattle.model.specs.Circuit.{output, setting};
ghost use Rattle.model.specs.Wires.{look, set_outs};
ghost use Rattle.model.specs.Opening.{advance_buffer, advance_clock, advance_timer};
ghost use Rattle.links.specs.Links.{net};
ghost use Rattle.links.specs.Lent.{net_of, Room, Short};
ghost use Rattle.wires.specs.Lent.{wires_in, Turns};
ghost use Rattle.states.specs.View.{is_queue};
ghost use Rattle.states.specs.Lent.{Slots, SlotsStay};
ghost use Rattle.areas.specs.Lent.{OverAll, AllLent};
ghost use Rattle.opening.specs.Opening.{unopened, Opens};
ghost use Rattle.opening.specs.Stages.{landing, releasing};
ghost use Rattle.opening.specs.Lent.{MovesGate};

use crate::filing::{fire_late, fire_pending};
use floats::ONE;
use links::{Links, first_gate, later_gates};
use lists::Full;
use model::Value;
use queues::queue_advance;
use states::slots::{buffer_advance, clock_advance, fires_advance, stopwatch_advance};
use value::{as_float, enabled, value_of};
use wires;
use wires::marking::set_out;
use wires::reading::look;
use wires::refreshing::ready;

// ---- buffers and Queues

// Eight values, to the outputs from o on.
fn set_row(links: &Links, values: &mut [u8], o: usize, kinds: [u64; 8], contents: [u64; 8])
    requires { Room values.old × (o + 8 < 2 ^ 64) }
    ensures { Turns links.now (values.old, values.new) (λ c w. set_outs c w o (both value_of kinds contents)) }
{
    for k in 0..8 {
        set_out(links, values, o + k, value_of(kinds[k], contents[k]));
    }
}

// Value buffer g moves on, and shows what lands.
fn land(links: &Links, values: &mut [u8], delays: &mut [u8], g: usize, dt: u32)
    requires { Room values.old × Slots links.now delays.old }
    ensures moves_gate { MovesGate links.now (values.old, values.new) (delays.old, delays.new) (λ c. landing c dt g) to_late g 0 }
    ensures slots_stay { SlotsStay links.now delays.new }
{
    if let Some(v) = buffer_advance(links, delays, g, dt) {
        set_out(links, values, links.output(g, 0), v);
    }
}

// Queue g moves on, and shows the record that leaves: whether one does.
fn release(links: &Links, values: &mut [u8], delays: &mut [u8], g: usize, dt: u32) -> bool
    requires { Room values.old × Slots links.now delays.old × (is_queue (net links.now) g ≡ true) }
    ensures moves_gate { MovesGate links.now (values.old, values.new) (delays.old, delays.new) (λ c. releasing c dt g) to_late g (bit result) }
    ensures slots_stay { SlotsStay links.now delays.new }
{
    let Some(r) = queue_advance(links, delays, g, dt) else {
        return false;
    };
    set_row(links, values, links.output(g, 1), r.kinds, r.contents);
    true
}

// Queue g moves on, and fires if a record leaves.
fn advance_queue(
    links: &Links,
    values: &mut [u8],
    units: &mut [u8],
    delays: &mut [u8],
    g: usize,
    dt: u32,
) -> Result<(), Full>
    requires { Room values.old × Room units.old × Slots links.now delays.old × Short g × (is_queue (net links.now) g ≡ true) }
    ensures over_all { OverAll links.now (values.old, values.new) (units.old, units.new) (delays.old, delays.new) (λ c old new. Opens c old new result (releasing c dt g old.state)) }
    ensures slots_stay { SlotsStay links.now delays.new }
{
    if release(links, values, delays, g, dt) {
        return fire_late(links, units, g, 1);
    }
    Ok(())
}

// Gate g, a buffer or a Queue, moves on by a tick of the length dt in f32 bits.
fn advance_buffer(
    links: &Links,
    values: &mut [u8],
    units: &mut [u8],
    delays: &mut [u8],
    g: usize,
    dt: u32,
) -> Result<(), Full>
    requires { Room values.old × Room units.old × Slots links.now delays.old × Short g }
    ensures over_all { OverAll links.now (values.old, values.new) (units.old, units.new) (delays.old, delays.new) (λ c old new. Opens c old new result (advance_buffer c dt (unopened old.state) g)) }
    ensures slots_stay { SlotsStay links.now delays.new }
{
    match links.kind_of_gate(g) {
        // a value buffer, in ticks or in seconds
        10 | 12 => {
            land(links, values, delays, g, dt);
            Ok(())
        }
        // a buffer in exec mode
        11 | 13 => {
            let n = fires_advance(links, delays, g, dt);
            fire_late(links, units, g, n)
        }
        // a Queue
        16..=17 => advance_queue(links, values, units, delays, g, dt),
        _ => Ok(()),
    }
}

// All buffers and Queues, in their order.
pub fn advance_buffers(
    links: &Links,
    values: &mut [u8],
    units: &mut [u8],
    delays: &mut [u8],
    dt: u32,
) -> Result<(), Full>
    requires { AllLent links.now values.old units.old delays.old }
    ensures over_all { OverAll links.now (values.old, values.new) (units.old, units.new) (delays.old, delays.new) (λ c old new. Opens c old new result (each (advance_buffer c dt) (unopened old.state) c.buffers)) }
    ensures slots_stay { SlotsStay links.now delays.new }
{
    // Stays: one function for all three would have to say of its closure what it makes of three lent areas, which is longer than the loop.
    let mut d = links.buffers();
    let mut g = first_gate(d);
    while g < 64 {
        d = later_gates(d);
        advance_buffer(links, values, units, delays, g, dt)?;
        g = first_gate(d);
    }
    Ok(())
}

// ---- Clocks

// The interval of Clock g: what input i reads, else its setting, else 1.0.
fn interval(links: &Links, values: &[u8], g: usize, i: usize) -> u64
    requires { Room values.now }
    ensures { result ≡ as_float (as_float one_point_zero (setting (net_of links.now) g 2)) (look (net_of links.now) (wires_in links.now values.now) i) }
{
    let other = as_float(links.setting(g, 2), ONE);
    as_float(look(links, values, i), other)
}

// Clock g moves on: whether it fires. Both inputs are read, also where it is not enabled.
fn move_clock(links: &Links, values: &mut [u8], delays: &mut [u8], g: usize) -> bool
    requires { Room values.old × Slots links.now delays.old }
    ensures moves_gate { MovesGate links.now (values.old, values.new) (delays.old, delays.new) (λ c s. advance_clock c (unopened s) g) to_pending g (bit result) }
    ensures slots_stay { SlotsStay links.now delays.new }
{
    let i = links.input(g, 0);
    ready(links, values, i);
    ready(links, values, i + 1);
    let seconds = interval(links, values, g, i + 1);
    let on = enabled(look(links, values, i));
    let dt = wires::ticks::dt(links, values);
    clock_advance(links, delays, g, dt, seconds, on)
}

// Clock g moves on, and fires if it comes to its interval.
fn advance_clock(
    links: &Links,
    values: &mut [u8],
    units: &mut [u8],
    delays: &mut [u8],
    g: usize,
) -> Result<(), Full>
    requires { Room values.old × Room units.old × Slots links.now delays.old × Short g }
    ensures over_all { OverAll links.now (values.old, values.new) (units.old, units.new) (delays.old, delays.new) (λ c old new. Opens c old new result (advance_clock c (unopened old.state) g)) }
    ensures slots_stay { SlotsStay links.now delays.new }
{
    if move_clock(links, values, delays, g) {
        return fire_pending(links, units, g);
    }
    Ok(())
}

// All Clocks, in their order.
pub fn advance_clocks(
    links: &Links,
    values: &mut [u8],
    units: &mut [u8],
    delays: &mut [u8],
) -> Result<(), Full>
    requires { AllLent links.now values.old units.old delays.old }
    ensures over_all { OverAll links.now (values.old, values.new) (units.old, units.new) (delays.old, delays.new) (λ c old new. Opens c old new result (each (advance_clock c) (unopened old.state) c.clocks)) }
    ensures slots_stay { SlotsStay links.now delays.new }
{
    // Stays: one function for all three would have to say of its closure what it makes of three lent areas, which is longer than the loop.
    let mut d = links.clocks();
    let mut g = first_gate(d);
    while g < 64 {
        d = later_gates(d);
        advance_clock(links, values, units, delays, g)?;
        g = first_gate(d);
    }
    Ok(())
}

// ---- Stopwatches

// Stopwatch g shows its time, if it shows it anew.
fn show_time(links: &Links, values: &mut [u8], g: usize, shows: bool, time: u64)
    requires { Room values.old }
    ensures { Turns links.now (values.old, values.new) (λ c w. set_outs c w (output c g 0) (if shows then Float time ∷ [] otherwise [])) }
{
    if shows {
        set_out(links, values, links.output(g, 0), Value::Float(time));
    }
}

// Stopwatch g moves on, and shows its time: whether it expires. Its limit is read, also where it stands still.
fn move_timer(links: &Links, values: &mut [u8], delays: &mut [u8], g: usize) -> bool
    requires { Room values.old × Slots links.now delays.old }
    ensures moves_gate { MovesGate links.now (values.old, values.new) (delays.old, delays.new) (λ c s. advance_timer c (unopened s) g) to_late g (bit result) }
    ensures slots_stay { SlotsStay links.now delays.new }
{
    let i = links.input(g, 3);
    ready(links, values, i);
    let limit = as_float(look(links, values, i), 0);
    let dt = wires::ticks::dt(links, values);
    let s = stopwatch_advance(links, delays, g, dt, limit);
    show_time(links, values, g, s.shows, s.time);
    s.expired
}

// Stopwatch g moves on, and fires if it expires.
fn advance_timer(
    links: &Links,
    values: &mut [u8],
    units: &mut [u8],
    delays: &mut [u8],
    g: usize,
) -> Result<(), Full>
    requires { Room values.old × Room units.old × Slots links.now delays.old × Short g }
    ensures over_all { OverAll links.now (values.old, values.new) (units.old, units.new) (delays.old, delays.new) (λ c old new. Opens c old new result (advance_timer c (unopened old.state) g)) }
    ensures slots_stay { SlotsStay links.now delays.new }
{
    if move_timer(links, values, delays, g) {
        return fire_late(links, units, g, 1);
    }
    Ok(())
}

// All Stopwatches, in their order.
pub fn advance_timers(
    links: &Links,
    values: &mut [u8],
    units: &mut [u8],
    delays: &mut [u8],
) -> Result<(), Full>
    requires { AllLent links.now values.old units.old delays.old }
    ensures over_all { OverAll links.now (values.old, values.new) (units.old, units.new) (delays.old, delays.new) (λ c old new. Opens c old new result (each (advance_timer c) (unopened old.state) c.stopwatches)) }
    ensures slots_stay { SlotsStay links.now delays.new }
{
    // Stays: one function for all three would have to say of its closure what it makes of three lent areas, which is longer than the loop.
    let mut d = links.stopwatches();
    let mut g = first_gate(d);
    while g < 64 {
        d = later_gates(d);
        advance_timer(links, values, units, delays, g)?;
        g = first_gate(d);
    }
    Ok(())
}
