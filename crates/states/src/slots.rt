// The slot of a gate: value buffers, buffers in exec mode, Clocks and Stopwatches. Each gate has room for all of them, whatever its kind.
ghost use Rattle.words.specs.Words.{words};
ghost use Rattle.words.specs.Options.{option_of};
ghost use Rattle.std.specs.Prelude.{◌≡◌, true, [], ◌*◌, ◌≤◌, ◌<◌, leb};
ghost use Rattle.std.proofs.Math.Option.{some};
ghost use Rattle.model.specs.Value.{truthy, bit};
ghost use Rattle.model.specs.Circuit.{part, kind_of_gate};
ghost use Rattle.model.specs.State.{flight≔, fires≔};
ghost use Rattle.model.specs.Delays.{launch, buffer_input, advance_flight, advance_fires, advance_elapsed, advance_time, pressed};
ghost use Rattle.model.specs.Exec.{countdown, most_fires};
ghost use Rattle.delays.specs.States.{counted, started, counts_seconds, flight_of, row_of, fires_of, stopwatch_moved};
ghost use Rattle.links.specs.Links.{net};
ghost use Rattle.links.specs.Lent.{net_of};
ghost use Rattle.states.specs.View.{slot_at, flight_in, later_in, fires_in, delay_in, with_delay, starting, Moves};
ghost use Rattle.states.specs.Slots.{Becomes, BecomesAny, BecomesBy, Turns, TurnsAny, Lands, Added};
ghost use Rattle.states.specs.Lent.{Slot, Slots, DelaysChange, AddsFire};

use crate::counting::count_changed;
use delays::buffer::{Buffer, Flight};
use delays::clock::Clock;
use delays::countdown::{Countdown, Started, buffer_countdown, of_word};
use delays::fires::{Fires, MOST_FIRES};
use delays::stopwatch::Stopwatch;
use kinds::numbers::BUFFER_SECONDS;
use links::Links;
use links::layout::MOST_GATES;
use lists::Full;
use model::Value;
use value::{content_of, kind_of, truthy, value_of};
use words::rows::put_row;
use words::{get, put};

// Where the words of a slot stand. First the seconds so far, and a mark if it runs.
const ELAPSED: usize = 0;

const RUNNING: usize = 1;

// The value in flight: a mark, its kind, its content and its countdown.
const FLIGHT: usize = 2;

const FLIGHT_KIND: usize = 3;

const FLIGHT_CONTENT: usize = 4;

const FLIGHT_LEFT: usize = 5;

// The later input: a mark, its kind and its content.
const LATER: usize = 6;

const LATER_KIND: usize = 7;

const LATER_CONTENT: usize = 8;

// The fires under way: where the first one stands, how many they are, and where their places begin.
const FIRST: usize = 9;

const COUNT: usize = 10;

const FIRES: usize = 11;

// Where the slots begin: behind a word for each gate, the number of a Queue's part.
const SLOTS: usize = MOST_GATES;

// How many words and bytes a slot has.
const SLOT: usize = FIRES + MOST_FIRES;

const SLOT_BYTES: usize = SLOT * 8;

// Where the count of narrowings stands: behind a slot for each gate.
pub const CHANGED: usize = SLOTS + SLOT * MOST_GATES;

// Where the parts of the Queues begin.
pub const PARTS: usize = CHANGED + 1;

// From this kind on countdowns are in seconds.
const SECONDS: u64 = BUFFER_SECONDS;

// What landed as a value buffer moved on, if anything did, and whether narrowing changed the wait of the input that started then.
#[derive(Clone, Copy)]
pub struct Landed {
    pub what: Option<Value>,
    pub changed: bool,
}

// ---- a slot

// v is in flight, with its countdown.
fn launch(slot: &mut [u8], v: Value, k: Countdown)
    requires { Slot slot.old }
    ensures { Becomes (counts_seconds (counted k)) (words slot.old) (words slot.new) (λ d. flight≔ d (launch v (counted k)) d.later) }
{
    put(slot, FLIGHT, 1);
    put(slot, FLIGHT_KIND, kind_of(v));
    put(slot, FLIGHT_CONTENT, content_of(v));
    put(slot, FLIGHT_LEFT, k.word());
}

// v is the last later input.
fn remember(slot: &mut [u8], v: Value)
    requires { Slot slot.old }
    ensures { BecomesAny (words slot.old) (words slot.new) (λ d. flight≔ d d.flight (some v)) }
{
    put(slot, LATER, 1);
    put(slot, LATER_KIND, kind_of(v));
    put(slot, LATER_CONTENT, content_of(v));
}

// What is in flight goes into the slot.
fn store_flight(slot: &mut [u8], flight: Option<Flight>)
    requires { Slot slot.old }
    ensures { BecomesBy (flight_of flight) (words slot.old) (words slot.new) (λ d. flight≔ d (flight_of flight) d.later) }
{
    match flight {
        None => put(slot, FLIGHT, 0),
        Some(f) => launch(slot, f.what, f.left),
    }
}

// The last later input goes into the slot, or that there is none.
fn store_later(slot: &mut [u8], later: Option<Value>)
    requires { Slot slot.old }
    ensures { BecomesAny (words slot.old) (words slot.new) (λ d. flight≔ d d.flight (option_of later)) }
{
    match later {
        None => put(slot, LATER, 0),
        Some(v) => remember(slot, v),
    }
}

// A value buffer goes into the slot.
fn store_buffer(slot: &mut [u8], b: Buffer)
    requires { Slot slot.old }
    ensures { BecomesBy (flight_of b.flight) (words slot.old) (words slot.new) (λ d. flight≔ d (flight_of b.flight) (option_of b.later)) }
{
    store_flight(slot, b.flight);
    store_later(slot, b.later);
}

// What is in flight in the slot.
fn load_flight(slot: &[u8], seconds: bool) -> Option<Flight>
    requires { Slot slot.now }
    ensures { flight_of result ≡ flight_in seconds (words slot.now) }
{
    if get(slot, FLIGHT) == 0 {
        return None;
    }
    let what = value_of(get(slot, FLIGHT_KIND), get(slot, FLIGHT_CONTENT));
    let left = of_word(seconds, get(slot, FLIGHT_LEFT));
    Some(Flight { what, left })
}

// The last later input in the slot, or none.
fn load_later(slot: &[u8]) -> Option<Value>
    requires { Slot slot.now }
    ensures { option_of result ≡ later_in (words slot.now) }
{
    if get(slot, LATER) == 0 {
        return None;
    }
    Some(value_of(get(slot, LATER_KIND), get(slot, LATER_CONTENT)))
}

// The value buffer in the slot.
fn load_buffer(slot: &[u8], seconds: bool) -> Buffer
    requires { Slot slot.now }
    ensures { (flight_of result.flight ≡ flight_in seconds (words slot.now)) × (option_of result.later ≡ later_in (words slot.now)) }
{
    let flight = load_flight(slot, seconds);
    let later = load_later(slot);
    Buffer {
        flight,
        later,
        landed: None,
        changed: false,
    }
}

// A new input with its countdown.
fn input(slot: &mut [u8], seconds: bool, v: Value, k: Countdown)
    requires { Slot slot.old × (counts_seconds (counted k) ≡ seconds) }
    ensures { Becomes seconds (words slot.old) (words slot.new) (λ d. buffer_input d v (counted k)) }
{
    let b = load_buffer(slot, seconds);
    let next = b.input(v, k);
    store_buffer(slot, next);
}

// One tick: the value in flight lands when its countdown is due.
fn fly(links: &Links, slot: &mut [u8], g: usize, seconds: bool, dt: u32) -> Landed
    requires { Slot slot.old × (seconds ≡ leb 12 (kind_of_gate (net links.now) g)) }
    ensures { Lands seconds (words slot.old) (words slot.new) (advance_flight (λ v. countdown (net_of links.now) g (truthy v)) dt) result }
{
    if get(slot, FLIGHT) == 0 {
        return Landed {
            what: None,
            changed: false,
        };
    }
    let b = load_buffer(slot, seconds);
    let next = b.advance(dt, seconds, links.setting(g, 1), links.setting(g, 2));
    store_buffer(slot, next);
    Landed {
        what: next.landed,
        changed: next.changed,
    }
}

// The places of the fires in the slot.
fn load_places(slot: &[u8]) -> [u64; MOST_FIRES]
    requires { Slot slot.now }
    ensures { result ≡ part (words slot.now) 11 32 }
{
    let mut places = [0; MOST_FIRES];
    for i in 0..MOST_FIRES {
        places[i] = get(slot, FIRES + i);
    }
    places
}

// The buffer in exec mode in the slot.
fn load_fires(slot: &[u8], seconds: bool) -> Fires
    requires { Slot slot.now }
    ensures { (result.seconds ≡ seconds) × (fires_of result ≡ fires_in seconds (words slot.now)) }
{
    let first = get(slot, FIRST) as usize;
    let count = get(slot, COUNT) as usize;
    let words = load_places(slot);
    Fires {
        seconds,
        first,
        count,
        words,
        fired: 0,
    }
}

// A buffer in exec mode goes into the slot.
fn store_fires(slot: &mut [u8], fires: Fires)
    requires { Slot slot.old }
    ensures { Becomes fires.seconds (words slot.old) (words slot.new) (λ d. fires≔ d (fires_of fires)) }
{
    put(slot, FIRST, fires.first as u64);
    put(slot, COUNT, fires.count as u64);
    put_row(slot, FIRES, &fires.words);
}

// One fire more with its countdown, if there is room.
fn start_fire(slot: &mut [u8], seconds: bool, k: Countdown) -> Result<(), Full>
    requires { Slot slot.old × (counts_seconds (counted k) ≡ seconds) }
    ensures { Added seconds (words slot.old) (words slot.new) (counted k) result }
{
    if MOST_FIRES <= get(slot, COUNT) as usize {
        return Err(Full);
    }
    let fires = load_fires(slot, seconds);
    let next = fires.add(k);
    store_fires(slot, next);
    Ok(())
}

// A tick of the length dt: all fires count down, and those due leave from the front and fire.
fn run_fires(slot: &mut [u8], seconds: bool, dt: u32) -> usize
    requires { Slot slot.old }
    ensures turns { Turns seconds (words slot.old) (words slot.new) (advance_fires dt) [] result }
    ensures upper_bound { result ≤ most_fires }
{
    if get(slot, COUNT) == 0 {
        return 0;
    }
    let fires = load_fires(slot, seconds);
    let next = fires.advance(dt);
    store_fires(slot, next);
    next.fired
}

// A Clock moves on by a tick: whether it fires. Disabled it keeps its time.
fn run_clock(slot: &mut [u8], dt: u64, interval: u64, enabled: bool) -> bool
    requires { Slot slot.old }
    ensures { TurnsAny (words slot.old) (words slot.new) (advance_elapsed dt interval enabled) [] (bit result) }
{
    if !enabled {
        return false;
    }
    let clock = Clock {
        elapsed: get(slot, ELAPSED),
        fired: false,
    };
    let next = clock.advance(dt, interval, enabled);
    put(slot, ELAPSED, next.elapsed);
    put(slot, RUNNING, 0);
    next.fired
}

// A Stopwatch moves on by a tick, if it runs.
fn run_stopwatch(slot: &mut [u8], dt: u64, limit: u64) -> Stopwatch
    requires { Slot slot.old }
    ensures { TurnsAny (words slot.old) (words slot.new) (advance_time dt limit) (stopwatch_moved result).row (stopwatch_moved result).fires }
{
    let time = get(slot, ELAPSED);
    let running = get(slot, RUNNING) != 0;
    let stopwatch = Stopwatch {
        time,
        running,
        shows: false,
        expired: false,
    };
    if !running {
        return stopwatch;
    }
    let next = stopwatch.advance(dt, limit);
    put(slot, ELAPSED, next.time);
    put(slot, RUNNING, u64::from(next.running));
    next
}

// A pin of a Stopwatch: 0 Restart, 2 Resume, any other Pause.
fn press(slot: &mut [u8], p: usize)
    requires { Slot slot.old }
    ensures { BecomesAny (words slot.old) (words slot.new) (pressed p) }
{
    if p == 0 {
        put(slot, ELAPSED, 0);
        put(slot, RUNNING, 1);
        return;
    }
    put(slot, RUNNING, u64::from(p == 2));
}

// ---- gates

// Where the slot of gate g begins, in bytes.
fn slot_at(g: usize) -> usize
    requires { g < 64 }
    ensures { result ≡ slot_at g * 8 }
{
    (SLOTS + SLOT * g) * 8
}

// The countdown that gate g, a buffer, starts for a value that is rising or not.
fn countdown(links: &Links, g: usize, rising: bool) -> Started
    ensures { started result ≡ countdown (net_of links.now) g rising }
{
    let seconds = SECONDS <= links.kind_of_gate(g);
    buffer_countdown(seconds, rising, links.setting(g, 1), links.setting(g, 2))
}

// Gate g, a value buffer, gets a new input.
pub fn buffer_input(links: &Links, delays: &mut [u8], g: usize, v: Value)
    requires { Slots links.now delays.old }
    ensures { DelaysChange links.now (delays.old, delays.new) (λ c old new. new ≡ starting old g (λ d left. buffer_input d v left) (countdown c g (truthy v))) }
{
    if links.gates() <= g {
        return;
    }
    let seconds = SECONDS <= links.kind_of_gate(g);
    let k = countdown(links, g, truthy(v));
    let a = slot_at(g);
    input(&mut delays[a..a + SLOT_BYTES], seconds, v, k.left);
    count_changed(links, delays, k.changed);
}

// Gate g, a value buffer, moves on by a tick of the length dt in f32 bits: what lands.
pub fn buffer_advance(links: &Links, delays: &mut [u8], g: usize, dt: u32) -> Option<Value>
    requires { Slots links.now delays.old }
    ensures { DelaysChange links.now (delays.old, delays.new) (λ c old new. Moves old new g (advance_flight (λ v. countdown c g (truthy v)) dt (delay_in old g)) (row_of result) 0) }
{
    if links.gates() <= g {
        return None;
    }
    let seconds = SECONDS <= links.kind_of_gate(g);
    let a = slot_at(g);
    let landed = fly(links, &mut delays[a..a + SLOT_BYTES], g, seconds, dt);
    count_changed(links, delays, landed.changed);
    landed.what
}

// One fire more of gate g, a buffer in exec mode, if there is room.
pub fn add_fire(links: &Links, delays: &mut [u8], g: usize) -> Result<(), Full>
    requires { Slots links.now delays.old }
    ensures { DelaysChange links.now (delays.old, delays.new) (λ c old new. AddsFire old new g result (countdown c g true)) }
{
    if links.gates() <= g {
        return Ok(());
    }
    let seconds = SECONDS <= links.kind_of_gate(g);
    let k = countdown(links, g, true);
    let a = slot_at(g);
    let filed = start_fire(&mut delays[a..a + SLOT_BYTES], seconds, k.left);
    count_changed(links, delays, k.changed);
    filed
}

// Gate g, a buffer in exec mode, moves on by a tick: how many fire.
pub fn fires_advance(links: &Links, delays: &mut [u8], g: usize, dt: u32) -> usize
    requires { Slots links.now delays.old }
    ensures delays_change { DelaysChange links.now (delays.old, delays.new) (λ _ old new. Moves old new g (advance_fires dt (delay_in old g)) [] result) }
    ensures upper_bound { result ≤ most_fires }
{
    if links.gates() <= g {
        return 0;
    }
    let seconds = SECONDS <= links.kind_of_gate(g);
    let a = slot_at(g);
    run_fires(&mut delays[a..a + SLOT_BYTES], seconds, dt)
}

// Gate g, a Clock, moves on by a tick of dt seconds: whether it fires.
pub fn clock_advance(
    links: &Links,
    delays: &mut [u8],
    g: usize,
    dt: u64,
    interval: u64,
    enabled: bool,
) -> bool
    requires { Slots links.now delays.old }
    ensures { DelaysChange links.now (delays.old, delays.new) (λ _ old new. Moves old new g (advance_elapsed dt interval enabled (delay_in old g)) [] (bit result)) }
{
    if links.gates() <= g {
        let clock = Clock {
            elapsed: 0,
            fired: false,
        };
        let next = clock.advance(dt, interval, enabled);
        return next.fired;
    }
    let a = slot_at(g);
    run_clock(&mut delays[a..a + SLOT_BYTES], dt, interval, enabled)
}

// Gate g, a Stopwatch, moves on by a tick of dt seconds: its state, with what it shows and whether it expires.
pub fn stopwatch_advance(
    links: &Links,
    delays: &mut [u8],
    g: usize,
    dt: u64,
    limit: u64,
) -> Stopwatch
    requires { Slots links.now delays.old }
    ensures { DelaysChange links.now (delays.old, delays.new) (λ _ old new. Moves old new g (advance_time dt limit (delay_in old g)) (stopwatch_moved result).row (stopwatch_moved result).fires) }
{
    if links.gates() <= g {
        return Stopwatch {
            time: 0,
            running: false,
            shows: false,
            expired: false,
        };
    }
    let a = slot_at(g);
    run_stopwatch(&mut delays[a..a + SLOT_BYTES], dt, limit)
}

// A pin of gate g, a Stopwatch: 0 Restart, 2 Resume, any other Pause.
pub fn stopwatch_press(links: &Links, delays: &mut [u8], g: usize, p: usize)
    requires { Slots links.now delays.old }
    ensures { DelaysChange links.now (delays.old, delays.new) (λ _ old new. new ≡ with_delay old g (pressed p (delay_in old g))) }
{
    if links.gates() <= g {
        return;
    }
    let a = slot_at(g);
    press(&mut delays[a..a + SLOT_BYTES], p);
}
