// The records of Queues in the lent area `delays`, each Queue in its own part, and the area at the start of a run.
#![tactic(auto)]

ghost use Rattle.words.specs.Words.{words};
ghost use Rattle.std.specs.Prelude.{◌≡◌, true, [], ◌+◌, ◌*◌, ◌≤◌, eqb, length, get_or, replicate};
ghost use Rattle.words.specs.Slices.{SameTail};
ghost use Rattle.model.specs.Circuit.{kind_of_gate};
ghost use Rattle.model.specs.State.{idle};
ghost use Rattle.model.specs.Delays.{queue_record, advance_records};
ghost use Rattle.delays.specs.States.{started};
ghost use Rattle.queue.specs.Queue.{released};
ghost use Rattle.links.specs.Links.{net};
ghost use Rattle.links.specs.Lent.{net_of};
ghost use Rattle.states.specs.View.{delay_in, starting, is_queue, queue_at, queue_countdown, Moves};
ghost use Rattle.states.specs.Lent.{SlotsFit, Parts, Slots, SlotsStay, DelaysChange};
ghost use Rattle.queues.specs.Start.{Cleared, given, next_part, Numbered};

use delays::countdown::{Started, in_seconds, in_ticks};
use kinds::numbers::{QUEUE_IN_SECONDS, QUEUE_IN_TICKS};
use links::Links;
use model::Value;
use queue::{PART, PART_BYTES, Record, advance, push};
use states::counting::count_changed;
use states::slots::PARTS;
use value::rows::{contents_of, kinds_of};
use value::{as_float, as_int};
use words::{get, put, write};

// The countdown that a record starts by its wait.
fn countdown(seconds: bool, wait: Value) -> Started
    ensures { started result ≡ queue_countdown seconds wait }
{
    if seconds {
        in_seconds(as_float(wait, 0))
    } else {
        in_ticks(as_int(wait, 0))
    }
}

// Where the part of Queue g begins, in bytes.
fn part_at(links: &Links, delays: &[u8], g: usize) -> usize
    requires { Slots links.now delays.now × (is_queue (net links.now) g ≡ true) }
    ensures { (result ≡ queue_at (get_or (words delays.now) g 0) * 8) × (result + 34832 ≤ length delays.now) }
{
    let p = get(delays, g) as usize;
    (PARTS + PART * p) * 8
}

// A new record of Queue g: eight values and its wait. With 256 records it is dropped.
pub fn queue_record(links: &Links, delays: &mut [u8], g: usize, row: [Value; 8], wait: Value)
    requires { Slots links.now delays.old × (is_queue (net links.now) g ≡ true) }
    ensures { DelaysChange links.now (delays.old, delays.new) (λ c old new. new ≡ starting old g (λ d left. queue_record d row left) (queue_countdown (eqb (kind_of_gate c g) 17) wait)) }
{
    let k = countdown(links.kind_of_gate(g) == QUEUE_IN_SECONDS, wait);
    let a = part_at(links, delays, g);
    let r = Record {
        kinds: kinds_of(&row),
        contents: contents_of(&row),
        left: k.left,
    };
    push(&mut delays[a..a + PART_BYTES], r);
    count_changed(links, delays, k.changed);
}

// Queue g moves on by a tick of the length dt in f32 bits: the front record, if it is due.
pub fn queue_advance(links: &Links, delays: &mut [u8], g: usize, dt: u32) -> Option<Record>
    requires { Slots links.now delays.old × (is_queue (net links.now) g ≡ true) }
    ensures { DelaysChange links.now (delays.old, delays.new) (λ _ old new. Moves old new g (advance_records dt (delay_in old g)) (released result []).row (released result []).fires) }
{
    let seconds = links.kind_of_gate(g) == QUEUE_IN_SECONDS;
    let a = part_at(links, delays, g);
    advance(&mut delays[a..a + PART_BYTES], seconds, dt)
}

// ---- the start

// The table of parts, the slots and the count are cleared.
fn clear(delays: &mut [u8])
    requires { SlotsFit delays.old }
    ensures { Cleared (queue_at 0) (words delays.old) (words delays.new) × SameTail (delays.old, delays.new) }
{
    for k in 0..PARTS {
        put(delays, k, 0);
    }
}

// Gate g, if it is a Queue, has part n, with no records: the part that the next Queue has.
fn give_part(links: &Links, delays: &mut [u8], g: usize, n: usize) -> usize
    requires { n ≤ 64 }
    ensures { (words delays.new ≡ given (net_of links.now) g n (words delays.old)) × SameTail (delays.old, delays.new) × (result ≡ next_part (net_of links.now) g n) }
{
    let kind = links.kind_of_gate(g);
    if kind < QUEUE_IN_TICKS {
        return n;
    }
    if QUEUE_IN_SECONDS < kind {
        return n;
    }
    write(delays, g, n as u64);
    write(delays, PARTS + PART * n + 1, 0);
    n + 1
}

// Each Queue has the part of its number.
fn give_parts(links: &Links, delays: &mut [u8])
    requires { Parts links.now delays.old }
    ensures { Numbered (net_of links.now) (length (net_of links.now).kinds) (words delays.old) (words delays.new) × SameTail (delays.old, delays.new) }
{
    let count = links.gates();
    let mut n: usize = 0;
    for g in 0..count {
        n = give_part(links, delays, g, n);
    }
}

// The small states at the start of a run, whatever the area held.
pub fn start(links: &Links, delays: &mut [u8])
    requires { Parts links.now delays.old }
    ensures { DelaysChange links.now (delays.old, delays.new) (λ c old new. (new.delays ≡ replicate (length c.kinds) idle) × (new.changed ≡ 0) × (new.rest ≡ old.rest) × SlotsStay links.now delays.new) }
{
    clear(delays);
    give_parts(links, delays);
}
