// The records of one Queue, in a ring of 256 slots. They lie in a part of the area `delays`, of 34,832 bytes.
#![tactic(auto)]

ghost use Rattle.words.specs.Words.{words};
ghost use Rattle.std.specs.Prelude.{◌≡◌, map, ◌%◌, ◌<◌, min, get_or, take, drop, option_map};
ghost use Rattle.words.specs.Options.{option_of};
ghost use Rattle.words.specs.Slices.{HasWords};
ghost use Rattle.model.specs.State.{idle, records≔};
ghost use Rattle.model.specs.Delays.{queue_record, hand_out, advance_records, most_records};
ghost use Rattle.queue.specs.Queue.{queued, released, front_if_due, ticked, slot, records, Placed};
ghost use Rattle.queue.specs.Lent.{Part, HoldsPart, in_seconds};

use delays::countdown::{Countdown, of_word};
use std::array;
use words::rows::put_row;
use words::{get, put};

// A record: eight values, by their kinds and contents, travel together with their countdown.
// Stays: two arrays are the form that the project's rules name (docs/DECISIONS.md, "Forms").
#[derive(Clone, Copy)]
pub struct Record {
    pub kinds: [u64; 8],
    pub contents: [u64; 8],
    pub left: Countdown,
}

// The slots of the ring.
const SLOTS: usize = 256;

// The word that says where the front record stands.
const FIRST: usize = 0;

// The word that says how many records there are.
const COUNT: usize = 1;

// Where the countdowns begin, a word for each slot.
const COUNTDOWNS: usize = 2;

// Where the kinds of slot 0 begin.
const KINDS: usize = COUNTDOWNS + SLOTS;

// Where the contents of slot 0 begin.
const CONTENTS: usize = KINDS + 8;

// The words of a row: eight kinds, eight contents.
const ROW: usize = 16;

// How many words and bytes the part of a Queue has.
pub const PART: usize = KINDS + SLOTS * ROW;

pub const PART_BYTES: usize = PART * 8;

// The slot of the front record.
fn first_of(queue: &[u8]) -> usize
    requires { HoldsPart queue.now }
    ensures { result ≡ get_or (words queue.now) 0 0 % most_records }
{
    get(queue, FIRST) as usize % SLOTS
}

// How many records there are.
fn count_of(queue: &[u8]) -> usize
    requires { HoldsPart queue.now }
    ensures { result ≡ min (get_or (words queue.now) 1 0) most_records }
{
    (get(queue, COUNT) as usize).min(SLOTS)
}

// Eight words from word p on.
fn get_eight(queue: &[u8], p: usize) -> [u64; 8]
    requires { HasWords queue.now p 8 }
    ensures { result ≡ take 8 (drop p (words queue.now)) }
{
    array::from_fn(|j| get(queue, p + j))
}

// The record in slot s.
fn load(queue: &[u8], seconds: bool, s: usize) -> Record
    requires { HoldsPart queue.now × (s < most_records) }
    ensures { queued result ≡ slot seconds (words queue.now) s }
{
    let kinds = get_eight(queue, KINDS + s * ROW);
    let contents = get_eight(queue, CONTENTS + s * ROW);
    let left = of_word(seconds, get(queue, COUNTDOWNS + s));
    Record {
        kinds,
        contents,
        left,
    }
}

// A record goes to slot s.
fn store(queue: &mut [u8], s: usize, r: Record)
    requires { HoldsPart queue.old × (s < most_records) }
    ensures { Placed (in_seconds r.left) (words queue.old) (words queue.new) s (queued r) }
{
    put_row(queue, KINDS + s * ROW, &r.kinds);
    put_row(queue, CONTENTS + s * ROW, &r.contents);
    put(queue, COUNTDOWNS + s, r.left.word());
}

// The record in slot s counts down.
fn count_slot(queue: &mut [u8], seconds: bool, dt: u32, s: usize)
    requires { HoldsPart queue.old × (s < most_records) }
    ensures { Placed seconds (words queue.old) (words queue.new) s (ticked dt (slot seconds (words queue.old) s)) }
{
    let left = of_word(seconds, get(queue, COUNTDOWNS + s));
    let next = left.tick_down(dt);
    put(queue, COUNTDOWNS + s, next.word());
}

// All records count down.
fn count_down(queue: &mut [u8], seconds: bool, dt: u32)
    requires { HoldsPart queue.old }
    ensures { records seconds (words queue.new) ≡ map (ticked dt) (records seconds (words queue.old)) }
{
    let first = first_of(queue);
    let count = count_of(queue);
    for i in 0..count {
        count_slot(queue, seconds, dt, (first + i) % SLOTS);
    }
}

// The front record leaves, if it is due.
fn take_front(queue: &mut [u8], seconds: bool) -> Option<Record>
    requires { HoldsPart queue.old }
    ensures queue_value { released result (records seconds (words queue.new)) ≡ hand_out idle (records seconds (words queue.old)) }
    ensures front_value { option_of (option_map queued result) ≡ front_if_due (records seconds (words queue.old)) }
{
    let count = count_of(queue);
    if count == 0 {
        return None;
    }
    let first = first_of(queue);
    let left = of_word(seconds, get(queue, COUNTDOWNS + first));
    if !left.due() {
        return None;
    }
    let front = load(queue, seconds, first);
    put(queue, FIRST, (first + 1) as u64);
    put(queue, COUNT, (count - 1) as u64);
    Some(front)
}

// A new record, behind the others. With 256 records it is dropped.
pub fn push(queue: &mut [u8], r: Record)
    requires { Part queue.old }
    ensures { records (in_seconds r.left) (words queue.new) ≡ (queue_record (records≔ idle (records (in_seconds r.left) (words queue.old))) (queued r).row (queued r).left).records }
{
    let count = count_of(queue);
    if count < SLOTS {
        let s = (first_of(queue) + count) % SLOTS;
        store(queue, s, r);
        put(queue, COUNT, (count + 1) as u64);
    }
}

// A tick of the length dt: all records count down, and the front one alone is handed out, if it is due.
pub fn advance(queue: &mut [u8], seconds: bool, dt: u32) -> Option<Record>
    requires { Part queue.old }
    ensures queue_value { released result (records seconds (words queue.new)) ≡ advance_records dt (records≔ idle (records seconds (words queue.old))) }
    ensures front_value { option_of (option_map queued result) ≡ front_if_due (map (ticked dt) (records seconds (words queue.old))) }
{
    count_down(queue, seconds, dt);
    take_front(queue, seconds)
}
