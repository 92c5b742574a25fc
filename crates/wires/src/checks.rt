// The watched inputs that wait to be checked, and what the last check of each read.
ghost use Rattle.std.specs.Prelude.{◌≡◌, false, length, slice_index_or, slice_set};
ghost use Rattle.std.proofs.Math.Option.{none, some};
ghost use Rattle.model.specs.State.{last≔};
ghost use Rattle.model.specs.Wires.{watch};
ghost use Rattle.model.specs.Settle.{taken};
ghost use Rattle.links.specs.Lent.{Room};
ghost use Rattle.words.specs.Options.{option_of};
ghost use Rattle.wires.specs.Checks.{oldest_check, oldest_taken};
ghost use Rattle.wires.specs.Lent.{wires_in, Turns, TurnsBesideStack};

use crate::layout::{COUNT, HEAD, LAST_CONTENTS, LAST_KINDS, LATE_CHECKS, PLACES, QUEUED, SLOTS};
use links::Links;
use links::layout::MOST_INPUTS;
use model::Value;
use value::{content_of, kind_of, value_of};
use words::{get, put};

// An input that is to be checked, and whether it is marked for a late check.
#[derive(Clone, Copy)]
pub struct Check {
    pub input: usize,
    pub late: bool,
}

// Watched input i waits to be checked; one that waits already keeps its place. The marking stack stays as it is.
pub fn watch(links: &Links, values: &mut [u8], i: usize)
    requires { Room values.old }
    ensures { TurnsBesideStack links.now (values.old, values.new) (λ _ w. watch w i) }
{
    if i < links.inputs() {
        if get(values, QUEUED + i) == 0 {
            let n = get(values, COUNT) as usize;
            if n < MOST_INPUTS {
                let h = get(values, HEAD) as usize;
                put(values, QUEUED + i, 1);
                put(values, SLOTS + (h % PLACES + n) % PLACES, i as u64);
                put(values, COUNT, n as u64 + 1);
            }
        }
    }
}

// How many inputs wait to be checked.
pub fn checks_waiting(links: &Links, values: &[u8]) -> u64
    requires { Room values.now }
    ensures { result ≡ length (wires_in links.now values.now).to_check }
{
    get(values, COUNT)
}

// Input i may be queued again, and its mark for a late check is gone: whether it had one.
fn unqueue(links: &Links, values: &mut [u8], i: usize) -> bool
    requires { Room values.old }
    ensures value { result ≡ slice_index_or (wires_in links.now values.old).late_checks i false }
    ensures turns { Turns links.now (values.old, values.new) (λ _ w. taken w i w.to_check) }
{
    if i < links.inputs() {
        let late = get(values, LATE_CHECKS + i) != 0;
        put(values, QUEUED + i, 0);
        put(values, LATE_CHECKS + i, 0);
        return late;
    }
    false
}

// The input that waits longest is taken, and may be queued again.
pub fn take_check(links: &Links, values: &mut [u8]) -> Option<Check>
    requires { Room values.old }
    ensures value { option_of result ≡ oldest_check (wires_in links.now values.old) }
    ensures turns { Turns links.now (values.old, values.new) (λ _ w. oldest_taken w) }
{
    let n = get(values, COUNT);
    if n == 0 {
        return None;
    }
    let h = get(values, HEAD) as usize % PLACES;
    let input = get(values, SLOTS + h) as usize;
    put(values, HEAD, h as u64 + 1);
    put(values, COUNT, n - 1);
    let late = unqueue(links, values, input);
    Some(Check { input, late })
}

// What the last check of input i read.
pub fn last(links: &Links, values: &[u8], i: usize) -> Option<Value>
    requires { Room values.now }
    ensures { option_of result ≡ slice_index_or (wires_in links.now values.now).last i none }
{
    if links.inputs() <= i {
        return None;
    }
    let kind = get(values, LAST_KINDS + i);
    if kind == 0 {
        return None;
    }
    let content = get(values, LAST_CONTENTS + i);
    Some(value_of(kind - 1, content))
}

// The last check of input i read v.
pub fn set_last(links: &Links, values: &mut [u8], i: usize, v: Value)
    requires { Room values.old }
    ensures { Turns links.now (values.old, values.new) (λ _ w. last≔ w (slice_set w.last i (some v))) }
{
    if i < links.inputs() {
        put(values, LAST_KINDS + i, kind_of(v) + 1);
        put(values, LAST_CONTENTS + i, content_of(v));
    }
}
