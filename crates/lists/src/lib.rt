// Bounded lists of words, each in a part of an area: first in first out, and last in first out.
#![tactic(auto)]

ghost use Rattle.std.specs.Prelude.{◌≡◌, [], ◌∷◌, ◌++◌, ◌+◌, ◌*◌, ◌<◌, ◌≤◌, length, drop};
ghost use Rattle.words.specs.Words.{words, Stored};
ghost use Rattle.lists.specs.Lists.{stacked, wrapped, first_slot, queued, filed, if_room, taken, Emptied};

use words::{get, put};

// A list has no room for another entry. Nothing changes then.
#[derive(Clone, Copy, PartialEq, Eq, Debug)]
pub struct Full;

// The word that says how many entries there are.
const COUNT: usize = 0;

// The word of a ring that says in which slot the first entry stands.
const FIRST: usize = 1;

// The word of a ring that is slot 0.
const SLOTS: usize = 2;

// How many entries there are.
pub fn count(list: &[u8], most: usize) -> usize
    requires { 8 ≤ length list.now }
    ensures value { result ≡ length (stacked most (words list.now)) }
    ensures value_2 { result ≡ length (queued most (words list.now)) }
    ensures upper_bound { result ≤ most }
{
    let n = get(list, COUNT) as usize;
    n.min(most)
}

// The list becomes empty, whatever kind it is of. Only its count is stored.
pub fn clear(list: &mut [u8])
    requires { 8 ≤ length list.old }
    ensures emptied { Emptied (words list.new) }
    ensures stored { Stored list.old list.new 0 0 }
{
    put(list, COUNT, 0);
}

// x on top of a stack.
pub fn stack_push(list: &mut [u8], most: usize, x: u64) -> Result<(), Full>
    requires { (length list.old ≡ (most + 1) * 8) × (most ≤ 1024) }
    ensures value { result ≡ filed most (stacked most (words list.old)) }
    ensures list_value { stacked most (words list.new) ≡ if_room most (stacked most (words list.old)) (x ∷ stacked most (words list.old)) }
{
    let height = count(list, most);
    if most <= height {
        return Err(Full);
    }
    put(list, height + 1, x);
    put(list, COUNT, (height + 1) as u64);
    Ok(())
}

// The newest of a stack is taken off.
pub fn stack_pop(list: &mut [u8], most: usize) -> Option<u64>
    requires { (length list.old ≡ (most + 1) * 8) × (most ≤ 1024) }
    ensures value { result ≡ taken (stacked most (words list.old)) }
    ensures list_value { stacked most (words list.new) ≡ drop 1 (stacked most (words list.old)) }
{
    let height = count(list, most);
    if height == 0 {
        return None;
    }
    let x = get(list, height);
    put(list, COUNT, (height - 1) as u64);
    Some(x)
}

// Slot i of a ring, where past the last slot the first one follows.
fn wrapped(most: usize, i: usize) -> usize
    requires { i < most + most }
    ensures { (result ≡ wrapped most i) × (result < most) }
{
    if i < most { i } else { i - most }
}

// The slot of a ring's first entry.
fn first_slot(list: &[u8], most: usize) -> usize
    requires { (16 ≤ length list.now) × (0 < most) }
    ensures { (result ≡ first_slot most (words list.now)) × (result < most) }
{
    let i = get(list, FIRST) as usize;
    if i < most { i } else { 0 }
}

// x goes behind the others of a ring.
pub fn enqueue(list: &mut [u8], most: usize, x: u64) -> Result<(), Full>
    requires { (length list.old ≡ (most + 2) * 8) × (most ≤ 1024) }
    ensures value { result ≡ filed most (queued most (words list.old)) }
    ensures list_value { queued most (words list.new) ≡ if_room most (queued most (words list.old)) (queued most (words list.old) ++ x ∷ []) }
{
    let held = count(list, most);
    if most <= held {
        return Err(Full);
    }
    let i = wrapped(most, first_slot(list, most) + held);
    put(list, SLOTS + i, x);
    put(list, COUNT, (held + 1) as u64);
    Ok(())
}

// The oldest of a ring is taken off.
pub fn dequeue(list: &mut [u8], most: usize) -> Option<u64>
    requires { (length list.old ≡ (most + 2) * 8) × (most ≤ 1024) }
    ensures value { result ≡ taken (queued most (words list.old)) }
    ensures list_value { queued most (words list.new) ≡ drop 1 (queued most (words list.old)) }
{
    let held = count(list, most);
    if held == 0 {
        return None;
    }
    let i = first_slot(list, most);
    let x = get(list, SLOTS + i);
    put(list, FIRST, wrapped(most, i + 1) as u64);
    put(list, COUNT, (held - 1) as u64);
    Some(x)
}
