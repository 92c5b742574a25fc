// What is raised, and what waits.
ghost use Rattle.words.specs.Words.{words};
ghost use Rattle.std.specs.Prelude.{◌≡◌, [], map, ◌+◌, ◌*◌, ◌<◌, ◌≤◌, length};
ghost use Rattle.schedule.specs.Schedule.{most_units, most_waiting};
ghost use Rattle.model.specs.Circuit.{rank_of_gate};
ghost use Rattle.model.specs.Chain.{no_calls};
// The definition `units` is named `view` here, beside the slice of that name.
ghost use Rattle.links.specs.Links.{net};
ghost use Rattle.links.specs.Lent.{net_of, Room};
ghost use Rattle.lists.specs.Lists.{downward};
ghost use Rattle.units.specs.View.{gate_of, entry_of, act_of, event_of, units as view};
ghost use Rattle.units.specs.declared.Place.TheVariants.{Late, Pending};
ghost use Rattle.units.specs.Raising.{late≔, delivered≔, pending≔, carried≔, with_lists, by_rank, all_by_rank, activate, deliver};
ghost use Rattle.units.specs.Calls.{with_calls, with_begun, act_taken, reopened, empty};
ghost use Rattle.units.specs.Lent.{Reads, Changes, UnitsChange, Files, carry, TakesOff, with_halves, FilesByRank};

use crate::Place;
use crate::entries::{entry, gate_of};
use crate::layout::{
    BEGUN, BEGUN_COUNT, CARRIED, CARRIED_COUNT, DELIVERED, DELIVERED_COUNT, FIRST_COUNT,
    FORKS_COUNT, HALF, LATE, LATE_COUNT, MOST_DELIVERED, PENDING, PENDING_COUNT, SECOND_COUNT,
    STACK_COUNT,
};
use links::Links;
use lists::{Full, dequeue, enqueue, stack_pop, stack_push};
use records::MOST_WAITING;
use words::{get, put};

// x, of that rank, goes below those of the n entries, from the last one down, whose rank is not above its own; these move up by one.
fn place(links: &Links, list: &mut [u8], n: usize, x: u64, rank: u64)
    requires { ((n + 2) * 8 ≤ length list.old) × (n < most_units) × (rank ≡ rank_of_gate (net links.now) (gate_of x)) }
    ensures { map (act_of (net_of links.now)) (downward (n + 1) (words list.new)) ≡ by_rank (net_of links.now) (act_of (net_of links.now) x) (map (act_of (net_of links.now)) (downward n (words list.old))) }
{
    for i in (0..n).rev() {
        let y = get(list, i + 1);
        if rank < links.rank_of_gate(gate_of(y)) {
            put(list, i + 2, x);
            return;
        }
        put(list, i + 2, y);
    }
    put(list, 1, x);
}

// x, of that rank, joins a list by rank, behind all whose rank is not above its own, if there is room.
fn file(links: &Links, list: &mut [u8], x: u64, rank: u64) -> Result<(), Full>
    requires { (length list.old ≡ (most_waiting + 1) * 8) × (rank ≡ rank_of_gate (net links.now) (gate_of x)) }
    ensures { FilesByRank (net_of links.now) (words list.old) (words list.new) result x }
{
    let n = lists::count(list, MOST_WAITING);
    if MOST_WAITING <= n {
        return Err(Full);
    }
    place(links, list, n, x, rank);
    put(list, 0, (n + 1) as u64);
    Ok(())
}

// x, of that rank, joins the late list, if there is room.
fn file_late(links: &Links, units: &mut [u8], x: u64, rank: u64) -> Result<(), Full>
    requires { Room units.old × (rank ≡ rank_of_gate (net links.now) (gate_of x)) }
    ensures { UnitsChange links.now (units.old, units.new) (λ c old new. Files old new result (activate c Late (act_of c x) old.lists)) }
{
    file(links, &mut units[LATE..CARRIED], x, rank)
}

// x, of that rank, joins the pending list, if there is room.
fn file_pending(links: &Links, units: &mut [u8], x: u64, rank: u64) -> Result<(), Full>
    requires { Room units.old × (rank ≡ rank_of_gate (net links.now) (gate_of x)) }
    ensures { UnitsChange links.now (units.old, units.new) (λ c old new. Files old new result (activate c Pending (act_of c x) old.lists)) }
{
    file(links, &mut units[PENDING..LATE], x, rank)
}

// x is carried, behind the others, if there is room.
fn carry(units: &mut [u8], x: u64) -> Result<(), Full>
    requires { Room units.old }
    ensures { Changes (units.old, units.new) (λ c old new. Files old new result (carry (act_of c x) old.lists)) }
{
    stack_push(&mut units[CARRIED..DELIVERED], MOST_WAITING, x)
}

// x goes where it belongs, if there is room.
pub fn activate(links: &Links, units: &mut [u8], to: Place, x: u64) -> Result<(), Full>
    requires { Room units.old }
    ensures { UnitsChange links.now (units.old, units.new) (λ c old new. Files old new result (activate c to (act_of c x) old.lists)) }
{
    let rank = links.rank_of_gate(gate_of(x));
    match to {
        Place::Late => file_late(links, units, x, rank),
        Place::Pending => file_pending(links, units, x, rank),
        Place::After(reached) => {
            if rank <= reached {
                carry(units, x)
            } else {
                file_pending(links, units, x, rank)
            }
        }
    }
}

// Event e is delivered to gate g, behind the others, if there is room.
pub fn deliver(units: &mut [u8], g: usize, e: usize) -> Result<(), Full>
    requires { Room units.old }
    ensures { Changes (units.old, units.new) (λ _ old new. Files old new result (deliver (event_of old.events (entry_of g 1 e)) old.lists)) }
{
    let x = entry(g, 1, e);
    enqueue(&mut units[DELIVERED..BEGUN], MOST_DELIVERED, x)
}

// The next one of the late list is taken off.
pub fn take_late(units: &mut [u8]) -> Option<u64>
    requires { Room units.old }
    ensures { Changes (units.old, units.new) (λ c old new. TakesOff old new (act_taken (act_of c) result) old.lists.late (late≔ old.lists)) }
{
    stack_pop(&mut units[LATE..CARRIED], MOST_WAITING)
}

// The oldest of the delivered events is taken off.
pub fn take_delivered(units: &mut [u8]) -> Option<u64>
    requires { Room units.old }
    ensures { Changes (units.old, units.new) (λ _ old new. TakesOff old new (act_taken (event_of old.events) result) old.lists.delivered (delivered≔ old.lists)) }
{
    dequeue(&mut units[DELIVERED..BEGUN], MOST_DELIVERED)
}

// The next one that is pending is taken off.
pub fn take_pending(units: &mut [u8]) -> Option<u64>
    requires { Room units.old }
    ensures { Changes (units.old, units.new) (λ c old new. TakesOff old new (act_taken (act_of c) result) old.lists.pending (pending≔ old.lists)) }
{
    stack_pop(&mut units[PENDING..LATE], MOST_WAITING)
}

// How many are carried.
pub fn carried(units: &[u8]) -> usize
    requires { Room units.now }
    ensures reads { Reads units.now (λ _ u. result ≡ length u.lists.carried) }
    ensures upper_bound { result ≤ most_waiting }
{
    lists::count(&units[CARRIED..DELIVERED], MOST_WAITING)
}

// The late list is empty: the carried are filed there, in the order raised.
fn file_carried(links: &Links, units: &mut [u8])
    requires { Room units.old × ((view (net links.now) units.old).lists.late ≡ []) }
    ensures { UnitsChange links.now (units.old, units.new) (λ c old new. new ≡ with_lists old (late≔ old.lists (all_by_rank c old.lists.carried []))) }
{
    let n = carried(units);
    for k in 0..n {
        let x = get(units, CARRIED_COUNT + (k + 1));
        // the late list began empty, and has room for all carried
        let _ = file_late(links, units, x, links.rank_of_gate(gate_of(x)));
    }
}

// No call waits, nothing is pending or carried, no unit has begun.
fn clear_rest(units: &mut [u8])
    requires { Room units.old }
    ensures { Changes (units.old, units.new) (λ _ old new. new ≡ with_begun (with_calls (with_lists old (carried≔ (pending≔ old.lists []) [])) no_calls) []) }
{
    put(units, STACK_COUNT, 0);
    put(units, FORKS_COUNT, 0);
    put(units, PENDING_COUNT, 0);
    put(units, CARRIED_COUNT, 0);
    put(units, BEGUN_COUNT, 0);
}

// What the outbox holds is what the tick before sent; the other half is the outbox, and is empty. Nothing is delivered.
fn switch_half(units: &mut [u8])
    requires { Room units.old }
    ensures { Changes (units.old, units.new) (λ _ old new. new ≡ with_halves (with_lists old (delivered≔ old.lists [])) [] old.outbox) }
{
    put(units, DELIVERED_COUNT, 0);
    if get(units, HALF) == 0 {
        put(units, HALF, 1);
        put(units, SECOND_COUNT, 0);
    } else {
        put(units, HALF, 0);
        put(units, FIRST_COUNT, 0);
    }
}

// There is no event, and nothing is delivered.
fn clear_events(units: &mut [u8])
    requires { Room units.old }
    ensures { Changes (units.old, units.new) (λ _ old new. new ≡ with_halves (with_lists old (delivered≔ old.lists [])) [] []) }
{
    put(units, FIRST_COUNT, 0);
    put(units, SECOND_COUNT, 0);
    put(units, DELIVERED_COUNT, 0);
}

// The next tick begins: what was carried is late, nothing else waits, no call, no unit has begun, and the outbox is what the tick before sent.
pub fn next_tick(links: &Links, units: &mut [u8])
    requires { Room units.old }
    ensures { UnitsChange links.now (units.old, units.new) (λ c old new. new ≡ reopened c old) }
{
    put(units, LATE_COUNT, 0);
    file_carried(links, units);
    clear_rest(units);
    switch_half(units);
}

// The lists at the start of a run, whatever the area held.
pub fn start(links: &Links, units: &mut [u8])
    requires { Room units.old }
    ensures { UnitsChange links.now (units.old, units.new) (λ _ old new. new ≡ empty old.rest) }
{
    put(units, LATE_COUNT, 0);
    clear_rest(units);
    clear_events(units);
}
