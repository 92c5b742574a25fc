// The late pass and the main pass of a tick.
#![tactic(auto)]

ghost use Rattle.std.specs.Prelude.{◌≡◌, List, ◌<◌, ◌-◌, length};
ghost use Rattle.schedule.specs.Schedule.{most_units};
ghost use Rattle.model.specs.Circuit.{Circuit};
ghost use Rattle.model.specs.State.{Send};
ghost use Rattle.model.specs.Closing.{as_listed};
// The definition `units` is named `view` here, beside the slice of that name.
ghost use Rattle.links.specs.Links.{net};
ghost use Rattle.links.specs.Lent.{Room};
ghost use Rattle.states.specs.Lent.{Slots, SlotsStay};
ghost use Rattle.units.specs.View.{listed_of, units as view};
ghost use Rattle.units.specs.Calls.{first_of};
ghost use Rattle.units.specs.Lent.{Reads, Changes};
ghost use Rattle.areas.specs.Lent.{OverAll};
ghost use Rattle.unit.specs.Unit.{FewCalls, act_in};
ghost use Rattle.passes.specs.Taking.{next_of, Takes, over};
ghost use Rattle.passes.specs.Lent.{PassesLate, PassesMain, LeavesMain, BeginsUnit};

use chain::Ran;
use links::Links;
use records::MOST_UNITS;
use stops::LIST_FULL;
use unit::{Act, unit};
use units::Place;
use units::begun::{begin_unit, begun};
use units::counts::{delivered, late, pending};
use units::entries::{entry, gate_of};
use units::raising::{take_delivered, take_late, take_pending};

// How many units may still begin.
fn units_left(units: &[u8]) -> usize
    requires { Room units.now }
    ensures { Reads units.now (λ _ u. result ≡ most_units - length u.begun) }
{
    MOST_UNITS.saturating_sub(begun(units))
}

// The entry by which a unit begun is listed.
fn listed(a: Act) -> u64
    ensures { (c : Circuit) (es : List Send) → listed_of result ≡ as_listed (act_in c es a) }
{
    match a {
        Act::Waiting(x) => x,
        Act::Event(x) => entry(gate_of(x), 1, 0),
    }
}

// A unit begins and runs, where one more may begin.
fn begin(
    links: &Links,
    values: &mut [u8],
    units: &mut [u8],
    delays: &mut [u8],
    a: Act,
    left: u64,
    to: Place,
) -> Ran
    requires { Room values.old × Room units.old × Slots links.now delays.old × FewCalls (net links.now) × (length (view (net links.now) units.old).begun < most_units) }
    ensures over_all { OverAll links.now (values.old, values.new) (units.old, units.new) (delays.old, delays.new) (λ c old new. BeginsUnit c old new a left to result) }
    ensures slots_stay { SlotsStay links.now delays.new }
{
    // one more may begin
    let _ = begin_unit(units, listed(a));
    unit(links, values, units, delays, a, left, to)
}

// The next one of the late pass is taken off: of the late list, and where that is empty of the delivered events.
fn next_late(units: &mut [u8]) -> Option<Act>
    requires { Room units.old }
    ensures { Changes (units.old, units.new) (λ c old new. Takes c old new result) }
{
    if let Some(x) = take_late(units) {
        return Some(Act::Waiting(x));
    }
    let x = take_delivered(units)?;
    Some(Act::Event(x))
}

// The end of a late pass in which no unit may begin any more: a stop if one waits.
fn late_over(units: &[u8], left: u64) -> Ran
    requires { Room units.now }
    ensures { Reads units.now (λ _ u. (result.left ≡ left) × (result.stop ≡ over (next_of u.lists.late u.lists.delivered))) }
{
    if late(units) != 0 {
        return Ran {
            left,
            stop: LIST_FULL,
        };
    }
    if delivered(units) != 0 {
        return Ran {
            left,
            stop: LIST_FULL,
        };
    }
    Ran { left, stop: 0 }
}

// The late pass: what is late begins by rank, and a delivered event only while nothing else is late.
pub fn late_pass(
    links: &Links,
    values: &mut [u8],
    units: &mut [u8],
    delays: &mut [u8],
    left: u64,
) -> Ran
    requires { Room values.old × Room units.old × Slots links.now delays.old × FewCalls (net links.now) }
    ensures over_all { OverAll links.now (values.old, values.new) (units.old, units.new) (delays.old, delays.new) (λ c old new. PassesLate c old new left result) }
    ensures over_all_2 { OverAll links.now (values.old, values.new) (units.old, units.new) (delays.old, delays.new) (λ _ old new. LeavesMain old new) }
    ensures slots_stay { SlotsStay links.now delays.new }
{
    let mut rest = left;
    let n = units_left(units);
    for _ in 0..n {
        let Some(a) = next_late(units) else {
            return Ran {
                left: rest,
                stop: 0,
            };
        };
        let r = begin(links, values, units, delays, a, rest, Place::Late);
        if r.stop != 0 {
            return r;
        }
        rest = r.left;
    }
    late_over(units, rest)
}

// The end of a main pass in which no unit may begin any more: a stop if one waits.
fn main_over(units: &[u8], left: u64) -> Ran
    requires { Room units.now }
    ensures { Reads units.now (λ _ u. (result.left ≡ left) × (result.stop ≡ over (first_of u.lists.pending))) }
{
    if pending(units) != 0 {
        return Ran {
            left,
            stop: LIST_FULL,
        };
    }
    Ran { left, stop: 0 }
}

// The main pass: what is pending begins by rank; what is raised at a rank that it has reached is carried.
pub fn main_pass(
    links: &Links,
    values: &mut [u8],
    units: &mut [u8],
    delays: &mut [u8],
    left: u64,
) -> Ran
    requires { Room values.old × Room units.old × Slots links.now delays.old × FewCalls (net links.now) }
    ensures over_all { OverAll links.now (values.old, values.new) (units.old, units.new) (delays.old, delays.new) (λ c old new. PassesMain c old new left result) }
    ensures slots_stay { SlotsStay links.now delays.new }
{
    let mut rest = left;
    let n = units_left(units);
    for _ in 0..n {
        let Some(x) = take_pending(units) else {
            return Ran {
                left: rest,
                stop: 0,
            };
        };
        let reached = links.rank_of_gate(gate_of(x));
        let r = begin(
            links,
            values,
            units,
            delays,
            Act::Waiting(x),
            rest,
            Place::After(reached),
        );
        if r.stop != 0 {
            return r;
        }
        rest = r.left;
    }
    main_over(units, rest)
}
