// What the opening files in the lists of a tick: Fires, delivered events, stimuli. Each stops at the first that finds its list full.
ghost use Rattle.words.specs.Words.{words};
ghost use Rattle.std.specs.Prelude.{◌≡◌, ◌&&◌, [], ◌∷◌, map, ◌+◌, eqb};
ghost use Rattle.words.specs.Slices.{HasWords};
ghost use Rattle.schedule.specs.Schedule.{to_late, to_delivered, to_pending};
ghost use Rattle.model.specs.Base.{joined};
ghost use Rattle.model.specs.Value.{same};
ghost use Rattle.model.specs.Circuit.{kind_of_gate, setting};
ghost use Rattle.model.specs.Opening.{fire, delivered};
ghost use Rattle.links.specs.Lent.{net_of, Room, Short};
ghost use Rattle.units.specs.Lent.{UnitsChange};
ghost use Rattle.opening.specs.Opening.{stimuli_of};
ghost use Rattle.opening.specs.Stages.{Puts, event, heard_by};

use links::{Links, first_gate, later_gates};
use lists::Full;
use model::Value;
use records::forms::{FIRE, STIMULUS};
use units::Place;
use units::entries::entry;
use units::events::{events, sender};
use units::raising::{activate, deliver};
use value::same;
use words::get;

// n Fires of gate g, to late.
pub fn fire_late(links: &Links, units: &mut [u8], g: usize, n: usize) -> Result<(), Full>
    requires { Room units.old × Short g }
    ensures { UnitsChange links.now (units.old, units.new) (λ c old new. Puts c old new result to_late (fire n g)) }
{
    let x = entry(g, FIRE, 0);
    for _ in 0..n {
        activate(links, units, Place::Late, x)?;
    }
    Ok(())
}

// One Fire of gate g, to pending.
pub fn fire_pending(links: &Links, units: &mut [u8], g: usize) -> Result<(), Full>
    requires { Room units.old × Short g }
    ensures { UnitsChange links.now (units.old, units.new) (λ c old new. Puts c old new result to_pending (fire 1 g)) }
{
    activate(links, units, Place::Pending, entry(g, FIRE, 0))
}

// ---- events

// Whether gate r receives what a gate of this kind sends on this channel.
fn receives(links: &Links, kind: u64, channel: Value, r: usize) -> bool
    ensures { result ≡ (eqb (kind_of_gate (net_of links.now) r) (kind + 2) && same channel (setting (net_of links.now) r 0)) }
{
    let k = links.kind_of_gate(r);
    if k < 2 {
        return false;
    }
    if k - 2 != kind {
        return false;
    }
    same(channel, links.setting(r, 0))
}

// Event e, sent by a gate of this kind on this channel, to gate r, if r receives it.
fn deliver_to(
    links: &Links,
    units: &mut [u8],
    kind: u64,
    channel: Value,
    e: usize,
    r: usize,
) -> Result<(), Full>
    requires { Room units.old × Short e × Short r }
    ensures { UnitsChange links.now (units.old, units.new) (λ c old new. Puts c old new result to_delivered (heard_by c kind channel (event old e).row (r ∷ []))) }
{
    if receives(links, kind, channel, r) {
        return deliver(units, r, e);
    }
    Ok(())
}

// Event e of the tick before, to the receivers of its channel, in their order.
fn deliver_event(links: &Links, units: &mut [u8], e: usize) -> Result<(), Full>
    requires { Room units.old × Short e }
    ensures { UnitsChange links.now (units.old, units.new) (λ c old new. Puts c old new result to_delivered (delivered c (event old e))) }
{
    let g = sender(units, e);
    let kind = links.kind_of_gate(g);
    let channel = links.setting(g, 1);
    let mut d = links.receivers();
    let mut r = first_gate(d);
    while r < 64 {
        d = later_gates(d);
        deliver_to(links, units, kind, channel, e, r)?;
        r = first_gate(d);
    }
    Ok(())
}

// All events of the tick before, in the order sent.
pub fn deliver_all(links: &Links, units: &mut [u8]) -> Result<(), Full>
    requires { Room units.old }
    ensures { UnitsChange links.now (units.old, units.new) (λ c old new. Puts c old new result to_delivered (joined (map (delivered c) old.events))) }
{
    let n = events(units);
    for e in 0..n {
        deliver_event(links, units, e)?;
    }
    Ok(())
}

// ---- stimuli

// n stimuli of the script, in their order.
pub fn stimulate(
    links: &Links,
    units: &mut [u8],
    script: &[u8],
    gates_at: usize,
    constants_at: usize,
    n: usize,
) -> Result<(), Full>
    requires { Room units.old × HasWords script.now gates_at n × HasWords script.now constants_at n }
    ensures { UnitsChange links.now (units.old, units.new) (λ c old new. Puts c old new result to_late (stimuli_of c (words script.now) gates_at constants_at n)) }
{
    for k in 0..n {
        let g = get(script, gates_at + k) as usize;
        let constant = get(script, constants_at + k) as usize;
        activate(links, units, Place::Late, entry(g, STIMULUS, constant))?;
    }
    Ok(())
}
