// Stale gates are recomputed, each after all stale gates that it reads.
ghost use Rattle.std.specs.Prelude.{◌≡◌, ◌+◌, ◌<◌, ◌≤◌, length};
ghost use Rattle.model.specs.Base.{each, from};
ghost use Rattle.model.specs.Kinds.{kind_at};
ghost use Rattle.model.specs.Circuit.{kind_of_gate};
ghost use Rattle.model.specs.Wires.{compute, recompute, behind, refresh_to, refresh, refresh_all, ready};
ghost use Rattle.links.specs.Lent.{net_of, Room};
ghost use Rattle.wires.specs.Lent.{wires_in, Turns};

use crate::layout::{DIRTY, DT, UPTIME};
use crate::reading::{look, show};
use crate::stale::{clean, is_dirty};
use kinds;
use links::Links;
use model::Value;
use value::truthy;
use words::bits::Bits;
use words::get;

// What pure gate g gives.
pub fn compute(links: &Links, values: &[u8], g: usize) -> Value
    requires { Room values.now }
    ensures { result ≡ compute (net_of links.now) (wires_in links.now values.now) g }
{
    match links.kind_of_gate(g) {
        // a Select
        1 => {
            let choice = look(links, values, links.input(g, 0));
            if truthy(choice) {
                look(links, values, links.input(g, 2))
            } else {
                look(links, values, links.input(g, 1))
            }
        }
        // a Reroute
        2 => look(links, values, links.input(g, 0)),
        // DeltaTime
        3 => Value::Float(get(values, DT)),
        // ServerUptime
        _ => Value::Float(get(values, UPTIME)),
    }
}

// Pure gate g shows what it gives, and is fresh.
pub fn recompute(links: &Links, values: &mut [u8], g: usize)
    requires { Room values.old }
    ensures { Turns links.now (values.old, values.new) (λ c w. recompute c w g) }
{
    let v = compute(links, values, g);
    show(links, values, links.output(g, 0), v);
    clean(links, values, g);
}

// How many inputs gate g has.
fn inputs_of(links: &Links, g: usize) -> usize
    ensures { (result ≡ length (kind_at (kind_of_gate (net_of links.now) g)).ins) × (result ≤ 10) }
{
    kinds::inputs(links.kind_of_gate(g))
}

// Gate g, if it is stale, is recomputed after all its stale sources, which go at most `deep` gates deep.
#[cycle(refresh_behind_refresh_sources_refresh_to)]
fn refresh_to(links: &Links, values: &mut [u8], deep: usize, g: usize)
    requires { Room values.old }
    ensures { Turns links.now (values.old, values.new) (λ c w. refresh_to c deep w g) }
{
    if deep > 0 {
        if is_dirty(links, values, g) {
            let a = links.input(g, 0);
            let n = inputs_of(links, g);
            refresh_sources(links, values, deep - 1, a, n);
            recompute(links, values, g);
        }
    }
}

// What n inputs from a on read is refreshed, in their order.
#[cycle(refresh_behind_refresh_sources_refresh_to)]
fn refresh_sources(links: &Links, values: &mut [u8], deep: usize, a: usize, n: usize)
    requires { Room values.old × (a + n < 262144) }
    ensures { Turns links.now (values.old, values.new) (λ c w. each (behind c (refresh_to c deep)) w (from a n)) }
{
    for k in 0..n {
        refresh_behind(links, values, deep, a + k);
    }
}

// The gate that input i reads is refreshed, if it reads one.
#[cycle(refresh_behind_refresh_sources_refresh_to)]
fn refresh_behind(links: &Links, values: &mut [u8], deep: usize, i: usize)
    requires { Room values.old }
    ensures { Turns links.now (values.old, values.new) (λ c w. behind c (refresh_to c deep) w i) }
{
    if let Some(o) = links.source(i) {
        let behind = links.gate_at_output(o);
        // most are fresh, and need no call
        if is_dirty(links, values, behind) {
            refresh_to(links, values, deep, behind);
        }
    }
}

// Gate g and all that it reads.
pub fn refresh(links: &Links, values: &mut [u8], g: usize)
    requires { Room values.old }
    ensures { Turns links.now (values.old, values.new) (λ c w. refresh c w g) }
{
    refresh_to(links, values, links.gates(), g);
}

// What input i reads is fresh.
pub fn ready(links: &Links, values: &mut [u8], i: usize)
    requires { Room values.old }
    ensures { Turns links.now (values.old, values.new) (λ c w. ready c w i) }
{
    refresh_behind(links, values, links.gates(), i);
}

// Every stale gate is refreshed, the lowest first, until none remains.
pub fn refresh_all(links: &Links, values: &mut [u8])
    requires { Room values.old }
    ensures { Turns links.now (values.old, values.new) (λ c w. refresh_all c w) }
{
    for g in Bits::of(get(values, DIRTY)) {
        refresh(links, values, g);
    }
}
