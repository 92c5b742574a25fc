// The wires at the start of a run.
ghost use Rattle.std.specs.Prelude.{length};
ghost use Rattle.model.specs.Base.{each, from};
ghost use Rattle.model.specs.Opening.{wires_at_start};
ghost use Rattle.links.specs.Lent.{Room};
ghost use Rattle.wires.specs.Start.{blank, prepared, awaited};
ghost use Rattle.wires.specs.Lent.{Turns};

use crate::checks::watch;
use crate::layout::TABLES;
use crate::reading::show;
use crate::refreshing::refresh_all;
use crate::stale::soil;
use kinds;
use kinds::numbers::VAR;
use links::Links;
use words::put;

// All tables are cleared.
fn clear(links: &Links, values: &mut [u8])
    requires { Room values.old }
    ensures { Turns links.now (values.old, values.new) (λ c _. blank c) }
{
    for k in 0..TABLES {
        put(values, k, 0);
    }
}

// Gate g, if it is pure, is stale; a Var shows its initial.
fn prepare(links: &Links, values: &mut [u8], g: usize)
    requires { Room values.old }
    ensures { Turns links.now (values.old, values.new) (λ c w. prepared c w g) }
{
    let kind = links.kind_of_gate(g);
    if kinds::is_pure(kind) {
        soil(links, values, g);
        return;
    }
    if kind == VAR {
        show(links, values, links.output(g, 0), links.setting(g, 0));
    }
}

// Every gate is prepared.
fn prepare_all(links: &Links, values: &mut [u8])
    requires { Room values.old }
    ensures { Turns links.now (values.old, values.new) (λ c w. each (prepared c) w (from 0 (length c.kinds))) }
{
    let n = links.gates();
    for g in 0..n {
        prepare(links, values, g);
    }
}

// Input i, if it is watched, waits for its first check.
fn await_check(links: &Links, values: &mut [u8], i: usize)
    requires { Room values.old }
    ensures { Turns links.now (values.old, values.new) (λ c w. awaited c w i) }
{
    if links.watching(i) {
        watch(links, values, i);
    }
}

// Every watched input waits for its first check, in ascending gate and input.
fn await_checks(links: &Links, values: &mut [u8])
    requires { Room values.old }
    ensures { Turns links.now (values.old, values.new) (λ c w. each (awaited c) w (from 0 (length c.pins))) }
{
    let n = links.inputs();
    for i in 0..n {
        await_check(links, values, i);
    }
}

// The wires at the start of a run, whatever the area held.
pub fn start(links: &Links, values: &mut [u8])
    requires { Room values.old }
    ensures { Turns links.now (values.old, values.new) (λ c _. wires_at_start c) }
{
    clear(links, values);
    prepare_all(links, values);
    refresh_all(links, values);
    await_checks(links, values);
}
