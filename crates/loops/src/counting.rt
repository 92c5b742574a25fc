// What a Loop does beside running its body: it reads what to count, counts its runs, and shows what they came to.
ghost use Rattle.std.specs.Prelude.{◌≡◌, ◌-◌, ltb};
ghost use Rattle.model.specs.State.{runs_left≔};
ghost use Rattle.model.specs.Delays.{nat};
ghost use Rattle.model.specs.Loops.{begin_body, goes_on};
ghost use Rattle.links.specs.Lent.{net_of, Room};
ghost use Rattle.wires.specs.Lent.{Turns, wires_in};
ghost use Rattle.areas.specs.Lent.{OverValues, OverValuesUnits};
ghost use Rattle.chain.specs.Chain.{Runs, started};
ghost use Rattle.loops.specs.Loops.{CountsRead, BeginsLoop, EndsLoop, stays_on};

use chain::{Ran, fire_output};
use links::Links;
use model::Value;
use steps::reading::readied;
use value::as_int;
use wires::bodies::{breaking, clear_unions_passed, runs_left, set_breaking, set_runs_left};
use wires::marking::set_out;
use wires::reading::look;
use words::unsigned;

// What a Loop counts, as read before its first run: how many runs, and the words of its first index and its step; and whether a Break was asked for before it.
#[derive(Clone, Copy)]
pub struct Counts {
    pub count: u64,
    pub first: u64,
    pub step: u64,
    pub broke: bool,
}

// What a Loop's runs of its body come to: the steps that the tick may still make, the stop, or 0, how many runs were begun, and whether the tick's limit of runs
// ended them.
#[derive(Clone, Copy)]
pub struct Looped {
    pub left: u64,
    pub stop: u64,
    pub done: u64,
    pub aborted: bool,
}

// A number below 0 counts as 0.
fn natural(z: i64) -> u64
    ensures { result ≡ nat z }
{
    if z < 0 {
        return 0;
    }
    z as u64
}

// What the inputs of Loop g read, which are ready.
fn read_counts(links: &Links, values: &[u8], g: usize, broke: bool) -> Counts
    requires { Room values.now }
    ensures { CountsRead (net_of links.now) g (wires_in links.now values.now) broke result }
{
    let count = natural(as_int(look(links, values, links.input(g, 1)), 0));
    let first = unsigned(as_int(look(links, values, links.input(g, 2)), 0));
    let step = unsigned(as_int(look(links, values, links.input(g, 3)), 1));
    Counts {
        count,
        first,
        step,
        broke,
    }
}

// The Loop of gate g begins: Count, FirstIndex and Step are read, and no Break is set.
pub fn begin_loop(links: &Links, values: &mut [u8], g: usize) -> Counts
    requires { Room values.old }
    ensures { OverValues links.now (values.old, values.new) (λ c old new. BeginsLoop c g old new result) }
{
    readied(links, values, links.input(g, 1), 3);
    let counts = read_counts(links, values, g, breaking(links, values));
    set_breaking(links, values, false);
    counts
}

// A run of a body is counted, if the tick may make one more.
pub fn begin_run(links: &Links, values: &mut [u8]) -> bool
    requires { Room values.old }
    ensures value { result ≡ ltb 0 (wires_in links.now values.old).runs_left }
    ensures turns { Turns links.now (values.old, values.new) (λ _ w. runs_left≔ w (w.runs_left - 1)) }
{
    let n = runs_left(links, values);
    if n == 0 {
        return false;
    }
    set_runs_left(links, values, n - 1);
    true
}

// A run of the body of Loop g begins: its entry shows the index, no Union has passed, Body is fired.
pub fn begin_body(
    links: &Links,
    values: &mut [u8],
    units: &mut [u8],
    left: u64,
    g: usize,
    i: u64,
) -> Ran
    requires { Room values.old × Room units.old }
    ensures { OverValuesUnits links.now (values.old, values.new) (units.old, units.new) (λ c old new. Runs old new result (begin_body c g i (started old left))) }
{
    let e = links.entry_of_loop(g);
    set_out(links, values, links.output(e, 1), Value::Int(i));
    clear_unions_passed(links, values);
    fire_output(links, units, left, links.output(e, 0))
}

// Whether a Loop goes on after a run of its body that came to this stop, or 0: nothing stopped, and no Break ran.
pub fn goes_on(links: &Links, values: &[u8], stop: u64) -> bool
    requires { Room values.now }
    ensures { result ≡ stays_on stop (wires_in links.now values.now) }
{
    if stop != 0 {
        return false;
    }
    !breaking(links, values)
}

// The runs of Loop g are over: the Break before it is as it was, and the Loop shows what they came to.
pub fn loop_over(links: &Links, values: &mut [u8], g: usize, broke: bool, looped: Looped) -> Ran
    requires { Room values.old }
    ensures { OverValues links.now (values.old, values.new) (λ c old new. EndsLoop c g broke looped old new result) }
{
    if looped.stop != 0 {
        return Ran {
            left: looped.left,
            stop: looped.stop,
        };
    }
    set_breaking(links, values, broke);
    set_out(links, values, links.output(g, 1), Value::Int(looped.done));
    set_out(
        links,
        values,
        links.output(g, 2),
        Value::Bool(looped.aborted),
    );
    set_out(links, values, links.output(g, 3), Value::Bool(false));
    Ran {
        left: looped.left,
        stop: 0,
    }
}
