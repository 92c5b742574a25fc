// Chains, and the Loops that they run: chain, operation, loop and body call each other, with the nesting that is left falling.
#![tactic(auto)]

ghost use Rattle.model.specs.Loops.{operate, run_nested, run_body, run_loop, run_chain};
ghost use Rattle.model.specs.Chain.{chained};
ghost use Rattle.links.specs.Lent.{net_of};
ghost use Rattle.states.specs.Lent.{SlotsStay};
ghost use Rattle.areas.specs.Lent.{OverAll, AllLent};
ghost use Rattle.chain.specs.Chain.{Runs, started};
ghost use Rattle.loops.specs.Loops.{LoopsAs, going_on, looping};

use chain::{Ran, fire_output, make_call};
use counting::{Looped, begin_body, begin_loop, begin_run, goes_on, loop_over};
use kinds::numbers::LOOP;
use links::Links;
use stops::{LIST_FULL, RUNAWAY};
use units::calls::{calls_waiting, forks_waiting, pop_call};
use wires::bodies::{set_unions_passed, unions_passed};
use wrapping::loop_index;

pub mod counting;

// The body of Loop g is run once, with index i: the calls that wait before it wait on, and after it those Unions have passed that had before.
#[cycle(iterate_operate_run_body_run_loop_run_nested)]
fn run_body(
    links: &Links,
    values: &mut [u8],
    units: &mut [u8],
    delays: &mut [u8],
    left: u64,
    g: usize,
    i: u64,
    nesting: usize,
) -> Ran
    requires { AllLent links.now values.old units.old delays.old }
    ensures over_all { OverAll links.now (values.old, values.new) (units.old, units.new) (delays.old, delays.new) (λ c old new. Runs old new result (run_body c nesting g i (started old left))) }
    ensures slots_stay { SlotsStay links.now delays.new }
{
    if nesting == 0 {
        return Ran {
            left,
            stop: LIST_FULL,
        };
    }
    let under = calls_waiting(units);
    let passed = unions_passed(links, values);
    let begun = begin_body(links, values, units, left, g, i);
    let ran = run_nested(
        links,
        values,
        units,
        delays,
        begun,
        under,
        nesting - 1,
        true,
    );
    set_unions_passed(links, values, passed);
    ran
}

// The runs of Loop g's body, `count` at the most: up to a stop, or a Break, or the tick's limit of runs.
#[cycle(iterate_operate_run_body_run_loop_run_nested)]
fn iterate(
    links: &Links,
    values: &mut [u8],
    units: &mut [u8],
    delays: &mut [u8],
    left: u64,
    g: usize,
    count: u64,
    first: u64,
    step: u64,
    nesting: usize,
) -> Looped
    requires { AllLent links.now values.old units.old delays.old }
    ensures over_all { OverAll links.now (values.old, values.new) (units.old, units.new) (delays.old, delays.new) (λ c old new. LoopsAs old new result (looping c nesting g first step count 0 (started old left))) }
    ensures slots_stay { SlotsStay links.now delays.new }
{
    let mut rest = left;
    for done in 0..count {
        if !begin_run(links, values) {
            return Looped {
                left: rest,
                stop: 0,
                done,
                aborted: true,
            };
        }
        let i = loop_index(first, done, step);
        let ran = run_body(links, values, units, delays, rest, g, i, nesting);
        if !goes_on(links, values, ran.stop) {
            return Looped {
                left: ran.left,
                stop: ran.stop,
                done: done + 1,
                aborted: false,
            };
        }
        rest = ran.left;
    }
    Looped {
        left: rest,
        stop: 0,
        done: count,
        aborted: false,
    }
}

// The Loop of gate g.
#[cycle(iterate_operate_run_body_run_loop_run_nested)]
fn run_loop(
    links: &Links,
    values: &mut [u8],
    units: &mut [u8],
    delays: &mut [u8],
    left: u64,
    g: usize,
    nesting: usize,
) -> Ran
    requires { AllLent links.now values.old units.old delays.old }
    ensures over_all { OverAll links.now (values.old, values.new) (units.old, units.new) (delays.old, delays.new) (λ c old new. Runs old new result (run_loop c (run_body c nesting) g (started old left))) }
    ensures slots_stay { SlotsStay links.now delays.new }
{
    let counts = begin_loop(links, values, g);
    let looped = iterate(
        links,
        values,
        units,
        delays,
        left,
        g,
        counts.count,
        counts.first,
        counts.step,
        nesting,
    );
    loop_over(links, values, g, counts.broke, looped)
}

// Input i is entered: a Loop fires Completed when its runs are over.
#[cycle(iterate_operate_run_body_run_loop_run_nested)]
fn operate(
    links: &Links,
    values: &mut [u8],
    units: &mut [u8],
    delays: &mut [u8],
    left: u64,
    i: usize,
    nesting: usize,
    inside: bool,
) -> Ran
    requires { AllLent links.now values.old units.old delays.old }
    ensures over_all { OverAll links.now (values.old, values.new) (units.old, units.new) (delays.old, delays.new) (λ c old new. Runs old new result (operate c (run_body c nesting) inside i (started old left))) }
    ensures slots_stay { SlotsStay links.now delays.new }
{
    let g = links.gate_at_input(i);
    let k = links.kind_of_gate(g);
    if k != LOOP {
        return make_call(links, values, units, delays, left, i, g, k, inside);
    }
    let ran = run_loop(links, values, units, delays, left, g, nesting);
    if ran.stop != 0 {
        return ran;
    }
    fire_output(links, units, ran.left, links.output(g, 0))
}

// The calls that wait above `under` of them are made, one after the other, with what they call, as long as the tick may make steps; outside bodies the forks, too.
#[cycle(iterate_operate_run_body_run_loop_run_nested)]
fn run_nested(
    links: &Links,
    values: &mut [u8],
    units: &mut [u8],
    delays: &mut [u8],
    run: Ran,
    under: usize,
    nesting: usize,
    inside: bool,
) -> Ran
    requires { AllLent links.now values.old units.old delays.old }
    ensures over_all { OverAll links.now (values.old, values.new) (units.old, units.new) (delays.old, delays.new) (λ c old new. Runs old new result (run_nested c (run_body c nesting) inside under (going_on old run))) }
    ensures slots_stay { SlotsStay links.now delays.new }
{
    if run.stop != 0 {
        return run;
    }
    let mut rest = run.left;
    // Stays: a call takes as many of the steps as it makes, so no range counts them.
    while 0 < rest {
        let Some(i) = pop_call(units, under, inside) else {
            return Ran {
                left: rest,
                stop: 0,
            };
        };
        let ran = operate(
            links,
            values,
            units,
            delays,
            rest - 1,
            i as usize,
            nesting,
            inside,
        );
        if ran.stop != 0 {
            return ran;
        }
        rest = ran.left;
    }
    match pop_call(units, under, inside) {
        None => Ran { left: 0, stop: 0 },
        Some(_) => Ran {
            left: 0,
            stop: RUNAWAY,
        },
    }
}

// A chain and its forks: the calls that wait are made, as long as the tick may make steps.
pub fn run_chain(
    links: &Links,
    values: &mut [u8],
    units: &mut [u8],
    delays: &mut [u8],
    left: u64,
) -> Ran
    requires { AllLent links.now values.old units.old delays.old }
    ensures over_all { OverAll links.now (values.old, values.new) (units.old, units.new) (delays.old, delays.new) (λ c old new. Runs old new result (run_chain c left old.calls old.state)) }
    ensures slots_stay { SlotsStay links.now delays.new }
{
    let begun = Ran { left, stop: 0 };
    if calls_waiting(units) == 0 {
        if forks_waiting(units) == 0 {
            return begun;
        }
    }
    run_nested(links, values, units, delays, begun, 0, links.gates(), false)
}
