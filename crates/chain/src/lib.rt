// One call of a chain: the gate makes its step, and what it fires is called.
#![tactic(auto)]

ghost use Rattle.model.specs.Chain.{chained, fire_output, make_call};
ghost use Rattle.links.specs.Links.{net};
ghost use Rattle.links.specs.Lent.{Room};
ghost use Rattle.states.specs.Lent.{SlotsStay};
ghost use Rattle.areas.specs.Lent.{OverAll, OverUnits, AllLent};
ghost use Rattle.steps.specs.Steps.{Entered};
ghost use Rattle.chain.specs.Chain.{Runs, started};

use crate::pushing::push_calls;
use links::Links;
use steps::exec;
use stops::LIST_FULL;

pub mod pushing;

// What running calls comes to: the steps that the tick may still make, and the stop, or 0.
#[derive(Clone, Copy)]
pub struct Ran {
    pub left: u64,
    pub stop: u64,
}

// Output o is fired: its calls wait, if they fit.
pub fn fire_output(links: &Links, units: &mut [u8], left: u64, o: usize) -> Ran
    requires { Room units.old }
    ensures { OverUnits links.now (units.old, units.new) (λ c old new. Runs old new result (fire_output c o (started old left))) }
{
    match push_calls(links, units, o) {
        Err(_) => Ran {
            left,
            stop: LIST_FULL,
        },
        Ok(()) => Ran { left, stop: 0 },
    }
}

// Gate g, of kind k, which is no Loop, is entered through its input i: it makes its step, and what it fires is called.
pub fn make_call(
    links: &Links,
    values: &mut [u8],
    units: &mut [u8],
    delays: &mut [u8],
    left: u64,
    i: usize,
    g: usize,
    k: u64,
    inside: bool,
) -> Ran
    requires all_lent { AllLent links.now values.old units.old delays.old }
    requires entered { Entered (net links.now) i g k }
    ensures over_all { OverAll links.now (values.old, values.new) (units.old, units.new) (delays.old, delays.new) (λ c old new. Runs old new result (make_call c inside i (started old left))) }
    ensures slots_stay { SlotsStay links.now delays.new }
{
    match exec(links, values, units, delays, i, g, k, inside) {
        Ok(Some(o)) => fire_output(links, units, left, o),
        Ok(None) => Ran { left, stop: 0 },
        Err(_) => Ran {
            left,
            stop: LIST_FULL,
        },
    }
}
