// A run: a script played over a circuit, tick after tick.
#![tactic(auto)]

ghost use Rattle.std.specs.Prelude.{◌≡◌, [], ◌*◌, ◌^◌, ◌≤◌, ◌<◌, length};
ghost use Rattle.words.specs.Words.{words};
ghost use Rattle.model.specs.Opening.{start};
ghost use Rattle.model.specs.Run.{most_steps};
ghost use Rattle.links.specs.Links.{net};
ghost use Rattle.circuit.specs.Numbers.{numbered};
ghost use Rattle.links.specs.Lent.{Room};
ghost use Rattle.states.specs.Lent.{Parts, Slots, SlotsStay};
ghost use Rattle.areas.specs.Lent.{OverAll};
ghost use Rattle.unit.specs.Unit.{FewCalls};
ghost use Rattle.run.specs.Running.{GoodScript, Logs, Started, Zeroed};
ghost use Rattle.run.specs.Told.{told};
ghost use Rattle.run.specs.Call.{RightCall, Ready};

use crate::clearing::clear;
use circuit::refusals::Refusal;
use circuit::{refusal_lent, script_refusal};
use links::Links;
use records::MOST_STEPS;
use ticks::tick;
use words::get;

pub mod clearing;

// The answer to a call that is not refused: the stop, or 0, the ticks done, and how many bytes of the log hold records.
#[derive(Clone, Copy, PartialEq, Eq, Debug)]
pub struct Played {
    pub stop: u64,
    pub ticks: u64,
    pub bytes: u64,
}

// What playing came to: the stop, or 0, the ticks done, and how many words of the log hold records.
#[derive(Clone, Copy)]
pub struct Outcome {
    pub stop: u64,
    pub ticks: u64,
    pub size: usize,
}

// The areas at the start of a run, whatever they held.
fn start(links: &Links, values: &mut [u8], units: &mut [u8], delays: &mut [u8])
    requires { Room values.old × Room units.old × Parts links.now delays.old }
    ensures { OverAll links.now (values.old, values.new) (units.old, units.new) (delays.old, delays.new) (λ c _ new. (new.state ≡ start c) × (new.lists.carried ≡ []) × SlotsStay links.now delays.new) }
{
    wires::start::start(links, values);
    units::raising::start(links, units);
    queues::start(links, delays);
}

// All ticks of a script, up to a stop.
fn play(
    links: &Links,
    values: &mut [u8],
    units: &mut [u8],
    delays: &mut [u8],
    script: &[u8],
    log: &mut [u8],
    limit: u64,
) -> Outcome
    requires linked { Room values.old × Room units.old × Slots links.now delays.old × FewCalls (net links.now) }
    requires limit_bound { (limit < 2 ^ 63) × GoodScript (net links.now) (words script.now) }
    requires started { Started links.now values.old units.old delays.old }
    ensures logs { Logs links.now script.now (log.old, log.new) limit result }
    ensures size_in_bounds { result.size * 8 ≤ length log.old }
{
    let ticks = get(script, 0) as usize;
    let stimuli = get(script, 1) as usize;
    let gates = 2 + 2 * ticks;
    let constants = gates + stimuli;
    let mut used = 0;
    let mut at = 0;
    for k in 0..ticks {
        let n = get(script, 2 + ticks + k) as usize;
        let dt = get(script, 2 + k);
        let t = tick(
            links,
            values,
            units,
            delays,
            script,
            gates + used,
            constants + used,
            n,
            dt,
            log,
            at,
            limit,
        );
        at += t.size;
        if t.stop != 0 {
            return Outcome {
                stop: t.stop,
                ticks: k as u64,
                size: at,
            };
        }
        used += n;
    }
    Outcome {
        stop: 0,
        ticks: ticks as u64,
        size: at,
    }
}

// A run over the circuit of these links, with the steps that a tick may make; its areas are zero afterwards.
fn perform(
    links: &Links,
    script: &[u8],
    log: &mut [u8],
    values: &mut [u8],
    units: &mut [u8],
    delays: &mut [u8],
) -> Outcome
    requires linked { Room values.old × Room units.old × Parts links.now delays.old }
    requires few_calls { FewCalls (net links.now) × GoodScript (net links.now) (words script.now) }
    ensures logs { Logs links.now script.now (log.old, log.new) most_steps result }
    ensures size_in_bounds { result.size * 8 ≤ length log.old }
    ensures zeroed { Zeroed (values.old, values.new) × Zeroed (units.old, units.new) × Zeroed (delays.old, delays.new) }
{
    start(links, values, units, delays);
    let played = play(links, values, units, delays, script, log, MOST_STEPS);
    clear(values);
    clear(units);
    clear(delays);
    played
}

// One script of a call whose circuit is not refused: the questions about the script, and where none of them refuses it its run.
pub fn script_answer(
    circuit: &[u8],
    links: &Links,
    script: &[u8],
    log: &mut [u8],
    values: &mut [u8],
    units: &mut [u8],
    delays: &mut [u8],
) -> Result<Played, Refusal>
    requires { Ready links.now circuit.now values.old units.old delays.old }
    ensures { RightCall circuit.now script.now (log.old, log.new) (values.old, values.new) (units.old, units.new) (delays.old, delays.new) (λ a. numbered result ≡ told a) }
{
    script_refusal(circuit, script)?;
    let played = perform(links, script, log, values, units, delays);
    Ok(Played {
        stop: played.stop,
        ticks: played.ticks,
        bytes: (played.size * 8) as u64,
    })
}

// The whole call: the questions, and where none of them refuses it the run of the script over the circuit.
pub fn run(
    circuit: &[u8],
    script: &[u8],
    log: &mut [u8],
    values: &mut [u8],
    units: &mut [u8],
    delays: &mut [u8],
) -> Result<Played, Refusal>
    ensures { RightCall circuit.now script.now (log.old, log.new) (values.old, values.new) (units.old, units.new) (delays.old, delays.new) (λ a. numbered result ≡ told a) }
{
    let mut links = Links::new();
    refusal_lent(circuit, &mut links, values.len(), units.len(), delays.len())?;
    script_answer(circuit, &links, script, log, values, units, delays)
}
