// The questions asked of a circuit and of a script before anything is played, in order. Each file asks what it is named for.
#![tactic(auto)]

ghost use Rattle.std.specs.Prelude.{◌≡◌, true};
ghost use Rattle.std.proofs.Math.Option.{none, some};
ghost use Rattle.words.specs.Words.{words};
ghost use Rattle.model.specs.Circuit.{circuit as circuit_of};
ghost use Rattle.model.specs.Questions.{question_1, circuit_refusal, script_refusal, refusal};
ghost use Rattle.links.specs.Links.{cells};
ghost use Rattle.circuit.specs.Numbers.{refused};
ghost use Rattle.circuit.specs.Refusals.{words_refusal, links_refusal, areas_refusal, links_after};

use crate::refusals::Refusal;
use linking::link;
use links::Links;

mod areas;
mod bodies;
mod calls;
mod columns;
pub mod constants;
mod gates;
pub mod inputs;
pub mod refusals;
mod rings;
mod script;
pub mod sets;
mod sizes;

// Questions 1 to 3, of a circuit's words.
fn words_refusal(circuit: &[u8]) -> Result<(), Refusal>
    ensures { refused result ≡ words_refusal circuit.now }
{
    if !sizes::sizes(circuit) {
        return Err(Refusal::Sizes);
    }
    if !constants::constants(circuit) {
        return Err(Refusal::Constants);
    }
    if !gates::gates(circuit) {
        return Err(Refusal::Gates);
    }
    Ok(())
}

// Questions 4, 5, 19, 6 and 7, of the links of a circuit whose words passed; no areas are lent.
fn links_refusal(circuit: &[u8], links: &Links) -> Result<(), Refusal>
    requires circuit_value { words_refusal circuit.now ≡ 0 }
    requires links_value { links.now ≡ cells (circuit_of (words circuit.now)) }
    ensures { refused result ≡ links_refusal (words circuit.now) (circuit_of (words circuit.now)) }
{
    if !inputs::inputs_good(circuit, links) {
        return Err(Refusal::Inputs);
    }
    if !calls::calls_good(circuit, links) {
        return Err(Refusal::Calls);
    }
    if !bodies::bodies_good(links) {
        return Err(Refusal::Bodies);
    }
    if !rings::ordered(links) {
        return Err(Refusal::Order);
    }
    if !areas::few_queues(areas::queues(circuit)) {
        return Err(Refusal::Areas);
    }
    Ok(())
}

// The first question about a circuit whose answer is no, where no areas are lent. The links are made where its words pass.
pub fn circuit_refusal(circuit: &[u8], links: &mut Links) -> Result<(), Refusal>
    ensures { (refused result ≡ circuit_refusal none circuit.now) × (links.new ≡ links_after circuit.now links.old) }
{
    words_refusal(circuit)?;
    link(circuit, links);
    links_refusal(circuit, links)
}

// The same of a script, for a circuit whose sizes are good.
pub fn script_refusal(circuit: &[u8], script: &[u8]) -> Result<(), Refusal>
    requires { question_1 circuit.now (words circuit.now) ≡ true }
    ensures { refused result ≡ script_refusal (circuit_of (words circuit.now)) script.now }
{
    if !script::script_sizes(script) {
        return Err(Refusal::ScriptSizes);
    }
    if !script::ticks(script) {
        return Err(Refusal::Ticks);
    }
    if !script::stimuli(circuit, script) {
        return Err(Refusal::Stimuli);
    }
    Ok(())
}

// Question 7 of areas of these lengths, for a circuit whose sizes are good.
fn areas_refusal(circuit: &[u8], values: usize, units: usize, delays: usize) -> Result<(), Refusal>
    requires { question_1 circuit.now (words circuit.now) ≡ true }
    ensures { refused result ≡ areas_refusal (record { values = values; units = units; delays = delays }) (circuit_of (words circuit.now)) }
{
    if areas::enough(areas::queues(circuit), values, units, delays) {
        Ok(())
    } else {
        Err(Refusal::Areas)
    }
}

// The first question about a circuit whose answer is no, where areas of these lengths are lent. The links are made where its words pass, for the runs of the call.
pub fn refusal_lent(
    circuit: &[u8],
    links: &mut Links,
    values: usize,
    units: usize,
    delays: usize,
) -> Result<(), Refusal>
    ensures { (refused result ≡ circuit_refusal (some (record { values = values; units = units; delays = delays })) circuit.now) × (links.new ≡ links_after circuit.now links.old) }
{
    circuit_refusal(circuit, links)?;
    areas_refusal(circuit, values, units, delays)
}

// What a call with this circuit and script is refused with, where areas of these lengths are lent.
pub fn refusal(
    circuit: &[u8],
    script: &[u8],
    values: usize,
    units: usize,
    delays: usize,
) -> Result<(), Refusal>
    ensures { refused result ≡ refusal (some (record { values = values; units = units; delays = delays })) circuit.now script.now }
{
    let mut links = Links::new();
    refusal_lent(circuit, &mut links, values, units, delays)?;
    script_refusal(circuit, script)
}

// The same where no areas are lent: it only checks.
pub fn check(circuit: &[u8], script: &[u8]) -> Result<(), Refusal>
    ensures { refused result ≡ refusal none circuit.now script.now }
{
    let mut links = Links::new();
    circuit_refusal(circuit, &mut links)?;
    script_refusal(circuit, script)
}
