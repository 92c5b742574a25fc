// How large a run can get: the most steps that any one unit can cause, and the most bytes of a log (crate `figures` has the definition).
#![tactic(auto)]

ghost use Rattle.std.specs.Prelude.{◌≡◌};
ghost use Rattle.links.specs.Lent.{net_of};
ghost use Rattle.circuit.specs.Numbers.{refused};
ghost use Rattle.figures.specs.Figures.{no_loop};
ghost use Rattle.size.specs.Call.{Right};

use circuit::circuit_refusal;
use circuit::refusals::Refusal;
use kinds::numbers::LOOP;
use links::Links;
use links::layout::MOST_GATES;
use records::MOST_TICKS;
use words::told::put_at;

mod calls;
mod most;
mod numbers;

// Whether no gate is a Loop.
fn no_loop(links: &Links) -> bool
    ensures { result ≡ no_loop (net_of links.now) }
{
    (0..links.gates()).all(|g| links.kind_of_gate(g) != LOOP)
}

// The whole call: what it is refused with; or the first two words of `told` become the most steps that any one unit can cause, and the most bytes of a log of so many ticks.
pub fn size(circuit: &[u8], ticks: u64, told: &mut [u64]) -> Result<(), Refusal>
    ensures { Right circuit.now ticks told.old told.new (refused result) }
{
    let mut links = Links::new();
    circuit_refusal(circuit, &mut links)?;
    let mut numbers = [0u64; MOST_GATES];
    if !numbers::number_all(&links, &mut numbers) {
        return Err(Refusal::RingOrLoop);
    }
    if !no_loop(&links) {
        return Err(Refusal::RingOrLoop);
    }
    if MOST_TICKS < ticks {
        return Err(Refusal::WrongTicks);
    }
    put_at(told, 0, most::unit_steps(&links, &numbers));
    put_at(told, 1, most::log_bytes(&links, ticks));
    Ok(())
}
