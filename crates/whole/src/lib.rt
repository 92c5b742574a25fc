// Whether the bytes of a log are whole records of a circuit: what every reader of a log asks first.
#![tactic(auto)]

ghost use Rattle.std.specs.Prelude.{◌≡◌, ◌*◌, ◌≤◌, length};
ghost use Rattle.links.specs.Lent.{net_of};
ghost use Rattle.circuit.specs.Numbers.{refused};
ghost use Rattle.records.specs.Whole.{good_rows, whole};
ghost use Rattle.whole.specs.Lent.{behind, Complete};
ghost use Rattle.whole.specs.Asked.{Asked, size_if_good};

use crate::head::{begun_count, carried_count, good_head, good_stop, shown_count, stop_in};
use crate::outputs::good_outputs;
use crate::units::good_units;
use circuit::circuit_refusal;
use circuit::refusals::Refusal;
use links::Links;
use records::MOST_TICKS;
use records::head::HEAD;
use walk::{record_size, shown_at};

mod head;
mod outputs;
mod units;

// Whether the units and the outputs of the record at word `at` are good.
fn good_rows(links: &Links, log: &[u8], at: usize) -> bool
    requires { Complete links.now log.now at }
    ensures { result ≡ good_rows (net_of links.now) (behind log.now at) }
{
    let begun = begun_count(log, at);
    let carried = carried_count(log, at);
    if !good_units(links, log, at + HEAD, begun) {
        return false;
    }
    if !good_units(links, log, at + HEAD + 2 * begun, carried) {
        return false;
    }
    good_outputs(links, log, shown_at(log, at), shown_count(links, log, at))
}

// How many words the good record of this tick has that begins at word `at`, if one does.
fn good_record(links: &Links, log: &[u8], at: usize, tick: u64) -> Option<usize>
    requires { at * 8 ≤ length log.now }
    ensures { result ≡ size_if_good (net_of links.now) tick (behind log.now at) }
{
    let room = log.len() / 8 - at;
    let size = record_size(log, at, room + 1, links.outputs());
    if room < size {
        return None;
    }
    if !good_head(log, at, tick) {
        return None;
    }
    if !good_stop(stop_in(log, at), size == room) {
        return None;
    }
    if !good_rows(links, log, at) {
        return None;
    }
    Some(size)
}

// Whether a log is whole records of the circuit of these links.
pub fn whole(links: &Links, log: &[u8]) -> bool
    ensures { result ≡ whole (net_of links.now) log.now }
{
    if log.len() % 8 != 0 {
        return false;
    }
    let size = log.len() / 8;
    let mut at = 0;
    for tick in 1..MOST_TICKS + 1 {
        if at == size {
            return true;
        }
        let Some(n) = good_record(links, log, at, tick) else {
            return false;
        };
        at += n;
    }
    at == size
}

// What a reader of a log is refused with before it asks anything of its own: the circuit's own refusals first, then 16. The links are made as the circuit's questions make
// them.
pub fn log_refusal(circuit: &[u8], log: &[u8], links: &mut Links) -> Result<(), Refusal>
    ensures { Asked circuit.now log.now links.old links.new (refused result) }
{
    circuit_refusal(circuit, links)?;
    if whole(links, log) {
        Ok(())
    } else {
        Err(Refusal::NotWhole)
    }
}
