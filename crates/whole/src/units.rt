// Whether the units of a record are gates of a circuit, in forms that they can have.
ghost use Rattle.words.specs.Words.{words};
ghost use Rattle.std.specs.Prelude.{◌≡◌, ◌*◌};
ghost use Rattle.words.specs.Slices.{HasWords};
ghost use Rattle.model.specs.Base.{all};
ghost use Rattle.model.specs.Kinds.{receiving};
ghost use Rattle.model.specs.Circuit.{has_source, source};
ghost use Rattle.model.specs.Record.{listed, units_at};
ghost use Rattle.links.specs.Lent.{net_of, Short};
ghost use Rattle.records.specs.Whole.{firing, driven, can_have, good_unit};

use kinds::Pin;
use kinds::numbers::*;
use links::Links;
use records::forms::{BY_OUTPUT, BY_PIN, EVENT, FIRE, STIMULUS};
use words::get;

// An EdgeExec has two outputs, so all forms are below this.
const END: usize = BY_OUTPUT + 2;

// Whether a kind has Fire.
fn firing(kind: u64) -> bool
    ensures { result ≡ firing kind }
{
    if kind == CHANGE_DETECTOR {
        return true;
    }
    if kind == BUFFER_TICKS_EXEC {
        return true;
    }
    BUFFER_SECONDS_EXEC <= kind && kind <= QUEUE_IN_SECONDS
}

// Whether a kind receives events.
fn receiving(kind: u64) -> bool
    ensures { result ≡ receiving kind }
{
    kind == EVENT_CUSTOM || kind == EVENT_CUSTOM_GLOBAL
}

// Whether input i reads an output.
fn has_source(links: &Links, i: usize) -> bool
    ensures { result ≡ has_source (source (net_of links.now) i) }
{
    links.source(i).is_some()
}

// Whether input p of gate g is an E that a value drives.
fn driven(links: &Links, g: usize, p: usize) -> bool
    requires { Short p }
    ensures { result ≡ driven (net_of links.now) g p }
{
    match kinds::pin_at(links.kind_of_gate(g), p) {
        Pin::Exec => has_source(links, links.input(g, p)),
        _ => false,
    }
}

// Whether gate g can have this form.
fn can_have(links: &Links, g: usize, form: usize) -> bool
    ensures { result ≡ can_have (net_of links.now) g form }
{
    let kind = links.kind_of_gate(g);
    match form {
        FIRE => firing(kind),
        EVENT => receiving(kind),
        STIMULUS => kind == WORLD_EVENT,
        BY_PIN..BY_OUTPUT => driven(links, g, form - BY_PIN),
        BY_OUTPUT..END => kind == EDGE_EXEC,
        _ => false,
    }
}

// Whether there is such a gate, and it can have this form.
fn good_unit(links: &Links, gate: u64, form: u64) -> bool
    ensures { result ≡ good_unit (net_of links.now) (listed gate form) }
{
    let g = gate as usize;
    if links.gates() <= g {
        return false;
    }
    can_have(links, g, form as usize)
}

// Whether n units are good: their gates stand from word k on, and their forms behind these.
pub fn good_units(links: &Links, log: &[u8], k: usize, n: usize) -> bool
    requires { HasWords log.now k (2 * n) }
    ensures { result ≡ all (good_unit (net_of links.now)) (units_at (words log.now) k n) }
{
    for i in 0..n {
        if !good_unit(links, get(log, k + i), get(log, k + n + i)) {
            return false;
        }
    }
    true
}
