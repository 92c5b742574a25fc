// Question 19: do both ends of each call lie in one body, do entries and bodies match, and do bodies form no ring?
ghost use Rattle.std.specs.Prelude.{◌≡◌, ◌<◌, length};
ghost use Rattle.model.specs.declared.Value.TheVariants.{Int};
ghost use Rattle.model.specs.Value.{same};
ghost use Rattle.model.specs.Base.{all, from};
ghost use Rattle.model.specs.Circuit.{most_gates, names, body_of_gate, gates};
ghost use Rattle.model.specs.Questions.{calls_inside, in_a_body, has_entry, comes_out, question_19};
ghost use Rattle.links.specs.Links.{call_of};
ghost use Rattle.links.specs.Lent.{net_of};
ghost use Rattle.circuit.specs.Bodies.{stays_inside, well_placed};

use kinds::numbers::{LOOP, LOOP_ENTRY};
use links::{Links, called_input};
use model::Value;

// ---- calls

// Whether a call with this target goes to a gate in the body of the gate that has output o.
fn call_inside(links: &Links, o: usize, target: usize) -> bool
    ensures { result ≡ stays_inside (net_of links.now) o (call_of target) }
{
    let from = links.body_of_gate(links.gate_at_output(o));
    let to = links.body_of_gate(links.gate_at_input(called_input(target)));
    from == to
}

// Whether each call of output o does.
fn calls_inside(links: &Links, o: usize) -> bool
    ensures { result ≡ calls_inside (net_of links.now) o }
{
    let first = links.first_call(o);
    let n = links.call_count(o);
    (0..n).all(|k| call_inside(links, o, links.call(first + k)))
}

// Whether the calls of each output do.
fn all_calls_inside(links: &Links) -> bool
    ensures { result ≡ all (calls_inside (net_of links.now)) (from 0 (length (net_of links.now).outputs)) }
{
    (0..links.outputs()).all(|o| calls_inside(links, o))
}

// ---- bodies

// Whether the body that gate g lies in is 0 or that of a Loop.
fn in_a_body(links: &Links, g: usize) -> bool
    ensures { result ≡ in_a_body (net_of links.now) g }
{
    let body = links.body_of_gate(g);
    body == 0 || links.kind_of_gate(body - 1) == LOOP
}

// Whether going outwards from the body that gate g lies in ends outside. It does so after as many bodies as there are gates, or never.
fn comes_out(links: &Links, g: usize) -> bool
    ensures { result ≡ comes_out (net_of links.now) (length (net_of links.now).kinds) (body_of_gate (net_of links.now) g) }
{
    let n = links.gates();
    let mut around = links.body_of_gate(g);
    for _k in 0..n {
        if around == 0 {
            return true;
        }
        around = links.body_of_gate(around - 1);
    }
    around == 0
}

// ---- entries

// Whether v is the Int number of gate g.
fn is_number(v: Value, g: usize) -> bool
    ensures { result ≡ same v (Int g) }
{
    if let Value::Int(b) = v {
        b == g as u64
    } else {
        false
    }
}

// Whether gate e is an entry that names gate g.
fn names(links: &Links, g: usize, e: usize) -> bool
    ensures { result ≡ names (net_of links.now).kinds (net_of links.now).stored (net_of links.now).first_input g e }
{
    links.kind_of_gate(e) == LOOP_ENTRY && is_number(links.setting(e, 0), g)
}

// Whether gate g, if it is a Loop, has one entry, and that in its own body.
fn has_entry(links: &Links, g: usize) -> bool
    requires { g < most_gates }
    ensures { result ≡ has_entry (net_of links.now) g }
{
    if links.kind_of_gate(g) != LOOP {
        return true;
    }
    let n = links.gates();
    let mut entries: usize = 0;
    for e in 0..n {
        if names(links, g, e) {
            if links.body_of_gate(e) != g + 1 {
                return false;
            }
            entries += 1;
        }
    }
    entries == 1
}

// ---- gates

// Whether gate g lies in a body that there is, has its entry if it is a Loop, and lies in no ring of bodies.
fn gate_good(links: &Links, g: usize) -> bool
    requires { g < most_gates }
    ensures { result ≡ well_placed (net_of links.now) g }
{
    in_a_body(links, g) && has_entry(links, g) && comes_out(links, g)
}

// Whether each gate is so.
fn gates_good(links: &Links) -> bool
    ensures { result ≡ all (well_placed (net_of links.now)) (gates (net_of links.now)) }
{
    (0..links.gates()).all(|g| gate_good(links, g))
}

// Of all calls and all gates.
pub fn bodies_good(links: &Links) -> bool
    ensures { result ≡ question_19 (net_of links.now) }
{
    all_calls_inside(links) && gates_good(links)
}
