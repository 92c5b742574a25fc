// Question 5: does each call go from an exec output or RER_Output to an E or RER_Input?
ghost use Rattle.std.specs.Prelude.{◌≡◌, true};
ghost use Rattle.words.specs.Words.{words};
ghost use Rattle.model.specs.Questions.{question_1, may_call, may_be_called, question_5};
ghost use Rattle.kinds.specs.Pins.{in_of};
ghost use Rattle.links.specs.Lent.{net_of};

use super::columns::Column;
use kinds::{Out, Pin};
use links::Links;
use words::get;

// Whether calls may come to a pin.
fn takes_calls(pin: Pin) -> bool
    ensures { result ≡ (in_of pin).called }
{
    matches!(pin, Pin::Exec | Pin::ExecOnly | Pin::Route)
}

// Whether output o is there and makes calls.
fn may_call(links: &Links, o: usize) -> bool
    ensures { result ≡ may_call (net_of links.now) o }
{
    o < links.outputs() && matches!(links.out_at(o), Out::Fires | Out::Passes)
}

// Whether the input of a target is there and takes calls; `pin_at` says of one that is not there that it is a value.
fn may_be_called(links: &Links, target: usize) -> bool
    ensures { result ≡ may_be_called (net_of links.now) target }
{
    takes_calls(links.pin_at(target / 2))
}

// Whether each call comes from where it may, and goes where it may.
pub fn calls_good(circuit: &[u8], links: &Links) -> bool
    requires { question_1 circuit.now (words circuit.now) ≡ true }
    ensures { result ≡ question_5 (words circuit.now) (net_of links.now) }
{
    let n = get(circuit, 3) as usize;
    let first = 4
        + 2 * (get(circuit, 1) as usize + get(circuit, 0) as usize + get(circuit, 2) as usize);
    let callers = Column {
        area: circuit,
        first,
        count: n,
    };
    let called = Column {
        area: circuit,
        first: first + n,
        count: n,
    };
    callers.all(|o| may_call(links, o as usize))
        && called.all(|target| may_be_called(links, target as usize))
}
