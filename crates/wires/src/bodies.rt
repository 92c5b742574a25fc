// What is remembered while bodies of Loops run: the Unions passed in this run of a body, whether a Break ran in it, and how often bodies may still be run in this
// tick.
ghost use Rattle.std.specs.Prelude.{◌≡◌, false, map, length};
ghost use Rattle.words.specs.Tables.{digits};
ghost use Rattle.model.specs.State.{unions_passed≔, breaking≔, runs_left≔};
ghost use Rattle.links.specs.Lent.{net_of, Room};
ghost use Rattle.wires.specs.Lent.{wires_in, Turns};

use crate::layout::{BREAKING, RUNS_LEFT, UNIONS_PASSED};
use links::Links;
use words::{get, put};

// The Unions that have passed, as a word with a digit for each gate.
pub fn unions_passed(links: &Links, values: &[u8]) -> u64
    requires { Room values.now }
    ensures { digits (length (net_of links.now).kinds) result ≡ (wires_in links.now values.now).unions_passed }
{
    get(values, UNIONS_PASSED)
}

// Those of this word have passed.
pub fn set_unions_passed(links: &Links, values: &mut [u8], passed: u64)
    requires { Room values.old }
    ensures { Turns links.now (values.old, values.new) (λ c w. unions_passed≔ w (digits (length c.kinds) passed)) }
{
    put(values, UNIONS_PASSED, passed);
}

// No Union has passed.
pub fn clear_unions_passed(links: &Links, values: &mut [u8])
    requires { Room values.old }
    ensures { Turns links.now (values.old, values.new) (λ _ w. unions_passed≔ w (map (λ _. false) w.unions_passed)) }
{
    put(values, UNIONS_PASSED, 0);
}

// Whether a Break ran in the run of the body under way.
pub fn breaking(links: &Links, values: &[u8]) -> bool
    requires { Room values.now }
    ensures { result ≡ (wires_in links.now values.now).breaking }
{
    get(values, BREAKING) != 0
}

// It is so, or not.
pub fn set_breaking(links: &Links, values: &mut [u8], ran: bool)
    requires { Room values.old }
    ensures { Turns links.now (values.old, values.new) (λ _ w. breaking≔ w ran) }
{
    put(values, BREAKING, u64::from(ran));
}

// How often bodies may still be run in this tick.
pub fn runs_left(links: &Links, values: &[u8]) -> u64
    requires { Room values.now }
    ensures { result ≡ (wires_in links.now values.now).runs_left }
{
    get(values, RUNS_LEFT)
}

// They may so often.
pub fn set_runs_left(links: &Links, values: &mut [u8], n: u64)
    requires { Room values.old }
    ensures { Turns links.now (values.old, values.new) (λ _ w. runs_left≔ w n) }
{
    put(values, RUNS_LEFT, n);
}
