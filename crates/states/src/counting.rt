// The narrowings of this tick that changed their number: a word of the area counts them.
ghost use Rattle.std.specs.Prelude.{◌≡◌};
ghost use Rattle.model.specs.Value.{bit};
ghost use Rattle.states.specs.View.{with_changed, counting};
ghost use Rattle.states.specs.Lent.{SlotsFit, DelaysChange, delays_in};

use crate::slots::CHANGED;
use links::Links;
use records::MOST_CHANGED;
use words::{get, put};

// How many there are.
pub fn changed(links: &Links, delays: &[u8]) -> u64
    requires { SlotsFit delays.now }
    ensures { result ≡ (delays_in links.now delays.now).changed }
{
    get(delays, CHANGED)
}

// A tick begins: its length is the first that was narrowed.
pub fn begin_count(links: &Links, delays: &mut [u8], changed: bool)
    requires { SlotsFit delays.old }
    ensures { DelaysChange links.now (delays.old, delays.new) (λ _ old new. new ≡ with_changed old (bit changed)) }
{
    put(delays, CHANGED, u64::from(changed));
}

// One more, if it changed its number.
pub fn count_changed(links: &Links, delays: &mut [u8], changed: bool)
    requires { SlotsFit delays.old }
    ensures { DelaysChange links.now (delays.old, delays.new) (λ _ old new. new ≡ counting old changed) }
{
    if !changed {
        return;
    }
    let n = get(delays, CHANGED);
    if n < MOST_CHANGED {
        put(delays, CHANGED, n + 1);
    }
}
