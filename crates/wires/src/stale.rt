// Which gates are stale.
ghost use Rattle.std.specs.Prelude.{◌≡◌};
ghost use Rattle.model.specs.Wires.{is_dirty, is_clean, soil, clean};
ghost use Rattle.links.specs.Lent.{Room};
ghost use Rattle.wires.specs.Lent.{wires_in, Turns, TurnsBesideStack};

use crate::bits::set_bit;
use crate::layout::DIRTY;
use links::Links;
use words::{get, put};

// Whether gate g is stale.
pub fn is_dirty(links: &Links, values: &[u8], g: usize) -> bool
    requires { Room values.now }
    ensures { result ≡ is_dirty (wires_in links.now values.now) g }
{
    g < links.gates() && (get(values, DIRTY) >> g) % 2 != 0
}

// Whether gate g is in the circuit and not stale.
pub fn is_clean(links: &Links, values: &[u8], g: usize) -> bool
    requires { Room values.now }
    ensures { result ≡ is_clean (wires_in links.now values.now) g }
{
    g < links.gates() && (get(values, DIRTY) >> g) % 2 == 0
}

// Gate g becomes stale. The marking stack stays as it is.
pub fn soil(links: &Links, values: &mut [u8], g: usize)
    requires { Room values.old }
    ensures { TurnsBesideStack links.now (values.old, values.new) (λ _ w. soil w g) }
{
    if g < links.gates() {
        set_bit(values, DIRTY, g);
    }
}

// Gate g is fresh.
pub fn clean(links: &Links, values: &mut [u8], g: usize)
    requires { Room values.old }
    ensures { Turns links.now (values.old, values.new) (λ _ w. clean w g) }
{
    if g < links.gates() {
        let d = get(values, DIRTY);
        if (d >> g) % 2 != 0 {
            put(values, DIRTY, d ^ 1 << g);
        }
    }
}
