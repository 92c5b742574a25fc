// How many wait.
ghost use Rattle.std.specs.Prelude.{◌≡◌, length};
ghost use Rattle.links.specs.Lent.{Room};
ghost use Rattle.units.specs.Lent.{Reads};

use crate::layout::{BEGUN, CARRIED, DELIVERED, LATE, MOST_DELIVERED, PENDING};
use lists::count;
use records::MOST_WAITING;

// Stays: each of these is one line over `count`, and its promise names the list; one function of any list would have to be told which in a promise.
// How many are pending.
pub fn pending(units: &[u8]) -> usize
    requires { Room units.now }
    ensures { Reads units.now (λ _ u. result ≡ length u.lists.pending) }
{
    count(&units[PENDING..LATE], MOST_WAITING)
}

// How many are late.
pub fn late(units: &[u8]) -> usize
    requires { Room units.now }
    ensures { Reads units.now (λ _ u. result ≡ length u.lists.late) }
{
    count(&units[LATE..CARRIED], MOST_WAITING)
}

// How many events are delivered and wait.
pub fn delivered(units: &[u8]) -> usize
    requires { Room units.now }
    ensures { Reads units.now (λ _ u. result ≡ length u.lists.delivered) }
{
    count(&units[DELIVERED..BEGUN], MOST_DELIVERED)
}
