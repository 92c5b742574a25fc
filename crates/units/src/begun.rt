// The units begun in a tick, in the order in which they began.
ghost use Rattle.std.specs.Prelude.{◌≡◌, ◌≤◌, length};
ghost use Rattle.schedule.specs.Schedule.{most_units};
ghost use Rattle.links.specs.Lent.{Room};
ghost use Rattle.units.specs.Lent.{Reads, Changes, ListsUnit};

use crate::layout::{BEGUN, BEGUN_END};
use lists::{Full, count, stack_push};
use records::MOST_UNITS;

// The unit of entry x begins, if one more may: it joins the units begun.
pub fn begin_unit(units: &mut [u8], x: u64) -> Result<(), Full>
    requires { Room units.old }
    ensures { Changes (units.old, units.new) (λ _ old new. ListsUnit old new result x) }
{
    stack_push(&mut units[BEGUN..BEGUN_END], MOST_UNITS, x)
}

// How many have begun.
pub fn begun(units: &[u8]) -> usize
    requires { Room units.now }
    ensures reads { Reads units.now (λ _ u. result ≡ length u.begun) }
    ensures upper_bound { result ≤ most_units }
{
    count(&units[BEGUN..BEGUN_END], MOST_UNITS)
}
