// Calls that wait: the chain stack and the forks.
ghost use Rattle.std.specs.Prelude.{◌≡◌, length};
ghost use Rattle.model.specs.Chain.{no_calls, pop};
ghost use Rattle.links.specs.Lent.{Room};
ghost use Rattle.units.specs.Calls.{with_calls, fits_one, called, forked};
ghost use Rattle.units.specs.Lent.{Reads, Changes, Pops};

use crate::layout::{FORKS, MOST_CALLS, PENDING, STACK};
use lists::{Full, clear, count, dequeue, enqueue, stack_pop, stack_push};

// A call on top of the chain stack, if there is room.
pub fn push_call(units: &mut [u8], i: usize) -> Result<(), Full>
    requires { Room units.old }
    ensures { Changes (units.old, units.new) (λ _ old new. (result ≡ fits_one old.calls.stack) × (new ≡ with_calls old (called i old.calls))) }
{
    stack_push(&mut units[STACK..FORKS], MOST_CALLS, i as u64)
}

// A call behind the forks, if there is room.
pub fn push_fork(units: &mut [u8], i: usize) -> Result<(), Full>
    requires { Room units.old }
    ensures { Changes (units.old, units.new) (λ _ old new. (result ≡ fits_one old.calls.forks) × (new ≡ with_calls old (forked i old.calls))) }
{
    enqueue(&mut units[FORKS..PENDING], MOST_CALLS, i as u64)
}

// How many calls wait on the chain stack.
pub fn calls_waiting(units: &[u8]) -> usize
    requires { Room units.now }
    ensures { Reads units.now (λ _ u. result ≡ length u.calls.stack) }
{
    count(&units[STACK..FORKS], MOST_CALLS)
}

// How many forks wait.
pub fn forks_waiting(units: &[u8]) -> usize
    requires { Room units.now }
    ensures { Reads units.now (λ _ u. result ≡ length u.calls.forks) }
{
    count(&units[FORKS..PENDING], MOST_CALLS)
}

// The next call to make is taken off: from the stack, as long as more than `under` wait there, else from the forks, which wait while a body is running.
pub fn pop_call(units: &mut [u8], under: usize, inside: bool) -> Option<u64>
    requires { Room units.old }
    ensures { Changes (units.old, units.new) (λ _ old new. Pops old new result (pop inside under old.calls.stack old.calls.forks)) }
{
    if under < calls_waiting(units) {
        return stack_pop(&mut units[STACK..FORKS], MOST_CALLS);
    }
    if inside {
        return None;
    }
    dequeue(&mut units[FORKS..PENDING], MOST_CALLS)
}

// No call waits.
pub fn clear_calls(units: &mut [u8])
    requires { Room units.old }
    ensures { Changes (units.old, units.new) (λ _ old new. new ≡ with_calls old no_calls) }
{
    clear(&mut units[STACK..FORKS]);
    clear(&mut units[FORKS..PENDING]);
}
