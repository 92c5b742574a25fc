// The calls of an output: remote ones behind the forks, the others before the stack.
ghost use Rattle.std.specs.Prelude.{[], ◌∷◌};
ghost use Rattle.std.proofs.Math.Option.{some};
ghost use Rattle.model.specs.Chain.{push_calls};
ghost use Rattle.links.specs.Links.{call_of};
ghost use Rattle.links.specs.Lent.{Room, Short};
ghost use Rattle.units.specs.Lent.{Changes, UnitsChange};
ghost use Rattle.chain.specs.Chain.{Pushes, calls_in, forks_behind, stack_before};

use links::{Links, called_input, is_remote};
use lists::Full;
use units::calls::{push_call, push_fork};

// The call with this target goes behind the forks, if it is remote.
fn fork_one(units: &mut [u8], target: usize) -> Result<(), Full>
    requires { Room units.old }
    ensures { Changes (units.old, units.new) (λ _ old new. Pushes old new result (forks_behind (call_of target ∷ []) old.calls)) }
{
    if is_remote(target) {
        return push_fork(units, called_input(target));
    }
    Ok(())
}

// The call with this target goes on top of the stack, if it is not remote.
fn stack_one(units: &mut [u8], target: usize) -> Result<(), Full>
    requires { Room units.old }
    ensures { Changes (units.old, units.new) (λ _ old new. Pushes old new result (stack_before (call_of target ∷ []) old.calls)) }
{
    if is_remote(target) {
        return Ok(());
    }
    push_call(units, called_input(target))
}

// The call with this target, where it belongs.
fn push_one(units: &mut [u8], target: usize) -> Result<(), Full>
    requires { Room units.old }
    ensures { Changes (units.old, units.new) (λ _ old new. Pushes old new result (stack_before (call_of target ∷ []) (forks_behind (call_of target ∷ []) old.calls))) }
{
    if is_remote(target) {
        return push_fork(units, called_input(target));
    }
    push_call(units, called_input(target))
}

// The remote ones of n calls from call a on, in their order, behind the forks.
fn push_forks(links: &Links, units: &mut [u8], a: usize, n: usize) -> Result<(), Full>
    requires { Room units.old × Short a × Short n }
    ensures { UnitsChange links.now (units.old, units.new) (λ _ old new. Pushes old new result (forks_behind (calls_in links.now a n) old.calls)) }
{
    for k in 0..n {
        fork_one(units, links.call(a + k))?;
    }
    Ok(())
}

// The others, from the last to the first, before the stack.
fn push_stack(links: &Links, units: &mut [u8], a: usize, n: usize) -> Result<(), Full>
    requires { Room units.old × Short a × Short n }
    ensures { UnitsChange links.now (units.old, units.new) (λ _ old new. Pushes old new result (stack_before (calls_in links.now a n) old.calls)) }
{
    for k in (0..n).rev() {
        stack_one(units, links.call(a + k))?;
    }
    Ok(())
}

// n calls from call a on, each where it belongs.
fn push_all(links: &Links, units: &mut [u8], a: usize, n: usize) -> Result<(), Full>
    requires { Room units.old × Short a × Short n }
    ensures { UnitsChange links.now (units.old, units.new) (λ _ old new. Pushes old new result (stack_before (calls_in links.now a n) (forks_behind (calls_in links.now a n) old.calls))) }
{
    push_forks(links, units, a, n)?;
    push_stack(links, units, a, n)
}

// The calls of output o. Most outputs have one or none.
pub fn push_calls(links: &Links, units: &mut [u8], o: usize) -> Result<(), Full>
    requires { Room units.old }
    ensures { UnitsChange links.now (units.old, units.new) (λ c old new. Pushes old new result (push_calls c (some o) old.calls)) }
{
    let n = links.call_count(o);
    if n == 0 {
        return Ok(());
    }
    let a = links.first_call(o);
    if n == 1 {
        return push_one(units, links.call(a));
    }
    push_all(links, units, a, n)
}
