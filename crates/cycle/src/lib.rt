// Cycle's step: the next number, up or down, by Count.
#![tactic(auto)]

ghost use Rattle.std.specs.Prelude.{◌≡◌, suc, ◌-◌, ◌≤◌, ◌<◌};
ghost use Rattle.words.specs.Words.{signed};
ghost use Rattle.model.specs.Exec.{remainder, cycle_next};
ghost use Rattle.cycle.specs.Step.{step};

use words::unsigned;

// The words of negative numbers begin here.
const FIRST_NEGATIVE: u64 = 0x8000_0000_0000_0000;

// The number that is as far from the last of 0 to n - 1 as r is from 0.
fn from_end(n: u64, r: u64) -> u64
    requires { r < n }
    ensures { result ≡ n - suc r }
{
    n - 1 - r
}

// The remainder by n of a number that is not below n, by its word w: Count has shrunk. (A Cycle shows no negative number.)
fn shrunk(w: u64, n: u64) -> u64
    requires { (0 < n) × (n ≤ w) }
    ensures { (result ≡ remainder (signed w) n) × (result < n) }
{
    if w < FIRST_NEGATIVE {
        return w % n;
    }
    from_end(n, !w % n)
}

// One further among the numbers below n, or one back; at the ends it wraps.
fn step(down: bool, n: u64, r: u64) -> u64
    requires { r < n }
    ensures { result ≡ step down n r }
{
    if down {
        if r == 0 {
            return n - 1;
        }
        return r - 1;
    }
    if r + 1 == n {
        return 0;
    }
    r + 1
}

// Cycle's next number from `now`: 0 for a Count of 0 or less. While `now` is below Count it wraps by comparison; only after Count has shrunk does it divide.
pub fn cycle_next(down: bool, count: i64, now: i64) -> u64
    ensures { result ≡ cycle_next down count now }
{
    let n = unsigned(count);
    if FIRST_NEGATIVE <= n {
        return 0;
    }
    if n == 0 {
        return 0;
    }
    let w = unsigned(now);
    if w < n {
        return step(down, n, w);
    }
    step(down, n, shrunk(w, n))
}
