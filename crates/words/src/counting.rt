// Counts, which are never below 0.
ghost use Rattle.std.specs.Prelude.{◌≡◌, ◌-◌, ◌≤◌, min};

// a - b, or 0 where b is above.
pub fn less(a: usize, b: usize) -> usize
    ensures { result ≡ a - b }
{
    a.saturating_sub(b)
}

// n, or most where that is less.
pub fn least(n: u64, most: usize) -> usize
    ensures value { result ≡ min n most }
    ensures upper_bound { result ≤ most }
{
    n.min(most as u64) as usize
}
