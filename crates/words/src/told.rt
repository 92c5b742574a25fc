// Words that a caller lends to be told of what was done.
ghost use Rattle.std.specs.Prelude.{◌≡◌, set};

// Word i becomes v, if there is such a word.
pub fn put_at(told: &mut [u64], i: usize, v: u64)
    ensures { told.new ≡ set told.old i v }
{
    // Stays: of what `get_mut` lent, a proof knows the length when it comes back, and no word.
    if i < told.len() {
        told[i] = v;
    }
}
