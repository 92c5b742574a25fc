// Rows of eight values, as two rows of words.
ghost use Rattle.std.specs.Prelude.{ℕ, ◌≡◌, ◌<◌, get_or};
ghost use Rattle.model.specs.declared.Value.TheVariants.{Nothing};
ghost use Rattle.model.specs.Value.{kind_of, content_of};

use crate::{content_of, kind_of};
use model::Value;
use std::array;

// The kinds of the values.
pub fn kinds_of(row: &[Value; 8]) -> [u64; 8]
    ensures { (j : ℕ) → j < 8 → get_or result j 0 ≡ kind_of (get_or row.now j Nothing) }
{
    array::from_fn(|j| kind_of(row[j]))
}

// Their contents.
pub fn contents_of(row: &[Value; 8]) -> [u64; 8]
    ensures { (j : ℕ) → j < 8 → get_or result j 0 ≡ content_of (get_or row.now j Nothing) }
{
    array::from_fn(|j| content_of(row[j]))
}
