// Rows of words, one behind the other.
ghost use Rattle.std.specs.Prelude.{◌≡◌, ◌+◌, ◌*◌, ◌≤◌, length};
ghost use Rattle.std.proofs.Math.Seq.{paste};
ghost use Rattle.words.specs.Words.{words, tail};

use crate::put;

// The words from word p on become those of the row.
pub fn put_row(area: &mut [u8], p: usize, row: &[u64])
    requires { (p + length row.now) * 8 ≤ length area.old }
    ensures area_value { words area.new ≡ paste (words area.old) p row.now (length row.now) }
    ensures area_value_2 { tail area.new ≡ tail area.old }
{
    for (i, &v) in row.iter().enumerate() {
        put(area, p + i, v);
    }
}
