// Whether a record shows of each output what that output can show.
ghost use Rattle.words.specs.Words.{words};
ghost use Rattle.std.specs.Prelude.{◌≡◌, ◌*◌, ◌≤◌, length, get_or};
ghost use Rattle.words.specs.Slices.{HasWords};
ghost use Rattle.model.specs.Kinds.{fires};
ghost use Rattle.links.specs.Links.{net};
ghost use Rattle.links.specs.Lent.{net_of};
ghost use Rattle.records.specs.Whole.{good_output, good_outputs};

use circuit::constants::good_constant;
use circuit::inputs::value_output;
use links::Links;
use words::get;

// The kind of an output that shows nothing.
const NOTHING: u64 = 0;

// Whether output o can show this kind and content; one that is not there is an exec.
fn good_output(links: &Links, o: usize, kind: u64, content: u64) -> bool
    ensures { result ≡ good_output (get_or (net_of links.now).outputs o fires) kind content }
{
    if kind == NOTHING {
        return content == 0;
    }
    if !value_output(links, o) {
        return false;
    }
    good_constant(kind, content)
}

// Whether the first n outputs are good: their kinds stand from word k on, and their contents behind these.
pub fn good_outputs(links: &Links, log: &[u8], k: usize, n: usize) -> bool
    requires { (n ≤ length (net links.now).outputs) × HasWords log.now k (2 * n) }
    ensures { result ≡ good_outputs (net_of links.now) (words log.now) k n }
{
    for i in 0..n {
        if !good_output(links, i, get(log, k + i), get(log, k + n + i)) {
            return false;
        }
    }
    true
}
