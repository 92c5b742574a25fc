// The two words that hold what an output shows: a tag and a content. Odd tags have a whole content, so that a row of them is masked without a branch. No match here: a jump table costs more than two tests of digits.
ghost use Rattle.std.specs.Prelude.{◌≡◌, ℕ};
ghost use Rattle.model.specs.Value.{kind_of, content_of};
ghost use Rattle.wires.specs.Held.{held, tag_of};

use model::Value;
use std::num::wrapping_sub_u64;
use value::kind_of;

// The tag of a value.
pub fn tag_of(v: Value) -> u64
    ensures { result ≡ tag_of v }
{
    let kind = kind_of(v);
    kind ^ kind / 2
}

// The value that a tag and a content hold.
pub fn value_held(tag: u64, content: u64) -> Value
    ensures { result ≡ held tag content }
{
    if tag % 2 != 0 {
        if tag % 4 == 1 {
            return Value::Int(content);
        }
        return Value::Float(content);
    }
    if tag % 4 == 0 {
        return Value::Nothing;
    }
    Value::Bool(content % 2 != 0)
}

// Its kind.
pub fn kind_held(tag: u64) -> u64
    ensures { (b : ℕ) → result ≡ kind_of (held tag b) }
{
    let low = tag % 4;
    low ^ low / 2
}

// Its content.
pub fn content_held(tag: u64, content: u64) -> u64
    ensures { result ≡ content_of (held tag content) }
{
    let whole = wrapping_sub_u64(0, tag % 2);
    content & (whole | tag / 2 % 2)
}
