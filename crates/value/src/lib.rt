// The values on wires: how each is read as a truth, an Int or a Float, when two are equal, and each as two words.
#![tactic(auto)]

ghost use Rattle.std.specs.Prelude.{◌≡◌};
ghost use Rattle.model.specs.Value.{truthy, as_int, as_float, same, bit, kind_of, content_of, value_of};
ghost use Rattle.model.specs.Opening.{enabled};

use floats::{INFINITY, ONE, SIGN, eq64, of_int, to_int};
use model::Value;
use words::signed;

pub mod rows;

// The kinds of values.
const NOTHING: u64 = 0;

const INT: u64 = 1;

const FLOAT: u64 = 2;

const BOOL: u64 = 3;

// The kind of a value.
#[tactic(auto, unfolding(model::specs::Value::kind_of))]
pub fn kind_of(v: Value) -> u64
    ensures { result ≡ kind_of v }
{
    match v {
        Value::Nothing => NOTHING,
        Value::Int(_) => INT,
        Value::Float(_) => FLOAT,
        Value::Bool(_) => BOOL,
    }
}

// Its content: the bits of an Int or a Float, 0 or 1 of a Bool, 0 of nothing.
#[tactic(auto, unfolding(model::specs::Value::content_of, model::specs::Value::bit))]
pub fn content_of(v: Value) -> u64
    ensures { result ≡ content_of v }
{
    match v {
        Value::Nothing => 0,
        Value::Int(b) | Value::Float(b) => b,
        Value::Bool(t) => u64::from(t),
    }
}

// The value of a kind and a content.
#[tactic(auto, unfolding(model::specs::Value::value_of))]
pub fn value_of(kind: u64, content: u64) -> Value
    ensures { result ≡ value_of kind content }
{
    match kind {
        NOTHING => Value::Nothing,
        INT => Value::Int(content),
        FLOAT => Value::Float(content),
        _ => Value::Bool(content != 0),
    }
}

// Whether it reads as true: an Int or a Float that is not zero, a Bool that is true.
pub fn truthy(v: Value) -> bool
    ensures { result ≡ truthy v }
{
    let content = content_of(v);
    if matches!(v, Value::Float(_)) {
        return content % SIGN != 0;
    }
    content != 0
}

// As an Int; nothing gives the default.
pub fn as_int(v: Value, nothing: i64) -> i64
    ensures { result ≡ as_int nothing v }
{
    if matches!(v, Value::Nothing) {
        return nothing;
    }
    if let Value::Float(b) = v {
        return to_int(b);
    }
    signed(content_of(v))
}

// As a Float's bits; nothing gives the default.
pub fn as_float(v: Value, nothing: u64) -> u64
    ensures { result ≡ as_float nothing v }
{
    match v {
        Value::Nothing => nothing,
        Value::Int(b) => of_int(signed(b)),
        Value::Float(b) => b,
        Value::Bool(t) => { if t { ONE } else { 0 } }
    }
}

// Equal: of one kind, and equal in it. Contents come first: they decide it but for a NaN, and for 0.0 and -0.0.
pub fn same(a: Value, b: Value) -> bool
    ensures { result ≡ same a b }
{
    // Stays: a match over both values at once is two jump tables, and sends Floats of equal bits through floats.
    let kind = kind_of(a);
    if kind != kind_of(b) {
        return false;
    }
    let x = content_of(a);
    let y = content_of(b);
    if x == y {
        if kind == FLOAT {
            return x % SIGN <= INFINITY;
        }
        return true;
    }
    if kind != FLOAT {
        return false;
    }
    eq64(x, y)
}

// Whether `bEnabled` of this value means enabled: nothing does.
pub fn enabled(v: Value) -> bool
    ensures { result ≡ enabled v }
{
    match v {
        Value::Nothing => true,
        _ => truthy(v),
    }
}
