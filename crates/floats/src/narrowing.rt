// Narrowing: the f32 nearest to an f64, ties to even, worked out from the bits by whole numbers alone.
ghost use Rattle.std.specs.Prelude.{◌≡◌, ◌^◌, ◌<◌, ◌≤◌, not, if◌then◌else◌, nat_le};
ghost use Rattle.std.specs.Float.Ieee.{eq};
ghost use Rattle.std.specs.Float.Ieee.Nearest.{closest};
ghost use Rattle.model.specs.Value.{narrow, narrow_changes};
ghost use Rattle.floats.specs.Narrowing.{NarrowsTo};

use crate::{INFINITY, LEADING, NAN32, SIGN, float_of, float32_of};

// The sign's bit of an f32.
const F32_SIGN: u64 = 0x8000_0000;

// The leading digit of an f32, in which the exponent's field counts.
const F32_LEADING: u64 = 0x80_0000;

// The bits of the f32 infinity.
const F32_INFINITY: u64 = 0x7f80_0000;

// The exponent's field, in an f64, of 2^-150: half of the smallest f32.
const OF_HALF_SMALLEST: u64 = 873;

// That of 2^-126, the least normal f32.
const OF_LEAST_NORMAL: u64 = 897;

// That of 2^128, beyond the largest f32.
const OF_TOO_LARGE: u64 = 1151;

// How many digits fewer an f32 has than an f64.
const FEWER: u64 = 29;

// Below the least normal f32 there is one digit fewer still for each step of the exponent's field x: BELOW - x in all.
const BELOW: u64 = OF_LEAST_NORMAL + FEWER;

// What narrowing comes to: the f32's bits, and whether it is another number than the f64. 0.0 and -0.0 are one number.
#[derive(Clone, Copy, PartialEq, Eq, Debug)]
pub struct Narrowed {
    pub bits: u32,
    pub changed: bool,
}

// q / 2^h to the nearest whole number, a tie to the even one.
fn nearest(q: u64, h: u64) -> u64
    requires { (h < 63) × (q < 9007199254740992) }
    ensures { result ≡ closest q (2 ^ h) }
{
    let unit: u64 = 1 << h;
    let whole = q >> h;
    let rest = q % unit * 2;
    if rest < unit {
        whole
    } else if rest == unit {
        whole + whole % 2
    } else {
        whole + 1
    }
}

// The f32 bits, but for the sign, of the f64 with the exponent's field x and the digits t: too small for any f32, subnormal, normal, or beyond the largest.
// A carry out of the digits goes into the exponent by the sum.
fn magnitude(x: u64, t: u64) -> u64
    requires { (x ≤ 2047) × (t < 4503599627370496) × (x ≡ 2047 → t ≡ 0) }
    ensures { NarrowsTo x t result × (result < 2147483648) }
{
    if x < OF_HALF_SMALLEST {
        0
    } else if x < OF_LEAST_NORMAL {
        nearest(LEADING + t, BELOW - x)
    } else if x < OF_TOO_LARGE {
        (x - OF_LEAST_NORMAL) * F32_LEADING + nearest(LEADING + t, FEWER)
    } else {
        F32_INFINITY
    }
}

// The sign, moved from its place in an f64 to that in an f32.
fn sign(bits: u64) -> u64
    ensures { result ≡ (if nat_le 9223372036854775808 bits then 2147483648 else 0) }
{
    bits / SIGN * F32_SIGN
}

// The bits of the f32 nearest to the f64 with these bits.
fn nearest_f32(bits: u64) -> u32
    ensures { result ≡ narrow bits }
{
    let unsigned = bits % SIGN;
    if INFINITY < unsigned {
        NAN32
    } else {
        (sign(bits) + magnitude(unsigned / LEADING, bits % LEADING)) as u32
    }
}

// Whether an f32 is another number than an f64; a NaN is.
fn differs(x: f32, y: f64) -> bool
    ensures { result ≡ not (eq x y) }
{
    x.is_nan() || x as f64 != y
}

// The f64 with these bits as an f32: its bits, and whether it is another number.
pub fn narrow(bits: u64) -> Narrowed
    ensures { (result.bits ≡ narrow bits) × (result.changed ≡ narrow_changes bits) }
{
    let near = nearest_f32(bits);
    Narrowed {
        bits: near,
        changed: differs(float32_of(near), float_of(bits)),
    }
}
