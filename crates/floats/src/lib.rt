// Floats by their bits: sums, comparisons, narrowing, and conversions to and from Ints. Every function is total; all NaN patterns stand for one NaN.
#![tactic(auto)]

ghost use Rattle.std.specs.Prelude.{◌≡◌, ◌+◌, ◌-◌, ◌*◌, ◌/◌, ◌^◌, ◌<◌, ◌≤◌, pos, neg_ℤ, if◌then◌else◌, from_bits, nat_le, to_bits};
ghost use Rattle.std.specs.Float.{binary32, binary64};
ghost use Rattle.model.specs.Value.{plus64, le64, lt64, eq64, plus32, le32, float_of_int, to_int};
ghost use Rattle.model.specs.Questions.{finite};

use std::num::nearest_i64_to_f64;

pub mod narrowing;

// The sign's bit of an f64.
pub const SIGN: u64 = 0x8000_0000_0000_0000;

// The leading digit of an f64, in which the exponent's field counts.
const LEADING: u64 = 0x10_0000_0000_0000;

// The bits of the f64 infinity; NaNs lie above.
pub const INFINITY: u64 = 0x7ff0_0000_0000_0000;

// 1.0
pub const ONE: u64 = 0x3ff0_0000_0000_0000;

// -0.0
pub const MINUS_ZERO: u64 = SIGN;

// The bits that a NaN gets.
const NAN: u64 = 0x7ff8_0000_0000_0000;

// The sign's bit of an f32.
const SIGN32: u32 = 0x8000_0000;

// The bits of the f32 infinity.
const INFINITY32: u32 = 0x7f80_0000;

// The bits that a NaN gets in an f32.
const NAN32: u32 = 0x7fc0_0000;

// The exponent's field of 1.
const OF_ONE: u64 = 1023;

// That of 2^52: from here on the last digit is a whole number.
const OF_2_52: u64 = 1075;

// That of 2^63, beyond the largest Int.
const OF_2_63: u64 = 1086;

// ---- between bits and floats

// The f64 with these bits.
pub fn float_of(bits: u64) -> f64
    ensures { result ≡ from_bits binary64 bits }
{
    if INFINITY < bits % SIGN {
        f64::NAN
    } else {
        f64::from_bits(bits)
    }
}

// The bits of an f64.
pub fn bits_of(x: f64) -> u64
    ensures { result ≡ to_bits binary64 x }
{
    if x.is_nan() { NAN } else { x.to_bits() }
}

// The f32 with these bits.
pub fn float32_of(bits: u32) -> f32
    ensures { result ≡ from_bits binary32 bits }
{
    if INFINITY32 < bits % SIGN32 {
        f32::NAN
    } else {
        f32::from_bits(bits)
    }
}

// The bits of an f32.
pub fn bits32_of(x: f32) -> u32
    ensures { result ≡ to_bits binary32 x }
{
    if x.is_nan() { NAN32 } else { x.to_bits() }
}

// Whether an f64 is neither an infinity nor a NaN.
pub fn is_finite(bits: u64) -> bool
    ensures { result ≡ finite bits }
{
    bits % SIGN < INFINITY
}

// ---- sums and comparisons

// The f64 sum.
pub fn plus64(a: u64, b: u64) -> u64
    ensures { result ≡ plus64 a b }
{
    bits_of(float_of(a) + float_of(b))
}

// At most.
pub fn le64(a: u64, b: u64) -> bool
    ensures { result ≡ le64 a b }
{
    float_of(a) <= float_of(b)
}

// Below.
pub fn lt64(a: u64, b: u64) -> bool
    ensures { result ≡ lt64 a b }
{
    float_of(a) < float_of(b)
}

// Equal: 0.0 and -0.0 are.
pub fn eq64(a: u64, b: u64) -> bool
    ensures { result ≡ eq64 a b }
{
    float_of(a) == float_of(b)
}

// The f32 sum.
pub fn plus32(a: u32, b: u32) -> u32
    ensures { result ≡ plus32 a b }
{
    bits32_of(float32_of(a) + float32_of(b))
}

// At most, of f32.
pub fn le32(a: u32, b: u32) -> bool
    ensures { result ≡ le32 a b }
{
    float32_of(a) <= float32_of(b)
}

// ---- Ints

// The f64 nearest to an Int, ties to even.
pub fn of_int(z: i64) -> u64
    ensures { result ≡ float_of_int z }
{
    bits_of(nearest_i64_to_f64(z))
}

// The whole part of the f64 with the exponent's field x and the digits t: (2^52 + t) * 2^(x - 1075), where that is at least 1 and below 2^63.
fn whole_part(x: u64, t: u64) -> u64
    requires { (1023 ≤ x) × (x < 1086) × (t < 4503599627370496) }
    ensures { (result ≡ (4503599627370496 + t) * 2 ^ (x - 1) / 2 ^ 1074) × (result < 9223372036854775808) }
{
    let digits = LEADING + t;
    if x < OF_2_52 {
        digits >> (OF_2_52 - x)
    } else {
        digits << (x - OF_2_52)
    }
}

// n with the sign of an f64.
fn with_sign(bits: u64, n: u64) -> i64
    requires { n < 9223372036854775808 }
    ensures { result ≡ (if nat_le 9223372036854775808 bits then neg_ℤ (pos n) else pos n) }
{
    if bits < SIGN { n as i64 } else { -(n as i64) }
}

// An f64 without its fraction; one beyond the range of an Int becomes the nearer end, a NaN 0.
pub fn to_int(bits: u64) -> i64
    ensures { result ≡ to_int bits }
{
    let unsigned = bits % SIGN;
    let x = unsigned / LEADING;
    if x < OF_ONE {
        0
    } else if x < OF_2_63 {
        with_sign(bits, whole_part(x, bits % LEADING))
    } else if INFINITY < unsigned {
        0
    } else if bits < SIGN {
        i64::MAX
    } else {
        i64::MIN
    }
}
