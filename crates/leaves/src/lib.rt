// The leaves as C functions, for the comparison with the hardware.
#![tactic(auto)]

ghost use Rattle.std.specs.Prelude.{◌≡◌};
ghost use Rattle.model.specs.Value.{plus64, le64, lt64, eq64, plus32, le32, narrow, narrow_changes, float_of_int, to_int};
ghost use Rattle.model.specs.Questions.{finite};

use floats::narrowing::narrow;
use floats::{eq64, is_finite, le32, le64, lt64, of_int, plus32, plus64, to_int};

// The bits of the f32 nearest to an f64.
#[unsafe(no_mangle)]
pub extern "C" fn hazhirun_narrow(bits: u64) -> u32
    ensures { result ≡ narrow bits }
{
    narrow(bits).bits
}

// Whether it is another number.
#[unsafe(no_mangle)]
pub extern "C" fn hazhirun_narrow_changes(bits: u64) -> bool
    ensures { result ≡ narrow_changes bits }
{
    narrow(bits).changed
}

// Whether an f64 is neither an infinity nor a NaN.
#[unsafe(no_mangle)]
pub extern "C" fn hazhirun_is_finite(bits: u64) -> bool
    ensures { result ≡ finite bits }
{
    is_finite(bits)
}

// The bits of the f64 nearest to an Int.
#[unsafe(no_mangle)]
pub extern "C" fn hazhirun_of_int(z: i64) -> u64
    ensures { result ≡ float_of_int z }
{
    of_int(z)
}

// An f64 without its fraction.
#[unsafe(no_mangle)]
pub extern "C" fn hazhirun_to_int(bits: u64) -> i64
    ensures { result ≡ to_int bits }
{
    to_int(bits)
}

// The f64 sum.
#[unsafe(no_mangle)]
pub extern "C" fn hazhirun_plus64(a: u64, b: u64) -> u64
    ensures { result ≡ plus64 a b }
{
    plus64(a, b)
}

// At most.
#[unsafe(no_mangle)]
pub extern "C" fn hazhirun_le64(a: u64, b: u64) -> bool
    ensures { result ≡ le64 a b }
{
    le64(a, b)
}

// Below.
#[unsafe(no_mangle)]
pub extern "C" fn hazhirun_lt64(a: u64, b: u64) -> bool
    ensures { result ≡ lt64 a b }
{
    lt64(a, b)
}

// Equal.
#[unsafe(no_mangle)]
pub extern "C" fn hazhirun_eq64(a: u64, b: u64) -> bool
    ensures { result ≡ eq64 a b }
{
    eq64(a, b)
}

// The f32 sum.
#[unsafe(no_mangle)]
pub extern "C" fn hazhirun_plus32(a: u32, b: u32) -> u32
    ensures { result ≡ plus32 a b }
{
    plus32(a, b)
}

// At most, of f32.
#[unsafe(no_mangle)]
pub extern "C" fn hazhirun_le32(a: u32, b: u32) -> bool
    ensures { result ≡ le32 a b }
{
    le32(a, b)
}
