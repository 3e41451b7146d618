// Conversions of floats: to and from bit patterns, between the widths, to and from indices. Each public one is total and has one equation.
#![tactic(auto)]

ghost use Rattle.std.specs.Prelude.{◌≡◌, ◌^◌, ◌<◌, from_bits, to_bits};
ghost use Rattle.std.specs.Float.{binary32, binary64};
ghost use Rattle.std.specs.Float.Ieee.Nearest.{closest};
ghost use Rattle.model.specs.Numbers.{narrow, floor_index, ceiling_index, index_float};
ghost use Rattle.model.specs.Narrowing.{FallsIn};
ghost use Rattle.float.specs.Narrowing.{RoundsTo, case_pattern};

use crate::formats::{
    HALF_SUBNORMAL_EXPONENT, INFINITY_32, INFINITY_64, LEADING_32, LEADING_64, LEAST_EXPONENT,
    LEAST_NORMAL, LEAST_SUBNORMAL, LEAST_TOO_LARGE, NAN_32, NAN_64, ONES_64, SIGN_32, SIGN_64,
    SURPLUS_DIGITS,
};
use model::Narrowed;

pub mod formats;

// f32::from_bits asks for no NaN, so a NaN's patterns are made into one by a division. Each width has functions of its own: over a trait each would still
// have to be given for each width, with the same one test in it.
pub fn f32_from_bits(b: u32) -> f32
    ensures { result ≡ from_bits binary32 b }
{
    if b % SIGN_32 > INFINITY_32 {
        0.0 / 0.0
    } else {
        f32::from_bits(b)
    }
}

// A NaN has the pattern 7fc00000 here, and 7ff8000000000000 at 64 bits.
// At each width by itself, as from bits.
pub fn f32_to_bits(x: f32) -> u32
    ensures { result ≡ to_bits binary32 x }
{
    if x != x { NAN_32 } else { f32::to_bits(x) }
}

pub fn f64_from_bits(b: u64) -> f64
    ensures { result ≡ from_bits binary64 b }
{
    if b % SIGN_64 > INFINITY_64 {
        0.0 / 0.0
    } else {
        f64::from_bits(b)
    }
}

pub fn f64_to_bits(x: f64) -> u64
    ensures { result ≡ to_bits binary64 x }
{
    if x != x { NAN_64 } else { f64::to_bits(x) }
}

// Both widths share their values: the same number, infinity or NaN.
pub fn widen(x: f32) -> f64
    ensures { result ≡ x }
{
    f64::from(x)
}

// ---- narrowing, by the cases of IEEE 754: docs/NARROWING.md has the standard's sentence, the predicate and the branch side by side

// n / 2 ^ k rounded to a whole number (4.3.1, round_ties_to_even): the nearer one, and half way the even one.
// By < and >: docs/NARROWING.md sets these branches beside the standard's sentences.
fn rounding_shift(n: u64, k: u64) -> u64
    requires { (0 < k) × (k < 64) }
    ensures { result ≡ closest n (2 ^ k) }
{
    let unit = 1u64 << k;
    let quotient = n >> k;
    let remainder = n % unit;
    let half = unit >> 1;
    if remainder < half {
        quotient
    } else if remainder > half {
        quotient + 1
    } else {
        quotient + quotient % 2
    }
}

// A finite value's rounded result, had the exponents no upper end (7.4), as a 32-bit pattern without its sign. Exponent and fraction are the value's fields.
fn rounded_pattern(exponent: u64, fraction: u64) -> u64
    requires { (exponent < 2047) × (fraction < 2 ^ 52) }
    ensures { RoundsTo exponent fraction result }
{
    if exponent >= LEAST_EXPONENT {
        // A normal result keeps as many digits as the format has. Its leading digit is one more in the exponent's field, and a carry another one.
        (exponent - LEAST_EXPONENT) * LEADING_32
            + rounding_shift(LEADING_64 + fraction, SURPLUS_DIGITS)
    } else if exponent >= HALF_SUBNORMAL_EXPONENT {
        // Below the least exponent the last place stays where it is, so each exponent less costs a digit more.
        rounding_shift(
            LEADING_64 + fraction,
            SURPLUS_DIGITS + (LEAST_EXPONENT - exponent),
        )
    } else {
        // Less than half of the least subnormal. A 64-bit subnormal or zero is far below, so that its missing leading digit does not matter.
        0
    }
}

// A pattern's case. Patterns without their sign are in the order of their values, so the rounded result's is compared with the least of each class.
fn narrow_case(b: u64) -> Narrowed
    ensures { FallsIn b result }
{
    let exponent = b % SIGN_64 / LEADING_64;
    let fraction = b % LEADING_64;
    if exponent == ONES_64 {
        if fraction != 0 {
            return Narrowed::Nan;
        }
        return Narrowed::Infinite;
    }
    let rounded = rounded_pattern(exponent, fraction);
    if rounded >= LEAST_TOO_LARGE {
        return Narrowed::TooLarge;
    }
    if rounded >= LEAST_NORMAL {
        return Narrowed::Normal(rounded as u32);
    }
    if rounded >= LEAST_SUBNORMAL {
        return Narrowed::Subnormal(rounded as u32);
    }
    Narrowed::Zero
}

// The 32-bit pattern of a case, without its sign.
fn case_pattern(case: Narrowed) -> u32
    ensures { result ≡ case_pattern case }
{
    match case {
        Narrowed::Nan => NAN_32,
        Narrowed::Infinite => INFINITY_32,
        Narrowed::TooLarge => INFINITY_32,
        Narrowed::Normal(n) => n,
        Narrowed::Subnormal(n) => n,
        Narrowed::Zero => 0,
    }
}

// Worked out on the pattern, by the cases that document 02's Card 4 asks for; std's nearest_f64_to_f32 would hide them.
// The sign is kept.
pub fn narrow(x: f64) -> f32
    ensures { result ≡ narrow x }
{
    let b = f64_to_bits(x);
    let n = case_pattern(narrow_case(b));
    if b < SIGN_64 {
        f32_from_bits(n)
    } else {
        f32_from_bits(SIGN_32 + n)
    }
}

// ---- indices

// Rust's `x.floor() as usize`. Truncation is the floor from 0 on; what has no index gets the first or the last. std's saturating cast would hide the last
// index, which the edit floor_index_last takes for a smaller one.
pub fn floor_index(x: f32) -> u64
    ensures { result ≡ floor_index x }
{
    if x > -1.0 {
        if x < 18446744073709551616.0 {
            std::num::truncating_f32_to_u64(x)
        } else {
            0xffff_ffff_ffff_ffff
        }
    } else {
        0
    }
}

// Rust's `x.ceil() as usize`, for who has the floor's index n already: the next index where x is above its floor, which can only be below 2 ^ 24, since
// larger floats are whole.
pub fn ceiling_from(x: f32, n: u64) -> u64
    requires { n ≡ floor_index x }
    ensures { result ≡ ceiling_index x }
{
    if x < 16777216.0 {
        if (n as f32) < x {
            return n + 1;
        }
    }
    n
}

pub fn ceiling_index(x: f32) -> u64
    ensures { result ≡ ceiling_index x }
{
    ceiling_from(x, floor_index(x))
}

// Rust's `n as f32`. The cast is supplied where it is exact, below 2 ^ 24. From there on the k lowest digits are rounded away, so that 24 are left;
// the last place is then 2 ^ k, which lies 149 + k places above the smallest float. std's nearest_u64_to_f32 has no place for the digit that the edit
// index_to_float_digits takes away.
pub fn index_to_float(n: u64) -> f32
    ensures { result ≡ index_float n }
{
    if n < 16777216 {
        n as f32
    } else {
        let k = (40 - u64::leading_zeros(n)) as u64;
        f32_from_bits(((149 + k) * LEADING_32 + rounding_shift(n, k)) as u32)
    }
}
