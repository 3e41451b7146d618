// The two formats, by IEEE 754's parameters (3.3) and by what the fields of a pattern weigh (3.4). No trait's constants: each format would give all of
// them again, and docs/NARROWING.md, which is held to this file, quotes these names.

// The digits of a significand, the leading one counted: p.
pub const PRECISION_32: u64 = 24;

pub const PRECISION_64: u64 = 53;

// What an exponent's field has above its exponent: bias. It is the greatest exponent, emax, too; the least, emin, is 1 - emax.
pub const BIAS_32: u64 = 127;

pub const BIAS_64: u64 = 1023;

// ---- fields

// The weight of the exponent's field. The leading digit of a normal significand, which is not stored, has it too.
pub const LEADING_32: u64 = 1 << (PRECISION_32 - 1);

pub const LEADING_64: u64 = 1 << (PRECISION_64 - 1);

// The exponent's field in an infinity and in a NaN: all ones.
pub const ONES_32: u64 = 2 * BIAS_32 + 1;

pub const ONES_64: u64 = 2 * BIAS_64 + 1;

// The weight of the sign.
pub const SIGN_32: u32 = ((ONES_32 + 1) * LEADING_32) as u32;

pub const SIGN_64: u64 = (ONES_64 + 1) * LEADING_64;

// ---- patterns without their sign

pub const INFINITY_32: u32 = (ONES_32 * LEADING_32) as u32;

pub const INFINITY_64: u64 = ONES_64 * LEADING_64;

// A quiet NaN with no other digit in its fraction.
pub const NAN_32: u32 = INFINITY_32 + (LEADING_32 / 2) as u32;

pub const NAN_64: u64 = INFINITY_64 + LEADING_64 / 2;

// ---- from 64 bits to 32

// The digits that a 64-bit significand has more.
pub const SURPLUS_DIGITS: u64 = PRECISION_64 - PRECISION_32;

// The least exponent of a normal 32-bit float, 1 - BIAS_32, as a 64-bit field has it.
pub const LEAST_EXPONENT: u64 = BIAS_64 + 1 - BIAS_32;

// The exponent of half the least subnormal, which lies a whole significand below.
pub const HALF_SUBNORMAL_EXPONENT: u64 = LEAST_EXPONENT - PRECISION_32;

// The least rounded pattern of each class. The least that is too large is the one that would be 2 ^ (BIAS_32 + 1), which is the infinity's.
pub const LEAST_SUBNORMAL: u64 = 1;

pub const LEAST_NORMAL: u64 = LEADING_32;

pub const LEAST_TOO_LARGE: u64 = ONES_32 * LEADING_32;
