//! The number of a sign, digits and a scale, in the first form that carries it.
ghost use Rattle.std.specs.Prelude.{◌≡◌, ℕ, ◌-◌, ◌≤◌, ◌<◌, ◌^◌, Err};
ghost use Rattle.jsonb_spec.specs.Grammar.ExactNumber.{exact_number};
ghost use Rattle.jsonb_spec.specs.Grammar.ExtendedNumber.{decimal_number};
ghost use Rattle.jsonb_spec.specs.Number.Signed.{signed_by};
ghost use Rattle.jsonb_core.specs.View.{number_view};

use jsonb_core::number::{Decimal64, Decimal128, Number};

// The most digits of a number that 64 bits carry with a scale.
pub(super) const DECIMAL64_DIGITS: usize = 18;

// What is above every number of 18 digits.
const PAST_DECIMAL64: u128 = 1_000_000_000_000_000_000;

// A magnitude with its sign.
pub(super) fn with_sign(negative: bool, magnitude: u128) -> i128
    requires { magnitude < 2 ^ 127 }
    ensures { result ≡ signed_by negative magnitude }
{
    let value = magnitude as i128;
    if negative { -value } else { value }
}

// An integer, of which 64 bits hold the magnitude.
pub(super) fn short_integer(negative: bool, magnitude: u64) -> Number
    ensures { (precision : ℕ) → magnitude < 10 ^ precision
        → number_view result ≡ decimal_number 0 precision (signed_by negative magnitude) }
{
    if !negative || magnitude == 0 {
        return Number::UInt64(magnitude);
    }
    let value = with_sign(true, u128::from(magnitude));
    match i64::try_from(value) {
        Ok(value) => Number::Int64(value),
        Err(_) => Number::Decimal128(Decimal128 { scale: 0, value }),
    }
}

// A number of at most 18 digits.
pub(super) fn short_decimal(scale: usize, negative: bool, magnitude: u64) -> Number
    requires { scale ≤ 18 × magnitude < 10 ^ 18 }
    ensures { (precision : ℕ) → precision ≤ 18 → magnitude < 10 ^ precision
        → number_view result ≡ decimal_number scale precision (signed_by negative magnitude) }
{
    if scale == 0 {
        return short_integer(negative, magnitude);
    }
    Number::Decimal64(Decimal64 {
        scale: scale as u8,
        value: with_sign(negative, u128::from(magnitude)) as i64,
    })
}

// An integer of at most 38 digits.
fn integer(negative: bool, magnitude: u128) -> Number
    requires { magnitude < 10 ^ 38 }
    ensures { (precision : ℕ) → magnitude < 10 ^ precision
        → number_view result ≡ decimal_number 0 precision (signed_by negative magnitude) }
{
    match u64::try_from(magnitude) {
        Ok(magnitude) => short_integer(negative, magnitude),
        Err(_) => Number::Decimal128(Decimal128 {
            scale: 0,
            value: with_sign(negative, magnitude),
        }),
    }
}

// A number of at most 38 digits.
pub(super) fn decimal(scale: usize, precision: usize, negative: bool, magnitude: u128) -> Number
    requires few { scale ≤ precision × precision ≤ 38 }
    requires small { magnitude < 10 ^ precision }
    ensures { number_view result ≡ decimal_number scale precision (signed_by negative magnitude) }
{
    if scale == 0 {
        return integer(negative, magnitude);
    }
    if precision <= DECIMAL64_DIGITS {
        return short_decimal(scale, negative, magnitude as u64);
    }
    Number::Decimal128(Decimal128 {
        scale: scale as u8,
        value: with_sign(negative, magnitude),
    })
}

// A number of at most 38 digits, at its exact value.
pub(crate) fn exact(scale: usize, negative: bool, magnitude: u128) -> Number
    requires { scale ≤ 38 × magnitude < 10 ^ 38 }
    ensures { number_view result ≡ exact_number scale (signed_by negative magnitude) }
{
    if scale == 0 {
        return integer(negative, magnitude);
    }
    if scale <= DECIMAL64_DIGITS && magnitude < PAST_DECIMAL64 {
        return short_decimal(scale, negative, magnitude as u64);
    }
    Number::Decimal128(Decimal128 {
        scale: scale as u8,
        value: with_sign(negative, magnitude),
    })
}
