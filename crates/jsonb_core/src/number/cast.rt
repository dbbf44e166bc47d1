//! Numbers as integers.
ghost use Rattle.std.specs.Prelude.{◌≡◌, ℕ, ℤ, ◌+◌, ◌*◌, ◌^◌, ◌<◌, ◌≤◌, ◌↔◌, Some, pos, false, IsSome, IfSome, IfNone, FitsSigned};
ghost use Rattle.std.specs.Int.{w64};
ghost use Rattle.jsonb_spec.specs.Number.Cast.{HasValue, HasNearest, IsRounded};
ghost use Rattle.jsonb_spec.specs.Number.Signed.{signed_by};
ghost use Rattle.jsonb_core.specs.View.{number_view};

use super::powers::power_of_ten;
use crate::number::Number;

// 10^scale, where a u128 holds it.
fn power_of(scale: u8) -> Option<u128>
    ensures some { IfSome result (λ p. (p ≡ 10 ^ scale) × (0 < p)) }
    ensures none { IfNone result (10 ^ 39 ≤ 10 ^ scale) }
{
    if scale > 38 {
        return None;
    }
    Some(power_of_ten(usize::from(scale)))
}

// magnitude / 10^scale, where that is an integer.
fn exact_quotient(magnitude: u128, scale: u8) -> Option<u128>
    ensures { (k : ℕ) → (result ≡ Some k) ↔ (magnitude ≡ k * 10 ^ scale) }
{
    match power_of(scale) {
        Some(power) if magnitude % power == 0 => Some(magnitude / power),
        Some(_) => None,
        None if magnitude == 0 => Some(0),
        None => None,
    }
}

// magnitude / 10^scale as an integer, with halves rounded up.
fn rounded_quotient(magnitude: u128, scale: u8) -> u128
    requires { magnitude ≤ 2 ^ 127 }
    ensures { IsRounded scale magnitude result }
{
    match power_of(scale) {
        Some(power) => {
            let rest = magnitude % power;
            let half_or_more = rest >= power - rest;
            magnitude / power + u128::from(half_or_more)
        }
        None => 0,
    }
}

// The integer with this sign.
fn with_sign(negative: bool, magnitude: u128) -> i128
    requires at_most { magnitude ≤ 2 ^ 127 }
    requires positive { negative ≡ false → magnitude < 2 ^ 127 }
    ensures { result ≡ signed_by negative magnitude }
{
    if !negative {
        magnitude as i128
    } else if magnitude == 0 {
        0
    } else {
        -1 - (magnitude - 1) as i128
    }
}

impl Number {
    /// The number as it is, where it is whole.
    ///
    /// ```
    /// assert_eq!(rt; Number::Int64(-7).as_i128(), Some(-7));
    /// let half = jsonb::parse_value(rt.alloc(), b"0.5")?;
    /// assert_eq!(rt; half.as_number().and_then(|half| half.as_i128()), None);
    /// ```
    pub fn as_i128(&self) -> Option<i128>
        ensures { (n : ℤ) → (result ≡ Some n)
            ↔ HasValue (number_view self.now) n }
    {
        let (negative, magnitude) = self.sign_and_magnitude();
        let quotient = exact_quotient(magnitude, self.scale())?;
        Some(with_sign(negative, quotient))
    }

    /// The number as it is, where it is whole and fits.
    pub fn as_i64(&self) -> Option<i64>
        ensures { (n : ℤ) → (result ≡ Some n)
            ↔ (HasValue (number_view self.now) n × FitsSigned w64 n) }
    {
        i64::try_from(self.as_i128()?).ok()
    }

    /// The number as it is, where it is whole and fits.
    pub fn as_u64(&self) -> Option<u64>
        ensures { (n : ℕ) → (result ≡ Some n)
            ↔ (HasValue (number_view self.now) (pos n) × (n < 2 ^ 64)) }
    {
        u64::try_from(self.as_i128()?).ok()
    }

    /// The nearest integer; half is rounded away from zero.
    ///
    /// ```
    /// let half = jsonb::parse_value(rt.alloc(), b"-0.5")?;
    /// assert_eq!(rt; half.as_number().and_then(|half| half.to_i128()), Some(-1));
    /// ```
    pub fn to_i128(&self) -> Option<i128>
        ensures some { IsSome result }
        ensures nearest { (n : ℤ) → (result ≡ Some n)
            ↔ HasNearest (number_view self.now) n }
    {
        let (negative, magnitude) = self.sign_and_magnitude();
        Some(with_sign(negative, rounded_quotient(magnitude, self.scale())))
    }

    /// The nearest integer, where it fits; half is rounded away from zero.
    pub fn to_i64(&self) -> Option<i64>
        ensures { (n : ℤ) → (result ≡ Some n)
            ↔ (HasNearest (number_view self.now) n × FitsSigned w64 n) }
    {
        i64::try_from(self.to_i128()?).ok()
    }

    /// The nearest integer, where it fits; half is rounded away from zero.
    pub fn to_u64(&self) -> Option<u64>
        ensures { (n : ℕ) → (result ≡ Some n)
            ↔ (HasNearest (number_view self.now) (pos n) × (n < 2 ^ 64)) }
    {
        u64::try_from(self.to_i128()?).ok()
    }
}
