//! The numbers of serialized forms.

ghost use Rattle.std.specs.Prelude.{◌≡◌, ◌<◌, ◌≤◌, ◌+◌, ◌^◌, ◌++◌, ◌⊎◌, List, ℕ, false, IfSome, MatchOption};
ghost use Rattle.jsonb_spec.specs.Number.Signed.{signed_by};
ghost use Rattle.jsonb_spec.specs.Proper.{IsProperNumber};
ghost use Rattle.jsonb_spec.specs.Text.NumberText.{number_text};
ghost use Rattle.jsonb_spec.specs.Tree.{Num};
ghost use Rattle.jsonb_core.specs.View.{number_view};
ghost use Rattle.key_document.specs.FromText.{AreDigitsOf, AreDigitsOfNumber, EndsNumber, is_digit, magnitude_from, scale_with, with_digit};

use jsonb_core::number::{Decimal128, Number};
use key_zeros::scan::{is_number_byte, zeros_with};

// With one digit more a number above this has no 128 bits with a sign.
const MOST: u128 = 17014118346046923173168730371588410572;

// With one digit more a number above this may have no 64 bits.
const MOST_SHORT: u64 = 1844674407370955160;

/// The digits of a number.
#[derive(Clone, Copy)]
pub(crate) struct Digits<'t> {
    /// The number that they write without the point.
    pub(crate) magnitude: u128,
    /// How many are behind the point.
    pub(crate) scale: usize,
    /// How many zeros end these.
    pub(crate) zeros: usize,
    /// The bytes after the number.
    pub(crate) rest: &'t [u8],
}

/// The digits of the number that the bytes begin with; `None` where their number doesn't fit.
#[inline(always)]
pub(crate) fn read_digits(bytes: &[u8]) -> Option<Digits<'_>>
    ensures read { magnitude_from 0 bytes.now ≤ 2 ^ 127 → MatchOption result ⊥ (AreDigitsOf bytes.now) }
{
    let mut magnitude: u64 = 0;
    let mut scale: usize = 0;
    let mut zeros: usize = 0;
    let mut pointed = false;
    let mut rest = bytes;
    'bytes: while let Some((byte, others)) = rest.split_first() {
        if !is_number_byte(*byte) {
            break;
        }
        let Some(more) = with_short_digit(magnitude, *byte) else {
            return read_long(bytes);
        };
        magnitude = more;
        scale = scale_with(pointed, scale, *byte);
        zeros = zeros_with(pointed, zeros, *byte);
        pointed = pointed || *byte == b'.';
        rest = others;
    }
    Some(Digits {
        magnitude: u128::from(magnitude),
        scale,
        zeros,
        rest,
    })
}

// Does so for digits whose number has more than 64 bits.
#[cold]
#[inline(never)]
fn read_long(bytes: &[u8]) -> Option<Digits<'_>>
    ensures read { magnitude_from 0 bytes.now ≤ 2 ^ 127 → MatchOption result ⊥ (AreDigitsOf bytes.now) }
{
    let mut magnitude: u128 = 0;
    let mut scale: usize = 0;
    let mut zeros: usize = 0;
    let mut pointed = false;
    let mut rest = bytes;
    'bytes: while let Some((byte, others)) = rest.split_first() {
        if !is_number_byte(*byte) {
            break;
        }
        let Some(more) = with_digit(magnitude, *byte) else {
            return None;
        };
        magnitude = more;
        scale = scale_with(pointed, scale, *byte);
        zeros = zeros_with(pointed, zeros, *byte);
        pointed = pointed || *byte == b'.';
        rest = others;
    }
    Some(Digits {
        magnitude,
        scale,
        zeros,
        rest,
    })
}

#[inline(always)]
fn is_digit(byte: u8) -> bool
    ensures { result ≡ is_digit byte }
{
    byte > b'/' && byte < b':'
}

// The number with one digit more, where it fits; with another byte the number.
#[inline(always)]
fn with_digit(magnitude: u128, byte: u8) -> Option<u128>
    ensures { MatchOption result (2 ^ 127 < with_digit magnitude byte) (λ more. more ≡ with_digit magnitude byte) }
{
    if !is_digit(byte) {
        return Some(magnitude);
    }
    if magnitude > MOST {
        return None;
    }
    Some(magnitude * 10 + u128::from(byte - b'0'))
}

// The same of a number of 64 bits, which most are.
#[inline(always)]
fn with_short_digit(magnitude: u64, byte: u8) -> Option<u64>
    ensures { IfSome result (λ more. more ≡ with_digit magnitude byte) }
{
    if !is_digit(byte) {
        return Some(magnitude);
    }
    if magnitude > MOST_SHORT {
        return None;
    }
    Some(magnitude * 10 + u64::from(byte - b'0'))
}

// How many digits are behind a point with one more byte.
#[inline(always)]
fn scale_with(pointed: bool, scale: usize, byte: u8) -> usize
    requires { scale < 2 ^ 63 }
    ensures { result ≡ scale_with pointed scale byte }
{
    if pointed && is_digit(byte) {
        scale + 1
    } else {
        scale
    }
}

/// The number that the bytes begin with, of which these are the digits.
#[inline(always)]
pub(crate) fn number_of(bytes: &[u8], digits: &Digits<'_>) -> Option<Number>
    ensures number { (n : Num) → IsProperNumber n → (more : List ℕ) → bytes.now ≡ number_text n ++ more
        → AreDigitsOfNumber n more digits.now
        → MatchOption result ⊥ (λ x. ((number_view x).scale ≡ n.scale) × ((number_view x).whole ≡ n.whole)) }
{
    let Some((first, _)) = bytes.split_first() else {
        return None;
    };
    if digits.scale > 255 {
        return None;
    }
    let Some(value) = with_sign(*first == b'-', digits.magnitude) else {
        return None;
    };
    Some(decimal(digits.scale as u8, value))
}

#[inline(always)]
fn decimal(scale: u8, value: i128) -> Number
    ensures scale { (number_view result).scale ≡ scale }
    ensures whole { (number_view result).whole ≡ value }
{
    Number::Decimal128(Decimal128 { scale, value })
}

// The integer of this sign.
#[inline(always)]
fn with_sign(negative: bool, magnitude: u128) -> Option<i128>
    ensures { MatchOption result ((2 ^ 127 < magnitude) ⊎ ((negative ≡ false) × (2 ^ 127 ≤ magnitude)))
        (λ z. z ≡ signed_by negative magnitude) }
{
    if magnitude == 0 {
        return Some(0);
    }
    let Ok(below) = i128::try_from(magnitude - 1) else {
        return None;
    };
    if negative {
        return Some(-1 - below);
    }
    below.checked_add(1)
}
