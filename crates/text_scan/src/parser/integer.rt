//! Integers of strict texts that are serialized as they are.
ghost use Rattle.std.specs.Prelude.{◌≡◌, ◌⊎◌, MatchBool, ◌+◌, ◌≤◌, ◌<◌, ℕ, IfSome, drop, if◌then◌else◌, ◌==◌, length, slice_index, take, true};
ghost use Rattle.std.specs.Char.{is_ascii_digit};
ghost use Rattle.std.specs.Int.{w64, trailing_zeros};
ghost use Rattle.std.specs.Str.Parse.{digits_value};
ghost use Rattle.jsonb_spec.specs.Parsing.Number.{digits_length, is_number_start};
ghost use Rattle.text_scan.specs.StrictFront.{IsFrontOf, front_len};
ghost use Rattle.jsonb_spec.specs.Ascii as ascii;

use super::number::{after_minus, continues_number, digits_within, short_digits};
use jsonb_core::bytes::byte_at;
use jsonb_core::plain::first_set;
use std::simd::prelude::*;

// How many of the first 16 bytes, up to the first that is none, are digits.
#[inline(always)]
fn near_digits(bytes: &[u8]) -> usize
    requires { 16 ≤ length bytes.now }
    ensures within { result ≤ 16 }
    ensures digits { (k : ℕ) → k < result → is_ascii_digit (slice_index bytes.now k) ≡ true }
{
    let lanes = u8x16::from_slice(bytes);
    let others = lanes.simd_lt(u8x16::splat(b'0')) | lanes.simd_gt(u8x16::splat(b'9'));
    first_set(others.to_bitmask(), 16)
}

// At most 19 digits that the bytes begin with, and their number, by a call.
#[inline(never)]
pub(super) fn digits_by_bytes(bytes: &[u8]) -> (usize, u64)
    ensures few { result.0 ≤ 19 }
    ensures within { result.0 ≤ length bytes.now }
    ensures digits { digits_length bytes.now ≡ result.0 + digits_length (drop result.0 bytes.now) }
    ensures value { result.1 ≡ digits_value 10 (take result.0 bytes.now) }
{
    short_digits(bytes)
}

// How many digits the bytes begin with, or 19 where they are more, and the byte behind them, or 0 where none is. Digits
// that end among 16 bytes have one behind them, so that their end isn't compared with that of the bytes.
#[inline(always)]
pub(super) fn digits_and_next(bytes: &[u8]) -> (usize, u8)
    ensures few { result.0 ≤ 19 }
    ensures within { result.0 ≤ length bytes.now }
    ensures digits { digits_length bytes.now ≡ result.0 + digits_length (drop result.0 bytes.now) }
    ensures next { result.1 ≡ slice_index bytes.now result.0 }
{
    if bytes.len() < 16 {
        let (len, _value) = digits_by_bytes(bytes);
        return (len, byte_at(bytes, len));
    }
    let near = near_digits(bytes);
    if near < 16 {
        return (near, bytes[near]);
    }
    let (more, _value) = digits_within(&bytes[16..], (bytes.len() - 16).min(3));
    let len = 16 + more;
    (len, byte_at(bytes, len))
}

// Whether an integer of so many bytes, with its sign, may have this first digit.
#[inline(always)]
pub(super) fn may_begin(digit: u8, len: usize) -> bool
    ensures { MatchBool result ((digit ≡ ascii.digit_zero → ⊥) ⊎ (len ≤ 1)) (Unit {0}) }
{
    if digit != b'0' {
        return true;
    }
    len <= 1
}

/// What a number of a strict text begins with.
#[derive(Clone, Copy)]
pub enum StrictFront {
    /// An integer of at most 19 bytes that is written by the same bytes again: the index after it.
    Integer(usize),
    /// Digits before a point: how many, without a minus before them.
    Point(usize),
}

/// The integer that the bytes of a strict text begin with, where it has at most 19 bytes, and is written by the same
/// bytes again: no 0 with a minus is. Where a point is behind the digits, it is how many they are.
#[inline(always)]
pub fn strict_front(bytes: &[u8]) -> Option<StrictFront>
    ensures found { IfSome result (IsFrontOf bytes.now) }
    ensures first { IfSome result (λ _. is_number_start (slice_index bytes.now 0) ≡ true) }
    ensures within { IfSome result (λ front. front_len front ≤ length bytes.now) }
{
    let digits = after_minus(bytes);
    let (len, next) = digits_and_next(digits);
    if len == 0 {
        return None;
    }
    if continues_number(next) {
        if next == b'.' {
            return Some(StrictFront::Point(len));
        }
        return None;
    }
    let end = bytes.len() - digits.len() + len;
    if end > 19 || !may_begin(digits[0], end) {
        return None;
    }
    Some(StrictFront::Integer(end))
}
