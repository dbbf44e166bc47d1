//! Numbers of texts with decimals that are serialized as they are.
ghost use Rattle.std.specs.Prelude.{◌≡◌, ◌≢◌, ◌⊎◌, ◌+◌, ◌≤◌, ◌<◌, ℕ, IfSome, MatchBool, true, false, drop, length, slice_index, take};
ghost use Rattle.std.specs.Str.Parse.{digits_value};
ghost use Rattle.jsonb_spec.specs.Parsing.Number.{ContinuesNumber, digits_length, is_number_start};
ghost use Rattle.jsonb_spec.specs.Parsing.Whitespace.{is_break};
ghost use Rattle.text_scan.specs.ShortInteger.{IsVerbatimInteger};
ghost use Rattle.jsonb_spec.specs.Text.VerbatimNumber.{IsBeforePoint, IsDecimalBody, IsVerbatimDecimal};
ghost use Rattle.jsonb_spec.specs.Ascii as ascii;

use super::integer::{digits_and_next, digits_by_bytes, may_begin};
use super::number::after_minus;
use jsonb_core::bytes::byte_at;

/// A number that is written by the same bytes again: the index after it, and whether it has a point.
#[derive(Clone, Copy)]
pub struct VerbatimNumber {
    pub end: usize,
    pub has_point: bool,
}

// The most digits of a decimal that is found.
const MOST_DIGITS: usize = 18;

// Whether a byte is whitespace, or what is behind an element or a member. No number goes on with it.
#[inline(always)]
fn is_separator(byte: u8) -> bool
    ensures ends { MatchBool result (is_break byte ≡ true) (Unit {0}) }
    ensures apart { MatchBool result (¬ ContinuesNumber byte) (Unit {0}) }
{
    matches!(byte, b',' | b']' | b'}' | b' ' | b'\n' | b'\r' | b'\t')
}

// Whether a minus may be before digits of which this is the first, and these are behind the point: no zero has one.
#[inline(always)]
fn may_have_sign(negative: bool, first: u8, behind: &[u8]) -> bool
    ensures { MatchBool result (negative ≡ true → (first ≢ ascii.digit_zero) ⊎ (0 < digits_value 10 behind.now))
        (Unit {0}) }
{
    if !negative {
        return true;
    }
    if first != b'0' {
        return true;
    }
    let (_len, value) = digits_by_bytes(behind);
    value != 0
}

// The length of the decimal that the bytes begin with, behind its sign, where a separator is behind it and it is
// written by the same bytes again. So many digits are before its point.
#[inline(always)]
fn decimal_len(bytes: &[u8], front: usize, negative: bool) -> Option<usize>
    requires point { slice_index bytes.now front ≡ ascii.point }
    requires some { 0 < front }
    requires digits { digits_length bytes.now ≡ front }
    ensures found { IfSome result (λ len. IsDecimalBody negative (take len bytes.now)) }
    ensures within { IfSome result (λ len. len ≤ length bytes.now) }
    ensures ends { IfSome result (λ len. is_break (slice_index bytes.now len) ≡ true) }
{
    let (behind, next) = digits_and_next(&bytes[front + 1..]);
    if behind == 0 || front + behind > MOST_DIGITS || !may_begin(bytes[0], front) {
        return None;
    }
    let len = front + 1 + behind;
    if !is_separator(next) {
        return None;
    }
    if !may_have_sign(negative, bytes[0], &bytes[front + 1..len]) {
        return None;
    }
    Some(len)
}

/// The index after the decimal of at most 18 digits that the bytes of a text with decimals begin with, where a
/// separator is behind it and it is written by the same bytes again: no 0 with a minus is. So many digits are before
/// its point, as `strict_front` counts them.
#[inline(always)]
pub fn verbatim_decimal(bytes: &[u8], front: usize) -> Option<usize>
    requires point { IsBeforePoint bytes.now front }
    ensures decimal { IfSome result (IsVerbatimDecimal bytes.now) }
    ensures ends { IfSome result (λ end. is_break (slice_index bytes.now end) ≡ true) }
    ensures first { IfSome result (λ _. is_number_start (slice_index bytes.now 0) ≡ true) }
    ensures within { IfSome result (λ end. end ≤ length bytes.now) }
{
    let negative = byte_at(bytes, 0) == b'-';
    let len = decimal_len(after_minus(bytes), front, negative)?;
    Some(usize::from(negative) + len)
}

/// The number that the bytes of a text with decimals begin with, where a separator is behind it and it is written by
/// the same bytes again: an integer of at most 19 bytes, or a decimal of at most 18 digits. No 0 with a minus is.
#[inline(always)]
pub fn verbatim_number(bytes: &[u8]) -> Option<VerbatimNumber>
    ensures integer { IfSome result (λ read. read.has_point ≡ false → IsVerbatimInteger bytes.now read.end) }
    ensures decimal { IfSome result (λ read. read.has_point ≡ true → IsVerbatimDecimal bytes.now read.end) }
    ensures ends { IfSome result (λ read. is_break (slice_index bytes.now read.end) ≡ true) }
    ensures first { IfSome result (λ _. is_number_start (slice_index bytes.now 0) ≡ true) }
    ensures within { IfSome result (λ read. read.end ≤ length bytes.now) }
{
    let digits = after_minus(bytes);
    let (len, next) = digits_and_next(digits);
    if len == 0 {
        return None;
    }
    let negative = byte_at(bytes, 0) == b'-';
    let start = usize::from(negative);
    if is_separator(next) {
        if start + len > 19 || !may_begin(digits[0], start + len) {
            return None;
        }
        return Some(VerbatimNumber {
            end: start + len,
            has_point: false,
        });
    }
    if next != b'.' {
        return None;
    }
    let len = decimal_len(digits, len, negative)?;
    Some(VerbatimNumber {
        end: start + len,
        has_point: true,
    })
}
