//! The numbers of standard texts.
ghost use Rattle.std.specs.Prelude.{◌≡◌, ℕ, ◌+◌, ◌*◌, ◌≤◌, ◌<◌, ◌^◌, ◌-◌, true, false, length, take, drop, slice_index, Err, Some, None, MatchOption, IfOk, IfErr, IfSome, Ok};
ghost use Rattle.std.specs.Char.{IsAsciiDigit, digit_value, is_ascii_digit};
ghost use Rattle.std.specs.Bool.{MatchBool};
ghost use Rattle.std.specs.Option.{SomeIff};
ghost use Rattle.std.specs.Str.Parse.{AllDigits, digits_value, digits_value_after};
ghost use Rattle.jsonb_spec.specs.Ascii as ascii;
ghost use Rattle.jsonb_core.specs.View.{number_view};
ghost use Rattle.text_scan.specs.ShortInteger.{short_view};
ghost use Rattle.jsonb_spec.specs.Parsing.Number.{ContinuesAfterInteger, ContinuesNumber, is_number_start, standard_number_at, digits_length, digits_from, sign_end, exponent_from, fraction_from, whole_start, then_from, integer_of};

use crate::util::digit;
use jsonb_core::bytes::byte_at;
use jsonb_core::error::Result;
use jsonb_core::number::Number;

// 64 bits hold each number of so many digits.
pub(super) const SAFE_DIGITS: usize = 19;

/// Digits: how many, and their number, where 128 bits hold it.
#[derive(Clone, Copy)]
pub struct Digits {
    pub len: usize,
    pub value: Option<u128>,
}

// The index after the digits from `start` on.
pub(super) fn digits_end(bytes: &[u8], start: usize) -> usize
    requires { start ≤ length bytes.now }
    ensures end { result ≡ digits_from bytes.now start }
    ensures within { result ≤ length bytes.now }
{
    let mut end = start;
    'digits: while end < bytes.len() && bytes[end].is_ascii_digit() {
        end += 1;
    }
    end
}

// The number that digits of this base write behind those of a number, where 128 bits hold it.
pub(super) fn number_after(front: u128, digits: &[u8], base: u128) -> Option<u128>
    requires { 0 < base }
    ensures { SomeIff result (digits_value_after base front digits.now < 2 ^ 128)
        (digits_value_after base front digits.now) }
{
    let mut number = front;
    for byte in digits {
        number = with_digit(number, base, *byte)?;
    }
    Some(number)
}

// The number with one digit more, where 128 bits hold it.
fn with_digit(number: u128, base: u128, byte: u8) -> Option<u128>
    ensures { SomeIff result (number * base + digit_value byte < 2 ^ 128) (number * base + digit_value byte) }
{
    number
        .checked_mul(base)?
        .checked_add(u128::from(digit(byte)))
}

/// The digits that the bytes begin with.
#[cold]
pub fn leading_digits(bytes: &[u8]) -> Digits
    ensures len { result.len ≡ digits_length bytes.now }
    ensures within { result.len ≤ length bytes.now }
    ensures value { SomeIff result.value
        (digits_value 10 (take (digits_length bytes.now) bytes.now) < 2 ^ 128)
        (digits_value 10 (take (digits_length bytes.now) bytes.now)) }
{
    let (few, front) = short_digits(bytes);
    let len = digits_end(bytes, few);
    Digits {
        len,
        value: number_after(u128::from(front), &bytes[few..len], 10),
    }
}

// What a digit means, and more than 9 for a byte that is none. It is as wide as a number, so that a digit is
// widened once.
#[inline(always)]
fn digit_of(byte: u8) -> u64
    ensures digit { result < 10 → is_ascii_digit byte ≡ true }
    ensures value { is_ascii_digit byte ≡ true → result ≡ byte - ascii.digit_zero }
    ensures other { 10 ≤ result → is_ascii_digit byte ≡ false }
{
    u64::from(byte).wrapping_sub(48)
}

// How many of the first `limit` bytes are digits from the first on, and their number.
#[inline(always)]
pub(super) fn digits_within(bytes: &[u8], limit: usize) -> (usize, u64)
    requires few { limit ≤ 19 }
    requires inside { limit ≤ length bytes.now }
    ensures within { result.0 ≤ limit }
    ensures digits { digits_length bytes.now ≡ result.0 + digits_length (drop result.0 bytes.now) }
    ensures end { result.0 < limit → result.0 ≡ digits_length bytes.now }
    ensures value { result.1 ≡ digits_value 10 (take result.0 bytes.now) }
    ensures below { result.1 < 10 ^ result.0 }
{
    let mut value = 0u64;
    let mut len = 0;
    'digits: while len < limit && digit_of(bytes[len]) < 10 {
        value = value * 10 + digit_of(bytes[len]);
        len += 1;
    }
    (len, value)
}

// At most 19 digits that the bytes begin with, and their number. Where there are more bytes, the loop is over so many
// as is known when it is compiled, so that it is unrolled.
#[inline(always)]
pub(super) fn short_digits(bytes: &[u8]) -> (usize, u64)
    ensures few { result.0 ≤ 19 }
    ensures within { result.0 ≤ length bytes.now }
    ensures digits { digits_length bytes.now ≡ result.0 + digits_length (drop result.0 bytes.now) }
    ensures value { result.1 ≡ digits_value 10 (take result.0 bytes.now) }
    ensures below { result.1 < 10 ^ result.0 }
{
    if bytes.len() > SAFE_DIGITS {
        digits_within(bytes, SAFE_DIGITS)
    } else {
        digits_within(bytes, bytes.len())
    }
}

/// The bytes after a minus, if one is there.
pub fn after_minus(bytes: &[u8]) -> &[u8]
    ensures { result.now ≡ drop (whole_start bytes.now) bytes.now }
{
    match bytes {
        [b'-', rest @ ..] => rest,
        _ => bytes,
    }
}

/// An integer with its sign, where its type holds it.
pub fn integer(negative: bool, digits: Option<u128>) -> Option<Number>
    ensures { (value : ℕ) → SomeIff digits (value < 2 ^ 128) value
        → MatchOption result (integer_of negative value ≡ None)
        (λ n. integer_of negative value ≡ Some (number_view n)) }
{
    let Ok(magnitude) = u64::try_from(digits?) else {
        return None;
    };
    if !negative {
        return Some(Number::UInt64(magnitude));
    }
    match i64::try_from(-i128::from(magnitude)) {
        Ok(value) => Some(Number::Int64(value)),
        Err(_) => None,
    }
}

// Whether a byte goes on with a number: a digit, a point or an exponent mark.
pub(super) fn continues_number(byte: u8) -> bool
    ensures { MatchBool result (ContinuesNumber byte) (¬ ContinuesNumber byte) }
{
    // Most bytes behind a number are below a point.
    byte >= b'.' && matches!(byte, b'0'..=b'9' | b'.' | b'e' | b'E')
}

/// An integer in its parts, and the index after its text.
#[derive(Clone, Copy)]
pub struct ShortInteger {
    pub negative: bool,
    pub magnitude: u64,
    pub end: usize,
}

/// The integer of a standard text that the bytes begin with, if it has at most 19 digits and is an `i64` where it has a
/// minus.
#[inline(always)]
pub fn short_integer(bytes: &[u8]) -> Option<ShortInteger>
    ensures found { IfSome result (λ read. (size : ℕ) → standard_number_at size bytes.now
        ≡ Ok (short_view read, drop read.end bytes.now)) }
    ensures fits { IfSome result (λ read. read.negative ≡ true → read.magnitude < 2 ^ 63) }
    ensures first { IfSome result (λ _. is_number_start (slice_index bytes.now 0) ≡ true) }
    ensures within { IfSome result (λ read. read.end ≤ length bytes.now) }
{
    let digits = after_minus(bytes);
    let (len, magnitude) = short_digits(digits);
    if len == 0 || len > 1 && digits[0] == b'0' || continues_number(byte_at(digits, len)) {
        return None;
    }
    let negative = byte_at(bytes, 0) == b'-';
    if negative && magnitude > i64::MAX as u64 {
        return None;
    }
    Some(ShortInteger {
        negative,
        magnitude,
        end: usize::from(negative) + len,
    })
}

/// Whether a byte goes on with a number after its whole part, or is behind a fraction as if it did.
pub fn continues_after_integer(byte: u8) -> bool
    ensures { MatchBool result (ContinuesAfterInteger byte) (¬ ContinuesAfterInteger byte) }
{
    matches!(byte, b'.' | b'e' | b'E')
}

// The index after a fraction, if one is there; else the offset of the fault.
fn fraction_end(bytes: &[u8], start: usize) -> std::result::Result<usize, usize>
    requires { start ≤ length bytes.now }
    ensures end { result ≡ fraction_from bytes.now start }
    ensures within { IfOk result (λ end. end ≤ length bytes.now) }
    ensures near { IfErr result (λ offset. offset ≤ length bytes.now + 2) }
{
    if byte_at(bytes, start) != b'.' {
        return Ok(start);
    }
    let end = digits_end(bytes, start + 1);
    if end == start + 1 {
        Err(start + 2)
    } else {
        Ok(end)
    }
}

// The index after a sign, if one is there.
pub(super) fn sign_end(bytes: &[u8], start: usize) -> usize
    requires { start ≤ length bytes.now }
    ensures end { result ≡ sign_end bytes.now start }
    ensures within { result ≤ length bytes.now }
{
    match byte_at(bytes, start) {
        b'+' | b'-' => start + 1,
        _ => start,
    }
}

// The index after an exponent, if one is there; else the offset of the fault.
pub(super) fn exponent_end(bytes: &[u8], start: usize) -> std::result::Result<usize, usize>
    requires { start ≤ length bytes.now }
    ensures end { result ≡ exponent_from bytes.now start }
    ensures within { IfOk result (λ end. end ≤ length bytes.now) }
    ensures near { IfErr result (λ offset. offset ≤ length bytes.now) }
{
    let mark = byte_at(bytes, start);
    if mark != b'e' && mark != b'E' {
        return Ok(start);
    }
    let digits = sign_end(bytes, start + 1);
    let end = digits_end(bytes, digits);
    if end == digits { Err(digits) } else { Ok(end) }
}

/// The index after a number text with a fraction or an exponent; else the offset of the fault.
#[cold]
pub fn number_end(bytes: &[u8], whole_end: usize) -> std::result::Result<usize, usize>
    requires { whole_end ≤ length bytes.now }
    ensures end { result
        ≡ then_from (fraction_from bytes.now whole_end) (exponent_from bytes.now) }
    ensures within { IfOk result (λ end. end ≤ length bytes.now) }
    ensures near { IfErr result (λ offset. offset ≤ length bytes.now + 2) }
{
    let fraction_end = fraction_end(bytes, whole_end)?;
    exponent_end(bytes, fraction_end)
}
