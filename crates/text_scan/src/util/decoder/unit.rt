//! `\u` escapes: UTF-16 code units of four hexadecimal digits.
ghost use Rattle.std.specs.Prelude.{List, ◌≡◌, ◌≢◌, ℕ, ◌+◌, ◌*◌, ◌%◌, ◌^◌, ◌≤◌, ◌<◌, ◌++◌, ◌∷◌, length, take, min, All, ◌||◌, IfOk, IfErr, OnErr, IfSome, IfNone, Some, None, true, false, ◌⊎◌};
ghost use Rattle.std.specs.Char.{digit_value, encode_utf8, InScalarRange};
ghost use Rattle.std.specs.Char.Utf16.{is_high_surrogate, is_low_surrogate};
ghost use Rattle.std.specs.Str.Parse.{digits_value};
ghost use Rattle.jsonb_spec.specs.Ascii as ascii;
ghost use Rattle.jsonb_spec.specs.Mode.{Mode as GrammarMode, GoesBeyondJson};
ghost use Rattle.jsonb_core.specs.Error.CodeView.{code_of};
ghost use Rattle.jsonb_spec.specs.Grammar.StringBody.{IsHexDigit, unit, encoding, alone, together};
ghost use Rattle.jsonb_spec.specs.Grammar.StringFault.{IsUnitCut, IsFirstNonDigit};
ghost use Rattle.jsonb_spec.specs.Parsing.Decoding.{SplitsUnit, ParsesUnit, Adds, AreUnits, IsDecodedUpTo, StopsInUnit, StopsAtEscape};

use super::space::{write_all, write_byte};
use super::{Decoded, DecodingFault};
use jsonb_core::error::ParseErrorCode;

// The four digits of a unit, their value, and what follows the unit.
#[derive(Clone, Copy)]
pub(super) struct HexUnit<'a> {
    digits: &'a [u8],
    value: u32,
    pub(super) rest: &'a [u8],
}

// What each byte is as a digit or a letter: 0 to 9, 10 to 35, and 36 for any other.
static DIGITS: [u8; 256] = [
    36, 36, 36, 36, 36, 36, 36, 36, 36, 36, 36, 36, 36, 36, 36, 36, 36, 36, 36, 36, 36, 36, 36, 36,
    36, 36, 36, 36, 36, 36, 36, 36, 36, 36, 36, 36, 36, 36, 36, 36, 36, 36, 36, 36, 36, 36, 36, 36,
    0, 1, 2, 3, 4, 5, 6, 7, 8, 9, 36, 36, 36, 36, 36, 36, 36, 10, 11, 12, 13, 14, 15, 16, 17, 18,
    19, 20, 21, 22, 23, 24, 25, 26, 27, 28, 29, 30, 31, 32, 33, 34, 35, 36, 36, 36, 36, 36, 36, 10,
    11, 12, 13, 14, 15, 16, 17, 18, 19, 20, 21, 22, 23, 24, 25, 26, 27, 28, 29, 30, 31, 32, 33, 34,
    35, 36, 36, 36, 36, 36, 36, 36, 36, 36, 36, 36, 36, 36, 36, 36, 36, 36, 36, 36, 36, 36, 36, 36,
    36, 36, 36, 36, 36, 36, 36, 36, 36, 36, 36, 36, 36, 36, 36, 36, 36, 36, 36, 36, 36, 36, 36, 36,
    36, 36, 36, 36, 36, 36, 36, 36, 36, 36, 36, 36, 36, 36, 36, 36, 36, 36, 36, 36, 36, 36, 36, 36,
    36, 36, 36, 36, 36, 36, 36, 36, 36, 36, 36, 36, 36, 36, 36, 36, 36, 36, 36, 36, 36, 36, 36, 36,
    36, 36, 36, 36, 36, 36, 36, 36, 36, 36, 36, 36, 36, 36, 36, 36, 36, 36, 36, 36, 36, 36, 36, 36,
    36, 36, 36, 36, 36, 36, 36, 36, 36, 36, 36, 36, 36, 36,
];

// The value of a hexadecimal digit, and 16 or more for any other byte.
#[inline(always)]
pub(crate) fn digit(byte: u8) -> u32
    ensures { result ≡ digit_value byte }
{
    u32::from(DIGITS[usize::from(byte)])
}

// The first of the bytes that is no hexadecimal digit.
#[cold]
#[inline(never)]
fn first_non_digit(bytes: &[u8]) -> u8
    requires { ¬ (All IsHexDigit bytes.now) }
    ensures { IsFirstNonDigit bytes.now result }
{
    for byte in bytes {
        if digit(*byte) >= 16 {
            return *byte;
        }
    }
    unreachable!()
}

// A number that is below 16 where each of the four is, and only there.
#[inline(always)]
fn any_of(first: u32, second: u32, third: u32, fourth: u32) -> u32
    ensures above { (first ≤ result) × (second ≤ result) × (third ≤ result) × (fourth ≤ result) }
    ensures below { first < 16 → second < 16 → third < 16 → fourth < 16 → result < 16 }
{
    first | second | third | fourth
}

// The number that four digits write. There is none where one of them isn't hexadecimal.
#[inline(always)]
fn value_of(digits: &[u8]) -> Option<u32>
    requires four { length digits.now ≡ 4 }
    ensures each { IfSome result (λ value. All IsHexDigit digits.now) }
    ensures value { IfSome result (λ value. value ≡ digits_value 16 digits.now) }
    ensures range { IfSome result (λ value. value < 2 ^ 16) }
    ensures none { IfNone result (¬ (All IsHexDigit digits.now)) }
{
    let (first, second) = (digit(digits[0]), digit(digits[1]));
    let (third, fourth) = (digit(digits[2]), digit(digits[3]));
    if any_of(first, second, third, fourth) >= 16 {
        return None;
    }
    Some(first * 4096 + second * 256 + third * 16 + fourth)
}

// The four bytes after `\u`, in braces or not, and what follows them.
#[inline(always)]
fn split_unit(bytes: &[u8]) -> Option<(&[u8], &[u8])>
    ensures some { IfSome result (λ parts. SplitsUnit bytes.now parts.0.now parts.1.now) }
    ensures long { IfSome result (λ parts. length parts.1.now + 4 ≤ length bytes.now) }
    ensures none { IfNone result ((mode : GrammarMode) → GoesBeyondJson mode → IsUnitCut mode bytes.now) }
{
    if bytes.len() < 4 {
        return None;
    }
    if bytes[0] != b'{' {
        return Some((&bytes[..4], &bytes[4..]));
    }
    if bytes.len() < 6 || bytes[5] != b'}' {
        return None;
    }
    Some((&bytes[1..5], &bytes[6..]))
}

// The unit whose `\u` is before the bytes.
#[inline(always)]
pub(super) fn read_unit(bytes: &[u8]) -> std::result::Result<HexUnit<'_>, DecodingFault>
    ensures ok { IfOk result (λ unit. ParsesUnit bytes.now unit.digits.now unit.rest.now unit.value) }
    ensures long { IfOk result (λ unit. length unit.rest.now + 4 ≤ length bytes.now) }
    ensures err { IfErr result (λ fault. (mode : GrammarMode) → GoesBeyondJson mode → StopsInUnit mode
        bytes.now (code_of fault.code) fault.left) }
{
    let Some((digits, rest)) = split_unit(bytes) else {
        return Err(DecodingFault {
            code: ParseErrorCode::UnexpectedEndOfHexEscape,
            left: bytes.len(),
        });
    };
    let Some(value) = value_of(digits) else {
        return Err(DecodingFault {
            code: ParseErrorCode::InvalidHex(first_non_digit(digits)),
            left: rest.len(),
        });
    };
    Ok(HexUnit {
        digits,
        value,
        rest,
    })
}

fn is_surrogate_high(value: u32) -> bool
    ensures { result ≡ is_high_surrogate value }
{
    (0xD800..=0xDBFF).contains(&value)
}

fn is_surrogate_low(value: u32) -> bool
    ensures { result ≡ is_low_surrogate value }
{
    (0xDC00..=0xDFFF).contains(&value)
}

fn is_surrogate(value: u32) -> bool
    ensures { result ≡ (is_high_surrogate value || is_low_surrogate value) }
{
    is_surrogate_high(value) || is_surrogate_low(value)
}

// A byte of a character behind its first one, which holds the last six bits.
#[inline(always)]
fn next_byte(bits: u32) -> u8
    ensures { result ≡ 128 + bits % 64 }
{
    128 + (bits % 64) as u8
}

// Writes a character as UTF-8.
#[inline(always)]
fn push_char(text: &mut [u8], len: usize, value: u32) -> usize
    requires scalar { InScalarRange value }
    requires space { len + 4 ≤ length text.old }
    ensures written { take result text.new ≡ take len text.old ++ encode_utf8 value }
    ensures len { result ≤ len + 4 }
    ensures size { length text.new ≡ length text.old }
{
    let last = next_byte(value);
    if value < 0x80 {
        return write_byte(text, len, value as u8);
    }
    if value < 0x800 {
        return write_all(text, len, &[0xC0 + (value / 64) as u8, last]);
    }
    let third = next_byte(value / 64);
    if value < 0x10000 {
        return write_all(text, len, &[0xE0 + (value / 4096) as u8, third, last]);
    }
    let second = next_byte(value / 4096);
    write_all(
        text,
        len,
        &[0xF0 + (value / 262144) as u8, second, third, last],
    )
}

fn push_verbatim(text: &mut [u8], len: usize, digits: &[u8]) -> usize
    requires four { length digits.now ≡ 4 }
    requires space { len + 6 ≤ length text.old }
    ensures written { take result text.new ≡ take len text.old ++ encoding (unit false digits.now) }
    ensures len { result ≡ len + 6 }
    ensures size { length text.new ≡ length text.old }
{
    let len = write_all(text, len, b"\\u");
    write_all(text, len, digits)
}

// A unit that isn't taken together with the next one.
#[inline(always)]
fn push_alone(text: &mut [u8], len: usize, digits: &[u8], value: u32) -> usize
    requires four { length digits.now ≡ 4 }
    requires value { value ≡ digits_value 16 digits.now }
    requires range { value < 2 ^ 16 }
    requires space { len + 6 ≤ length text.old }
    ensures written { take result text.new ≡ take len text.old ++ alone digits.now }
    ensures len { result ≤ len + 6 }
    ensures size { length text.new ≡ length text.old }
{
    if is_surrogate(value) {
        push_verbatim(text, len, digits)
    } else {
        push_char(text, len, value)
    }
}

// A high unit and the unit right after it.
fn push_together(text: &mut [u8], len: usize, high: &HexUnit<'_>, next: &HexUnit<'_>) -> usize
    requires four { (length high.now.digits.now ≡ 4) × (length next.now.digits.now ≡ 4) }
    requires value { (high.now.value ≡ digits_value 16 high.now.digits.now)
        × (next.now.value ≡ digits_value 16 next.now.digits.now) }
    requires is_high { is_high_surrogate high.now.value ≡ true }
    requires space { len + 12 ≤ length text.old }
    ensures written { take result text.new ≡ take len text.old ++ together high.now.digits.now next.now.digits.now }
    ensures len { result ≤ len + 12 }
    ensures size { length text.new ≡ length text.old }
{
    if is_surrogate_low(next.value) {
        push_char(
            text,
            len,
            0x10000 + (high.value - 0xD800) * 0x400 + (next.value - 0xDC00),
        )
    } else {
        let len = push_verbatim(text, len, high.digits);
        push_verbatim(text, len, next.digits)
    }
}

// What follows the `\u` that the bytes begin with.
#[inline(always)]
fn after_unit_mark(bytes: &[u8]) -> Option<&[u8]>
    ensures some { IfSome result (λ rest. bytes.now ≡ ascii.backslash ∷ ascii.lower_u ∷ rest.now) }
    ensures len { IfSome result (λ rest. length rest.now + 2 ≡ length bytes.now) }
    ensures none { IfNone result ((rest : List ℕ) → bytes.now ≢ ascii.backslash ∷ ascii.lower_u ∷ rest) }
{
    match bytes {
        [b'\\', b'u', rest @ ..] => Some(rest),
        _ => None,
    }
}

// What follows the next `\u`, where it is right after a high unit.
fn after_next_mark<'a>(unit: &HexUnit<'a>) -> Option<&'a [u8]>
    ensures some { IfSome result (λ rest. (is_high_surrogate unit.now.value ≡ true)
        × (unit.now.rest.now ≡ ascii.backslash ∷ ascii.lower_u ∷ rest.now)) }
    ensures len { IfSome result (λ rest. length rest.now + 2 ≡ length unit.now.rest.now) }
    ensures none { IfNone result ((is_high_surrogate unit.now.value ≡ false)
        ⊎ ((rest : List ℕ) → unit.now.rest.now ≢ ascii.backslash ∷ ascii.lower_u ∷ rest)) }
{
    if !is_surrogate_high(unit.value) {
        return None;
    }
    after_unit_mark(unit.rest)
}

// The unit whose `\u` is before the bytes, where it is a character by itself, and its digits aren't in braces.
#[inline(always)]
fn read_alone(bytes: &[u8]) -> Option<HexUnit<'_>>
    ensures some { IfSome result (λ unit. ParsesUnit bytes.now unit.digits.now unit.rest.now unit.value) }
    ensures low { IfSome result (λ unit. is_high_surrogate unit.value ≡ false) }
    ensures scalar { IfSome result (λ unit. InScalarRange unit.value) }
    ensures alone { IfSome result (λ unit. alone unit.digits.now ≡ encode_utf8 unit.value) }
    ensures long { IfSome result (λ unit. length unit.rest.now + 4 ≤ length bytes.now) }
{
    if bytes.len() < 4 {
        return None;
    }
    let (digits, rest) = bytes.split_at(4);
    let value = value_of(digits)?;
    if is_surrogate(value) {
        return None;
    }
    Some(HexUnit {
        digits,
        value,
        rest,
    })
}

// Decodes the first units, as far as they are characters by themselves.
#[inline(always)]
pub(super) fn decode_alone<'a>(bytes: &'a [u8], text: &mut [u8], len: usize) -> Decoded<'a>
    requires { len + length bytes.now ≤ length text.old }
    ensures adds { (mode : GrammarMode) → GoesBeyondJson mode → Adds mode bytes.now result.rest.now (take len text.old)
        (take result.len text.new) }
    ensures space { result.len + length result.rest.now ≤ len + length bytes.now }
    ensures shorter { length result.rest.now ≤ length bytes.now }
    ensures size { length text.new ≡ length text.old }
{
    let mut done = Decoded { rest: bytes, len };
    'units: loop {
        let Some(digits) = after_unit_mark(done.rest) else {
            return done;
        };
        let Some(unit) = read_alone(digits) else {
            return done;
        };
        done = Decoded {
            rest: unit.rest,
            len: push_char(text, done.len, unit.value),
        };
    }
}

/// How many of the first bytes are units of four digits, none in braces.
#[inline(never)]
pub fn units_len(bytes: &[u8]) -> usize
    ensures within { result ≤ length bytes.now }
    ensures units { AreUnits (take result bytes.now) }
{
    let mut len = 0;
    'units: loop {
        let Some(digits) = after_unit_mark(&bytes[len..]) else {
            return len;
        };
        if digits.len() < 4 {
            return len;
        }
        let Some(_) = value_of(&digits[..4]) else {
            return len;
        };
        len += 6;
    }
}

// Decodes the unit whose `\u` is before the bytes, with the next one where the two are taken together.
#[inline(always)]
pub(super) fn units<'a>(
    bytes: &'a [u8],
    text: &mut [u8],
    len: usize,
) -> std::result::Result<Decoded<'a>, DecodingFault>
    requires { len + min (2 + length bytes.now) 12 ≤ length text.old }
    ensures ok { IfOk result (λ done. (mode : GrammarMode) → GoesBeyondJson mode → Adds mode
        (ascii.backslash ∷ ascii.lower_u ∷ bytes.now) done.rest.now (take len text.old) (take done.len text.new)) }
    ensures shorter { IfOk result (λ done. length done.rest.now ≤ length bytes.now) }
    ensures space { IfOk result (λ done. done.len + length done.rest.now ≤ len + 2 + length bytes.now) }
    ensures within { IfOk result (λ done. done.len ≤ length text.new) }
    ensures err { IfErr result (λ fault. (mode : GrammarMode) → GoesBeyondJson mode → StopsAtEscape mode
        (ascii.backslash ∷ ascii.lower_u ∷ bytes.now) (code_of fault.code) fault.left) }
    ensures same { OnErr result (text.new ≡ text.old) }
    ensures size { length text.new ≡ length text.old }
{
    let first = read_unit(bytes)?;
    let Some(after) = after_next_mark(&first) else {
        let len = push_alone(text, len, first.digits, first.value);
        return Ok(Decoded {
            rest: first.rest,
            len,
        });
    };
    let next = read_unit(after)?;
    let len = push_together(text, len, &first, &next);
    Ok(Decoded {
        rest: next.rest,
        len,
    })
}

// Passes the unit whose `\u` is before the bytes, with the next one where the two are taken together, and returns
// what follows.
#[inline(never)]
pub(super) fn pass_units(bytes: &[u8]) -> std::result::Result<&[u8], DecodingFault>
    ensures ok { IfOk result (λ rest. (mode : GrammarMode) → GoesBeyondJson mode → IsDecodedUpTo mode
        (ascii.backslash ∷ ascii.lower_u ∷ bytes.now) rest.now) }
    ensures shorter { IfOk result (λ rest. length rest.now ≤ length bytes.now) }
    ensures err { IfErr result (λ fault. (mode : GrammarMode) → GoesBeyondJson mode → StopsAtEscape mode
        (ascii.backslash ∷ ascii.lower_u ∷ bytes.now) (code_of fault.code) fault.left) }
{
    let first = read_unit(bytes)?;
    let Some(after) = after_next_mark(&first) else {
        return Ok(first.rest);
    };
    let next = read_unit(after)?;
    Ok(next.rest)
}
