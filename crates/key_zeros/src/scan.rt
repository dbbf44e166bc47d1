//! Numbers in the bytes of a text.

ghost use Rattle.std.specs.Prelude.{◌≡◌, ◌<◌, ◌≤◌, ◌+◌, length, ◌^◌, option_map, MatchOption, IfSome, None, false};
ghost use Rattle.jsonb_spec.specs.Document.Scan.{is_number_byte, zeros_with, ending_of};
ghost use Rattle.key_zeros.specs.Scan.{from_number, from_number_behind, after_numbers, next_number, BeginsNumber};

use jsonb_core::plain::plain_len;

/// The bytes from the next number on, or none where no number is left; `None` where a string doesn't end.
pub(crate) fn from_number(text: &[u8]) -> Option<&[u8]>
    ensures found { option_map (λ rest. rest.now) result ≡ from_number text.now }
    ensures within { IfSome result (λ rest. length rest.now ≤ length text.now) }
    ensures begins { IfSome result (λ rest. BeginsNumber rest.now) }
{
    let mut rest = text;
    'bytes: while let Some((byte, others)) = rest.split_first() {
        if *byte == b'"' {
            rest = after_string(others)?;
            continue;
        }
        if is_number_byte(*byte) {
            return Some(rest);
        }
        rest = others;
    }
    Some(rest)
}

// The bytes after the string inside of which they begin.
#[inline(always)]
fn after_string(bytes: &[u8]) -> Option<&[u8]>
    ensures found { MatchOption result (from_number_behind bytes.now ≡ None)
        (λ rest. from_number_behind bytes.now ≡ from_number rest.now) }
    ensures shorter { IfSome result (λ rest. length rest.now < length bytes.now) }
{
    let mut rest = bytes;
    'runs: loop {
        let run = plain_len(rest);
        let behind = &rest[run..];
        let Some((byte, others)) = behind.split_first() else {
            return None;
        };
        if *byte == b'"' {
            return Some(others);
        }
        if *byte != b'\\' {
            rest = others;
            continue;
        }
        let Some((_, later)) = others.split_first() else {
            return None;
        };
        rest = later;
    }
}

/// A minus, a point or a digit.
#[inline(always)]
pub fn is_number_byte(byte: u8) -> bool
    ensures { result ≡ is_number_byte byte }
{
    byte == b'-' || byte == b'.' || (byte > b'/' && byte < b':')
}

/// How a number ends.
#[derive(Clone, Copy, Drop)]
pub struct Ending<'t> {
    /// Whether it has a point.
    pub pointed: bool,
    /// How many zeros end its digits behind the point.
    pub zeros: usize,
    /// The bytes after it.
    pub rest: &'t [u8],
}

/// How the number ends that the bytes begin with.
#[inline(always)]
pub fn ending_of(number: &[u8]) -> Ending<'_>
    ensures exact { (result.pointed, (result.zeros, result.rest.now)) ≡ ending_of false 0 number.now }
    ensures within { result.zeros + length result.rest.now ≤ length number.now }
{
    let mut pointed = false;
    let mut zeros: usize = 0;
    let mut rest = number;
    'bytes: while let Some((byte, others)) = rest.split_first() {
        if !is_number_byte(*byte) {
            return Ending {
                pointed,
                zeros,
                rest,
            };
        }
        zeros = zeros_with(pointed, zeros, *byte);
        pointed = pointed || *byte == b'.';
        rest = others;
    }
    Ending {
        pointed,
        zeros,
        rest,
    }
}

/// How many zeros end the digits behind a point with one more byte.
#[inline(always)]
pub fn zeros_with(pointed: bool, zeros: usize, byte: u8) -> usize
    requires { zeros < 2 ^ 63 }
    ensures { result ≡ zeros_with pointed zeros byte }
{
    if pointed && byte == b'0' {
        zeros + 1
    } else {
        0
    }
}

/// Whether the number before which so many come has a point, and the bytes behind it. `None` where there is none.
pub(crate) fn after_numbers(before: usize, text: &[u8]) -> Option<(bool, &[u8])>
    ensures exact { option_map (λ r. (r.0, r.1.now)) result ≡ after_numbers before text.now }
{
    let mut rest = text;
    let mut left = before;
    'numbers: loop {
        let (pointed, behind) = next_number(rest)?;
        let Some(less) = left.checked_sub(1) else {
            return Some((pointed, behind));
        };
        left = less;
        rest = behind;
    }
}

// Whether the next number has a point, and the bytes behind it. `None` where there is none.
fn next_number(text: &[u8]) -> Option<(bool, &[u8])>
    ensures exact { option_map (λ r. (r.0, r.1.now)) result ≡ next_number text.now }
{
    let number = from_number(text)?;
    if number.is_empty() {
        return None;
    }
    let ending = ending_of(number);
    Some((ending.pointed, ending.rest))
}
