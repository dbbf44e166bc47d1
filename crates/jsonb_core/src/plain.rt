//! Which bytes of a string are written as they are, and how the others are.
ghost use Rattle.std.specs.Prelude.{◌≡◌, ◌<◌, ◌≤◌, ◌==◌, if◌then◌else◌, IfSome, MatchBool, MatchOption, length, take};
ghost use Rattle.std.specs.Char.{digit_char};
ghost use Rattle.std.specs.Int.{w64, trailing_zeros};
ghost use Rattle.jsonb_spec.specs.Text.Appending.{Appends};
ghost use Rattle.jsonb_spec.specs.Text.StringText.{ArePlain, byte_text, control_text};

use std::alloc::AllocError;
use std::simd::prelude::*;

/// Whether the first `count` bytes are written as they are.
#[inline(always)]
pub fn is_plain(bytes: &[u8], count: usize) -> bool
    ensures { MatchBool result (ArePlain (take count bytes.now)) (Unit {0}) }
{
    plain_len(bytes) >= count
}

/// How many of the first bytes, up to the first that is not, are written as they are.
#[inline(always)]
pub fn plain_len(bytes: &[u8]) -> usize
    ensures within { result ≤ length bytes.now }
    ensures plain { ArePlain (take result bytes.now) }
{
    first_escaped(bytes).unwrap_or(bytes.len())
}

/// The index of the first byte that isn't written as it is. It is short where it is inlined, as a parser needs it: most
/// strings of a text end within 16 bytes.
#[inline(always)]
pub fn first_escaped(bytes: &[u8]) -> Option<usize>
    ensures within { IfSome result (λ index. index < length bytes.now) }
    ensures plain { MatchOption result (ArePlain bytes.now) (λ index. ArePlain (take index bytes.now)) }
{
    if bytes.len() >= 16 {
        if let Some(index) = near_escaped(bytes) {
            return Some(index);
        }
    }
    let run = long_run(bytes);
    if run == bytes.len() {
        return None;
    }
    Some(run)
}

// How many of the first bytes are written as they are, in a call.
#[inline(never)]
fn long_run(bytes: &[u8]) -> usize
    ensures within { result ≤ length bytes.now }
    ensures plain { ArePlain (take result bytes.now) }
{
    run_len(bytes)
}

/// How many of the first bytes, up to the first that is not, are written as they are, inlined whole.
#[inline(always)]
pub(crate) fn run_len(bytes: &[u8]) -> usize
    ensures within { result ≤ length bytes.now }
    ensures plain { ArePlain (take result bytes.now) }
{
    let mut len = 0;
    'vectors: while bytes.len() - len >= 16 {
        let run = run_of_sixteen(&bytes[len..]);
        len += run;
        if run < 16 {
            return len;
        }
    }
    len + run_of_few(&bytes[len..])
}

// How many of the first bytes, up to the first that is not, are written as they are, where there are mostly fewer than
// 16.
#[inline(always)]
fn run_of_few(bytes: &[u8]) -> usize
    ensures within { result ≤ length bytes.now }
    ensures plain { ArePlain (take result bytes.now) }
{
    if bytes.len() < 8 {
        return run_by_bytes(bytes);
    }
    let run = run_of_eight(bytes);
    if run < 8 {
        return run;
    }
    8 + run_by_bytes(&bytes[8..])
}

// How many of the first bytes are written as they are, byte by byte.
#[inline(always)]
fn run_by_bytes(bytes: &[u8]) -> usize
    ensures within { result ≤ length bytes.now }
    ensures plain { ArePlain (take result bytes.now) }
{
    'bytes: for (i, byte) in bytes.iter().enumerate() {
        // Most letters are past all that have an escape.
        if *byte > b'\\' {
            continue;
        }
        if *byte < b' ' || *byte == b'"' || *byte == b'\\' {
            return i;
        }
    }
    bytes.len()
}

/// How many of the first 16 bytes, up to the first that is not, are written as they are.
#[inline(always)]
pub fn run_of_sixteen(bytes: &[u8]) -> usize
    requires { 16 ≤ length bytes.now }
    ensures within { result ≤ 16 }
    ensures plain { ArePlain (take result bytes.now) }
{
    near_escaped(bytes).unwrap_or(16)
}

// The index of the first byte that isn't written as it is, among the first 16.
#[inline(always)]
fn near_escaped(bytes: &[u8]) -> Option<usize>
    requires { 16 ≤ length bytes.now }
    ensures within { IfSome result (λ index. index < 16) }
    ensures plain { MatchOption result (ArePlain (take 16 bytes.now)) (λ index. ArePlain (take index bytes.now)) }
{
    let lanes = u8x16::from_slice(bytes);
    let below = lanes.simd_lt(u8x16::splat(b' '));
    let marks = below | lanes.simd_eq(u8x16::splat(b'"')) | lanes.simd_eq(u8x16::splat(b'\\'));
    let mask = marks.to_bitmask();
    if mask == 0 {
        return None;
    }
    Some(mask.trailing_zeros() as usize)
}

// How many of the first 8 bytes, up to the first that is not, are written as they are.
#[inline(always)]
fn run_of_eight(bytes: &[u8]) -> usize
    requires { 8 ≤ length bytes.now }
    ensures within { result ≤ 8 }
    ensures plain { ArePlain (take result bytes.now) }
{
    let lanes = u8x8::from_slice(bytes);
    let below = lanes.simd_lt(u8x8::splat(b' '));
    let marks = below | lanes.simd_eq(u8x8::splat(b'"')) | lanes.simd_eq(u8x8::splat(b'\\'));
    first_set(marks.to_bitmask(), 8)
}

/// The index of the lowest bit that is set, or the number of lanes where none is.
#[inline(always)]
pub fn first_set(mask: u64, lanes: usize) -> usize
    ensures { result ≡ (if mask == 0 then lanes else trailing_zeros w64 mask) }
{
    if mask == 0 {
        lanes
    } else {
        mask.trailing_zeros() as usize
    }
}

/// Appends a byte of a string, with an escape where it needs one.
pub fn append_byte(byte: u8, buf: &mut Vec<u8>) -> Result<(), AllocError>
    ensures appends { Appends result buf.old buf.new (byte_text byte) }
{
    match byte {
        b'"' => buf.extend_from_slice(b"\\\""),
        b'\\' => buf.extend_from_slice(b"\\\\"),
        b'\n' => buf.extend_from_slice(b"\\n"),
        b'\r' => buf.extend_from_slice(b"\\r"),
        b'\t' => buf.extend_from_slice(b"\\t"),
        0..b' ' => buf.extend_from_slice(&control_text(byte)),
        _ => buf.extend_from_slice(&[byte]),
    }
}

// The escape of a control byte, by its number.
fn control_text(byte: u8) -> [u8; 6]
    ensures { result ≡ control_text byte }
{
    [
        b'\\',
        b'u',
        b'0',
        b'0',
        hexadecimal_digit(byte / 16),
        hexadecimal_digit(byte % 16),
    ]
}

// The digit of a number below 16.
fn hexadecimal_digit(value: u8) -> u8
    requires { value < 16 }
    ensures { result ≡ digit_char value }
{
    if value < 10 {
        b'0' + value
    } else {
        b'a' + (value - 10)
    }
}
