//! The bytes up to the next escape.
ghost use Rattle.std.specs.Prelude.{◌≡◌, ℕ, ◌+◌, ◌≤◌, ◌<◌, ◌++◌, length, take, slice_index, IfSome, IfNone, Some, None, ◌↔◌};
ghost use Rattle.std.specs.Int.{bit_at};
ghost use Rattle.jsonb_spec.specs.Parsing.Decoding.{SeesNoBackslash, CopiesRun};
ghost use Rattle.jsonb_spec.specs.Ascii as ascii;

use super::Decoded;
use super::space::{write_all, write_byte};
use crate::parser::vector::{lowest, near_bits};
use memchr::memchr;
use std::simd::prelude::*;

/// The index of the first backslash among the first 16 bytes.
#[inline(always)]
pub fn near_backslash(bytes: &[u8]) -> Option<usize>
    requires { 16 ≤ length bytes.now }
    ensures within { IfSome result (λ i. i < 16) }
    ensures before { IfSome result (λ i. SeesNoBackslash bytes.now i) }
    ensures here { IfSome result (λ i. slice_index bytes.now i ≡ ascii.backslash) }
    ensures none { IfNone result (SeesNoBackslash bytes.now 16) }
{
    let marks = near_bits(bytes, b'\\');
    if marks == 0 {
        return None;
    }
    Some(lowest(marks))
}

/// Writes the first 16 bytes behind the first `len` of a text, by one load and one store.
#[inline(always)]
pub fn write_sixteen(text: &mut [u8], len: usize, bytes: &[u8])
    requires enough { 16 ≤ length bytes.now }
    requires space { len + 16 ≤ length text.old }
    ensures written { take (len + 16) text.new ≡ take len text.old ++ take 16 bytes.now }
    ensures size { length text.new ≡ length text.old }
{
    u8x16::from_slice(bytes).copy_to_slice(&mut text[len..]);
}

// Writes this many of the first 16 bytes. All 16 are copied, since a copy of a fixed length takes no call.
#[inline(always)]
fn write_few(text: &mut [u8], len: usize, bytes: &[u8], count: usize)
    requires few { count ≤ 16 }
    requires enough { 16 ≤ length bytes.now }
    requires space { len + 16 ≤ length text.old }
    ensures written { take (len + count) text.new ≡ take len text.old ++ take count bytes.now }
    ensures size { length text.new ≡ length text.old }
{
    let _ = count;
    write_sixteen(text, len, bytes);
}

// Copies the bytes before the first backslash, one by one, and returns how many they are.
#[inline(always)]
fn copy_short(bytes: &[u8], text: &mut [u8], len: usize) -> usize
    requires { len + length bytes.now ≤ length text.old }
    ensures bound { result ≤ length bytes.now }
    ensures before { SeesNoBackslash bytes.now result }
    ensures here { result < length bytes.now → slice_index bytes.now result ≡ ascii.backslash }
    ensures written { take (len + result) text.new ≡ take len text.old ++ take result bytes.now }
    ensures size { length text.new ≡ length text.old }
{
    let mut count = 0;
    'bytes: while count < bytes.len() {
        if bytes[count] == b'\\' {
            return count;
        }
        write_byte(text, len + count, bytes[count]);
        count += 1;
    }
    count
}

// Copies the bytes before the first backslash, which is anywhere or nowhere.
#[inline(never)]
fn copy_many(bytes: &[u8], text: &mut [u8], len: usize) -> usize
    requires { len + length bytes.now ≤ length text.old }
    ensures bound { result ≤ length bytes.now }
    ensures before { SeesNoBackslash bytes.now result }
    ensures here { result < length bytes.now → slice_index bytes.now result ≡ ascii.backslash }
    ensures written { take (len + result) text.new ≡ take len text.old ++ take result bytes.now }
    ensures size { length text.new ≡ length text.old }
{
    let count = memchr(b'\\', bytes).unwrap_or(bytes.len());
    write_all(text, len, &bytes[..count]);
    count
}

// Copies the bytes before the first backslash, which is likely to be near.
#[inline(always)]
fn copy_near(bytes: &[u8], text: &mut [u8], len: usize) -> usize
    requires { len + length bytes.now ≤ length text.old }
    ensures bound { result ≤ length bytes.now }
    ensures before { SeesNoBackslash bytes.now result }
    ensures here { result < length bytes.now → slice_index bytes.now result ≡ ascii.backslash }
    ensures written { take (len + result) text.new ≡ take len text.old ++ take result bytes.now }
    ensures size { length text.new ≡ length text.old }
{
    if bytes.len() < 16 {
        return copy_short(bytes, text, len);
    }
    let Some(count) = near_backslash(bytes) else {
        return copy_many(bytes, text, len);
    };
    write_few(text, len, bytes, count);
    count
}

// Copies the bytes before the first backslash, where none is among the first 16 bytes.
#[inline(never)]
fn copy_more(bytes: &[u8], text: &mut [u8], len: usize) -> usize
    requires long { 16 ≤ length bytes.now }
    requires clear { SeesNoBackslash bytes.now 16 }
    requires space { len + length bytes.now ≤ length text.old }
    ensures bound { result ≤ length bytes.now }
    ensures before { SeesNoBackslash bytes.now result }
    ensures here { result < length bytes.now → slice_index bytes.now result ≡ ascii.backslash }
    ensures written { take (len + result) text.new ≡ take len text.old ++ take result bytes.now }
    ensures size { length text.new ≡ length text.old }
{
    write_sixteen(text, len, bytes);
    16 + copy_near(&bytes[16..], text, len + 16)
}

// Copies the bytes before the first backslash, which is often among the first 16 bytes.
#[inline(always)]
fn copy_first(bytes: &[u8], text: &mut [u8], len: usize) -> usize
    requires { len + length bytes.now ≤ length text.old }
    ensures bound { result ≤ length bytes.now }
    ensures before { SeesNoBackslash bytes.now result }
    ensures here { result < length bytes.now → slice_index bytes.now result ≡ ascii.backslash }
    ensures written { take (len + result) text.new ≡ take len text.old ++ take result bytes.now }
    ensures size { length text.new ≡ length text.old }
{
    if bytes.len() < 16 {
        return copy_short(bytes, text, len);
    }
    let Some(count) = near_backslash(bytes) else {
        return copy_more(bytes, text, len);
    };
    write_few(text, len, bytes, count);
    count
}

// Copies the bytes before the first backslash.
#[inline(always)]
pub(super) fn copy_run<'a>(bytes: &'a [u8], text: &mut [u8], len: usize) -> Decoded<'a>
    requires { len + length bytes.now ≤ length text.old }
    ensures copies { CopiesRun bytes.now result.rest.now (take len text.old) (take result.len text.new) }
    ensures len { result.len + length result.rest.now ≡ len + length bytes.now }
    ensures size { length text.new ≡ length text.old }
{
    // One escape often follows another.
    if matches!(bytes, [b'\\', ..]) {
        return Decoded { rest: bytes, len };
    }
    let count = copy_first(bytes, text, len);
    Decoded {
        rest: &bytes[count..],
        len: len + count,
    }
}
