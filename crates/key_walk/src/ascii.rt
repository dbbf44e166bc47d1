//! Bytes of a text up to its first zero, checked to be UTF-8.

ghost use Rattle.std.specs.Prelude.{◌≡◌, ◌≢◌, ◌<◌, ◌≤◌, ◌↔◌, ◌==◌, ℕ, List, length, get_or, if◌then◌else◌, MatchOption, IsTrue, IsUtf8};
ghost use Rattle.std.specs.Int.{trailing_zeros, w64};
ghost use Rattle.memchr.specs.Find.{IsFirstByte, is_byte};
ghost use Rattle.jsonb_spec.specs.SortKey.Front.{AreNoZeros};
ghost use Rattle.key_walk.specs.Frames.{ArePlain, PlainRun, RunBeforeZero, TextFirst, Utf8UpTo};

use jsonb_core::plain::first_set;
use memchr::memchr;
use std::simd::prelude::*;

/// How many bytes are before the first zero. Most texts end within 32 bytes.
#[inline(always)]
pub(crate) fn run_before_zero(bytes: &[u8]) -> usize
    ensures run { RunBeforeZero bytes.now result }
{
    if bytes.len() < 16 {
        return run_by_bytes_before_zero(bytes);
    }
    let run = run_of_sixteen_before_zero(bytes);
    if run < 16 {
        return run;
    }
    16 + next_run_before_zero(&bytes[16..])
}

// The same behind 16 bytes.
#[inline(always)]
fn next_run_before_zero(bytes: &[u8]) -> usize
    ensures run { RunBeforeZero bytes.now result }
{
    if bytes.len() < 16 {
        return long_run_before_zero(bytes);
    }
    let run = run_of_sixteen_before_zero(bytes);
    if run < 16 {
        return run;
    }
    16 + long_run_before_zero(&bytes[16..])
}

// How many bytes are before the first zero, up to 16.
#[inline(always)]
fn run_of_sixteen_before_zero(bytes: &[u8]) -> usize
    requires { 16 ≤ length bytes.now }
    ensures within { result ≤ 16 }
    ensures none { AreNoZeros bytes.now result }
{
    let marks = u8x16::from_slice(bytes).simd_eq(u8x16::splat(0));
    first_set(marks.to_bitmask(), 16)
}

// How many bytes are before the first zero, byte by byte.
#[inline(always)]
fn run_by_bytes_before_zero(bytes: &[u8]) -> usize
    ensures run { RunBeforeZero bytes.now result }
{
    'bytes: for (i, byte) in bytes.iter().enumerate() {
        if *byte == 0 {
            return i;
        }
    }
    bytes.len()
}

// How many bytes are before the first zero, which may be far.
#[inline(never)]
fn long_run_before_zero(bytes: &[u8]) -> usize
    ensures run { RunBeforeZero bytes.now result }
{
    let mut len = 0;
    'wide: while bytes.len() - len >= 128 {
        if !have_no_zero(&bytes[len..]) {
            break;
        }
        len += 128;
    }
    len + run_by_vectors_before_zero(&bytes[len..])
}

// How many bytes are before the first zero, 16 at a time.
#[inline(always)]
fn run_by_vectors_before_zero(bytes: &[u8]) -> usize
    ensures run { RunBeforeZero bytes.now result }
{
    let mut len = 0;
    'vectors: while bytes.len() - len >= 16 {
        let run = run_of_sixteen_before_zero(&bytes[len..]);
        len += run;
        if run < 16 {
            return len;
        }
    }
    len + run_by_bytes_before_zero(&bytes[len..])
}

// Whether there is no zero among the first 128 bytes.
#[inline(always)]
fn have_no_zero(bytes: &[u8]) -> bool
    requires { 128 ≤ length bytes.now }
    ensures { IsTrue result → AreNoZeros bytes.now 128 }
{
    are_no_zeros(lesser(least_of_four(bytes), least_of_four(&bytes[64..])))
}

// Whether no lane is a zero.
#[inline(always)]
fn are_no_zeros(lanes: u8x16) -> bool
    ensures { IsTrue result → AreNoZeros lanes 16 }
{
    lanes.simd_eq(u8x16::splat(0)).to_bitmask() == 0
}

// The least of four vectors of 16 bytes, lane by lane: a zero of any is among them.
#[inline(always)]
fn least_of_four(bytes: &[u8]) -> u8x16
    requires { 64 ≤ length bytes.now }
    ensures { AreNoZeros result 16 → AreNoZeros bytes.now 64 }
{
    let first = lesser(u8x16::from_slice(bytes), u8x16::from_slice(&bytes[16..]));
    let second = lesser(
        u8x16::from_slice(&bytes[32..]),
        u8x16::from_slice(&bytes[48..]),
    );
    lesser(first, second)
}

// The lesser lanes of two vectors: a zero of either is among them.
#[inline(always)]
fn lesser(first: u8x16, second: u8x16) -> u8x16
    ensures { AreNoZeros result 16 → AreNoZeros first 16 × AreNoZeros second 16 }
{
    first.simd_min(second)
}

// How many bytes are before the first zero, if they are UTF-8.
#[inline(always)]
pub(crate) fn utf8_run(bytes: &[u8]) -> Option<usize>
    ensures { MatchOption result ((more : List ℕ) → ¬ (TextFirst bytes.now more)) (λ zero. Utf8UpTo bytes.now zero) }
{
    let run = plain_run(bytes);
    let (_, rest) = bytes.split_at(run);
    let Some((first, _)) = rest.split_first() else {
        return None;
    };
    if *first == 0 {
        return Some(run);
    }
    longer_run(bytes, run)
}

// How many bytes are before the first zero, if they are UTF-8, where the first `run` of them are ASCII.
#[inline(never)]
fn longer_run(bytes: &[u8], run: usize) -> Option<usize>
    requires run { PlainRun bytes.now run }
    ensures { MatchOption result ((more : List ℕ) → ¬ (TextFirst bytes.now more)) (λ zero. Utf8UpTo bytes.now zero) }
{
    let (_, rest) = bytes.split_at(run);
    let Some(zero) = memchr(0, rest) else {
        return None;
    };
    let (text, _) = rest.split_at(zero);
    if !is_utf8(text) {
        return None;
    }
    Some(run + zero)
}

fn is_utf8(bytes: &[u8]) -> bool
    ensures { IsTrue result ↔ IsUtf8 bytes.now }
{
    simdutf8::basic::from_utf8(bytes).is_ok()
}

// How many of the first bytes are plain: ASCII and no zeros.
#[inline(always)]
fn plain_run(bytes: &[u8]) -> usize
    ensures run { PlainRun bytes.now result }
{
    if bytes.len() < 16 {
        return run_by_bytes(bytes);
    }
    let run = run_of_sixteen(bytes);
    if run < 16 {
        return run;
    }
    16 + long_run(&bytes[16..])
}

// How many of the first bytes are plain, 64 at a time.
#[inline(never)]
fn long_run(bytes: &[u8]) -> usize
    ensures run { PlainRun bytes.now result }
{
    let mut len = 0;
    'wide: while bytes.len() - len >= 64 {
        if !are_plain(&bytes[len..]) {
            return len + run_by_vectors(&bytes[len..]);
        }
        len += 64;
    }
    len + run_by_vectors(&bytes[len..])
}

// How many of the first bytes are plain, 16 at a time.
#[inline(always)]
fn run_by_vectors(bytes: &[u8]) -> usize
    ensures run { PlainRun bytes.now result }
{
    let mut len = 0;
    'vectors: while bytes.len() - len >= 16 {
        let run = run_of_sixteen(&bytes[len..]);
        len += run;
        if run < 16 {
            return len;
        }
    }
    len + run_by_bytes(&bytes[len..])
}

// Whether the first 64 bytes are plain.
#[inline(always)]
fn are_plain(bytes: &[u8]) -> bool
    requires { 64 ≤ length bytes.now }
    ensures { IsTrue result → ArePlain bytes.now 64 }
{
    let lanes = u8x64::from_slice(bytes);
    let marks = lanes.simd_eq(u8x64::splat(0)) | lanes.simd_ge(u8x64::splat(128));
    marks.to_bitmask() == 0
}

// How many of the first bytes are plain, byte by byte.
#[inline(always)]
fn run_by_bytes(bytes: &[u8]) -> usize
    ensures run { PlainRun bytes.now result }
{
    'bytes: for (i, byte) in bytes.iter().enumerate() {
        if *byte == 0 || *byte >= 128 {
            return i;
        }
    }
    bytes.len()
}

// How many of the first bytes are plain, up to 16.
#[inline(always)]
fn run_of_sixteen(bytes: &[u8]) -> usize
    requires { 16 ≤ length bytes.now }
    ensures within { result ≤ 16 }
    ensures plain { ArePlain bytes.now result }
{
    let lanes = u8x16::from_slice(bytes);
    let marks = lanes.simd_eq(u8x16::splat(0)) | lanes.simd_ge(u8x16::splat(128));
    first_set(marks.to_bitmask(), 16)
}
