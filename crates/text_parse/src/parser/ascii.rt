//! Whether a short text is ASCII.
ghost use Rattle.std.specs.Prelude.{◌<◌, ◌≤◌, ℕ, IsTrue, length, slice_index};
ghost use Rattle.std.specs.Str.{IsAscii};

use std::simd::prelude::*;

// Whether the first 16 bytes are ASCII.
#[inline(always)]
fn begins_ascii(bytes: &[u8]) -> bool
    requires { 16 ≤ length bytes.now }
    ensures { IsTrue result → (i : ℕ) → i < 16 → slice_index bytes.now i < 128 }
{
    let lanes = u8x16::from_slice(bytes);
    lanes.simd_ge(u8x16::splat(128)).to_bitmask() == 0
}

// Whether all bytes are ASCII, of which there are 16 to 64: by four vectors, which may overlap.
#[inline(always)]
pub(super) fn is_short_ascii(bytes: &[u8]) -> bool
    requires least { 16 ≤ length bytes.now }
    requires most { length bytes.now ≤ 64 }
    ensures { IsTrue result → IsAscii bytes.now }
{
    let last = bytes.len() - 16;
    if !begins_ascii(bytes) {
        return false;
    }
    if !begins_ascii(&bytes[last.min(16)..]) {
        return false;
    }
    if !begins_ascii(&bytes[last.min(32)..]) {
        return false;
    }
    begins_ascii(&bytes[last..])
}
