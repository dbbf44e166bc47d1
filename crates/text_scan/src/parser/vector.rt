//! Where a byte is among 16 or 32, as bits.
ghost use Rattle.std.specs.Prelude.{◌≡◌, ◌≢◌, ◌↔◌, ℕ, ◌+◌, ◌<◌, ◌≤◌, length, slice_index};
ghost use Rattle.std.specs.Int.{bit_at};
ghost use Rattle.jsonb_spec.specs.Ascii as ascii;

use std::simd::prelude::*;

// Bit k is set where byte `at + k` is this one, among the next 32 bytes.
#[inline(always)]
pub(super) fn equal_bits(bytes: &[u8], at: usize, byte: u8) -> u64
    requires { at + 32 ≤ length bytes.now }
    ensures { (k : ℕ) → (bit_at result k ≡ 1) ↔ ((k < 32) × (slice_index bytes.now (at + k) ≡ byte)) }
{
    u8x32::from_slice(&bytes[at..])
        .simd_eq(u8x32::splat(byte))
        .to_bitmask()
}

/// Bit k is set where byte k is this one, among the first 16.
#[inline(always)]
pub fn near_bits(bytes: &[u8], byte: u8) -> u64
    requires { 16 ≤ length bytes.now }
    ensures { (k : ℕ) → (bit_at result k ≡ 1) ↔ ((k < 16) × (slice_index bytes.now k ≡ byte)) }
{
    u8x16::from_slice(bytes)
        .simd_eq(u8x16::splat(byte))
        .to_bitmask()
}

// Bit k is set where byte k is a control character, among the first 16.
#[inline(always)]
pub(crate) fn low_bits(bytes: &[u8]) -> u64
    requires { 16 ≤ length bytes.now }
    ensures { (k : ℕ) → (bit_at result k ≡ 1) ↔ ((k < 16) × (slice_index bytes.now k < ascii.space)) }
{
    u8x16::from_slice(bytes)
        .simd_lt(u8x16::splat(b' '))
        .to_bitmask()
}

/// The index of the lowest bit that is set.
#[inline(always)]
pub fn lowest(bits: u64) -> usize
    requires { bits ≢ 0 }
    ensures bound { result < 64 }
    ensures set { bit_at bits result ≡ 1 }
    ensures below { (k : ℕ) → k < result → bit_at bits k ≡ 0 }
{
    bits.trailing_zeros() as usize
}

#[inline(always)]
pub(super) fn shifted_down(bits: u64, by: usize) -> u64
    requires { by < 64 }
    ensures { (k : ℕ) → bit_at result k ≡ bit_at bits (by + k) }
{
    bits >> by
}
