//! Whitespace between the parts of a text.
ghost use Rattle.std.specs.Prelude.{◌≡◌, ◌↔◌, ℕ, ◌+◌, ◌<◌, ◌≤◌, ◌^◌, length, slice_index, drop};
ghost use Rattle.std.specs.Int.{bit_at};
ghost use Rattle.text_scan.specs.Answer.{grammar_of};
ghost use Rattle.jsonb_spec.specs.Parsing.Whitespace.{block_length, line_length, comment_length, piece_length};
ghost use Rattle.jsonb_spec.specs.Ascii as ascii;

use super::vector::{equal_bits, lowest, near_bits};
use super::{Grammar, Mode};
use memchr::memchr2;

// Bit k is set where a star and a slash are from byte `at + k` on, among the next 32 bytes.
#[inline(always)]
fn block_ends(bytes: &[u8], at: usize) -> u64
    requires { at + 33 ≤ length bytes.now }
    ensures { (k : ℕ) → (bit_at result k ≡ 1) ↔ ((k < 32) × (slice_index bytes.now (at + k) ≡ ascii.star)
        × (slice_index bytes.now (at + 1 + k) ≡ ascii.slash)) }
{
    let stars = equal_bits(bytes, at, b'*');
    let slashes = equal_bits(bytes, at + 1, b'/');
    stars & slashes
}

// How many bytes there are up to and with the first star and slash, or 0 where there are none.
fn block_len(bytes: &[u8]) -> usize
    ensures value { result ≡ block_length bytes.now }
    ensures within { result ≤ length bytes.now }
{
    let mut at = 0;
    'vectors: while bytes.len() - at > 32 {
        let ends = block_ends(bytes, at);
        if ends != 0 {
            return at + lowest(ends) + 2;
        }
        at += 32;
    }
    let len = short_block_len(&bytes[at..]);
    if len == 0 { 0 } else { at + len }
}

// How many bytes there are up to and with the first star and slash, or 0 where there are none, byte by byte.
fn short_block_len(bytes: &[u8]) -> usize
    ensures value { result ≡ block_length bytes.now }
    ensures within { result ≤ length bytes.now }
{
    let mut at = 0;
    'bytes: while at + 1 < bytes.len() {
        if bytes[at] == b'*' && bytes[at + 1] == b'/' {
            return at + 2;
        }
        at += 1;
    }
    0
}

// How many bytes there are up to and with the first end of a line, or 0 where there is none.
fn line_len(bytes: &[u8]) -> usize
    ensures value { result ≡ line_length bytes.now }
    ensures within { result ≤ length bytes.now }
{
    match memchr2(b'\n', b'\r', bytes) {
        Some(count) => count + 1,
        None => 0,
    }
}

// How many bytes the comment takes whose first byte is a slash, or 0 where none begins or ends.
fn comment_len(bytes: &[u8]) -> usize
    ensures value { result ≡ comment_length (drop 1 bytes.now) }
    ensures within { result ≤ length bytes.now }
{
    let len = match bytes {
        [_, b'*', ..] => block_len(&bytes[2..]),
        [_, b'/', ..] => line_len(&bytes[2..]),
        _ => return 0,
    };
    if len == 0 { 0 } else { len + 2 }
}

/// How many bytes the piece of whitespace takes that the bytes begin with, or 0 where they begin with none.
pub fn piece_len(bytes: &[u8], grammar: Grammar) -> usize
    ensures value { result ≡ piece_length (grammar_of grammar) bytes.now }
    ensures within { result ≤ length bytes.now }
{
    match bytes {
        [b' ' | b'\t' | b'\n' | b'\r', ..] => 1,
        _ if grammar == Grammar::Json => 0,
        [b'\x0C', ..] => 1,
        [b'\\', b'n' | b'r' | b't', ..] => 2,
        [b'\\', b'x', b'0', b'C', ..] => 4,
        [b'/', ..] => match grammar.mode() {
            Mode::Standard => 0,
            Mode::Extended => comment_len(bytes),
        },
        _ => 0,
    }
}

/// How many of the first 16 bytes are spaces before any other byte. Where there are fewer bytes, none is looked at.
#[inline(always)]
pub fn near_spaces(bytes: &[u8]) -> usize
    ensures within { result ≤ length bytes.now }
    ensures spaces { (k : ℕ) → k < result → slice_index bytes.now k ≡ ascii.space }
{
    if bytes.len() < 16 {
        return 0;
    }
    near_bits(bytes, b' ').trailing_ones() as usize
}
