//! The bytes of a string from its key, with their escapes.
ghost use Rattle.std.specs.Prelude.{◌≡◌, ◌+◌, ◌<◌, ◌≤◌, ◌++◌, ◌∷◌, [], ℕ, List, length, take, get_or, true, IsTrue, IfOk};
ghost use Rattle.jsonb_spec.specs.SortKey.Open.{name_key, end_key};
ghost use Rattle.jsonb_spec.specs.Ascii as ascii;
ghost use Rattle.jsonb_spec.specs.SortKey.{text_key};
ghost use Rattle.jsonb_spec.specs.Text.Appending.{Appends, comma_before};
ghost use Rattle.jsonb_spec.specs.Text.StringText.{ArePlain, quoted_text};
ghost use Rattle.key_text.specs.Writes.{closing_quote, name_text, AppendsLeaving, AppendsOrNot, Takes, TakesSome, WritesString};
ghost use Rattle.jsonb_spec.specs.SortKey.Text.{Preserves};

use crate::append::{append_first, append_within};
use jsonb_core::plain::{append_byte, plain_len, run_of_sixteen};
use jsonb_core::sort_key::kind;
use key_value::KeyError;
use key_value::text::{read_byte, skip_pair};
use std::alloc::AllocError;

// Appends a member's name with double quotes and a colon, and a comma before it, but for the first name, and returns
// how many bytes are read of its key. Where that is 0, nothing is appended: an item has no name, an object may end here,
// or the name is left to `append_long_name`.
#[inline(always)]
pub(crate) fn append_short_name(
    object: bool,
    is_first: bool,
    bytes: &[u8],
    buf: &mut Vec<u8>,
) -> usize
    ensures found { 0 < result → (name more : List ℕ) → bytes.now ≡ name_key object name ++ more
        → Takes bytes.now result buf.old buf.new more (comma_before is_first ++ name_text object name) }
    ensures no_end { 0 < result → (tail : List ℕ) → bytes.now ≡ end_key object ++ tail → ⊥ }
    ensures takes { TakesSome bytes.now result buf.old buf.new }
{
    if !object {
        return 0;
    }
    let Some(chunk) = bytes.first_chunk::<16>() else {
        return 0;
    };
    if chunk[0] == kind::TERMINATOR && chunk[1] == kind::TERMINATOR {
        return 0;
    }
    let run = run_of_sixteen(chunk);
    if !ends_at(run, chunk) {
        return 0;
    }
    if is_first {
        if append_quoted(true, run, chunk, buf) {
            return run + 2;
        }
        return 0;
    }
    if append_after_comma(run, chunk, buf) {
        return run + 2;
    }
    0
}

// Appends a string with double quotes, and returns how many bytes are read of its key. Where that is 0, nothing is
// appended, and the string is left to `append_long_string`.
#[inline(always)]
pub(crate) fn append_short_string(run: usize, bytes: &[u8], buf: &mut Vec<u8>) -> usize
    requires plain { ArePlain (take run bytes.now) }
    ensures found { 0 < result → (text more : List ℕ) → bytes.now ≡ text_key text ++ more
        → Takes bytes.now result buf.old buf.new more (quoted_text text) }
    ensures takes { TakesSome bytes.now result buf.old buf.new }
{
    let Some(chunk) = bytes.first_chunk::<16>() else {
        return 0;
    };
    if !ends_at(run, chunk) {
        return 0;
    }
    if append_quoted(false, run, chunk, buf) {
        return run + 2;
    }
    0
}

// Whether a text ends behind this many bytes.
#[inline(always)]
fn ends_at(run: usize, chunk: &[u8; 16]) -> bool
    ensures { IsTrue result → (run ≤ 14) × (get_or chunk.now run 0 ≡ 0) × (get_or chunk.now (run + 1) 0 ≡ 1) }
{
    run <= 14 && chunk[run] == kind::TERMINATOR && chunk[run + 1] == kind::TEXT_END
}

// Appends the first bytes with double quotes, and a colon behind a name, if there is space, and returns whether it is
// done. The row is made byte by byte, which is compiled to one copy that doesn't ask what overlaps.
#[inline(always)]
fn append_quoted(colon: bool, run: usize, chunk: &[u8; 16], buf: &mut Vec<u8>) -> bool
    requires { run ≤ 14 }
    ensures { AppendsOrNot result buf.old buf.new (ascii.quote ∷ (take run chunk.now ++ closing_quote colon)) }
{
    let [a, b, c, d, e, f, g, h, i, j, k, l, m, n, o, p] = *chunk;
    let mut row = [b'"', a, b, c, d, e, f, g, h, i, j, k, l, m, n, o, p];
    row[run + 1] = b'"';
    row[run + 2] = b':';
    append_within(&row, run + 1 + closing_len(colon), buf)
}

// Appends a comma, and the first bytes with double quotes and a colon, in the same way.
#[inline(always)]
fn append_after_comma(run: usize, chunk: &[u8; 16], buf: &mut Vec<u8>) -> bool
    requires { run ≤ 14 }
    ensures { AppendsOrNot result buf.old buf.new
        (ascii.comma ∷ ascii.quote ∷ (take run chunk.now ++ closing_quote true)) }
{
    let [a, b, c, d, e, f, g, h, i, j, k, l, m, n, o, p] = *chunk;
    let mut row = [b',', b'"', a, b, c, d, e, f, g, h, i, j, k, l, m, n, o, p];
    row[run + 2] = b'"';
    row[run + 3] = b':';
    append_within(&row, run + 4, buf)
}

// Appends a member's name with double quotes and a colon, and a comma before it, but for the first name.
#[inline(never)]
pub(crate) fn append_long_name<'k>(
    is_first: bool,
    bytes: &'k [u8],
    buf: &mut Vec<u8>,
) -> Result<&'k [u8], KeyError>
    ensures found { (name more : List ℕ) → bytes.now ≡ text_key name ++ more
        → AppendsLeaving result buf.old buf.new more (comma_before is_first ++ name_text true name) }
    ensures shorter { IfOk result (λ rest. length rest.now < length bytes.now) }
    ensures preserves { Preserves buf.old buf.new }
{
    append_first_quote(is_first, buf)?;
    append_long(true, bytes, plain_len(bytes), buf)
}

// Appends a comma, but for the first name, and the double quote that a name begins with.
#[inline(always)]
fn append_first_quote(is_first: bool, buf: &mut Vec<u8>) -> Result<(), AllocError>
    ensures { Appends result buf.old buf.new (comma_before is_first ++ ascii.quote ∷ []) }
{
    if is_first {
        return buf.extend_from_slice(b"\"");
    }
    buf.extend_from_slice(b",\"")
}

// Appends a string with double quotes. As many of the first bytes as `run` are written as they are.
#[inline(never)]
pub(crate) fn append_long_string<'k>(
    run: usize,
    bytes: &'k [u8],
    buf: &mut Vec<u8>,
) -> Result<&'k [u8], KeyError>
    requires within { run ≤ length bytes.now }
    requires plain { ArePlain (take run bytes.now) }
    ensures found { (text more : List ℕ) → bytes.now ≡ text_key text ++ more
        → AppendsLeaving result buf.old buf.new more (quoted_text text) }
    ensures shorter { IfOk result (λ rest. length rest.now < length bytes.now) }
    ensures preserves { Preserves buf.old buf.new }
{
    buf.extend_from_slice(b"\"")?;
    append_long(false, bytes, run, buf)
}

// Appends them where they are many, have escapes, or are near the end of the key. As many of the first bytes as `run`
// are written as they are.
#[inline(never)]
fn append_long<'k>(
    colon: bool,
    bytes: &'k [u8],
    run: usize,
    buf: &mut Vec<u8>,
) -> Result<&'k [u8], KeyError>
    requires within { run ≤ length bytes.now }
    requires plain { ArePlain (take run bytes.now) }
    ensures writes { WritesString colon bytes.now result buf.old buf.new }
{
    let mut rest = bytes;
    let mut run = run;
    'runs: loop {
        append_first(rest, run, buf)?;
        let others = &rest[run..];
        if let Some(after) = skip_pair(kind::TEXT_END, others) {
            append_closing_quote(colon, buf)?;
            return Ok(after);
        }
        let Some((byte, more)) = read_byte(others) else {
            return Err(KeyError::Invalid);
        };
        append_byte(byte, buf)?;
        rest = more;
        run = plain_len(rest);
    }
}

#[inline(always)]
fn closing_len(colon: bool) -> usize
    ensures { result ≡ length (closing_quote colon) }
{
    if colon { 2 } else { 1 }
}

// Appends a double quote, and a colon behind a name.
#[inline(always)]
fn append_closing_quote(colon: bool, buf: &mut Vec<u8>) -> Result<(), AllocError>
    ensures { Appends result buf.old buf.new (closing_quote colon) }
{
    if colon {
        return buf.extend_from_slice(b"\":");
    }
    buf.extend_from_slice(b"\"")
}
