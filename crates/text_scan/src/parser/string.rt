//! Quoted strings.
ghost use Rattle.std.specs.Prelude.{◌≡◌, ◌≢◌, ◌==◌, IfSome, IfNone, ℕ, ◌+◌, ◌<◌, ◌≤◌, ◌^◌, length, slice_index, Err, true};
ghost use Rattle.jsonb_spec.specs.Ascii as ascii;
ghost use Rattle.jsonb_spec.specs.Grammar.StringStep.{escape_step};
ghost use Rattle.jsonb_spec.specs.Parsing.Decoding.{ReportsBackslash};
ghost use Rattle.text_scan.specs.Answer.{mode_of};
ghost use Rattle.text_scan.specs.QuotedString.{EndsString, KnowsMarks, DecodesContents, ReportsMarks};
ghost use Rattle.jsonb_spec.specs.Parsing.Contents.{IsClear, IsQuoteOrBackslash};
ghost use Rattle.jsonb_spec.specs.Parsing.String.{body_of};

use super::Mode;
use super::vector::{equal_bits, lowest, near_bits, shifted_down};
use crate::util::unescape;
use jsonb_core::error::{Error, ParseErrorCode, Result};
use memchr::memchr2;
use std::alloc::Global;
use std::borrow::CowStr;

/// Where the search for the end of a string stops, counted from the byte after the opening quote.
#[derive(Clone, Copy)]
pub enum StringEnd {
    // At the closing quote; and whether a backslash is before it.
    Closed { end: usize, escaped: bool },
    // There is no closing quote. The index may pass the end of the bytes.
    Unclosed { at: usize },
}

// The step over what follows a backslash, which looks at two bytes at most.
fn step_after_backslash(bytes: &[u8]) -> usize
    ensures value { result ≡ escape_step bytes.now }
    ensures bound { result ≤ 7 }
{
    match bytes {
        [] => 0,
        [b'u'] => 1,
        [b'u', b'{', ..] => 7,
        [b'u', ..] => 5,
        _ => 1,
    }
}

// The index of the first quote or backslash from `at` on, byte by byte, where few are left.
#[inline(never)]
fn short_mark(bytes: &[u8], quote: u8, at: usize) -> usize
    requires { at ≤ length bytes.now }
    ensures bounds { (at ≤ result) × (result ≤ length bytes.now) }
    ensures before { IsClear quote bytes.now at result }
    ensures here { result < length bytes.now → IsQuoteOrBackslash quote (slice_index bytes.now result) }
{
    let mut stop = at;
    'bytes: while stop < bytes.len() {
        if bytes[stop] == quote {
            return stop;
        }
        if bytes[stop] == b'\\' {
            return stop;
        }
        stop += 1;
    }
    stop
}

// The index of the first quote or backslash from `at` on, by a search of all that is left.
#[inline(never)]
fn far_mark(bytes: &[u8], quote: u8, at: usize) -> usize
    requires { at ≤ length bytes.now }
    ensures bounds { (at ≤ result) × (result ≤ length bytes.now) }
    ensures before { IsClear quote bytes.now at result }
    ensures here { result < length bytes.now → IsQuoteOrBackslash quote (slice_index bytes.now result) }
{
    match memchr2(quote, b'\\', &bytes[at..]) {
        Some(count) => at + count,
        None => bytes.len(),
    }
}

// Bit k is set where byte `at + k` is a quote or a backslash, among the next 32 bytes.
#[inline(always)]
fn load_marks(bytes: &[u8], quote: u8, at: usize) -> u64
    requires { at + 32 ≤ length bytes.now }
    ensures { ReportsMarks quote bytes.now at (at + 32) result }
{
    let quotes = equal_bits(bytes, at, quote);
    let backslashes = equal_bits(bytes, at, b'\\');
    quotes | backslashes
}

// The index of the first quote or backslash from `at` on, or the length of the bytes, and the marks from there on,
// given those from `at` on.
#[inline(always)]
fn first_mark(bytes: &[u8], quote: u8, at: usize, marks: u64) -> (usize, u64)
    requires inside { at ≤ length bytes.now }
    requires known { KnowsMarks quote bytes.now at marks }
    ensures bounds { (at ≤ result.0) × (result.0 ≤ length bytes.now) }
    ensures before { IsClear quote bytes.now at result.0 }
    ensures here { result.0 < length bytes.now → IsQuoteOrBackslash quote (slice_index bytes.now result.0) }
    ensures known { KnowsMarks quote bytes.now result.0 result.1 }
{
    if marks == 0 {
        return next_mark(bytes, quote, at);
    }
    let count = lowest(marks);
    (at + count, shifted_down(marks, count))
}

// The index of the first quote or backslash from `at` on, or the length of the bytes, and the marks from there on, as
// far as they are known. It is often near.
#[inline(always)]
fn next_mark(bytes: &[u8], quote: u8, at: usize) -> (usize, u64)
    requires { at ≤ length bytes.now }
    ensures bounds { (at ≤ result.0) × (result.0 ≤ length bytes.now) }
    ensures before { IsClear quote bytes.now at result.0 }
    ensures here { result.0 < length bytes.now → IsQuoteOrBackslash quote (slice_index bytes.now result.0) }
    ensures known { KnowsMarks quote bytes.now result.0 result.1 }
{
    if bytes.len() - at < 32 {
        return (short_mark(bytes, quote, at), 0);
    }
    let marks = load_marks(bytes, quote, at);
    if marks == 0 {
        return (far_mark(bytes, quote, at + 32), 0);
    }
    let count = lowest(marks);
    (at + count, shifted_down(marks, count))
}

// An index, where it is of a byte.
#[inline(always)]
fn before_end(at: usize, bytes: &[u8]) -> Option<usize>
    requires { at ≤ length bytes.now }
    ensures same { IfSome result (λ index. index ≡ at) }
    ensures within { IfSome result (λ index. index < length bytes.now) }
    ensures end { IfNone result (at ≡ length bytes.now) }
{
    if at == bytes.len() {
        return None;
    }
    Some(at)
}

/// The index of the first quote or backslash. It is mostly among the first 16 bytes.
#[inline(always)]
pub fn near_mark(bytes: &[u8], quote: u8) -> Option<usize>
    ensures within { IfSome result (λ at. at < length bytes.now) }
    ensures before { IfSome result (λ at. IsClear quote bytes.now 0 at) }
    ensures here { IfSome result (λ at. IsQuoteOrBackslash quote (slice_index bytes.now at)) }
    ensures none { IfNone result (IsClear quote bytes.now 0 (length bytes.now)) }
{
    if bytes.len() < 16 {
        return before_end(short_mark(bytes, quote, 0), bytes);
    }
    let quotes = near_bits(bytes, quote);
    let backslashes = near_bits(bytes, b'\\');
    let marks = quotes | backslashes;
    if marks != 0 {
        return Some(lowest(marks));
    }
    let (at, _marks) = next_mark(bytes, quote, 16);
    before_end(at, bytes)
}

/// Looks for the quote that ends a string. An escape is stepped over by its first bytes, without a look at the others.
#[inline(always)]
pub fn find_end(bytes: &[u8], quote: u8) -> StringEnd
    requires { quote ≢ ascii.backslash }
    ensures { EndsString quote bytes.now result }
{
    let mut at = 0;
    let mut escaped = false;
    let mut marks = 0;
    'items: while at < bytes.len() {
        let (stop, known) = first_mark(bytes, quote, at, marks);
        if stop == bytes.len() {
            return StringEnd::Unclosed { at: stop };
        }
        if bytes[stop] == quote {
            return StringEnd::Closed { end: stop, escaped };
        }
        escaped = true;
        let step = 1 + step_after_backslash(&bytes[stop + 1..]);
        marks = shifted_down(known, step);
        at = stop + step;
    }
    StringEnd::Unclosed { at }
}

/// The text of a body, given whether it has a backslash. `idx` is the index after the opening quote and one more, from
/// which the decoder counts. Only a body with a backslash takes memory.
#[inline(always)]
pub fn decode_contents<'a>(
    alloc: Global,
    body: &'a [u8],
    mode: Mode,
    escaped: bool,
    idx: usize,
) -> Result<CowStr<'a>>
    requires escaped { ReportsBackslash body.now (length body.now) escaped }
    requires space { idx + length body.now < 2 ^ 64 }
    ensures parses { DecodesContents idx result (body_of (mode_of mode) body.now) }
    ensures memory { result ≡ Err Error.OutOfMemory → escaped ≡ true }
{
    if escaped {
        let mut idx = idx;
        let text = unescape(alloc, body, mode, &mut idx)?;
        return Ok(CowStr::Owned(text));
    }
    match std::str::from_utf8(body) {
        Ok(text) => Ok(CowStr::Borrowed(text)),
        Err(_) => Err(Error::Syntax(ParseErrorCode::InvalidStringValue, idx + body.len())),
    }
}
