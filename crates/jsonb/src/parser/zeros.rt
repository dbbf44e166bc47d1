//! Whether a number of a text may have zeros at its end.
ghost use Rattle.std.specs.Prelude.{◌≡◌, false, MatchOption};
ghost use Rattle.memchr.specs.Find.{IsFirstByte, is_byte2};
ghost use Rattle.jsonb_spec.specs.Ascii as ascii;
ghost use Rattle.jsonb_spec.specs.Grammar.{IsDocument};
ghost use Rattle.jsonb_spec.specs.Mode.{Mode};
ghost use Rattle.jsonb_spec.specs.Text.Range.{HasNoEndZeros};
ghost use Rattle.jsonb_spec.specs.Tree.{Tree};
ghost use Rattle.jsonb.specs.EndZeros.{ends_in_zero, EndsInNoExponent, HasNoMark, IsSplitAtMark, PassesMark};

use memchr::memchr2;
use text_scan::parser::vector::{lowest, near_bits};

/// Whether a number of a text may have zeros at the end of the digits behind its point, as 1.50 and 10e-1. It may be
/// true of other texts too, as of one with such a number in a string.
///
/// The time is linear in the text, and takes a small part of what parsing it takes. Nothing is allocated.
///
/// ```
/// assert!(rt; jsonb::may_end_in_zeros(b"[1.50]"));
/// assert!(rt; !jsonb::may_end_in_zeros(b"[9.99, 1.05, 100]"));
/// ```
pub fn may_end_in_zeros(text: &[u8]) -> bool
    // Where it is false, the text is no document of a tree with such a number.
    ensures { result ≡ false → (mode : Mode) → (t : Tree) → IsDocument mode text.now t → HasNoEndZeros t }
{
    let mut rest = text;
    'marks: while let Some((front, mark, behind)) = first_mark(rest) {
        if shows_zeros(front, mark, behind) {
            return true;
        }
        rest = behind;
    }
    false
}

// The first point or minus, with what is before it and what is behind it.
#[inline(always)]
fn first_mark(bytes: &[u8]) -> Option<(&[u8], u8, &[u8])>
    ensures { MatchOption result (HasNoMark bytes.now) (λ r. IsSplitAtMark bytes.now r.0.now r.1 r.2.now) }
{
    let Some(index) = find_mark(bytes) else {
        return None;
    };
    let (front, back) = bytes.split_at(index);
    let (mark, behind) = back.split_first()?;
    Some((front, *mark, behind))
}

// The index of the first point or minus. It is often among the first 16 bytes.
#[inline(always)]
fn find_mark(bytes: &[u8]) -> Option<usize>
    ensures { IsFirstByte (is_byte2 ascii.point ascii.minus) bytes.now result }
{
    if bytes.len() >= 16 {
        let points = near_bits(bytes, b'.');
        let minuses = near_bits(bytes, b'-');
        let marks = points | minuses;
        if marks != 0 {
            return Some(lowest(marks));
        }
    }
    memchr2(b'.', b'-', bytes)
}

// Whether a number may end in zeros at this point or minus.
#[inline(always)]
fn shows_zeros(front: &[u8], mark: u8, behind: &[u8]) -> bool
    ensures { result ≡ false → PassesMark front.now mark behind.now }
{
    if mark == b'.' {
        zero_ends(behind)
    } else {
        ends_in_exponent(front)
    }
}

// Whether a zero is the last of the digits that the bytes begin with.
#[inline(always)]
fn zero_ends(bytes: &[u8]) -> bool
    ensures { result ≡ ends_in_zero 0 bytes.now }
{
    let mut last = 0;
    let mut rest = bytes;
    'digits: while let Some((byte, others)) = rest.split_first() {
        if !byte.is_ascii_digit() {
            return last == b'0';
        }
        last = *byte;
        rest = others;
    }
    last == b'0'
}

// Whether the bytes end in a zero and the mark of an exponent, or are such a mark alone.
#[inline(always)]
fn ends_in_exponent(bytes: &[u8]) -> bool
    ensures { result ≡ false → EndsInNoExponent bytes.now }
{
    let Some((mark, before)) = bytes.split_last() else {
        return false;
    };
    if *mark != b'e' && *mark != b'E' {
        return false;
    }
    match before.split_last() {
        Some((digit, _)) => *digit == b'0',
        None => true,
    }
}
