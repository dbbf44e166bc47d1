//! The numbers of extended texts: decimals, hexadecimals, `nan` and `infinity`.
ghost use Rattle.std.specs.Prelude.{◌≡◌, ◌+◌, ◌-◌, ◌*◌, ◌≤◌, ◌<◌, ◌^◌, length, Err, None, MatchOption, IfSome, IfOk, IfErr};
ghost use Rattle.jsonb_spec.specs.Parsing.Number.{sign_end};
ghost use Rattle.jsonb_spec.specs.Parsing.ExtendedNumber.{Scanned, encoded_from, word_scan, is_word_start, scan_by_kind, extended_scan, invalid};
ghost use Rattle.text_scan.specs.ScannedNumber.{scanned_view, letters_view};

pub(super) mod decimal;
pub(super) mod form;
mod hexadecimal;
pub(super) mod short;

use super::number::sign_end;
use decimal::scan_decimal;
use hexadecimal::{begins_hexadecimal, scan_hexadecimal};
use jsonb_core::bytes::byte_at;
use jsonb_core::error::{ParseErrorCode, Result};
use jsonb_core::number::Number;
pub use short::{ReadNumber, short_number};

/// A number text: its number, where a form holds it, and the index after it.
#[derive(Drop)]
pub struct NumberText {
    pub number: Option<Number>,
    pub end: usize,
}

/// What is wrong with a number text, and where.
#[derive(Drop)]
pub struct NumberFault {
    pub code: ParseErrorCode,
    pub offset: usize,
}

// The most digits of a number that is representable.
const MOST_DIGITS: usize = 38;

// What is above every number of 38 digits.
pub(super) const PAST_38_DIGITS: u128 = 100_000_000_000_000_000_000_000_000_000_000_000_000;

// The fault inside of a number text, at this offset.
pub(super) fn invalid(offset: usize) -> std::result::Result<NumberText, NumberFault>
    ensures scan { scanned_view result ≡ invalid offset }
    ensures near { IfErr result (λ fault. fault.offset ≡ offset) }
    ensures no_text { IfOk result (λ text. text.end ≡ offset) }
{
    Err(NumberFault {
        code: ParseErrorCode::InvalidNumberValue,
        offset,
    })
}

// The index after the letters of a word, each in either case; the first has this offset.
fn word_end(bytes: &[u8], offset: usize, word: &[u8]) -> std::result::Result<usize, NumberFault>
    requires { offset + length bytes.now < 2 ^ 63 }
    ensures scan { letters_view result ≡ encoded_from offset word.now bytes.now }
    ensures within { IfOk result (λ end. end ≤ offset + length bytes.now) }
    ensures near { IfErr result (λ fault. fault.offset ≤ offset + length bytes.now) }
{
    let mut index = 0;
    'letters: for letter in word {
        if index == bytes.len() {
            return Err(NumberFault {
                code: ParseErrorCode::InvalidEOF,
                offset: offset + index,
            });
        }
        if bytes[index].to_ascii_lowercase() != *letter {
            return Err(NumberFault {
                code: ParseErrorCode::ExpectedSomeIdent,
                offset: offset + index + 1,
            });
        }
        index += 1;
    }
    Ok(offset + index)
}

// A word whose first letter has this offset: no number, but a text that is not representable, or a fault.
#[cold]
fn scan_word(
    bytes: &[u8],
    offset: usize,
    negative: bool,
) -> std::result::Result<NumberText, NumberFault>
    requires { offset + length bytes.now < 2 ^ 63 }
    ensures scan { scanned_view result ≡ word_scan offset negative bytes.now }
    ensures within { IfOk result (λ text. text.end ≤ offset + length bytes.now) }
    ensures near { IfErr result (λ fault. fault.offset ≤ offset + length bytes.now) }
{
    if byte_at(bytes, 0).to_ascii_lowercase() != b'n' {
        let end = word_end(bytes, offset, b"infinity")?;
        return Ok(NumberText { number: None, end });
    }
    let end = word_end(bytes, offset, b"nan")?;
    if negative {
        return invalid(end);
    }
    Ok(NumberText { number: None, end })
}

// ---- all of them

// Whether a byte begins a word: `n` or `i` in either case.
fn begins_word(byte: u8) -> bool
    ensures { result ≡ is_word_start byte }
{
    matches!(byte.to_ascii_lowercase(), b'n' | b'i')
}

// The word or the hexadecimal that the bytes begin with; `None` where they begin with neither, so that a decimal is
// due.
#[inline(always)]
pub(super) fn scan_other(bytes: &[u8]) -> Option<std::result::Result<NumberText, NumberFault>>
    ensures scan { MatchOption result ((decimal : Scanned) → scan_by_kind bytes.now decimal ≡ decimal)
        (λ scanned. (decimal : Scanned) → scan_by_kind bytes.now decimal ≡ scanned_view scanned) }
    ensures within { IfSome result (λ scanned. IfOk scanned (λ text. text.end ≤ length bytes.now)) }
    ensures near { IfSome result (λ scanned. IfErr scanned (λ fault. fault.offset ≤ length bytes.now)) }
{
    let start = sign_end(bytes, 0);
    let negative = byte_at(bytes, 0) == b'-';
    if begins_word(byte_at(bytes, start)) {
        return Some(scan_word(&bytes[start..], start, negative));
    }
    if begins_hexadecimal(bytes, start) {
        return Some(scan_hexadecimal(&bytes[start + 2..], start + 2, negative));
    }
    None
}

/// The longest number text that the bytes begin with.
#[inline(never)]
pub fn scan_number(bytes: &[u8]) -> std::result::Result<NumberText, NumberFault>
    ensures scan { scanned_view result ≡ extended_scan bytes.now }
    ensures within { IfOk result (λ text. text.end ≤ length bytes.now) }
    ensures near { IfErr result (λ fault. fault.offset ≤ length bytes.now) }
{
    if let Some(other) = scan_other(bytes) {
        return other;
    }
    scan_decimal(bytes)
}
