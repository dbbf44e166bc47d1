//! Decodes the contents of a string, escape by escape and run by run.
ghost use Rattle.std.specs.Prelude.{◌≡◌, ◌≢◌, ◌+◌, ◌*◌, ◌^◌, ◌≤◌, ◌<◌, ◌∷◌, ◌++◌, [], length, take, min, IfOk, IfErr, IfSome, IfNone, OnErr, OnOk, Some, None, Err, string_bytes};
ghost use Rattle.jsonb_spec.specs.Ascii as ascii;
ghost use Rattle.jsonb_spec.specs.Mode.{standard, strictness};
ghost use Rattle.jsonb_core.specs.Error.CodeView.{code_of};
ghost use Rattle.jsonb_spec.specs.Grammar.StringBody.{escaped_byte, Decodes};
ghost use Rattle.text_scan.specs.Answer.{mode_of};
ghost use Rattle.text_scan.specs.StringError.{IsDecodingError};
ghost use Rattle.jsonb_spec.specs.Parsing.Decoding.{Adds, AreContents, StopsAtEscape};
ghost use Rattle.jsonb_spec.specs.Parsing.Contents.{decoded_text};

mod check;
mod run;
mod space;
mod strict;
mod unit;

use crate::parser::Mode;
pub use check::check_contents;
use jsonb_core::error::{Error, ParseErrorCode, Result};
use run::copy_run;
pub use run::{near_backslash, write_sixteen};
use space::{give_back, write_byte};
use std::alloc::Global;
pub use strict::check_strict;
pub(crate) use unit::digit;
pub use unit::units_len;
use unit::{decode_alone, units};

// What prevents bytes from being decoded, and how many of them are left then.
#[derive(Drop)]
struct DecodingFault {
    code: ParseErrorCode,
    left: usize,
}

// The bytes that are left to decode, and how many of the text are decoded.
#[derive(Clone, Copy)]
struct Decoded<'a> {
    rest: &'a [u8],
    len: usize,
}

// The byte that a backslash and this letter mean.
#[inline(always)]
fn escaped_byte(letter: u8, mode: Mode) -> Option<u8>
    ensures { result ≡ escaped_byte (strictness (mode_of mode)) letter }
{
    match letter {
        b'"' | b'\\' | b'/' => Some(letter),
        b'b' => Some(b'\x08'),
        b'f' => Some(b'\x0C'),
        b'n' => Some(b'\n'),
        b'r' => Some(b'\r'),
        b't' => Some(b'\t'),
        b'\'' => match mode {
            Mode::Standard => None,
            Mode::Extended => Some(letter),
        },
        _ => None,
    }
}

// Decodes the escape whose backslash is before the bytes.
#[inline(always)]
fn escape<'a>(
    bytes: &'a [u8],
    mode: Mode,
    text: &mut [u8],
    len: usize,
) -> std::result::Result<Decoded<'a>, DecodingFault>
    requires { len + min (1 + length bytes.now) 12 ≤ length text.old }
    ensures ok { IfOk result (λ done. Adds (mode_of mode)
        (ascii.backslash ∷ bytes.now) done.rest.now (take len text.old) (take done.len text.new)) }
    ensures shorter { IfOk result (λ done. length done.rest.now ≤ length bytes.now) }
    ensures space { IfOk result (λ done. done.len + length done.rest.now ≤ len + 1 + length bytes.now) }
    ensures within { IfOk result (λ done. done.len ≤ length text.new) }
    ensures err { IfErr result (λ fault. StopsAtEscape (mode_of mode) (ascii.backslash ∷ bytes.now) (code_of fault.code)
        fault.left) }
    ensures same { OnErr result (text.new ≡ text.old) }
    ensures size { length text.new ≡ length text.old }
{
    let Some((letter, rest)) = bytes.split_first() else {
        return Err(DecodingFault {
            code: ParseErrorCode::UnexpectedEndOfHexEscape,
            left: 0,
        });
    };
    if *letter == b'u' {
        return units(rest, text, len);
    }
    let Some(byte) = escaped_byte(*letter, mode) else {
        return Err(DecodingFault {
            code: ParseErrorCode::InvalidEscaped(*letter),
            left: rest.len(),
        });
    };
    let len = write_byte(text, len, byte);
    Ok(Decoded { rest, len })
}

// Decodes a whole body into a text that has space for its length behind the bytes that are decoded, and returns how
// many are decoded then.
#[inline(always)]
fn decode(
    bytes: &[u8],
    mode: Mode,
    text: &mut [u8],
    len: usize,
) -> std::result::Result<usize, DecodingFault>
    requires { len + length bytes.now ≤ length text.old }
    ensures ok { IfOk result (λ end. Adds (mode_of mode) bytes.now [] (take len text.old) (take end text.new)) }
    ensures within { IfOk result (λ end. end ≤ length text.new) }
    ensures err { IfErr result (λ fault. StopsAtEscape (mode_of mode) bytes.now (code_of fault.code) fault.left) }
    ensures retained { take len text.new ≡ take len text.old }
    ensures size { length text.new ≡ length text.old }
{
    let mut done = Decoded { rest: bytes, len };
    'items: while !done.rest.is_empty() {
        done = decode_alone(done.rest, text, done.len);
        done = copy_run(done.rest, text, done.len);
        if let Some((_, rest)) = done.rest.split_first() {
            done = escape(rest, mode, text, done.len)?;
        }
    }
    Ok(done.len)
}

/// Decodes the contents of a string into a text that has space for their length behind its first `len` bytes, and
/// returns how many bytes it has then. There is none where the contents are malformed.
pub fn decode_behind(bytes: &[u8], mode: Mode, text: &mut [u8], len: usize) -> Option<usize>
    requires { len + length bytes.now ≤ length text.old }
    ensures some { IfSome result (λ end. take end text.new ≡ take len text.old ++ decoded_text
        (mode_of mode) bytes.now) }
    ensures none { IfNone result (¬ (AreContents (mode_of mode) bytes.now)) }
    ensures within { IfSome result (λ end. end ≤ length text.new) }
    ensures retained { take len text.new ≡ take len text.old }
    ensures size { length text.new ≡ length text.old }
{
    let Ok(end) = decode(bytes, mode, text, len) else {
        return None;
    };
    Some(end)
}

/// Decodes the contents of a string of this mode, and moves the offset past what was decoded.
pub(crate) fn unescape(alloc: Global, bytes: &[u8], mode: Mode, idx: &mut usize) -> Result<String>
    requires { idx.old + length bytes.now < 2 ^ 64 }
    ensures ok { IfOk result (λ text. Decodes (mode_of mode) bytes.now (string_bytes text)) }
    ensures end { OnOk result (idx.new ≡ idx.old + length bytes.now) }
    ensures err { IfErr result (IsDecodingError (mode_of mode) bytes.now idx.old idx.new) }
    ensures memory { result ≡ Err Error.OutOfMemory → bytes.now ≢ [] }
{
    // The text is never longer than the bytes, so no other growth is asked for. It begins as a copy of them, so that it
    // is written by index.
    let Ok(mut text) = Vec::with_capacity(alloc, bytes.len()) else {
        return Err(Error::OutOfMemory);
    };
    let _ = text.extend_from_slice(bytes);
    match decode(bytes, mode, &mut text, 0) {
        Ok(len) => text.truncate(len),
        Err(fault) => {
            *idx += bytes.len() - fault.left;
            return Err(Error::Syntax(fault.code, *idx));
        }
    }
    *idx += bytes.len();
    give_back(&mut text);
    match String::from_utf8(text) {
        Ok(text) => Ok(text),
        Err(_) => Err(Error::Syntax(ParseErrorCode::InvalidStringValue, *idx)),
    }
}

/// Decodes the contents of a JSON string: the bytes between its quotes. An escape is one of `\"`, `\\`, `\/`, `\b`,
/// `\f`, `\n`, `\r`, `\t`, `\u` and four hexadecimal digits, or the same with the digits in braces; a high surrogate
/// and the low one right after it are one character, and a lone surrogate is held verbatim. Every other byte means
/// itself. No result depends on `len`: the capacity is the length of `data`, which is always enough.
///
/// `idx` is moved by the length of `data` on success, and past the fault on an error, whose offset is the new `idx`.
///
/// The time is linear in `data`.
///
/// ```
/// let mut idx = 0;
/// let text = jsonb::util::parse_string(rt.alloc(), b"caf\\u00e9", 9, &mut idx)?;
/// assert_eq!(rt; text.as_str(), "caf\u{e9}");
/// ```
///
/// # Errors
///
/// `Syntax` with `InvalidEscaped`, `InvalidHex` or `UnexpectedEndOfHexEscape` for an escape that is none of these, and
/// with `InvalidStringValue` where the decoded bytes are not UTF-8; `OutOfMemory`.
pub fn parse_string(alloc: Global, data: &[u8], len: usize, idx: &mut usize) -> Result<String>
    requires { idx.old + length «data».now < 2 ^ 64 }
    ensures ok { IfOk result (λ text. Decodes standard «data».now (string_bytes text)) }
    ensures end { OnOk result (idx.new ≡ idx.old + length «data».now) }
    ensures err { IfErr result (IsDecodingError standard «data».now idx.old idx.new) }
    ensures memory { result ≡ Err Error.OutOfMemory → «data».now ≢ [] }
{
    let _ = len;
    unescape(alloc, data, Mode::Standard, idx)
}
