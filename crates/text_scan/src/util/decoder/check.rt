//! Checks the contents of a string, and decodes nothing.
ghost use Rattle.std.specs.Prelude.{◌≡◌, ◌≢◌, ◌+◌, ◌^◌, ◌≤◌, ◌<◌, ◌∷◌, [], drop, length, slice_index, IfErr, IfOk, MatchBool, OnOk, true};
ghost use Rattle.jsonb_spec.specs.Ascii as ascii;
ghost use Rattle.jsonb_spec.specs.Mode.{Mode as GrammarMode, GoesBeyondJson};
ghost use Rattle.jsonb_core.specs.Error.CodeView.{code_of};
ghost use Rattle.text_scan.specs.Answer.{mode_of};
ghost use Rattle.jsonb_spec.specs.Parsing.Decoding.{IsDecodedUpTo, SeesNoBackslash, StopsAtEscape, ReportsBackslash};
ghost use Rattle.text_scan.specs.QuotedString.{ChecksContents};
ghost use Rattle.jsonb_spec.specs.Parsing.Contents.{decoded_text};
ghost use Rattle.jsonb_spec.specs.Parsing.String.{body_of};

use super::unit::pass_units;
use super::{DecodingFault, escaped_byte};
use crate::parser::Mode;
use jsonb_core::error::{Error, ParseErrorCode, Result};
use memchr::memchr;

// The index of the first backslash, or how many bytes there are.
#[inline(always)]
fn next_backslash(bytes: &[u8]) -> usize
    ensures within { result ≤ length bytes.now }
    ensures before { SeesNoBackslash bytes.now result }
    ensures here { result < length bytes.now → slice_index bytes.now result ≡ ascii.backslash }
{
    memchr(b'\\', bytes).unwrap_or(bytes.len())
}

// Passes the escape whose backslash is before the bytes, and returns what follows.
#[inline(always)]
fn pass_escape(bytes: &[u8], mode: Mode) -> std::result::Result<&[u8], DecodingFault>
    ensures ok { IfOk result (λ rest. IsDecodedUpTo (mode_of mode) (ascii.backslash ∷ bytes.now) rest.now) }
    ensures shorter { IfOk result (λ rest. length rest.now ≤ length bytes.now) }
    ensures err { IfErr result (λ fault. StopsAtEscape (mode_of mode) (ascii.backslash ∷ bytes.now) (code_of fault.code)
        fault.left) }
{
    let Some((letter, rest)) = bytes.split_first() else {
        return Err(DecodingFault {
            code: ParseErrorCode::UnexpectedEndOfHexEscape,
            left: 0,
        });
    };
    if *letter == b'u' {
        return pass_units(rest);
    }
    let Some(_) = escaped_byte(*letter, mode) else {
        return Err(DecodingFault {
            code: ParseErrorCode::InvalidEscaped(*letter),
            left: rest.len(),
        });
    };
    Ok(rest)
}

// Whether the whole body is items.
fn check(bytes: &[u8], mode: Mode) -> std::result::Result<(), DecodingFault>
    ensures ok { OnOk result (IsDecodedUpTo (mode_of mode) bytes.now []) }
    ensures err { IfErr result (λ fault. StopsAtEscape (mode_of mode) bytes.now (code_of fault.code) fault.left) }
{
    let mut rest = bytes;
    'escapes: loop {
        let found = &rest[next_backslash(rest)..];
        let Some((_, after)) = found.split_first() else {
            return Ok(());
        };
        rest = pass_escape(after, mode)?;
    }
}

/// Checks the contents of a string that have a backslash, and decodes nothing. They are UTF-8, and so is what they
/// mean. `idx` is the index after the opening quote and one more, from which an error counts.
///
/// # Errors
///
/// `Syntax` with the code and the offset that decoding the contents fails with.
pub fn check_contents(body: &str, mode: Mode, idx: usize) -> Result<()>
    requires escaped { ReportsBackslash body.now (length body.now) true }
    requires space { idx + length body.now < 2 ^ 64 }
    ensures { ChecksContents idx result (decoded_text (mode_of mode) body.now) (body_of (mode_of mode) body.now) }
{
    let bytes = body.as_bytes();
    match check(bytes, mode) {
        Ok(()) => Ok(()),
        Err(fault) => {
            let passed = bytes.len() - fault.left;
            Err(Error::Syntax(fault.code, idx + passed))
        }
    }
}
