//! Lines and columns of offsets, and the byte to show of an error.
ghost use Rattle.std.specs.Prelude.{◌≡◌, ◌≤◌, length, not};
ghost use Rattle.std.specs.List.{count_by, suffix_len};
ghost use Rattle.jsonb_core.specs.Error.CodeView.{code_of};
ghost use Rattle.jsonb_spec.specs.Line.{bytes_past, column_at, fault_index, is_line_feed, line_at};

use jsonb_core::error::ParseErrorCode;
use memchr::{memchr_iter, memrchr};

/// The line and the column of an offset, in bytes from the text's start. Lines are counted from 1, and each line feed
/// ends one. Columns are counted from 1 too, in bytes. An offset past the end counts as the end.
///
/// The time is linear in the offset, and nothing is allocated.
///
/// ```
/// assert_eq!(rt; jsonb::line::line_and_column(b"[1,\n x]", 5), (2, 2));
/// ```
pub fn line_and_column(text: &[u8], position: usize) -> (usize, usize)
    ensures line { result.0 ≡ line_at text.now position }
    ensures column { result.1 ≡ column_at text.now position }
{
    let before = &text[..position.min(text.len())];
    (line_feeds(before) + 1, last_line_len(before) + 1)
}

/// The offset of the byte to show of an error of this text, from the code and the number of its `Error::Syntax`: the
/// wrong byte, or the last byte of the faulty number, string, key or escape. It is the text's length where the text
/// ends too early.
///
/// ```
/// let text = b"[1,\n x]";
/// if let Err(Error::Syntax(code, position)) = jsonb::parse_value_standard_mode(rt.alloc(), text) {
///     let offset = jsonb::line::fault_index(text, &code, position);
///     assert_eq!(rt; jsonb::line::line_and_column(text, offset), (2, 2));
/// }
/// ```
pub fn fault_index(text: &[u8], code: &ParseErrorCode, position: usize) -> usize
    ensures index { result ≡ fault_index text.now (code_of code.now) position }
{
    position.saturating_sub(bytes_past(code)).min(text.len())
}

// How many bytes the position of a code is past the index of the byte to show.
fn bytes_past(code: &ParseErrorCode) -> usize
    ensures { result ≡ bytes_past (code_of code.now) }
{
    match code {
        ParseErrorCode::ExpectedSomeValue
        | ParseErrorCode::ExpectedSomeIdent
        | ParseErrorCode::UnexpectedTrailingCharacters
        | ParseErrorCode::ObjectKeyInvalidNumber
        | ParseErrorCode::DepthLimitExceeded
        | ParseErrorCode::InvalidNumberValue
        | ParseErrorCode::InvalidStringValue
        | ParseErrorCode::ObjectDuplicateKey(_)
        | ParseErrorCode::NumberNotCarried => 1,
        ParseErrorCode::ControlCharacterWhileParsingString
        | ParseErrorCode::InvalidEscaped(_)
        | ParseErrorCode::InvalidHex(_)
        | ParseErrorCode::UnexpectedEndOfHexEscape => 2,
        _ => 0,
    }
}

// How many line feeds there are.
fn line_feeds(bytes: &[u8]) -> usize
    ensures { result ≡ count_by is_line_feed bytes.now }
{
    memchr_iter(b'\n', bytes).count()
}

// How many bytes are behind the last line feed, or in all where there is none.
fn last_line_len(bytes: &[u8]) -> usize
    ensures value { result ≡ suffix_len (λ byte. not (is_line_feed byte)) bytes.now }
    ensures within { result ≤ length bytes.now }
{
    match memrchr(b'\n', bytes) {
        Some(offset) => bytes.len() - offset - 1,
        None => bytes.len(),
    }
}
