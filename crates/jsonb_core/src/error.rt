//! Why a call failed.

ghost use Rattle.std.specs.Prelude.{◌≡◌, ◌↔◌, IsTrue};
ghost use Rattle.jsonb_core.specs.Error.CodeView.{code_of};
ghost use Rattle.jsonb_core.specs.Error.ErrorView.{error_view};

mod clone;
mod reason;

pub use reason::Reason;
use std::alloc::{AllocError, AllocFailed};
use std::hash::Hash;
use std::str::Utf8Error;
use std::{fmt, io};

/// The result of a call that can fail.
pub type Result<T> = std::result::Result<T, Error>;

/// What is wrong with a text.
#[derive(Debug, PartialEq, Eq, Hash, Drop)]
pub enum ParseErrorCode {
    InvalidEOF,
    InvalidNumberValue,
    InvalidStringValue,
    ExpectedSomeIdent,
    ExpectedSomeValue,
    ExpectedColon,
    ExpectedArrayCommaOrEnd,
    ExpectedObjectCommaOrEnd,
    UnexpectedTrailingCharacters,
    KeyMustBeAString,
    ControlCharacterWhileParsingString,
    InvalidEscaped(u8),
    InvalidHex(u8),
    InvalidLoneLeadingSurrogateInHexEscape(u16),
    InvalidSurrogateInHexEscape(u16),
    UnexpectedEndOfHexEscape,
    ObjectDuplicateKey(String),
    ObjectKeyInvalidNumber,
    ObjectKeyInvalidCharacter,
    NumberNotCarried,
    DepthLimitExceeded,
}

/// Why a call failed.
#[derive(Debug, PartialEq, Eq, Hash, Drop)]
pub enum Error {
    InvalidUtf8,
    InvalidEOF,
    InvalidToken,
    InvalidCast,
    InvalidJson,
    InvalidJsonb,
    InvalidJsonbHeader,
    InvalidJsonbJEntry,
    InvalidJsonbNumber,
    InvalidJsonbExtension,
    InvalidJsonPath,
    InvalidJsonPathPredicate,
    InvalidKeyPath,
    InvalidJsonType,
    InvalidObject,
    ObjectDuplicateKey,
    UnexpectedType,
    Message(String),
    /// What is wrong with a text, and a number of bytes from its start. `ExpectedSomeValue`, `ExpectedSomeIdent`,
    /// `UnexpectedTrailingCharacters`, `ObjectKeyInvalidNumber` and `DepthLimitExceeded` have the offset of a byte plus
    /// 1. `ExpectedColon`, `ExpectedArrayCommaOrEnd`, `ExpectedObjectCommaOrEnd` and `ObjectKeyInvalidCharacter` have
    /// the offset of a byte. `InvalidEscaped`, `InvalidHex` and `UnexpectedEndOfHexEscape` have the offset after the
    /// faulty part, plus 1. The others have the offset after the faulty part, or the one that the parser reached, which
    /// can pass the end of the text. `docs/GRAMMAR.md` has an example of each.
    Syntax(ParseErrorCode, usize),
    OutOfMemory,
}

impl From<AllocError> for Error {
    ghost use Rattle.std.specs.Prelude.{◌≡◌};
    ghost use Rattle.jsonb_core.specs.declared.error.Error.TheVariants.{OutOfMemory};

    ghost from_gives = { λ _ e. e ≡ OutOfMemory };

    fn from(_: AllocError) -> Error {
        Error::OutOfMemory
    }
}

impl<T: Drop> From<AllocFailed<T>> for Error {
    ghost use Rattle.std.specs.Prelude.{◌≡◌};
    ghost use Rattle.jsonb_core.specs.declared.error.Error.TheVariants.{OutOfMemory};

    ghost from_gives = { λ _ e. e ≡ OutOfMemory };

    fn from(_: AllocFailed<T>) -> Error {
        Error::OutOfMemory
    }
}

impl From<io::Error> for Error {
    ghost use Rattle.std.specs.Prelude.{◌≡◌};
    ghost use Rattle.jsonb_core.specs.declared.error.Error.TheVariants.{InvalidUtf8};

    ghost from_gives = { λ _ e. e ≡ InvalidUtf8 };

    fn from(_: io::Error) -> Error {
        Error::InvalidUtf8
    }
}

impl From<Utf8Error> for Error {
    ghost use Rattle.std.specs.Prelude.{◌≡◌};
    ghost use Rattle.jsonb_core.specs.declared.error.Error.TheVariants.{InvalidUtf8};

    ghost from_gives = { λ _ e. e ≡ InvalidUtf8 };

    fn from(_: Utf8Error) -> Error {
        Error::InvalidUtf8
    }
}

impl fmt::Display for ParseErrorCode {
    ghost use Rattle.std.specs.Prelude.{Some};
    ghost use Rattle.jsonb_core.specs.Error.CodeView.{code_of};
    ghost use Rattle.jsonb_spec.specs.Code.Message.{code_text};

    ghost output = { λ code. Some (code_text (code_of code)) };

    fn fmt<W: fmt::Write>(&self, f: &mut fmt::Formatter<W>) -> fmt::Result {
        match self {
            ParseErrorCode::InvalidEOF => f.write_str("EOF while parsing a value"),
            ParseErrorCode::InvalidNumberValue => f.write_str("invalid number"),
            ParseErrorCode::InvalidStringValue => f.write_str("invalid string"),
            ParseErrorCode::ExpectedSomeIdent => f.write_str("expected ident"),
            ParseErrorCode::ExpectedSomeValue => f.write_str("expected value"),
            ParseErrorCode::ExpectedColon => f.write_str("expected `:`"),
            ParseErrorCode::ExpectedArrayCommaOrEnd => f.write_str("expected `,` or `]`"),
            ParseErrorCode::ExpectedObjectCommaOrEnd => f.write_str("expected `,` or `}`"),
            ParseErrorCode::UnexpectedTrailingCharacters => f.write_str("trailing characters"),
            ParseErrorCode::KeyMustBeAString => f.write_str("key must be a string"),
            ParseErrorCode::ControlCharacterWhileParsingString => {
                f.write_str("control character (\\u0000-\\u001F) found while parsing a string")
            }
            ParseErrorCode::InvalidEscaped(byte) => write!(f, "invalid escaped '{byte:X}'"),
            ParseErrorCode::InvalidHex(byte) => write!(f, "invalid hex '{byte:X}'"),
            ParseErrorCode::InvalidLoneLeadingSurrogateInHexEscape(unit) => {
                write!(f, "lone leading surrogate in hex escape '{unit:X}'")
            }
            ParseErrorCode::InvalidSurrogateInHexEscape(unit) => {
                write!(f, "invalid surrogate in hex escape '{unit:X}'")
            }
            ParseErrorCode::UnexpectedEndOfHexEscape => f.write_str("unexpected end of hex escape"),
            ParseErrorCode::ObjectDuplicateKey(key) => {
                write!(f, "duplicate object attribute \"{key}\"")
            }
            ParseErrorCode::ObjectKeyInvalidNumber => {
                f.write_str("object attribute name cannot be a number")
            }
            ParseErrorCode::ObjectKeyInvalidCharacter => {
                f.write_str("object attribute name cannot be invalid character")
            }
            ParseErrorCode::NumberNotCarried => f.write_str("number not carried"),
            ParseErrorCode::DepthLimitExceeded => f.write_str("depth limit exceeded"),
        }
    }
}

impl fmt::Display for Error {
    ghost use Rattle.std.specs.Prelude.{Some};
    ghost use Rattle.jsonb_core.specs.Error.ErrorText.{error_text};

    ghost output = { λ e. Some (error_text e) };

    fn fmt<W: fmt::Write>(&self, f: &mut fmt::Formatter<W>) -> fmt::Result {
        match self {
            Error::InvalidUtf8 => f.write_str("InvalidUtf8"),
            Error::InvalidEOF => f.write_str("InvalidEOF"),
            Error::InvalidToken => f.write_str("InvalidToken"),
            Error::InvalidCast => f.write_str("InvalidCast"),
            Error::InvalidJson => f.write_str("InvalidJson"),
            Error::InvalidJsonb => f.write_str("InvalidJsonb"),
            Error::InvalidJsonbHeader => f.write_str("InvalidJsonbHeader"),
            Error::InvalidJsonbJEntry => f.write_str("InvalidJsonbJEntry"),
            Error::InvalidJsonbNumber => f.write_str("InvalidJsonbNumber"),
            Error::InvalidJsonbExtension => f.write_str("InvalidJsonbExtension"),
            Error::InvalidJsonPath => f.write_str("InvalidJsonPath"),
            Error::InvalidJsonPathPredicate => f.write_str("InvalidJsonPathPredicate"),
            Error::InvalidKeyPath => f.write_str("InvalidKeyPath"),
            Error::InvalidJsonType => f.write_str("InvalidJsonType"),
            Error::InvalidObject => f.write_str("InvalidObject"),
            Error::ObjectDuplicateKey => f.write_str("ObjectDuplicateKey"),
            Error::UnexpectedType => f.write_str("UnexpectedType"),
            Error::Message(message) => f.write_str(message.as_str()),
            Error::Syntax(code, offset) => write!(f, "{code}, pos {offset}"),
            Error::OutOfMemory => f.write_str("OutOfMemory"),
        }
    }
}

impl std::error::Error for Error {}

/// A law: two codes are equal exactly where their variants and parts are, a key by its bytes, and equal ones hash
/// alike.
pub fn codes_compare_by_parts(left: &ParseErrorCode, right: &ParseErrorCode)
    ensures equal { IsTrue (⟦<ParseErrorCode as PartialEq>⟧.eq left.now right.now) ↔
        (code_of left.now ≡ code_of right.now) }
    ensures hash { code_of left.now ≡ code_of right.now →
        ⟦<ParseErrorCode as Hash>⟧.hash_input left.now ≡ ⟦<ParseErrorCode as Hash>⟧.hash_input right.now }
{}

/// A law: two errors are equal exactly where their variants and parts are, a text by its bytes, and equal ones hash
/// alike.
pub fn errors_compare_by_parts(left: &Error, right: &Error)
    ensures equal { IsTrue (⟦<Error as PartialEq>⟧.eq left.now right.now) ↔
        (error_view left.now ≡ error_view right.now) }
    ensures hash { error_view left.now ≡ error_view right.now →
        ⟦<Error as Hash>⟧.hash_input left.now ≡ ⟦<Error as Hash>⟧.hash_input right.now }
{}
