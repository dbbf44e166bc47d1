//! `clone` of errors. Its only error is an allocation failure.
ghost use Rattle.std.specs.Prelude.{◌≡◌};
ghost use Rattle.jsonb_core.specs.Error.CodeView.{code_of};
ghost use Rattle.jsonb_spec.specs.Code.{NamesNoKey};
ghost use Rattle.jsonb_core.specs.Error.ErrorView.{error_view};
ghost use Rattle.jsonb_spec.specs.ErrorView.{HoldsNoText};

use super::{Error, ParseErrorCode};
use std::alloc::AllocError;

impl Clone for ParseErrorCode {
    ghost is_clone = { λ code copied. code_of copied ≡ code_of code };

    ghost is_infallible = { λ code. NamesNoKey (code_of code) };

    fn clone(&self) -> Result<ParseErrorCode, AllocError> {
        use ParseErrorCode::*;
        Ok(match self {
            InvalidEOF => InvalidEOF,
            InvalidNumberValue => InvalidNumberValue,
            InvalidStringValue => InvalidStringValue,
            ExpectedSomeIdent => ExpectedSomeIdent,
            ExpectedSomeValue => ExpectedSomeValue,
            ExpectedColon => ExpectedColon,
            ExpectedArrayCommaOrEnd => ExpectedArrayCommaOrEnd,
            ExpectedObjectCommaOrEnd => ExpectedObjectCommaOrEnd,
            UnexpectedTrailingCharacters => UnexpectedTrailingCharacters,
            KeyMustBeAString => KeyMustBeAString,
            ControlCharacterWhileParsingString => ControlCharacterWhileParsingString,
            InvalidEscaped(byte) => InvalidEscaped(*byte),
            InvalidHex(byte) => InvalidHex(*byte),
            InvalidLoneLeadingSurrogateInHexEscape(unit) => {
                InvalidLoneLeadingSurrogateInHexEscape(*unit)
            }
            InvalidSurrogateInHexEscape(unit) => InvalidSurrogateInHexEscape(*unit),
            UnexpectedEndOfHexEscape => UnexpectedEndOfHexEscape,
            ObjectDuplicateKey(key) => ObjectDuplicateKey(key.clone()?),
            ObjectKeyInvalidNumber => ObjectKeyInvalidNumber,
            ObjectKeyInvalidCharacter => ObjectKeyInvalidCharacter,
            NumberNotCarried => NumberNotCarried,
            DepthLimitExceeded => DepthLimitExceeded,
        })
    }
}

impl Clone for Error {
    ghost is_clone = { λ error copied. error_view copied ≡ error_view error };

    ghost is_infallible = { λ error. HoldsNoText (error_view error) };

    fn clone(&self) -> Result<Error, AllocError> {
        use Error::*;
        match self {
            InvalidUtf8 => Ok(InvalidUtf8),
            InvalidEOF => Ok(InvalidEOF),
            InvalidToken => Ok(InvalidToken),
            InvalidCast => Ok(InvalidCast),
            InvalidJson => Ok(InvalidJson),
            InvalidJsonb => Ok(InvalidJsonb),
            InvalidJsonbHeader => Ok(InvalidJsonbHeader),
            InvalidJsonbJEntry => Ok(InvalidJsonbJEntry),
            InvalidJsonbNumber => Ok(InvalidJsonbNumber),
            InvalidJsonbExtension => Ok(InvalidJsonbExtension),
            InvalidJsonPath => Ok(InvalidJsonPath),
            InvalidJsonPathPredicate => Ok(InvalidJsonPathPredicate),
            InvalidKeyPath => Ok(InvalidKeyPath),
            InvalidJsonType => Ok(InvalidJsonType),
            InvalidObject => Ok(InvalidObject),
            ObjectDuplicateKey => Ok(ObjectDuplicateKey),
            UnexpectedType => Ok(UnexpectedType),
            Message(text) => Ok(Message(text.clone()?)),
            Syntax(code, position) => Ok(Syntax(code.clone()?, *position)),
            OutOfMemory => Ok(OutOfMemory),
        }
    }
}
