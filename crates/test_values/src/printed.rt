// What is printed of errors that no text has, and of intervals.
use crate::extension::interval;
use jsonb_core::error::{Error, ParseErrorCode};
use std::alloc::{AllocError, Global};
use std::fmt::Display;

// Whether this is printed.
fn prints(alloc: Global, shown: &impl Display, text: &str) -> Result<bool, AllocError> {
    Ok(shown.to_string(alloc)?.as_str() == text)
}

#[test]
fn errors_print_their_names(rt: HostRuntime) {
    for (error, text) in [
        (Error::InvalidEOF, "InvalidEOF"),
        (Error::InvalidToken, "InvalidToken"),
        (Error::InvalidCast, "InvalidCast"),
        (Error::InvalidJson, "InvalidJson"),
        (Error::InvalidJsonb, "InvalidJsonb"),
        (Error::InvalidJsonbHeader, "InvalidJsonbHeader"),
        (Error::InvalidJsonbJEntry, "InvalidJsonbJEntry"),
        (Error::InvalidJsonbNumber, "InvalidJsonbNumber"),
        (Error::InvalidJsonbExtension, "InvalidJsonbExtension"),
        (Error::InvalidJsonPath, "InvalidJsonPath"),
        (Error::InvalidJsonPathPredicate, "InvalidJsonPathPredicate"),
        (Error::InvalidKeyPath, "InvalidKeyPath"),
        (Error::InvalidJsonType, "InvalidJsonType"),
        (Error::InvalidObject, "InvalidObject"),
        (Error::ObjectDuplicateKey, "ObjectDuplicateKey"),
    ] {
        assert!(rt; prints(rt.alloc(), &error, text) == Ok(true), "{text}");
    }
}

#[test]
fn codes_print_in_words(rt: HostRuntime) {
    for (code, text) in [
        (
            ParseErrorCode::KeyMustBeAString,
            "key must be a string, pos 16",
        ),
        (
            ParseErrorCode::InvalidLoneLeadingSurrogateInHexEscape(0xD800),
            "lone leading surrogate in hex escape 'D800', pos 16",
        ),
        (
            ParseErrorCode::InvalidSurrogateInHexEscape(0xDC0A),
            "invalid surrogate in hex escape 'DC0A', pos 16",
        ),
    ] {
        let error = Error::Syntax(code, 16);
        assert!(rt; prints(rt.alloc(), &error, text) == Ok(true), "{text}");
    }
}

#[test]
fn intervals_are_printed(rt: HostRuntime) {
    for (value, text) in [
        (
            interval(14, -1, 3661000001),
            "1 year 2 months -1 day 01:01:01.000001",
        ),
        (
            interval(i32::MIN, i32::MIN, i64::MIN),
            "-178956970 years -8 months -2147483648 days -2562047788:00:54.775808",
        ),
        (interval(0, 0, 0), "00:00:00"),
        (interval(1, 1, 0), "1 month 1 day"),
        (interval(0, 0, -1), "-00:00:00.000001"),
        (interval(24, 0, 360000000000), "2 years 100:00:00"),
    ] {
        assert!(rt; prints(rt.alloc(), &value, text) == Ok(true), "{text}");
    }
}
