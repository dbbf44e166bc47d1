//! What is wrong with a text, for those who don't know the parser.

use crate::error::ParseErrorCode;
use std::fmt;

/// A code in words for those who don't know the parser: what a text may have there, and a byte as its character.
#[derive(Clone, Copy)]
pub struct Reason<'a> {
    pub code: &'a ParseErrorCode,
}

impl fmt::Display for Reason<'_> {
    ghost use Rattle.std.specs.Prelude.{Some};
    ghost use Rattle.jsonb_core.specs.Error.CodeView.{code_of};
    ghost use Rattle.jsonb_spec.specs.Code.Message.{reason_text};

    ghost output = { λ reason. Some (reason_text (code_of reason.code.now)) };

    fn fmt<W: fmt::Write>(&self, f: &mut fmt::Formatter<W>) -> fmt::Result {
        match self.code {
            ParseErrorCode::ExpectedSomeIdent => {
                f.write_str("expected a name in quotes, or `true`, `false` or `null`")
            }
            ParseErrorCode::InvalidEscaped(byte) => {
                let shown = ShownByte { byte: *byte };
                write!(f, "invalid escape: {shown} after a backslash")
            }
            ParseErrorCode::InvalidHex(byte) => {
                let shown = ShownByte { byte: *byte };
                write!(f, "invalid escape: {shown} is no hexadecimal digit")
            }
            ParseErrorCode::ObjectKeyInvalidCharacter => f.write_str(
                "expected the name of a member",
            ),
            code => write!(f, "{code}"),
        }
    }
}

// A byte as its character where that is printable, and else as its digits.
#[derive(Clone, Copy)]
struct ShownByte {
    byte: u8,
}

impl fmt::Display for ShownByte {
    ghost use Rattle.std.specs.Prelude.{Some};
    ghost use Rattle.jsonb_spec.specs.Code.Message.{shown_byte};

    ghost output = { λ shown. Some (shown_byte shown.byte) };

    fn fmt<W: fmt::Write>(&self, f: &mut fmt::Formatter<W>) -> fmt::Result {
        let byte = self.byte;
        if byte < b' ' || byte > b'~' {
            return write!(f, "byte {byte:X}");
        }
        let letter = char::from(byte);
        write!(f, "`{letter}`")
    }
}
