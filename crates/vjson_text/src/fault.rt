//! What is wrong with a text, and where.

ghost use Rattle.std.specs.Prelude.{◌≡◌, ◌≢◌, ◌↔◌};

use jsonb::error::Reason;
use jsonb::{Error, ParseErrorCode, fault_index};
use std::alloc::{AllocError, AllocFailed};
use std::fmt;

/// What is wrong with a text. It takes no memory to say so.
#[derive(Debug, Drop)]
pub enum Message {
    /// What the parser says by this code.
    Code(ParseErrorCode),
    /// A number is well formed, and out of range.
    OutOfRange,
    NotUtf8,
    NoDocument,
    /// Behind a text on a line of its own is something, which may be the text of the next line.
    Trailing,
}

impl fmt::Display for Message {
    fn fmt<W: fmt::Write>(&self, f: &mut fmt::Formatter<W>) -> fmt::Result {
        match self {
            Message::Code(code) => {
                let reason = Reason { code };
                write!(f, "{reason}")
            }
            Message::OutOfRange => f.write_str(
                "number out of range (38 digits, written out; with --standard, 64-bit integers)",
            ),
            Message::NotUtf8 => f.write_str("not UTF-8"),
            Message::NoDocument => f.write_str("not a document"),
            Message::Trailing => f.write_str("trailing characters (one text a line? --lines)"),
        }
    }
}

/// Why a text is rejected.
#[derive(Debug, Drop)]
pub enum Fault {
    /// The offset of the byte to show, and what is wrong.
    At(usize, Message),
    /// Memory ran out.
    NoMemory,
}

impl From<AllocError> for Fault {
    ghost use Rattle.std.specs.Prelude.{◌≡◌};
    ghost use Rattle.vjson_text.specs.declared.fault.Fault.TheVariants.{NoMemory};

    ghost from_gives = { λ _ f. f ≡ NoMemory };

    fn from(_: AllocError) -> Fault {
        Fault::NoMemory
    }
}

impl<T: Drop> From<AllocFailed<T>> for Fault {
    ghost use Rattle.std.specs.Prelude.{◌≡◌};
    ghost use Rattle.vjson_text.specs.declared.fault.Fault.TheVariants.{NoMemory};

    ghost from_gives = { λ _ f. f ≡ NoMemory };

    fn from(_: AllocFailed<T>) -> Fault {
        Fault::NoMemory
    }
}

// The offset at which the text stops to be UTF-8, or 0.
fn utf8_fault(text: &[u8]) -> usize {
    match str::from_utf8(text) {
        Ok(_) => 0,
        Err(error) => error.valid_up_to(),
    }
}

// The fault of a code with its number, of this text.
fn syntax_fault(text: &[u8], code: ParseErrorCode, position: usize) -> Fault
    ensures { result ≢ Fault.NoMemory }
{
    let offset = fault_index(text, &code, position);
    match code {
        ParseErrorCode::InvalidStringValue if str::from_utf8(text).is_err() => {
            Fault::At(utf8_fault(text), Message::NotUtf8)
        }
        ParseErrorCode::NumberNotCarried => Fault::At(offset, Message::OutOfRange),
        _ => Fault::At(offset, Message::Code(code)),
    }
}

/// The fault that an error of this text is.
pub fn fault_of(text: &[u8], error: Error) -> Fault
    ensures memory { (result ≡ Fault.NoMemory) ↔ (error ≡ Error.OutOfMemory) }
{
    match error {
        Error::OutOfMemory => Fault::NoMemory,
        Error::Syntax(code, position) => syntax_fault(text, code, position),
        Error::InvalidUtf8 => Fault::At(utf8_fault(text), Message::NotUtf8),
        _ => Fault::At(0, Message::NoDocument),
    }
}
