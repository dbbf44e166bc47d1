//! Parsing a text, and reporting why it is rejected.

ghost use Rattle.std.specs.Prelude.{◌≡◌, ◌≢◌, false, true, IfOk, IfErr};
ghost use Rattle.jsonb_spec.specs.Grammar.{IsDocument, IsNoDocument};
ghost use Rattle.jsonb_spec.specs.Mode.{standard};
ghost use Rattle.text_scan.specs.Answer.{mode_of};
ghost use Rattle.jsonb_spec.specs.Tree.{Tree};
ghost use Rattle.jsonb_value.specs.View.{view};

use jsonb::{Error, Mode, ParseErrorCode, Result, Value};
use std::alloc::Global;

/// The value of a text, in the mode that the caller chooses.
pub fn read(alloc: Global, mode: Mode, text: &[u8]) -> Result<Value<'_>>
    ensures document { IfOk result (λ v. IsDocument (mode_of mode) text.now (view v)) }
    ensures only { IfOk result (λ v. (t : Tree) → IsDocument (mode_of mode) text.now t → t ≡ view v) }
    ensures rejected { IfErr result (λ e. e ≢ Error.OutOfMemory → IsNoDocument (mode_of mode) text.now) }
{
    match mode {
        Mode::Standard => jsonb::parse_value_standard_mode(alloc, text),
        Mode::Extended => jsonb::parse_value(alloc, text),
    }
}

/// Whether the text is standard JSON. The only error is that memory runs out.
pub fn is_standard(alloc: Global, text: &[u8]) -> Result<bool>
    ensures yes { IfOk result (λ b. b ≡ true → (t : Tree) × IsDocument standard text.now t) }
    ensures no { IfOk result (λ b. b ≡ false → IsNoDocument standard text.now) }
{
    match jsonb::parse_value_standard_mode(alloc, text) {
        Ok(_) => Ok(true),
        Err(Error::Syntax(_, _)) => Ok(false),
        Err(error) => Err(error),
    }
}

/// What a user reads of an error.
pub fn describe_error(alloc: Global, error: &Error) -> Result<String> {
    let text = match error {
        Error::OutOfMemory => String::from_str(alloc, "out of memory")?,
        Error::Syntax(ParseErrorCode::NumberNotCarried, end) => {
            format!(in alloc; "the number that ends before byte {end} is not representable")?
        }
        Error::Syntax(ParseErrorCode::ObjectDuplicateKey(key), _) => {
            format!(in alloc; "the key {key} is repeated in one object")?
        }
        other => format!(in alloc; "{other}")?,
    };
    Ok(text)
}

/// The line and the column of the byte to show of an error of the text.
pub fn line_and_column_of(text: &[u8], code: &ParseErrorCode, pos: usize) -> (usize, usize) {
    jsonb::line_and_column(text, jsonb::fault_index(text, code, pos))
}
