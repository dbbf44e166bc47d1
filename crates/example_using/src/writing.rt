//! Writing a value's text.

ghost use Rattle.std.specs.Prelude.{◌≡◌, Some, IfOk, OnErr};
ghost use Rattle.jsonb_spec.specs.Grammar.{IsDocument};
ghost use Rattle.jsonb_spec.specs.Mode.{extended};
ghost use Rattle.jsonb_spec.specs.Text.{text_of};
ghost use Rattle.jsonb_spec.specs.Tree.{Tree};
ghost use Rattle.jsonb_spec.specs.Indented.{indented_text};

use jsonb::{Error, Grammar, Result, Value};
use std::alloc::Global;
use text_pretty::write_text_indented;

/// The text without whitespace and comments, its members in the order of their keys.
pub fn tidy(alloc: Global, text: &[u8]) -> Result<Vec<u8>>
    ensures { IfOk result (λ out. (t : Tree) × IsDocument extended text.now t × (text_of t ≡ Some out.items)) }
{
    let mut out = Vec::new(alloc);
    jsonb::append_text(alloc, text, Grammar::Extended, &mut out)?;
    Ok(out)
}

/// Appends the value and a line feed. After an error the buffer holds what it held.
pub fn append_line(value: &Value, out: &mut Vec<u8>) -> Result<()>
    ensures { OnErr result (out.new.items ≡ out.old.items) }
{
    let old_len = out.len();
    value.write_text(out)?;
    if out.push(b'\n').is_err() {
        out.truncate(old_len);
        return Err(Error::OutOfMemory);
    }
    Ok(())
}

/// The text over lines, two spaces further in for each array and object.
pub fn spread(alloc: Global, text: &[u8]) -> Result<Vec<u8>>
    ensures { IfOk result (λ out. (t : Tree) × IsDocument extended text.now t × (out.items ≡ indented_text 2 0 t)) }
{
    let value = jsonb::parse_value(alloc, text)?;
    let mut out = Vec::new(alloc);
    write_text_indented(&value, 2, &mut out)?;
    Ok(out)
}
