//! The calls on one text, in one of four grammars.

ghost use Rattle.std.specs.Prelude.{◌≡◌, ◌≢◌, ◌⊎◌, map, string_bytes, vec_capacity, vec_len, Err, IfOk, IfErr, OnOk, OnErr};
ghost use Rattle.jsonb_spec.specs.Grammar.{IsNoDocument};
ghost use Rattle.jsonb_spec.specs.Indented.{indented_text};
ghost use Rattle.jsonb_spec.specs.Mode.{extended};
ghost use Rattle.jsonb_spec.specs.SortKey.{key_of};
ghost use Rattle.jsonb_spec.specs.Tree.{Tree};
ghost use Rattle.jsonb_spec.specs.Parsing.Memory.{MayAllocate};
ghost use Rattle.vjson_text.specs.Memory.{LacksSpace, LacksSpaceForPart, laid_out};
ghost use Rattle.jsonb_spec.specs.Program.Raw.{LacksSpaceForRaw, AppendsRaw};
ghost use Rattle.vjson_text.specs.Texts.{AppendsDifferences, AppendsKeyOf, AppendsPartOf, AppendsTextOf, IsTextOf, Rejects};
ghost use Rattle.vjson_text.specs.declared.reader.Layout.TheVariants.{Indent};

use crate::difference::append_lines;
use crate::fault::{Fault, fault_of};
use jsonb::{Grammar, Value};
use std::alloc::Global;

/// How a text is laid out.
#[derive(Clone, Copy, PartialEq, Eq, Debug)]
pub enum Layout {
    /// On one line.
    Compact,
    /// Over lines, with so many spaces a level.
    Indent(usize),
}

/// Whether it is a text of the grammar.
///
/// # Errors
///
/// `At` with a position where the text isn't one, and `NoMemory`, which says nothing of the text.
pub fn check(alloc: Global, grammar: Grammar, text: &[u8]) -> Result<(), Fault>
    ensures ok { OnOk result ((t : Tree) × IsTextOf grammar text.now t) }
    ensures rejected { Rejects grammar text.now result }
    ensures memory { result ≡ Err Fault.NoMemory → MayAllocate text.now }
{
    match jsonb::check(alloc, text, grammar) {
        Ok(()) => Ok(()),
        Err(error) => Err(fault_of(text, error)),
    }
}

/// Appends the serialized form of a text's value, on one line or over lines.
///
/// # Errors
///
/// As of [`check`]. Then `out` holds what it held.
pub fn append(
    alloc: Global,
    grammar: Grammar,
    layout: Layout,
    text: &[u8],
    out: &mut Vec<u8>,
) -> Result<(), Fault>
    ensures ok { OnOk result (AppendsTextOf grammar layout text.now out.old.items out.new.items) }
    ensures err { OnErr result (out.new.items ≡ out.old.items) }
    ensures rejected { Rejects grammar text.now result }
    ensures memory { result ≡ Err Fault.NoMemory → MayAllocate text.now
        ⊎ LacksSpace grammar (laid_out layout) text.now (vec_capacity out.old) (vec_len out.old) }
{
    match layout {
        Layout::Compact => match jsonb::append_text(alloc, text, grammar, out) {
            Ok(()) => Ok(()),
            Err(error) => Err(fault_of(text, error)),
        },
        Layout::Indent(width) => append_indented(alloc, grammar, width, text, out),
    }
}

// The same over lines. A value that was read has a text, so only memory can be missing for it.
fn append_indented(
    alloc: Global,
    grammar: Grammar,
    width: usize,
    text: &[u8],
    out: &mut Vec<u8>,
) -> Result<(), Fault>
    ensures ok { OnOk result (AppendsTextOf grammar (Indent width) text.now out.old.items out.new.items) }
    ensures err { OnErr result (out.new.items ≡ out.old.items) }
    ensures rejected { Rejects grammar text.now result }
    ensures memory { result ≡ Err Fault.NoMemory → MayAllocate text.now
        ⊎ LacksSpace grammar (indented_text width 0) text.now (vec_capacity out.old) (vec_len out.old) }
{
    let value = match jsonb::parse_value_in(alloc, text, grammar) {
        Ok(value) => value,
        Err(error) => return Err(fault_of(text, error)),
    };
    match text_pretty::write_text_indented(&value, width, out) {
        Ok(()) => Ok(()),
        Err(_) => Err(Fault::NoMemory),
    }
}

/// Appends the sort key of a text's value.
///
/// # Errors
///
/// As of [`check`]. Then `out` holds what it held.
pub fn append_key(
    alloc: Global,
    grammar: Grammar,
    text: &[u8],
    out: &mut Vec<u8>,
) -> Result<(), Fault>
    ensures ok { OnOk result (AppendsKeyOf grammar text.now out.old.items out.new.items) }
    ensures err { OnErr result (out.new.items ≡ out.old.items) }
    ensures rejected { Rejects grammar text.now result }
    ensures memory { result ≡ Err Fault.NoMemory → MayAllocate text.now
        ⊎ LacksSpace grammar key_of text.now (vec_capacity out.old) (vec_len out.old) }
{
    match jsonb::append_sort_key(alloc, text, grammar, out) {
        Ok(()) => Ok(()),
        Err(error) => Err(fault_of(text, error)),
    }
}

/// Appends the serialized form of a part of a text's value. False where there is no such part.
///
/// # Errors
///
/// As of [`check`]. Then `out` holds what it held.
pub fn append_part(
    alloc: Global,
    grammar: Grammar,
    path: &[String],
    text: &[u8],
    out: &mut Vec<u8>,
) -> Result<bool, Fault>
    ensures ok { IfOk result (AppendsPartOf grammar (map string_bytes path.now) text.now out.old.items out.new.items) }
    ensures err { OnErr result (out.new.items ≡ out.old.items) }
    ensures rejected { Rejects grammar text.now result }
    ensures memory { result ≡ Err Fault.NoMemory → MayAllocate text.now
        ⊎ LacksSpaceForPart grammar (map string_bytes path.now) text.now (vec_capacity out.old) (vec_len out.old) }
{
    match jsonb::append_part(alloc, text, grammar, path, out) {
        Ok(found) => Ok(found),
        Err(error) => Err(fault_of(text, error)),
    }
}

/// Appends the characters of a string, of which this is the serialized form, and what has no quotes as it is.
///
/// # Errors
///
/// Where memory runs out, or the text has quotes and is no document.
pub fn append_raw(alloc: Global, text: &[u8], out: &mut Vec<u8>) -> Result<(), Fault>
    ensures ok { OnOk result (AppendsRaw text.now out.old.items out.new.items) }
    ensures memory { IfErr result (λ f. f ≡ Fault.NoMemory) }
    ensures lacks { OnErr result (MayAllocate text.now ⊎ (IsNoDocument extended text.now
        ⊎ LacksSpaceForRaw text.now (vec_capacity out.old) (vec_len out.old))) }
{
    if text.first() != Some(&b'"') {
        out.extend_from_slice(text)?;
        return Ok(());
    }
    let Ok(value) = jsonb::parse_value(alloc, text) else {
        return Err(Fault::NoMemory);
    };
    match &value {
        Value::String(characters) => out.extend_from_slice(characters.as_bytes())?,
        _ => out.extend_from_slice(text)?,
    }
    Ok(())
}

/// Appends the lines on where the values of two texts differ, a line for each part that differs or that only one of
/// them has: its pointer (RFC 6901), and behind a tab each what the first and the second text have there, of which one
/// may be absent. Returns whether the values are equal, in which case nothing is appended.
///
/// # Errors
///
/// `At` where the second text isn't one of the grammar, and `NoMemory`, also where the first one isn't. Then `out` may
/// hold a part of the lines.
pub fn append_differences(
    alloc: Global,
    grammar: Grammar,
    one: &[u8],
    other: &[u8],
    out: &mut Vec<u8>,
) -> Result<bool, Fault>
    ensures ok { IfOk result (λ equal. AppendsDifferences grammar one.now other.now out.old.items out.new.items equal) }
    ensures err { IfErr result (λ f. f ≢ Fault.NoMemory → out.new.items ≡ out.old.items) }
    ensures rejected { Rejects grammar other.now result }
    ensures memory { result ≡ Err Fault.NoMemory → MayAllocate other.now ⊎ ((t : Tree) × IsTextOf grammar other.now t) }
{
    let other = match jsonb::parse_value_in(alloc, other, grammar) {
        Ok(value) => value,
        Err(error) => return Err(fault_of(other, error)),
    };
    let Ok(one) = jsonb::parse_value_in(alloc, one, grammar) else {
        return Err(Fault::NoMemory);
    };
    append_lines(alloc, &one, &other, out)?;
    Ok(one == other)
}
