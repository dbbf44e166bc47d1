//! The text of a value over lines: each item and each member on a line of its own, indented by its depth.
#![tactic(auto)]

ghost use Rattle.std.specs.Prelude.{◌≡◌, ◌⊎◌, ◌↔◌, ◌+◌, ◌<◌, ◌≤◌, ◌++◌, ◌∷◌, [], true, length, None, IfOk, IfErr, IsErrOf, OnOk, OnErr, vec_len, string_bytes};
ghost use Rattle.std.specs.Str.{IsUtf8};
ghost use Rattle.std.specs.Vec.{vec_capacity};
ghost use Rattle.jsonb_spec.specs.Ascii as ascii;
ghost use Rattle.jsonb_spec.specs.Mode.{Mode};
ghost use Rattle.jsonb_spec.specs.Proper.{AreProper, IsProper};
ghost use Rattle.jsonb_spec.specs.Text.Appending.{Appends, AppendsIf, comma_before};
ghost use Rattle.jsonb_spec.specs.Text.Range.{IsInRangeOf};
ghost use Rattle.jsonb_spec.specs.Text.StringText.{quoted_text};
ghost use Rattle.jsonb_spec.specs.Text.{has_text, items_have_texts, members_have_texts, tree_text, with_commas, text_of};
ghost use Rattle.jsonb_spec.specs.Tree.{array, object};
ghost use Rattle.jsonb_value.specs.View.{view, trees_view, members_view};
ghost use Rattle.text_pretty.specs.Lines.{AppendsLines};
ghost use Rattle.jsonb_spec.specs.Indented.{new_line, indented_text, item_lines, member_lines, Represents};

use jsonb_core::error::{Error, Result};
use jsonb_value::value::{Object, Value};
use std::alloc::AllocError;

/// Appends the value's text over lines: a line for each item and each member, `indent` spaces more for each array and
/// object around it, and a space after the colon of a member. Empty arrays and objects are `[]` and `{}`, and all else
/// is as `Value::write_text` writes it. There is no line feed at the end. After an error `buf` has the same bytes as
/// before.
///
/// With an `indent` of 2, the value of `{"b":[1,2],"a":{}}` gives
///
/// ```text
/// {
///   "a": {},
///   "b": [
///     1,
///     2
///   ]
/// }
/// ```
///
/// # Errors
///
/// `UnexpectedType` where the value holds a date or a time, at any depth: it has no text then, however little memory
/// there is. `OutOfMemory` only where `buf` lacks the capacity for the whole text.
pub fn write_text_indented(value: &Value<'_>, indent: usize, buf: &mut Vec<u8>) -> Result<()>
    ensures ok { OnOk result (buf.new.items ≡ buf.old.items ++ indented_text indent 0 (view value.now)) }
    ensures err { OnErr result (buf.new.items ≡ buf.old.items) }
    ensures unexpected { IsErrOf result Error.UnexpectedType ↔ (text_of (view value.now) ≡ None) }
    ensures errors { IfErr result (λ e. (e ≡ Error.UnexpectedType) ⊎ (e ≡ Error.OutOfMemory)) }
    // Memory runs out only where the capacity for the whole text is missing.
    ensures full { IsErrOf result Error.OutOfMemory
        → vec_capacity buf.old < vec_len buf.old + length (indented_text indent 0 (view value.now)) }
    ensures capacity { vec_capacity buf.old ≤ vec_capacity buf.new }
    ensures proper { OnOk result (IsProper (view value.now)) }
    // What is written of a value in a mode's range is a document of the mode, of the same value.
    ensures reads_back { OnOk result ((mode : Mode) → IsInRangeOf mode (view value.now)
        → Represents mode (indented_text indent 0 (view value.now)) (view value.now)) }
{
    let old_len = buf.len();
    if append(value, indent, 0, buf).is_ok() {
        return Ok(());
    }
    buf.truncate(old_len);
    Err(text_error(value))
}

// The error of a value that was not appended. Only here is the value walked once more.
#[cold]
#[inline(never)]
fn text_error(value: &Value<'_>) -> Error
    ensures unexpected { (result ≡ Error.UnexpectedType) ↔ (text_of (view value.now) ≡ None) }
    ensures errors { (result ≡ Error.UnexpectedType) ⊎ (result ≡ Error.OutOfMemory) }
{
    if value.has_text() {
        Error::OutOfMemory
    } else {
        Error::UnexpectedType
    }
}

// The result of a function that appends. After an error the buffer may hold a part of the text. It is one of memory, or
// the value has no text.
type Appended = std::result::Result<(), AllocError>;

// Appends a value, whose lines begin with `margin` spaces.
#[cycle(append)]
fn append<'a>(value: &Value<'a>, indent: usize, margin: usize, buf: &mut Vec<u8>) -> Appended
    ensures appends { AppendsLines indent margin (view value.now) result buf.old buf.new }
    ensures proper { OnOk result (IsProper (view value.now)) }
{
    match value {
        Value::Array(items) => append_items(items, indent, margin, buf),
        Value::Object(members) => append_members(members, indent, margin, buf),
        Value::Null => append_scalar(value, buf),
        Value::Bool(_) => append_scalar(value, buf),
        Value::String(_) => append_scalar(value, buf),
        Value::Number(_) => append_scalar(value, buf),
        Value::Binary(_) => append_scalar(value, buf),
        Value::Interval(_) => append_scalar(value, buf),
        // These have no text.
        Value::Date(_) | Value::Timestamp(_) | Value::TimestampTz(_) => Err(AllocError),
    }
}

#[cycle(append)]
fn append_items<'a>(
    items: &Vec<Value<'a>>,
    indent: usize,
    margin: usize,
    buf: &mut Vec<u8>,
) -> Appended
    ensures appends { AppendsLines indent margin (array (trees_view items.now.items)) result buf.old buf.new }
    ensures proper { OnOk result (AreProper (trees_view items.now.items)) }
{
    if items.is_empty() {
        return buf.extend_from_slice(b"[]");
    }
    let inner = inner_margin(indent, margin, buf)?;
    buf.extend_from_slice(b"[")?;
    append_item_lines(items, indent, inner, buf)?;
    append_line(margin, buf)?;
    buf.extend_from_slice(b"]")
}

#[cycle(append)]
fn append_item_lines<'a>(
    items: &Vec<Value<'a>>,
    indent: usize,
    margin: usize,
    buf: &mut Vec<u8>,
) -> Appended
    ensures appends { AppendsIf (items_have_texts (trees_view items.now.items)) result buf.old buf.new
        (with_commas (item_lines indent margin (trees_view items.now.items))) }
    ensures proper { OnOk result (AreProper (trees_view items.now.items)) }
{
    let mut is_first = true;
    'items: for item in items {
        append_comma(is_first, buf)?;
        is_first = false;
        append_line(margin, buf)?;
        append(item, indent, margin, buf)?;
    }
    Ok(())
}

#[cycle(append)]
fn append_members<'a>(
    members: &Object<'a>,
    indent: usize,
    margin: usize,
    buf: &mut Vec<u8>,
) -> Appended
    ensures appends { AppendsLines indent margin (object (members_view members.now.entries)) result buf.old buf.new }
    ensures proper { OnOk result (IsProper (object (members_view members.now.entries))) }
{
    if members.is_empty() {
        return buf.extend_from_slice(b"{}");
    }
    let inner = inner_margin(indent, margin, buf)?;
    buf.extend_from_slice(b"{")?;
    append_member_lines(members, indent, inner, buf)?;
    append_line(margin, buf)?;
    buf.extend_from_slice(b"}")
}

#[cycle(append)]
fn append_member_lines<'a>(
    members: &Object<'a>,
    indent: usize,
    margin: usize,
    buf: &mut Vec<u8>,
) -> Appended
    ensures appends { AppendsIf (members_have_texts (members_view members.now.entries)) result buf.old buf.new
        (with_commas (member_lines indent margin (members_view members.now.entries))) }
    ensures proper { OnOk result (IsProper (object (members_view members.now.entries))) }
{
    let mut is_first = true;
    'members: for (key, value) in members.iter() {
        append_comma(is_first, buf)?;
        is_first = false;
        append_line(margin, buf)?;
        append_key(key, buf)?;
        append(value, indent, margin, buf)?;
    }
    Ok(())
}

// The margin of what is in an array or an object. Where it is no number there is no space for it.
fn inner_margin(
    indent: usize,
    margin: usize,
    buf: &Vec<u8>,
) -> std::result::Result<usize, AllocError>
    ensures ok { IfOk result (λ inner. inner ≡ margin + indent) }
    ensures full { OnErr result (vec_capacity buf.now < margin + indent) }
{
    let _capacity = buf.capacity();
    match margin.checked_add(indent) {
        Some(inner) => Ok(inner),
        None => Err(AllocError),
    }
}

// Appends the text of a value that is no array and no object.
fn append_scalar(value: &Value<'_>, buf: &mut Vec<u8>) -> Appended
    requires { has_text (view value.now) ≡ true }
    ensures appends { Appends result buf.old buf.new (tree_text (view value.now)) }
    ensures proper { OnOk result (IsProper (view value.now)) }
{
    if value.write_text(buf).is_err() {
        return Err(AllocError);
    }
    Ok(())
}

// Appends the comma before an item or a member. The first has none.
fn append_comma(is_first: bool, buf: &mut Vec<u8>) -> Appended
    ensures appends { Appends result buf.old buf.new (comma_before is_first) }
{
    if is_first {
        Ok(())
    } else {
        buf.extend_from_slice(b",")
    }
}

// Appends a line feed and the spaces of the next line.
fn append_line(margin: usize, buf: &mut Vec<u8>) -> Appended
    ensures appends { Appends result buf.old buf.new (new_line margin) }
{
    buf.extend_from_slice(b"\n")?;
    buf.reserve(margin)?;
    buf.resize(buf.len() + margin, b' ')
}

// Appends a member's key, and the colon and the space after it.
fn append_key(key: &String, buf: &mut Vec<u8>) -> Appended
    ensures appends { Appends result buf.old buf.new
        (quoted_text (string_bytes key.now) ++ ascii.colon ∷ ascii.space ∷ []) }
    ensures utf8 { IsUtf8 (string_bytes key.now) }
{
    append_string(key.as_str(), buf)?;
    buf.extend_from_slice(b": ")
}

fn append_string(text: &str, buf: &mut Vec<u8>) -> Appended
    ensures appends { Appends result buf.old buf.new (quoted_text text.now) }
    ensures utf8 { IsUtf8 text.now }
{
    append_scalar(&Value::from(text), buf)
}
