//! The serialized form of a value: JSON without whitespace.
ghost use Rattle.std.specs.Prelude.{ℕ, List, ◌≡◌, ◌≢◌, ◌↔◌, ◌⊎◌, ◌+◌, ◌<◌, ◌≤◌, ◌++◌, ◌∷◌, [], ◌==◌, if◌then◌else◌, length, take, Some, None, IfErr, IfSome, IsErrOf, OnOk, OnErr, vec_len, string_bytes, FitsSigned};
ghost use Rattle.std.specs.Int.{w64, w32};
ghost use Rattle.std.specs.Str.{IsUtf8};
ghost use Rattle.std.specs.Vec.{vec_capacity};
ghost use Rattle.jsonb_spec.specs.Ascii as ascii;
ghost use Rattle.jsonb_spec.specs.Text.Appending.{Appends, AppendsAllOrNothing, AppendsIf, comma_before};
ghost use Rattle.jsonb_spec.specs.Text.BinaryText.{binary_text};
ghost use Rattle.jsonb_spec.specs.Text.IntervalText.{interval_text};
ghost use Rattle.jsonb_spec.specs.Keys.{KeysAscend};
ghost use Rattle.jsonb_spec.specs.Mode.{Mode};
ghost use Rattle.jsonb_spec.specs.Order.{Same};
ghost use Rattle.jsonb_spec.specs.Proper.{IsProper, AreProper, HaveProperParts};
ghost use Rattle.jsonb_spec.specs.Text.Range.{IsIntegerRange, IsInRangeOf};
ghost use Rattle.jsonb_spec.specs.Text.ReadsBack.{StringReadsBack, ReadsBackAs};
ghost use Rattle.jsonb_spec.specs.Text.StringText.{quoted_text};
ghost use Rattle.jsonb_spec.specs.Text.{has_text, items_have_texts, members_have_texts, in_quotes, tree_text, with_commas, item_texts, member_texts, text_of, AppendsText};
ghost use Rattle.jsonb_spec.specs.Tree.{Tree};
ghost use Rattle.jsonb_value.specs.View.{view, trees_view, members_view};

use super::{Object, Value};
use crate::extension::Interval;
use crate::extension::text::append_binary;
use jsonb_core::error::{Error, Result};
use jsonb_core::parts::{append_number, append_string};
use std::alloc::AllocError;

/// A law: a written string is parsed as the same string, in each mode.
pub fn string_texts_read_back()
    ensures { (mode : Mode) → (text : List ℕ) → IsUtf8 text → StringReadsBack mode text }
{}

// The result of a function that appends. After an error the buffer may hold a part of the text. It is one of memory, or
// the value has no text.
type Appended = std::result::Result<(), AllocError>;

impl Value<'_> {
    /// Whether the value has a serialized form: it has one unless it holds a date or a time, at any depth.
    pub fn has_text(&self) -> bool
        ensures { result ≡ has_text (view self.now) }
    {
        has_text(self)
    }

    /// Appends the value's serialized form: JSON without whitespace, members in the order of their keys, binary data
    /// and intervals as strings. After an error `buf` has the same bytes as before.
    ///
    /// The time is linear in the text, and the only allocations are those of `buf`.
    ///
    /// ```
    /// let value = jsonb::parse_value(rt.alloc(), b"{b: .5, a: null}")?;
    /// let mut text = Vec::new(rt.alloc());
    /// value.write_text(&mut text)?;
    /// assert_eq!(rt; text.as_slice(), "{\"a\":null,\"b\":0.5}".as_bytes());
    /// ```
    ///
    /// # Errors
    ///
    /// `UnexpectedType` where the value holds a date or a time, at any depth: it has no text then, however little
    /// memory there is. `OutOfMemory` only where `buf` lacks the capacity for the whole text.
    pub fn write_text(&self, buf: &mut Vec<u8>) -> Result<()>
        ensures ok { OnOk result (AppendsText (view self.now) buf.old.items buf.new.items) }
        ensures err { OnErr result (buf.new.items ≡ buf.old.items) }
        ensures unexpected { IsErrOf result Error.UnexpectedType ↔ (text_of (view self.now) ≡ None) }
        ensures errors { IfErr result (λ e. (e ≡ Error.UnexpectedType) ⊎ (e ≡ Error.OutOfMemory)) }
        ensures rejected { IfErr result (λ e. e ≢ Error.OutOfMemory → text_of (view self.now) ≡ None) }
        // Memory runs out only where the capacity for the whole text is missing.
        ensures full { IsErrOf result Error.OutOfMemory → IfSome (text_of (view self.now))
            (λ bytes. vec_capacity buf.old < vec_len buf.old + length bytes) }
        ensures capacity { vec_capacity buf.old ≤ vec_capacity buf.new }
        ensures proper { OnOk result (IsProper (view self.now)) }
        // What is written of a value in a mode's range is a document of the mode, of the same value, whose text it is
        // again.
        ensures reads_back { OnOk result ((mode : Mode) → IsInRangeOf mode (view self.now) → (bytes : List ℕ)
            → buf.new.items ≡ buf.old.items ++ bytes → ReadsBackAs mode bytes (view self.now)) }
        // Of values whose numbers are all integers those that are the same have this text, and no others.
        ensures one_text { OnOk result (IsIntegerRange (view self.now) → (bytes : List ℕ)
            → buf.new.items ≡ buf.old.items ++ bytes → (u : Tree) → IsProper u → IsIntegerRange u
            → (text_of u ≡ Some bytes) ↔ Same u (view self.now)) }
    {
        let old_len = buf.len();
        if append(self, buf).is_ok() {
            return Ok(());
        }
        buf.truncate(old_len);
        Err(text_error(self))
    }
}

// The error of a value that was not appended. Only here is the value walked once more.
#[cold]
#[inline(never)]
fn text_error(value: &Value<'_>) -> Error
    ensures unexpected { (result ≡ Error.UnexpectedType) ↔ (text_of (view value.now) ≡ None) }
    ensures errors { (result ≡ Error.UnexpectedType) ⊎ (result ≡ Error.OutOfMemory) }
{
    if has_text(value) {
        Error::OutOfMemory
    } else {
        Error::UnexpectedType
    }
}

// Whether no date and no time is in the value. Inlined into the loops, so that only containers are calls there.
#[inline(always)]
#[cycle(has_text)]
fn has_text<'a>(value: &Value<'a>) -> bool
    ensures { result ≡ has_text (view value.now) }
{
    match value {
        Value::Date(_) | Value::Timestamp(_) | Value::TimestampTz(_) => false,
        Value::Array(items) => items_have_texts(items),
        Value::Object(members) => members_have_texts(members),
        Value::Null
        | Value::Bool(_)
        | Value::String(_)
        | Value::Number(_)
        | Value::Binary(_)
        | Value::Interval(_) => true,
    }
}

#[cycle(has_text)]
fn items_have_texts<'a>(items: &Vec<Value<'a>>) -> bool
    ensures { result ≡ items_have_texts (trees_view items.now.items) }
{
    'items: for item in items {
        if !has_text(item) {
            return false;
        }
    }
    true
}

#[cycle(has_text)]
fn members_have_texts<'a>(members: &Object<'a>) -> bool
    ensures { result ≡ members_have_texts (members_view members.now.entries) }
{
    'members: for (_, value) in members.iter() {
        if !has_text(value) {
            return false;
        }
    }
    true
}

// Appends a value's text. Inlined into the loops, so that only containers are calls there.
#[inline(always)]
#[cycle(append)]
fn append<'a>(value: &Value<'a>, buf: &mut Vec<u8>) -> Appended
    ensures appends { AppendsIf (has_text (view value.now)) result buf.old buf.new (tree_text (view value.now)) }
    ensures proper { OnOk result (IsProper (view value.now)) }
{
    match value {
        Value::Null => buf.extend_from_slice(b"null"),
        Value::Bool(true) => buf.extend_from_slice(b"true"),
        Value::Bool(false) => buf.extend_from_slice(b"false"),
        Value::String(text) => append_string(text.as_str(), buf),
        Value::Number(number) => append_number(number, buf),
        Value::Binary(bytes) => append_quoted_binary(*bytes, buf),
        Value::Interval(interval) => append_quoted_interval(interval, buf),
        Value::Array(items) => append_items(items, buf),
        Value::Object(members) => append_members(members, buf),
        // These have no text.
        Value::Date(_) | Value::Timestamp(_) | Value::TimestampTz(_) => Err(AllocError),
    }
}

#[cycle(append)]
fn append_items<'a>(items: &Vec<Value<'a>>, buf: &mut Vec<u8>) -> Appended
    ensures appends { AppendsIf (items_have_texts (trees_view items.now.items)) result buf.old buf.new
        (ascii.open_bracket ∷ with_commas (item_texts (trees_view items.now.items)) ++ ascii.close_bracket ∷ []) }
    ensures proper { OnOk result (AreProper (trees_view items.now.items)) }
{
    buf.extend_from_slice(b"[")?;
    let mut is_first = true;
    'items: for item in items {
        append_comma(is_first, buf)?;
        is_first = false;
        append(item, buf)?;
    }
    buf.extend_from_slice(b"]")
}

#[cycle(append)]
fn append_members<'a>(members: &Object<'a>, buf: &mut Vec<u8>) -> Appended
    ensures appends { AppendsIf (members_have_texts (members_view members.now.entries)) result buf.old buf.new
        (ascii.open_brace ∷ with_commas (member_texts (members_view members.now.entries)) ++ ascii.close_brace ∷ []) }
    ensures proper { OnOk result (KeysAscend (members_view members.now.entries)
        × HaveProperParts (members_view members.now.entries)) }
{
    buf.extend_from_slice(b"{")?;
    let mut is_first = true;
    'members: for (key, value) in members.iter() {
        append_comma(is_first, buf)?;
        is_first = false;
        append_key(key, buf)?;
        append(value, buf)?;
    }
    buf.extend_from_slice(b"}")
}

// Appends the comma before an item or a member. The first has none.
fn append_comma(is_first: bool, buf: &mut Vec<u8>) -> Appended
    ensures appends { AppendsAllOrNothing result buf.old buf.new (comma_before is_first) }
{
    if is_first {
        Ok(())
    } else {
        buf.extend_from_slice(b",")
    }
}

// Appends a member's key and the colon after it.
fn append_key(key: &String, buf: &mut Vec<u8>) -> Appended
    ensures appends { Appends result buf.old buf.new (quoted_text (string_bytes key.now) ++ ascii.colon ∷ []) }
    ensures utf8 { IsUtf8 (string_bytes key.now) }
{
    append_string(key.as_str(), buf)?;
    buf.extend_from_slice(b":")
}

fn append_quoted_binary(bytes: &[u8], buf: &mut Vec<u8>) -> Appended
    ensures appends { Appends result buf.old buf.new (in_quotes (binary_text bytes.now)) }
{
    buf.extend_from_slice(b"\"")?;
    append_binary(bytes, buf)?;
    buf.extend_from_slice(b"\"")
}

fn append_quoted_interval(interval: &Interval, buf: &mut Vec<u8>) -> Appended
    ensures appends { Appends result buf.old buf.new
        (in_quotes (interval_text interval.now.months interval.now.days interval.now.micros)) }
    ensures bits { OnOk result (FitsSigned w32 interval.now.months × FitsSigned w32 interval.now.days
        × FitsSigned w64 interval.now.micros) }
{
    buf.extend_from_slice(b"\"")?;
    interval.append_text(buf)?;
    buf.extend_from_slice(b"\"")
}
