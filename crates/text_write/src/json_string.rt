//! Strings of JSON, written from where they are in the text: each run is looked at and copied at once.
ghost use Rattle.std.specs.Prelude.{◌≡◌, ◌+◌, ◌-◌, ◌≤◌, ◌<◌, ◌++◌, ◌∷◌, [], ℕ, List, Some, length, take, slice_index, slice_range, IfNone, IfOk, IfSome, MatchBool, OnOk};
ghost use Rattle.jsonb_spec.specs.Ascii as ascii;
ghost use Rattle.std.specs.List.{flat_map};
ghost use Rattle.jsonb_spec.specs.SortKey.{text_key};
ghost use Rattle.jsonb_spec.specs.Source.{Source};
ghost use Rattle.jsonb_spec.specs.Text.Appending.{Extends};
ghost use Rattle.jsonb_spec.specs.SortKey.Joined.{source_key};
ghost use Rattle.text_write.specs.JsonString.{HasNoZero, written_byte, written_bytes};
ghost use Rattle.jsonb_spec.specs.Text.VerbatimScalar.{IsJsonStringAt};
ghost use Rattle.jsonb_spec.specs.Text.JsonString.{IsJsonBody};
ghost use Rattle.jsonb_spec.specs.Grammar.StringBody.{standard_escape};
ghost use Rattle.jsonb_spec.specs.Text.StringText.{byte_text};
ghost use Rattle.jsonb_spec.specs.Text.SourceText.{source_text};

use crate::escaped::append_contents;
use crate::escaped_key::append_contents_key;
use crate::key::KeySink;
use crate::key_text::append_end;
use crate::text::TextSink;
use crate::written::Written;
use jsonb_core::sort_key::kind;
use std::alloc::AllocError;
use text_common::verbatim::{is_verbatim_letter, short_byte};
use text_scan::parser::Mode;
use text_scan::util::{near_backslash, write_sixteen};

// Puts the escape of this letter into a row, in place of what it means where a sort key is written, and returns where it
// ends there. Its backslash is there. Nothing where a text needs another escape.
#[inline(always)]
fn put_escape(letter: u8, as_text: bool, row: &mut [u8], at: usize) -> Option<usize>
    requires space { at + 2 ≤ length row.old }
    requires here { slice_index row.old at ≡ ascii.backslash }
    ensures known { IfSome result (λ end. (byte : ℕ) × (standard_escape letter ≡ Some byte)) }
    ensures put { IfSome result (λ end. (byte : ℕ) → standard_escape letter ≡ Some byte
        → take end row.new ≡ take at row.old ++ written_byte as_text byte) }
    ensures within { IfSome result (λ end. (at ≤ end) × (end ≤ at + 2)) }
    ensures front { take at row.new ≡ take at row.old }
    ensures size { length row.new ≡ length row.old }
{
    if as_text && is_verbatim_letter(letter) {
        row[at + 1] = letter;
        return Some(at + 2);
    }
    if as_text && letter != b'/' {
        return None;
    }
    row[at] = short_byte(letter)?;
    Some(at + 1)
}

// Puts contents into a row, from an index on, and returns where they end there. The contents are the first bytes, and 16
// more are behind them and behind the space for them. Nothing where an escape isn't of one letter, or a text needs
// another one.
#[inline(always)]
fn put_contents(
    bytes: &[u8],
    count: usize,
    as_text: bool,
    row: &mut [u8],
    start: usize,
) -> Option<usize>
    requires inside { count + 16 ≤ length bytes.now }
    requires space { start + count + 16 ≤ length row.old }
    ensures put { IfSome result (λ end. (text : List ℕ) → IsJsonBody (take count bytes.now) text
        → (take end row.new ≡ take start row.old ++ written_bytes as_text text) × HasNoZero text) }
    ensures within { IfSome result (λ end. (start ≤ end) × (end ≤ length row.new)) }
    ensures front { take start row.new ≡ take start row.old }
{
    let mut at = 0;
    let mut end = start;
    'items: while at < count {
        let near = near_backslash(&bytes[at..]);
        write_sixteen(row, end, &bytes[at..]);
        let run = near.unwrap_or(16);
        if run >= count - at {
            return Some(end + (count - at));
        }
        at += run;
        end += run;
        if near.is_some() {
            end = put_escape(bytes[at + 1], as_text, row, end)?;
            at += 2;
        }
    }
    Some(end)
}

// Appends contents, which are the first bytes, where no escape of theirs is a unit, and none is left to a text but those
// that are there; and says whether it did. A row of their length is there before, so that they are put into it with no
// test of its sink.
#[inline(always)]
fn append_row(
    bytes: &[u8],
    count: usize,
    as_text: bool,
    out: &mut Vec<u8>,
) -> Result<bool, AllocError>
    requires { count ≤ length bytes.now }
    ensures done { IfOk result (λ done. (text : List ℕ) → IsJsonBody (take count bytes.now) text
        → MatchBool done ((out.new.items ≡ out.old.items ++ written_bytes as_text text) × HasNoZero text)
        (out.new.items ≡ out.old.items)) }
    ensures retained { Extends out.old.items out.new.items }
{
    if bytes.len() - count < 16 {
        return Ok(false);
    }
    let start = out.len();
    out.extend_from_slice(&bytes[..count + 16])?;
    let Some(end) = put_contents(bytes, count, as_text, out, start) else {
        out.truncate(start);
        return Ok(false);
    };
    out.truncate(end);
    Ok(true)
}

// Appends contents, which are the first bytes, as they are written.
#[inline(always)]
fn append_body(bytes: &[u8], count: usize, out: &mut Vec<u8>) -> Result<(), AllocError>
    requires { count ≤ length bytes.now }
    ensures bytes { OnOk result ((text : List ℕ) → IsJsonBody (take count bytes.now) text
        → out.new.items ≡ out.old.items ++ flat_map byte_text text) }
    ensures retained { Extends out.old.items out.new.items }
{
    if append_row(bytes, count, true, out)? {
        return Ok(());
    }
    append_contents(&bytes[..count], Mode::Standard, out)
}

// Appends contents so as they are in a sort key, with what ends them. Another buffer holds them meanwhile.
#[inline(always)]
fn append_body_key(
    bytes: &[u8],
    count: usize,
    out: &mut Vec<u8>,
    spare: &mut Vec<u8>,
) -> Result<(), AllocError>
    requires { count ≤ length bytes.now }
    ensures bytes { OnOk result ((text : List ℕ) → IsJsonBody (take count bytes.now) text
        → out.new.items ≡ out.old.items ++ text_key text) }
    ensures retained { Extends out.old.items out.new.items }
    ensures spare { OnOk result (spare.new.items ≡ spare.old.items) }
{
    if append_row(bytes, count, false, out)? {
        return append_end(out);
    }
    append_contents_key(&bytes[..count], Mode::Standard, out, spare)
}

// How many bytes such a string has between its quotes, where it is there in the text.
#[inline(always)]
fn body_len(text: &[u8], from: usize, to: usize) -> Option<usize>
    ensures some { IfSome result (λ count. (from + 2 + count ≡ to) × (to ≤ length text.now)) }
    ensures none { IfNone result ((s : Source) → IsJsonStringAt text.now from to s → ⊥) }
{
    if to > text.len() {
        return None;
    }
    to.checked_sub(from)?.checked_sub(2)
}

impl<'a> Written<'a> {
    ghost use Rattle.text_write.specs.Written.{bytes_of};

    // Writes a string of JSON, which is there in the text.
    #[inline(never)]
    fn append_json_string(&mut self, from: usize, to: usize) -> Result<(), AllocError>
        ensures bytes { OnOk result ((s : Source) → IsJsonStringAt self.old.text.now from to s
            → bytes_of self.new ≡ bytes_of self.old ++ source_text s) }
        ensures text { self.new.text ≡ self.old.text }
        ensures retained { Extends self.old.out.items self.new.out.items }
    {
        let Some(count) = body_len(self.text, from, to) else {
            return Ok(());
        };
        self.put_at(b'"', from)?;
        self.flush()?;
        // With space for what is copied behind it too, a long string lets the buffer grow once.
        self.out.try_reserve(count + 32)?;
        append_body(&self.text[from + 1..], count, &mut self.out)?;
        self.go_on(to - 1);
        self.put(b'"')
    }
}

impl<'a> TextSink<'a> {
    ghost use Rattle.text_write.specs.TextSink.{Writes, base_of};

    // Writes a string of JSON, which is there in the text.
    #[inline(always)]
    pub(crate) fn json_string(&mut self, from: usize, to: usize) -> Result<(), AllocError>
        ensures bytes { OnOk result ((s : Source) → IsJsonStringAt self.old.written.text.now from to s
            → Writes (source_text s) self.old self.new) }
        ensures base { base_of self.new ≡ base_of self.old }
    {
        self.written.append_json_string(from, to)
    }
}

impl<'a> KeySink<'a> {
    ghost use Rattle.text_write.specs.KeySink.{Writes, base_of};

    // Writes a string of JSON, which is there in the text.
    #[inline(never)]
    pub(crate) fn json_string(&mut self, from: usize, to: usize) -> Result<(), AllocError>
        ensures bytes { OnOk result ((s : Source) → IsJsonStringAt self.old.members.text.now from to s
            → Writes (source_key s) self.old self.new) }
        ensures base { base_of self.new ≡ base_of self.old }
    {
        let Some(count) = body_len(self.members.text, from, to) else {
            return Ok(());
        };
        self.out.try_reserve(count + 35)?;
        self.out.push_reserved(kind::STRING);
        append_body_key(
            &self.members.text[from + 1..],
            count,
            &mut self.out,
            &mut self.members.decoded,
        )
    }
}
