//! Serialized text, written while another text is parsed: no whitespace, and members in the order of their keys.
ghost use Rattle.std.specs.Prelude.{◌≡◌, ◌+◌, ◌-◌, ◌<◌, ◌≤◌, ◌++◌, ◌∷◌, [], ℕ, List, Bool, true, false, length, slice_range, IfOk, MatchBool, MatchOption, OnOk};
ghost use Rattle.std.specs.Option.{is_some};
ghost use Rattle.text_common.specs.EncodedNumber.{StaysEncoded};

use crate::contents::Contents;
use crate::sink::Sink;
use crate::written::Written;
use jsonb_core::error::Error;
use jsonb_core::number::Number;
use jsonb_core::plain::is_plain;
use std::alloc::{AllocError, Global};
use std::borrow::CowStr;
use text_common::verbatim::Verbatim;
use text_members::open_members::{OpenMembers, Repeat, Unsettled};
use text_scan::parser::Mode;

/// A value that holds no others and is to be written, or one that is written.
#[derive(Drop)]
pub enum Part<'a> {
    Null,
    Bool(bool),
    Number(Number),
    String(CowStr<'a>),
    // The contents of a string that have escapes and were checked.
    Contents(Contents<'a>),
    // A string none of whose bytes has an escape.
    Plain(&'a str),
    Written,
}

/// What is written of a text, behind the bytes that a buffer held before.
#[derive(Drop)]
pub struct TextSink<'a> {
    pub written: Written<'a>,
    pub base: usize,
    pub members: OpenMembers<'a>,
    pub ghost based: { base ≤ length written.out.items },
}

// Whether a number is written by its digits in the text: an integer, but for a zero that may have a minus.
#[inline(always)]
fn is_verbatim(number: &Number) -> bool
    ensures { MatchBool result (StaysEncoded number.now) (Unit {0}) }
{
    match number {
        Number::UInt64(_) => true,
        Number::Int64(value) => *value != 0,
        Number::Decimal64(_) | Number::Decimal128(_) => false,
    }
}

impl<'a> TextSink<'a> {
    ghost use Rattle.jsonb_spec.specs.Source.Open.{Open};
    ghost use Rattle.jsonb_spec.specs.Source.Open.Open.{members_so_far};
    ghost use Rattle.jsonb_spec.specs.Source.{Found, Source};
    ghost use Rattle.jsonb_spec.specs.Grammar.StandardNumber.{IsStandardNumber};
    ghost use Rattle.jsonb_spec.specs.Text.{in_quotes};
    ghost use Rattle.jsonb_spec.specs.Text.NumberText.{number_text};
    ghost use Rattle.jsonb_spec.specs.Text.StringText.{ArePlain, quoted_text};
    ghost use Rattle.jsonb_spec.specs.Tree.{Mark};
    ghost use Rattle.jsonb_spec.specs.Tree.Mark.{plain};
    ghost use Rattle.jsonb_core.specs.View.{number_view};
    ghost use Rattle.jsonb_spec.specs.Text.SoFar.{comma_unless};
    ghost use Rattle.jsonb_spec.specs.Text.SourceText.{source_text};
    ghost use Rattle.text_members.specs.OpenMembers.{ReportsRepeatOf};
    ghost use Rattle.text_write.specs.TextSink.{Closes, Held, IsSettled, PreservesMembers, IsEncoded, TextFilled, TextHolds, Writes, base_of, part_text};
    ghost use Rattle.text_write.specs.TextSink.Held.{items, members};

    /// A buffer to whose end a value is written.
    pub fn new(alloc: Global, text: &'a [u8], out: Vec<u8>) -> TextSink<'a>
        ensures base { base_of result ≡ out.items }
        ensures out { result.written.out ≡ out }
        ensures holds { TextHolds text.entry.now result true [] [] }
    {
        let base = out.len();
        TextSink {
            written: Written::new(text, out),
            base,
            members: OpenMembers::new(alloc, text),
        }
    }

    /// Another text's value is written behind what is in the buffer, and the space for members is held for it.
    #[inline(always)]
    pub fn restart(&mut self, text: &'a [u8])
        ensures base { base_of self.new ≡ self.old.written.out.items }
        ensures out { self.new.written.out ≡ self.old.written.out }
        ensures holds { TextHolds text.entry.now self.new true [] [] }
    {
        self.written.restart(text);
        self.base = self.written.out.len();
        self.members.restart(text);
    }

    // Writes a byte.
    #[inline(always)]
    fn put(&mut self, byte: u8) -> Result<(), AllocError>
        ensures bytes { OnOk result (Writes (byte ∷ []) self.old self.new) }
        ensures base { base_of self.new ≡ base_of self.old }
    {
        self.written.put(byte)
    }

    // Writes a byte that may be in the text at an index.
    #[inline(always)]
    fn put_at(&mut self, byte: u8, at: usize) -> Result<(), AllocError>
        ensures bytes { OnOk result (Writes (byte ∷ []) self.old self.new) }
        ensures base { base_of self.new ≡ base_of self.old }
    {
        self.written.put_at(byte, at)
    }

    // Whether these bytes of the text may be held as they are.
    #[inline(always)]
    fn is_range(&self, from: usize, to: usize) -> bool
        ensures { MatchBool result ((from < to) × (to ≤ length self.now.written.text.now)) (Unit {0}) }
    {
        from < to && to <= self.written.text.len()
    }

    // Stores bytes of the text.
    #[inline(always)]
    fn preserve(&mut self, from: usize, to: usize) -> Result<(), AllocError>
        requires ordered { from ≤ to }
        requires inside { to ≤ length self.old.written.text.now }
        ensures bytes { OnOk result (Writes (slice_range self.old.written.text.now from to) self.old self.new) }
        ensures base { base_of self.new ≡ base_of self.old }
    {
        self.written.preserve(from, to)
    }

    // Stores bytes of the text, as far as there are any.
    #[inline(always)]
    pub(crate) fn preserve_range(&mut self, from: usize, to: usize) -> Result<(), AllocError>
        ensures bytes { OnOk result (Writes (slice_range self.old.written.text.now from to) self.old self.new) }
        ensures base { base_of self.new ≡ base_of self.old }
    {
        let end = to.min(self.written.text.len());
        self.preserve(from.min(end), end)
    }

    // Writes a word that is there in the text.
    #[inline(always)]
    fn word(&mut self, word: &[u8], from: usize, to: usize) -> Result<(), AllocError>
        ensures bytes { OnOk result ((from < to → slice_range self.old.written.text.now from to ≡ word.now)
            → Writes word.now self.old self.new) }
        ensures base { base_of self.new ≡ base_of self.old }
    {
        if self.is_range(from, to) {
            return self.preserve(from, to);
        }
        self.written.append(word)
    }

    // Writes a number that is there in the text.
    #[inline(always)]
    fn number(&mut self, number: &Number, from: usize, to: usize) -> Result<(), AllocError>
        ensures bytes { OnOk result ((from < to
            → IsStandardNumber (slice_range self.old.written.text.now from to) (number_view number.now))
            → Writes (number_text (number_view number.now)) self.old self.new) }
        ensures base { base_of self.new ≡ base_of self.old }
    {
        if self.is_range(from, to) && is_verbatim(number) {
            return self.preserve(from, to);
        }
        self.written.append_number(number, to)
    }

    // Writes a string that is there in the text, between double quotes and without escapes.
    #[inline(always)]
    fn string(&mut self, string: &str, from: usize, to: usize) -> Result<(), AllocError>
        ensures bytes { OnOk result ((from < to → slice_range self.old.written.text.now from to ≡ in_quotes string.now)
            → Writes (quoted_text string.now) self.old self.new) }
        ensures base { base_of self.new ≡ base_of self.old }
    {
        if self.is_range(from, to) && is_plain(&self.written.text[from + 1..], string.len()) {
            return self.preserve(from, to);
        }
        self.written.append_string(string)
    }

    // Writes a string that is there in the text, between double quotes, and none of whose bytes has an escape.
    #[inline(always)]
    fn plain(&mut self, string: &str, from: usize, to: usize) -> Result<(), AllocError>
        ensures bytes { OnOk result ((from < to → (slice_range self.old.written.text.now from to ≡ in_quotes string.now)
            × ArePlain string.now) → Writes (quoted_text string.now) self.old self.new) }
        ensures base { base_of self.new ≡ base_of self.old }
    {
        if self.is_range(from, to) {
            return self.preserve(from, to);
        }
        self.written.append_string(string)
    }

    // Writes a value that is there in the text.
    #[inline(always)]
    fn part(&mut self, part: &Part<'a>, from: usize, to: usize) -> Result<(), AllocError>
        ensures bytes { OnOk result (IsEncoded self.old.written.text.now from to part.now
            → Writes (part_text part.now) self.old self.new) }
        ensures base { base_of self.new ≡ base_of self.old }
    {
        match part {
            Part::Written => Ok(()),
            Part::Null => self.word(b"null", from, to),
            Part::Bool(true) => self.word(b"true", from, to),
            Part::Bool(false) => self.word(b"false", from, to),
            Part::Number(number) => self.number(number, from, to),
            Part::Plain(string) => self.plain(string, from, to),
            Part::String(CowStr::Borrowed(string)) => self.string(string, from, to),
            Part::String(CowStr::Owned(string)) => self.written.append_string(string.as_str()),
            Part::Contents(contents) => self.written.append_escaped(contents, to),
        }
    }

    // The comma behind the members before, if there are any.
    #[inline(always)]
    fn next_member(&mut self, first: usize) -> Result<(), AllocError>
        ensures more { OnOk result (first < length self.old.members.entries.items
            → Writes (comma_unless false) self.old self.new) }
        ensures none { OnOk result (length self.old.members.entries.items ≤ first
            → Writes (comma_unless true) self.old self.new) }
        ensures text { OnOk result (self.new.written.text.now ≡ self.old.written.text.now) }
        ensures base { base_of self.new ≡ base_of self.old }
    {
        if self.members.len() > first {
            return self.put(b',');
        }
        Ok(())
    }

    // Puts the members from an index on in the order of their keys. Where a key comes twice, it returns the member where
    // the least such key comes the second time.
    #[inline(always)]
    fn settle(&mut self, first: usize) -> Result<Option<Repeat>, Unsettled>
        ensures same { OnOk result (PreservesMembers self.old self.new) }
        ensures repeat { IfOk result (λ repeat. (text : List ℕ) → (held : List Held) → (fs : List Found)
            → (key : Mark × List ℕ) → (offset : ℕ) → (cs : List Open)
            → TextHolds text self.old false (members first ∷ held) (members_so_far fs key offset ∷ cs)
            → MatchOption repeat (IsSettled self.old self.new fs cs) (ReportsRepeatOf self.new.members fs)) }
        ensures base { base_of self.new ≡ base_of self.old }
    {
        if self.members.ascend(first) {
            return Ok(None);
        }
        self.written.settle(&mut self.members, first, self.base)
    }

    // Writes the end of an object, whose members are held no longer.
    #[inline(always)]
    fn close(&mut self, first: usize, at: usize) -> Result<(), AllocError>
        ensures end { OnOk result (Closes first self.old self.new) }
        ensures base { base_of self.new ≡ base_of self.old }
    {
        self.members.close(first);
        self.put_at(b'}', at)
    }

    /// The end of a whole value: all of it is in the buffer.
    pub fn finish(&mut self) -> Result<(), AllocError>
        ensures ok { OnOk result ((text : List ℕ) → (s : Source) → TextFilled text self.old s [] []
            → self.new.written.out.items ≡ base_of self.old ++ source_text s) }
        ensures base { base_of self.new ≡ base_of self.old }
    {
        self.written.flush()
    }

    /// The buffer is again as it was before anything was written.
    #[cold]
    pub fn undo(&mut self)
        ensures { self.new.written.out.items ≡ base_of self.old }
    {
        let before = self.base;
        let written = &mut self.written;
        written.out.truncate(before);
    }

    /// The buffer, with all that is in it.
    pub fn into_buffer(self) -> Vec<u8>
        ensures { result ≡ self.entry.written.out }
    {
        let TextSink { written, .. } = self;
        let Written { out, .. } = written;
        out
    }

    /// The buffer, as it was before anything was written.
    pub fn take_back(self) -> Vec<u8>
        ensures { result.items ≡ base_of self.entry }
    {
        let base = self.base;
        let mut out = self.into_buffer();
        out.truncate(base);
        out
    }
}

impl<'a> Sink<'a> for TextSink<'a> {
    ghost use Rattle.text_write.specs.TextSink.{Held, TextFilled, TextHolds, base_of};
    ghost use Rattle.text_write.specs.TextSink.Held.{items, members};

    // Whether there is no item yet.
    type Items = bool;

    // The index of the object's first member.
    type Members = usize;

    ghost Held = { Held };

    ghost array = { items };

    ghost object = { members };

    ghost holds = { TextHolds };

    ghost filled = { TextFilled };

    ghost base = { λ sink. base_of sink ∷ [] };

    ghost opened = { λ sink. sink.members };

    #[inline(always)]
    fn contents(
        body: &'a str,
        mode: Mode,
        offset: usize,
    ) -> std::result::Result<Contents<'a>, Error> {
        Contents::new(body, mode, offset)
    }

    #[inline(always)]
    fn fill(&mut self, part: &Part<'a>, from: usize, to: usize) -> Result<(), AllocError> {
        self.part(part, from, to)
    }

    #[inline(always)]
    fn fill_verbatim(
        &mut self,
        verbatim: Verbatim,
        from: usize,
        to: usize,
    ) -> Result<(), AllocError> {
        self.verbatim(verbatim, from, to)
    }

    #[inline(always)]
    fn begin_array(&mut self, at: usize) -> Result<bool, AllocError> {
        self.put_at(b'[', at)?;
        Ok(true)
    }

    #[inline(always)]
    fn passes(&self, is_first: &bool) -> bool {
        false
    }

    #[inline(always)]
    fn next_item(&mut self, is_first: &mut bool) -> Result<(), AllocError> {
        if *is_first {
            *is_first = false;
            return Ok(());
        }
        self.put(b',')
    }

    #[inline(always)]
    fn push_inner(&mut self, is_first: &mut bool) {}

    #[inline(always)]
    fn end_array(&mut self, is_first: &bool, at: usize) -> Result<(), AllocError> {
        self.put_at(b']', at)
    }

    #[inline(always)]
    fn begin_object(&mut self, at: usize) -> Result<usize, AllocError> {
        self.put_at(b'{', at)?;
        Ok(self.members.len())
    }

    #[inline(always)]
    fn cut_key(
        &mut self,
        first: &usize,
        key: &'a str,
        is_plain: bool,
        from: usize,
        after: usize,
    ) -> Result<(), AllocError> {
        if from == 0 || !self.is_range(from, after) {
            return self.key(first, key, after);
        }
        self.next_member(*first)?;
        let start = self.written.len();
        self.members.begin_within(from, after - 1, after, start)?;
        if is_plain {
            self.preserve(from - 1, after)?;
            return self.put(b':');
        }
        self.string(key, from - 1, after)?;
        self.put(b':')
    }

    #[inline(never)]
    fn key(&mut self, first: &usize, key: &str, after: usize) -> Result<(), AllocError> {
        self.next_member(*first)?;
        let start = self.written.len();
        self.members.begin_decoded(key, after, start)?;
        self.string(key, 0, 0)?;
        self.put(b':')
    }

    #[inline(always)]
    fn insert_inner(&mut self, first: &usize) {}

    #[inline(always)]
    fn end_object(&mut self, first: &usize, at: usize) -> Result<Option<Repeat>, Unsettled> {
        let repeat = self.settle(*first)?;
        if repeat.is_some() {
            return Ok(repeat);
        }
        self.close(*first, at)?;
        Ok(None)
    }

    #[inline(always)]
    fn open_members(&self) -> &OpenMembers<'a> {
        &self.members
    }
}
