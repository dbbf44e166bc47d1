//! Sort keys, written while a text is parsed.
ghost use Rattle.std.specs.Prelude.{◌≡◌, ◌+◌, ◌-◌, ◌<◌, ◌≤◌, ◌++◌, ◌∷◌, [], ℕ, List, true, false, length, slice_range, IfOk, MatchBool, MatchOption, OnOk};
ghost use Rattle.std.specs.Option.{is_some};

use crate::contents::Contents;
use crate::escaped_key::append_contents_key;
use crate::key_text::{append_key_text, append_with_kind};
use crate::sink::Sink;
use crate::text::Part;
use jsonb_core::error::Error;
use jsonb_core::number::Number;
use jsonb_core::parts::{append_number_key, append_text_key};
use jsonb_core::sort_key::kind;
use std::alloc::{AllocError, Global};
use std::borrow::CowStr;
use text_common::verbatim::Verbatim;
use text_members::object::Site;
use text_members::open_members::{OpenMembers, Repeat, Unsettled};
use text_scan::parser::Mode;

/// What is written of a sort key, behind the bytes that a buffer held before.
#[derive(Drop)]
pub struct KeySink<'a> {
    pub out: Vec<u8>,
    pub base: usize,
    pub members: OpenMembers<'a>,
    pub ghost based: { base ≤ length out.items },
}

impl<'a> KeySink<'a> {
    ghost use Rattle.jsonb_spec.specs.Source.Open.{Open};
    ghost use Rattle.jsonb_spec.specs.Source.Open.Open.{members_so_far};
    ghost use Rattle.jsonb_spec.specs.Source.{Found, Source};
    ghost use Rattle.jsonb_spec.specs.SortKey.Kind as kind;
    ghost use Rattle.jsonb_spec.specs.SortKey.{number_key, text_key};
    ghost use Rattle.jsonb_spec.specs.Text.{in_quotes};
    ghost use Rattle.jsonb_spec.specs.Tree.{Mark};
    ghost use Rattle.jsonb_spec.specs.Tree.Mark.{plain};
    ghost use Rattle.jsonb_core.specs.View.{number_view};
    ghost use Rattle.text_write.specs.Contents.{text_of_contents};
    ghost use Rattle.text_write.specs.KeySink.{Closes, Held, IsSettled, PreservesMembers, KeyFilled, KeyHolds, Writes, base_of, part_key};
    ghost use Rattle.text_write.specs.KeySink.Held.{items, members};
    ghost use Rattle.jsonb_spec.specs.SortKey.Joined.{source_key};
    ghost use Rattle.text_members.specs.OpenMembers.{ReportsRepeatOf};
    ghost use Rattle.jsonb_spec.specs.Text.StringText.{ArePlain};
    ghost use Rattle.text_write.specs.TextSink.{IsEncoded};

    /// A buffer to whose end a value's sort key is written.
    pub fn new(alloc: Global, text: &'a [u8], out: Vec<u8>) -> KeySink<'a>
        ensures base { base_of result ≡ out.items }
        ensures holds { KeyHolds text.entry.now result true [] [] }
    {
        let base = out.len();
        KeySink {
            out,
            base,
            members: OpenMembers::new(alloc, text),
        }
    }

    // Writes bytes.
    #[inline(always)]
    fn append(&mut self, bytes: &[u8]) -> Result<(), AllocError>
        ensures bytes { OnOk result (Writes bytes.now self.old self.new) }
        ensures base { base_of self.new ≡ base_of self.old }
    {
        self.out.extend_from_slice(bytes)
    }

    // Writes a number.
    #[inline(never)]
    fn number(&mut self, number: &Number) -> Result<(), AllocError>
        ensures bytes { OnOk result (Writes (number_key (number_view number.now)) self.old self.new) }
        ensures base { base_of self.new ≡ base_of self.old }
    {
        append_number_key(number, &mut self.out)
    }

    // Writes a member's key, or a string behind the byte that says its kind.
    #[inline(always)]
    fn append_text(&mut self, text: &str) -> Result<(), AllocError>
        ensures bytes { OnOk result (Writes (text_key text.now) self.old self.new) }
        ensures base { base_of self.new ≡ base_of self.old }
    {
        append_text_key(text, &mut self.out)
    }

    // Writes a string.
    #[inline(never)]
    fn string(&mut self, string: &str) -> Result<(), AllocError>
        ensures bytes { OnOk result (Writes (kind.string ∷ text_key string.now) self.old self.new) }
        ensures base { base_of self.new ≡ base_of self.old }
    {
        self.append(&[kind::STRING])?;
        self.append_text(string)
    }

    // Writes a string, given its contents.
    #[inline(always)]
    fn contents(&mut self, contents: &Contents<'_>) -> Result<(), AllocError>
        ensures bytes { OnOk result (Writes (kind.string ∷ text_key (text_of_contents contents.now)) self.old self.new) }
        ensures base { base_of self.new ≡ base_of self.old }
    {
        self.out.extend_from_slice(&[kind::STRING])?;
        append_contents_key(
            contents.body.as_bytes(),
            contents.mode,
            &mut self.out,
            &mut self.members.decoded,
        )
    }

    // Writes a member's key from where it is in the text.
    #[inline(always)]
    fn preserve_text(&mut self, from: usize, to: usize) -> Result<(), AllocError>
        requires ordered { from ≤ to }
        requires inside { to ≤ length self.old.members.text.now }
        ensures bytes { OnOk result (ArePlain (slice_range self.old.members.text.now from to)
            → Writes (text_key (slice_range self.old.members.text.now from to)) self.old self.new) }
        ensures base { base_of self.new ≡ base_of self.old }
    {
        append_key_text(&self.members.text[from..], to - from, &mut self.out)
    }

    // Writes a string that is there in the text in double quotes, and none of whose bytes has an escape.
    #[inline(always)]
    fn plain(&mut self, string: &str, from: usize, to: usize) -> Result<(), AllocError>
        ensures bytes { OnOk result ((from < to → (slice_range self.old.members.text.now from to ≡ in_quotes string.now)
            × ArePlain string.now) → Writes (kind.string ∷ text_key string.now) self.old self.new) }
        ensures base { base_of self.new ≡ base_of self.old }
    {
        if self.members.has_range(from, to) && to - from > 1 {
            return append_with_kind(
                kind::STRING,
                &self.members.text[from..],
                to - from - 1,
                &mut self.out,
            );
        }
        self.string(string)
    }

    // Writes a value that holds no others.
    #[inline(always)]
    fn part(&mut self, part: &Part<'a>, from: usize, to: usize) -> Result<(), AllocError>
        ensures bytes { OnOk result (IsEncoded self.old.members.text.now from to part.now
            → Writes (part_key part.now) self.old self.new) }
        ensures base { base_of self.new ≡ base_of self.old }
    {
        match part {
            Part::Written => Ok(()),
            Part::Null => self.append(&[kind::NULL]),
            Part::Bool(true) => self.append(&[kind::TRUE]),
            Part::Bool(false) => self.append(&[kind::FALSE]),
            Part::Number(number) => self.number(number),
            Part::Plain(string) => self.plain(string, from, to),
            Part::String(CowStr::Borrowed(string)) => self.string(string),
            Part::String(CowStr::Owned(string)) => self.string(string.as_str()),
            Part::Contents(contents) => self.contents(contents),
        }
    }

    // Puts the members from an index on in the order of their keys. Where a key comes twice, it returns the member where
    // the least such key comes the second time.
    #[inline(always)]
    fn settle(&mut self, first: usize) -> Result<Option<Repeat>, Unsettled>
        ensures same { OnOk result (PreservesMembers self.old self.new) }
        ensures repeat { IfOk result (λ repeat. (text : List ℕ) → (held : List Held) → (fs : List Found)
            → (key : Mark × List ℕ) → (offset : ℕ) → (cs : List Open)
            → KeyHolds text self.old false (members first ∷ held) (members_so_far fs key offset ∷ cs)
            → MatchOption repeat (IsSettled self.old self.new fs cs) (ReportsRepeatOf self.new.members fs)) }
        ensures base { base_of self.new ≡ base_of self.old }
    {
        if self.members.ascend(first) {
            return Ok(None);
        }
        let site = Site {
            floor: self.base,
            commas: false,
            copied: self.out.len(),
            source: &[],
        };
        self.members.put_in_order(first, &mut self.out, &site)
    }

    // Writes the end of an object, whose members are held no longer.
    #[inline(always)]
    fn close(&mut self, first: usize) -> Result<(), AllocError>
        ensures end { OnOk result (Closes first self.old self.new) }
        ensures base { base_of self.new ≡ base_of self.old }
    {
        self.members.close(first);
        self.append(&[kind::TERMINATOR, kind::TERMINATOR])
    }

    /// The end of a whole value: all of it is in the buffer.
    #[inline(always)]
    pub fn finish(&mut self) -> Result<(), AllocError>
        ensures ok { OnOk result ((text : List ℕ) → (s : Source) → KeyFilled text self.old s [] []
            → self.new.out.items ≡ base_of self.old ++ source_key s) }
        ensures base { base_of self.new ≡ base_of self.old }
    {
        Ok(())
    }

    /// The buffer, with all that is in it.
    pub fn into_buffer(self) -> Vec<u8>
        ensures { result.items ≡ self.entry.out.items }
    {
        let KeySink { out, .. } = self;
        out
    }

    /// The buffer, as it was before anything was written.
    pub fn take_back(self) -> Vec<u8>
        ensures { result.items ≡ base_of self.entry }
    {
        let base = self.base;
        let mut out = self.into_buffer();
        out.truncate(base);
        out
    }
}

impl<'a> Sink<'a> for KeySink<'a> {
    ghost use Rattle.text_write.specs.KeySink.{Held, KeyFilled, KeyHolds, base_of};
    ghost use Rattle.text_write.specs.KeySink.Held.{items, members};

    // Nothing.
    type Items = ();

    // The index of the object's first member.
    type Members = usize;

    ghost Held = { Held };

    ghost array = { λ u. items };

    ghost object = { members };

    ghost holds = { KeyHolds };

    ghost filled = { KeyFilled };

    ghost base = { λ sink. base_of sink ∷ [] };

    ghost opened = { λ sink. sink.members };

    #[inline(always)]
    fn contents(
        body: &'a str,
        mode: Mode,
        offset: usize,
    ) -> std::result::Result<Contents<'a>, Error> {
        Contents::new(body, mode, offset)
    }

    #[inline(always)]
    fn fill(&mut self, part: &Part<'a>, from: usize, to: usize) -> Result<(), AllocError> {
        self.part(part, from, to)
    }

    #[inline(always)]
    fn fill_verbatim(
        &mut self,
        verbatim: Verbatim,
        from: usize,
        to: usize,
    ) -> Result<(), AllocError> {
        self.verbatim(verbatim, from, to)
    }

    #[inline(always)]
    fn begin_array(&mut self, at: usize) -> Result<(), AllocError> {
        self.append(&[kind::ARRAY])
    }

    #[inline(always)]
    fn passes(&self, items: &()) -> bool {
        false
    }

    #[inline(always)]
    fn next_item(&mut self, items: &mut ()) -> Result<(), AllocError> {
        Ok(())
    }

    #[inline(always)]
    fn push_inner(&mut self, items: &mut ()) {}

    #[inline(always)]
    fn end_array(&mut self, items: &(), at: usize) -> Result<(), AllocError> {
        self.append(&[kind::TERMINATOR])
    }

    #[inline(always)]
    fn begin_object(&mut self, at: usize) -> Result<usize, AllocError> {
        self.append(&[kind::OBJECT])?;
        Ok(self.members.len())
    }

    #[inline(always)]
    fn cut_key(
        &mut self,
        first: &usize,
        key: &'a str,
        is_plain: bool,
        from: usize,
        after: usize,
    ) -> Result<(), AllocError> {
        if from == 0 || !self.members.has_range(from, after) {
            return self.key(first, key, after);
        }
        let start = self.out.len();
        self.members.begin_within(from, after - 1, after, start)?;
        if is_plain {
            return self.preserve_text(from, after - 1);
        }
        self.append_text(key)
    }

    #[inline(never)]
    fn key(&mut self, first: &usize, key: &str, after: usize) -> Result<(), AllocError> {
        let start = self.out.len();
        self.members.begin_decoded(key, after, start)?;
        self.append_text(key)
    }

    #[inline(always)]
    fn insert_inner(&mut self, first: &usize) {}

    #[inline(always)]
    fn end_object(&mut self, first: &usize, at: usize) -> Result<Option<Repeat>, Unsettled> {
        let repeat = self.settle(*first)?;
        if repeat.is_some() {
            return Ok(repeat);
        }
        self.close(*first)?;
        Ok(None)
    }

    #[inline(always)]
    fn open_members(&self) -> &OpenMembers<'a> {
        &self.members
    }
}
