//! Bytes that are written while a text is parsed: a buffer, and behind it a part of the text that is written as it
//! is, and copied when the part ends.
ghost use Rattle.std.specs.Prelude.{◌≡◌, ◌+◌, ◌<◌, ◌≤◌, ◌++◌, ◌∷◌, [], ℕ, List, true, length, map, take, slice_range, IfOk, OnOk};

use crate::contents::Contents;
use crate::escaped::append_contents;
use crate::short::append_first;
use jsonb_core::number::Number;
use jsonb_core::parts::{append_number, append_string};
use std::alloc::AllocError;
use text_members::object::Site;
use text_members::open_members::{OpenMembers, Repeat, Unsettled};

/// What is written: the buffer, and the text from one index to another.
#[derive(Drop)]
pub struct Written<'a> {
    pub text: &'a [u8],
    pub out: Vec<u8>,
    pub from: usize,
    pub end: usize,
    pub ghost ordered: { from ≤ end },
    pub ghost inside: { end ≤ length text.now },
}

impl<'a> Written<'a> {
    ghost use Rattle.jsonb_spec.specs.Text.Appending.{Extends};
    ghost use Rattle.jsonb_spec.specs.Text.NumberText.{number_text};
    ghost use Rattle.jsonb_spec.specs.Text.StringText.{quoted_text};
    ghost use Rattle.jsonb_core.specs.View.{number_view};
    ghost use Rattle.text_write.specs.Contents.{text_of_contents};
    ghost use Rattle.text_members.specs.OpenMembers.{AreSame, PutsInOrder};
    ghost use Rattle.text_write.specs.Written.{bytes_of};

    /// A buffer, and no part of the text.
    pub fn new(text: &'a [u8], out: Vec<u8>) -> Written<'a>
        ensures bytes { bytes_of result ≡ out.items }
        ensures text { result.text ≡ text.entry }
        ensures out { result.out ≡ out }
    {
        Written {
            text,
            out,
            from: 0,
            end: 0,
        }
    }

    /// The same buffer, and no part of another text.
    #[inline(always)]
    pub(crate) fn restart(&mut self, text: &'a [u8])
        ensures bytes { bytes_of self.new ≡ self.old.out.items }
        ensures text { self.new.text ≡ text.entry }
        ensures out { self.new.out ≡ self.old.out }
    {
        self.from = 0;
        self.end = 0;
        self.text = text;
    }

    /// Copies the part of the text to the buffer.
    #[inline(always)]
    pub fn flush(&mut self) -> Result<(), AllocError>
        ensures bytes { OnOk result (bytes_of self.new ≡ bytes_of self.old) }
        ensures copied { OnOk result (bytes_of self.new ≡ self.new.out.items) }
        ensures text { self.new.text ≡ self.old.text }
        ensures retained { Extends self.old.out.items self.new.out.items }
        ensures end { self.new.end ≡ self.old.end }
        ensures empty { OnOk result (slice_range self.new.text.now self.new.from self.new.end ≡ []) }
    {
        append_first(&self.text[self.from..], self.end - self.from, &mut self.out)?;
        self.from = self.end;
        Ok(())
    }

    /// Writes a byte. Mostly it is the next one of the text.
    #[inline(always)]
    pub fn put(&mut self, byte: u8) -> Result<(), AllocError>
        ensures bytes { OnOk result (bytes_of self.new ≡ bytes_of self.old ++ byte ∷ []) }
        ensures text { self.new.text ≡ self.old.text }
        ensures retained { Extends self.old.out.items self.new.out.items }
    {
        self.put_at(byte, self.end)
    }

    /// Writes a byte that may be in the text at an index, where it isn't the next one.
    #[inline(always)]
    pub(crate) fn put_at(&mut self, byte: u8, at: usize) -> Result<(), AllocError>
        ensures bytes { OnOk result (bytes_of self.new ≡ bytes_of self.old ++ byte ∷ []) }
        ensures text { self.new.text ≡ self.old.text }
        ensures retained { Extends self.old.out.items self.new.out.items }
    {
        if self.end < self.text.len() && self.text[self.end] == byte {
            self.end += 1;
            return Ok(());
        }
        self.begin_at(byte, at)
    }

    // Copies the part of the text, and begins another with the byte at an index, where it is there.
    #[inline(never)]
    fn begin_at(&mut self, byte: u8, at: usize) -> Result<(), AllocError>
        ensures bytes { OnOk result (bytes_of self.new ≡ bytes_of self.old ++ byte ∷ []) }
        ensures text { self.new.text ≡ self.old.text }
        ensures retained { Extends self.old.out.items self.new.out.items }
    {
        if at < self.text.len() && self.text[at] == byte {
            return self.begin_part(at, at + 1);
        }
        self.append(&[byte])
    }

    /// Writes other bytes than those of the text.
    #[inline(never)]
    pub fn append(&mut self, bytes: &[u8]) -> Result<(), AllocError>
        ensures bytes { OnOk result (bytes_of self.new ≡ bytes_of self.old ++ bytes.now) }
        ensures text { self.new.text ≡ self.old.text }
        ensures retained { Extends self.old.out.items self.new.out.items }
    {
        self.flush()?;
        self.out.extend_from_slice(bytes)
    }

    /// Writes a number. This is the index after it in the text, so that what follows it may be written with it; the
    /// bytes don't depend on it.
    #[inline(never)]
    pub fn append_number(&mut self, number: &Number, after: usize) -> Result<(), AllocError>
        ensures bytes { OnOk result (bytes_of self.new ≡ bytes_of self.old ++ number_text (number_view number.now)) }
        ensures text { self.new.text ≡ self.old.text }
        ensures retained { Extends self.old.out.items self.new.out.items }
    {
        self.flush()?;
        append_number(number, &mut self.out)?;
        self.go_on(after);
        Ok(())
    }

    /// Writes a string, in double quotes and with the escapes that it needs.
    #[inline(never)]
    pub fn append_string(&mut self, string: &str) -> Result<(), AllocError>
        ensures bytes { OnOk result (bytes_of self.new ≡ bytes_of self.old ++ quoted_text string.now) }
        ensures text { self.new.text ≡ self.old.text }
        ensures retained { Extends self.old.out.items self.new.out.items }
    {
        self.flush()?;
        append_string(string, &mut self.out)
    }

    /// Writes a string so, given its contents. Where it is in the text, this is the index after it, so that what
    /// follows it may be written with it; the bytes don't depend on it.
    #[inline(never)]
    pub fn append_escaped(
        &mut self,
        contents: &Contents<'_>,
        after: usize,
    ) -> Result<(), AllocError>
        ensures bytes { OnOk result (bytes_of self.new ≡ bytes_of self.old ++ quoted_text (text_of_contents contents.now)) }
        ensures text { self.new.text ≡ self.old.text }
        ensures retained { Extends self.old.out.items self.new.out.items }
    {
        self.put(b'"')?;
        self.flush()?;
        // With space for the closing quote too, which is copied as the first of 32 bytes, a long string lets the buffer
        // grow once.
        self.out.try_reserve(contents.body.len() + 32)?;
        append_contents(contents.body.as_bytes(), contents.mode, &mut self.out)?;
        self.go_on(after.max(1) - 1);
        self.put(b'"')
    }

    // Goes on at an index of the text, where all that is written is in the buffer.
    #[inline(always)]
    pub(crate) fn go_on(&mut self, at: usize)
        requires { slice_range self.old.text.now self.old.from self.old.end ≡ [] }
        ensures bytes { bytes_of self.new ≡ bytes_of self.old }
        ensures text { self.new.text ≡ self.old.text }
        ensures out { self.new.out ≡ self.old.out }
    {
        let at = at.min(self.text.len());
        self.from = at;
        self.end = at;
    }

    /// Writes what is in the text from one index to another.
    #[inline(always)]
    pub(crate) fn preserve(&mut self, from: usize, to: usize) -> Result<(), AllocError>
        requires ordered { from ≤ to }
        requires inside { to ≤ length self.old.text.now }
        ensures bytes { OnOk result (bytes_of self.new ≡ bytes_of self.old ++ slice_range self.old.text.now from to) }
        ensures text { self.new.text ≡ self.old.text }
        ensures retained { Extends self.old.out.items self.new.out.items }
    {
        if from == self.end {
            self.end = to;
            return Ok(());
        }
        self.begin_part(from, to)
    }

    // Copies the part of the text, and begins another.
    #[inline(never)]
    fn begin_part(&mut self, from: usize, to: usize) -> Result<(), AllocError>
        requires ordered { from ≤ to }
        requires inside { to ≤ length self.old.text.now }
        ensures bytes { OnOk result (bytes_of self.new ≡ bytes_of self.old ++ slice_range self.old.text.now from to) }
        ensures text { self.new.text ≡ self.old.text }
        ensures retained { Extends self.old.out.items self.new.out.items }
    {
        let (first, count) = (self.from, self.end - self.from);
        self.from = from;
        self.end = to;
        append_first(&self.text[first..], count, &mut self.out)
    }

    /// Puts the members from an index on, which end what is written, in the order of their keys, with commas between
    /// them, and reports the member where the least key that comes twice comes the second time. The first `floor` bytes
    /// stay.
    #[cold]
    #[inline(never)]
    pub(crate) fn settle(
        &mut self,
        members: &mut OpenMembers<'_>,
        first: usize,
        floor: usize,
    ) -> Result<Option<Repeat>, Unsettled>
        ensures same { AreSame members.old members.new }
        ensures order { IfOk result (PutsInOrder true floor members.old members.new first (bytes_of self.old)
            (bytes_of self.new)) }
        ensures text { self.new.text ≡ self.old.text }
        ensures retained { Extends (take floor self.old.out.items) self.new.out.items }
    {
        let (from, copied) = (self.from, self.out.len());
        self.flush()?;
        let site = Site {
            floor,
            commas: true,
            copied,
            source: &self.text[from..],
        };
        members.put_in_order(first, &mut self.out, &site)
    }

    /// How many bytes are written.
    #[inline(always)]
    pub fn len(&self) -> usize
        ensures { result ≡ length (bytes_of self.now) }
    {
        self.out.len() + (self.end - self.from)
    }
}
