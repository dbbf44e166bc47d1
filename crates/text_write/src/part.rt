//! The text of one part of a document. The part is written, and all around it is only checked.
ghost use Rattle.std.specs.Prelude.{◌≡◌, ◌+◌, ◌-◌, ◌<◌, ◌∷◌, ◌++◌, [], ℕ, List, Some, true, false, length, map, string_bytes, IfOk, MatchBool, OnOk};
ghost use Rattle.std.specs.Option.{option_and_then, option_map, unwrap_or};

use crate::check::CheckSink;
use crate::contents::Contents;
use crate::sink::Sink;
use crate::text::{Part, TextSink};
use jsonb_core::error::Error;
use jsonb_path::index_of;
use std::alloc::{AllocError, Global};
use text_common::verbatim::Verbatim;
use text_members::open_members::{OpenMembers, Repeat, Unsettled};
use text_scan::parser::Mode;

/// What is held of an array: whether it has no items yet, whether the one on the path is still to come, and how many
/// items come before that, and whether the array is on the path, and how many keys of the path lead to it. Of an array
/// that is written only the first counts. Flags beside the numbers take less space than options.
#[derive(Clone, Copy)]
pub struct PartItems {
    pub is_first: bool,
    pub is_ahead: bool,
    pub is_on_path: bool,
    pub ahead: usize,
    pub level: usize,
}

impl PartItems {
    ghost use Rattle.text_write.specs.PartSink.{ahead_of, level_of, less};

    // An array with no items yet, or one that is written.
    #[inline(always)]
    fn new(is_first: bool, ahead: Option<usize>, level: Option<usize>) -> PartItems
        ensures first { result.is_first ≡ is_first }
        ensures ahead { ahead_of result ≡ ahead }
        ensures level { level_of result ≡ level }
    {
        PartItems {
            is_first,
            is_ahead: ahead.is_some(),
            is_on_path: level.is_some(),
            ahead: ahead.unwrap_or(0),
            level: level.unwrap_or(0),
        }
    }

    // How many items come before the one on the path, if that is still to come.
    #[inline(always)]
    fn ahead(&self) -> Option<usize>
        ensures { result ≡ ahead_of self.now }
    {
        if self.is_ahead {
            Some(self.ahead)
        } else {
            None
        }
    }

    // How many keys of the path lead to the array, if it is on the path.
    #[inline(always)]
    fn level(&self) -> Option<usize>
        ensures { result ≡ level_of self.now }
    {
        if self.is_on_path {
            Some(self.level)
        } else {
            None
        }
    }

    // An item ended.
    #[inline(always)]
    fn pass(&mut self)
        ensures first { self.new.is_first ≡ self.old.is_first }
        ensures ahead { ahead_of self.new ≡ less (ahead_of self.old) }
        ensures level { level_of self.new ≡ level_of self.old }
    {
        if self.is_ahead {
            if self.ahead == 0 {
                self.is_ahead = false;
            } else {
                self.ahead -= 1;
            }
        }
    }
}

/// What is held of an object: the index of its first member, among those that are written or among those around the
/// part, and how many keys of the path lead to the object, if it is on the path.
#[derive(Clone, Copy)]
pub struct PartMembers {
    pub first: usize,
    pub level: Option<usize>,
}

/// The keys of the objects that are open around the part at a path, and the text of the part.
#[derive(Drop)]
pub struct PartSink<'a> {
    pub check: CheckSink<'a>,
    pub text: TextSink<'a>,
    pub path: &'a [String],
    /// How many keys of the path lead to the value that is due, if it is on the path. In the part this stays as it is.
    pub due: Option<usize>,
    /// How many of the containers that are open are written: the part, and what is open in it.
    pub inside: usize,
    /// Whether the part ended.
    pub found: bool,
}

impl<'a> PartSink<'a> {
    ghost use Rattle.jsonb_spec.specs.Source.Open.{Open};
    ghost use Rattle.jsonb_spec.specs.Source.Open.Open.{elements_so_far};
    ghost use Rattle.jsonb_spec.specs.Source.{Source};
    ghost use Rattle.text_write.specs.PartSink.{InnerEnds, IsAhead, IsAround, IsWritten, Leads, PartFilled, PartHeld, PartHolds, ahead_of, base_and_keys, first_index, first_key, follow_key, keys_of, level_of, other_keys, part_of, rest_at};
    ghost use Rattle.jsonb_spec.specs.PartAt.SoFar.{path_behind};
    ghost use Rattle.text_write.specs.PartSink.PartHeld.{array_held, object_held};
    ghost use Rattle.text_write.specs.TextSink.{base_of};

    /// No part yet, of a document of which nothing was parsed. The part comes to the end of a buffer.
    pub fn new(alloc: Global, text: &'a [u8], path: &'a [String], out: Vec<u8>) -> PartSink<'a>
        ensures holds { PartHolds text.entry.now result true [] [] }
        ensures base { base_and_keys result ≡ out.items ∷ map string_bytes path.entry.now }
    {
        PartSink {
            check: CheckSink::new(alloc, text),
            text: TextSink::new(alloc, text, out),
            path,
            due: Some(0),
            inside: 0,
            found: false,
        }
    }

    // The key of the path behind so many.
    #[inline(always)]
    fn next_key(&self, level: Option<usize>) -> Option<&str>
        ensures { option_map (λ key. key.now) result ≡ option_and_then first_key (rest_at (keys_of self.now) level) }
    {
        match self.path.get(level?) {
            Some(key) => Some(key.as_str()),
            None => None,
        }
    }

    // How many keys of the path lead to what is at one key more.
    fn deeper(&self, level: Option<usize>) -> Option<usize>
        ensures { rest_at (keys_of self.now) result
            ≡ option_and_then other_keys (rest_at (keys_of self.now) level) }
    {
        match level {
            Some(level) if level < self.path.len() => Some(level + 1),
            _ => None,
        }
    }

    // How many keys of the path lead to the member with this key.
    #[inline(always)]
    fn follow(&self, level: Option<usize>, key: &str) -> Option<usize>
        ensures { rest_at (keys_of self.now) result
            ≡ option_and_then (follow_key key.now) (rest_at (keys_of self.now) level) }
    {
        match self.next_key(level) {
            Some(next) if next == key => self.deeper(level),
            _ => None,
        }
    }

    // The index of the item that is on the path.
    fn index_ahead(&self, level: Option<usize>) -> Option<usize>
        ensures { result ≡ option_and_then first_index (rest_at (keys_of self.now) level) }
    {
        match self.next_key(level) {
            Some(key) => index_of(key),
            None => None,
        }
    }

    // Whether the whole path leads there.
    #[inline(always)]
    fn is_part(&self, level: Option<usize>) -> bool
        ensures { MatchBool result (rest_at (keys_of self.now) level ≡ Some [])
            (rest_at (keys_of self.now) level ≡ Some [] → ⊥) }
    {
        match level {
            Some(level) => level >= self.path.len(),
            None => false,
        }
    }

    // Whether the value that is due is written: it is the part, or is in it.
    #[inline(always)]
    pub(crate) fn is_written(&self) -> bool
        ensures { MatchBool result (IsWritten self.now) (IsAround self.now) }
    {
        if self.inside > 0 {
            return true;
        }
        self.is_part(self.due) && !self.found
    }

    // How many of the containers that are open are written, and one more.
    #[inline(always)]
    pub(crate) fn one_more(&self) -> Result<usize, AllocError>
        ensures { IfOk result (λ inside. inside ≡ self.now.inside + 1) }
    {
        match self.inside.checked_add(1) {
            Some(inside) => Ok(inside),
            None => Err(AllocError),
        }
    }

    // The part is written.
    #[inline(never)]
    fn finish(&mut self) -> Result<(), AllocError>
        ensures holds { OnOk result ((text : List ℕ) → (s : Source) → (held : List PartHeld) → (cs : List Open)
            → InnerEnds text self.old s held cs → self.old.inside ≡ 1 → PartFilled text self.new s held cs) }
        ensures base { base_and_keys self.new ≡ base_and_keys self.old }
    {
        self.text.finish()?;
        self.inside = 0;
        self.found = true;
        Ok(())
    }

    // A container that is written ended.
    #[inline(always)]
    pub(crate) fn end_inner(&mut self) -> Result<(), AllocError>
        requires { 0 < self.old.inside }
        ensures holds { OnOk result ((text : List ℕ) → (s : Source) → (held : List PartHeld) → (cs : List Open)
            → InnerEnds text self.old s held cs → PartFilled text self.new s held cs) }
        ensures base { base_and_keys self.new ≡ base_and_keys self.old }
    {
        if self.inside == 1 {
            return self.finish();
        }
        self.inside -= 1;
        Ok(())
    }

    // How many keys of the path lead to the next item.
    #[inline(always)]
    fn item_level(&self, items: &PartItems) -> Option<usize>
        ensures { (ss : List Source) → (cs : List Open) → Leads (keys_of self.now) (level_of items.now) cs
            → IsAhead (option_and_then first_index (path_behind (keys_of self.now) cs)) (ahead_of items.now) (length ss)
            → Leads (keys_of self.now) result (elements_so_far ss ∷ cs) }
    {
        match items.ahead() {
            Some(0) => self.deeper(items.level()),
            _ => None,
        }
    }

    /// The buffer with the part, where the document has it, and else as it was before.
    pub fn into_buffer(self) -> Vec<u8>
        ensures { result.items ≡ base_of self.entry.text ++ unwrap_or (part_of self.entry) [] }
    {
        let PartSink { text, found, .. } = self;
        if found {
            return text.into_buffer();
        }
        text.take_back()
    }

    /// The buffer, as it was before anything was written.
    pub fn take_back(self) -> Vec<u8>
        ensures { result.items ≡ base_of self.entry.text }
    {
        let PartSink { text, .. } = self;
        text.take_back()
    }
}

impl<'a> Sink<'a> for PartSink<'a> {
    ghost use Rattle.text_write.specs.PartSink.{PartFilled, PartHeld, PartHolds, base_and_keys, members_of};
    ghost use Rattle.text_write.specs.PartSink.PartHeld.{array_held, object_held};

    type Items = PartItems;

    type Members = PartMembers;

    ghost Held = { PartHeld };

    ghost array = { array_held };

    ghost object = { object_held };

    ghost holds = { PartHolds };

    ghost filled = { PartFilled };

    ghost base = { base_and_keys };

    ghost opened = { members_of };

    #[inline(always)]
    fn contents(
        body: &'a str,
        mode: Mode,
        offset: usize,
    ) -> std::result::Result<Contents<'a>, Error> {
        Contents::new(body, mode, offset)
    }

    #[inline(always)]
    fn fill(&mut self, part: &Part<'a>, from: usize, to: usize) -> Result<(), AllocError> {
        if !self.is_written() {
            return Ok(());
        }
        self.text.fill(part, from, to)?;
        self.inside = self.one_more()?;
        self.end_inner()
    }

    #[inline(always)]
    fn fill_verbatim(
        &mut self,
        verbatim: Verbatim,
        from: usize,
        to: usize,
    ) -> Result<(), AllocError> {
        if !self.is_written() {
            return Ok(());
        }
        self.text.fill_verbatim(verbatim, from, to)?;
        self.inside = self.one_more()?;
        self.end_inner()
    }

    #[inline(always)]
    fn begin_array(&mut self, at: usize) -> Result<PartItems, AllocError> {
        if !self.is_written() {
            let ahead = self.index_ahead(self.due);
            return Ok(PartItems::new(true, ahead, self.due));
        }
        let is_first = self.text.begin_array(at)?;
        self.inside = self.one_more()?;
        Ok(PartItems::new(is_first, None, None))
    }

    // An item of an array that isn't on the path, or behind the one that is.
    #[inline(always)]
    fn passes(&self, items: &PartItems) -> bool {
        if self.inside > 0 {
            return false;
        }
        match self.due {
            Some(_) => false,
            None => !items.is_ahead,
        }
    }

    #[inline(always)]
    fn next_item(&mut self, items: &mut PartItems) -> Result<(), AllocError> {
        if self.inside > 0 {
            return self.text.next_item(&mut items.is_first);
        }
        self.due = self.item_level(items);
        Ok(())
    }

    #[inline(always)]
    fn push_inner(&mut self, items: &mut PartItems) {
        if self.inside > 0 {
            self.text.push_inner(&mut items.is_first);
            return;
        }
        items.pass();
    }

    #[inline(always)]
    fn end_array(&mut self, items: &PartItems, at: usize) -> Result<(), AllocError> {
        if self.inside == 0 {
            return Ok(());
        }
        self.text.end_array(&items.is_first, at)?;
        self.end_inner()
    }

    #[inline(always)]
    fn begin_object(&mut self, at: usize) -> Result<PartMembers, AllocError> {
        if !self.is_written() {
            return Ok(PartMembers {
                first: self.check.begin_object(),
                level: self.due,
            });
        }
        let first = self.text.begin_object(at)?;
        self.inside = self.one_more()?;
        Ok(PartMembers { first, level: None })
    }

    #[inline(always)]
    fn cut_key(
        &mut self,
        members: &PartMembers,
        key: &'a str,
        is_plain: bool,
        from: usize,
        after: usize,
    ) -> Result<(), AllocError> {
        if self.inside > 0 {
            return self
                .text
                .cut_key(&members.first, key, is_plain, from, after);
        }
        self.due = self.follow(members.level, key);
        self.check.cut_key(members.first, key, from, after)
    }

    fn key(&mut self, members: &PartMembers, key: &str, after: usize) -> Result<(), AllocError> {
        if self.inside > 0 {
            return self.text.key(&members.first, key, after);
        }
        self.due = self.follow(members.level, key);
        self.check.key(members.first, key, after)
    }

    #[inline(always)]
    fn insert_inner(&mut self, members: &PartMembers) {
        if self.inside > 0 {
            self.text.insert_inner(&members.first);
        }
    }

    #[inline(always)]
    fn end_object(
        &mut self,
        members: &PartMembers,
        at: usize,
    ) -> Result<Option<Repeat>, Unsettled> {
        if self.inside == 0 {
            let around = self.check.end_object(members.first)?;
            return Ok(around);
        }
        let repeat = self.text.end_object(&members.first, at)?;
        if repeat.is_none() {
            self.end_inner()?;
        }
        Ok(repeat)
    }

    fn open_members(&self) -> &OpenMembers<'a> {
        if self.inside > 0 {
            &self.text.members
        } else {
            &self.check.members
        }
    }
}
