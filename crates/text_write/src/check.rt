//! What is held of a text that is only checked: the keys of the objects that are open.
ghost use Rattle.std.specs.Prelude.{◌≡◌, ◌-◌, ◌<◌, ◌≤◌, ◌∷◌, [], ℕ, List, true, false, length, slice_range, IfOk, MatchBool, MatchOption, OnOk};

use std::alloc::{AllocError, Global};
use text_members::open_members::{OpenMembers, Repeat};

/// The members of the objects that are open, by their keys. Nothing is written.
#[derive(Drop)]
pub struct CheckSink<'a> {
    pub members: OpenMembers<'a>,
}

impl<'a> CheckSink<'a> {
    ghost use Rattle.jsonb_spec.specs.Source.Open.{Open};
    ghost use Rattle.jsonb_spec.specs.Source.Open.Open.{members_so_far};
    ghost use Rattle.jsonb_spec.specs.Source.{Found};
    ghost use Rattle.jsonb_spec.specs.Text.{in_quotes};
    ghost use Rattle.jsonb_spec.specs.Tree.{Mark};
    ghost use Rattle.jsonb_spec.specs.Tree.Mark.{plain};
    ghost use Rattle.text_write.specs.CheckSink.{CheckEnds, CheckHolds};
    ghost use Rattle.text_write.specs.KeySink.{Held};
    ghost use Rattle.text_write.specs.KeySink.Held.{members};
    ghost use Rattle.text_members.specs.OpenMembers.{ReportsRepeatOf};

    /// No object is open.
    pub fn new(alloc: Global, text: &'a [u8]) -> CheckSink<'a>
        ensures holds { CheckHolds text.entry.now result true [] [] }
    {
        CheckSink {
            members: OpenMembers::new(alloc, text),
        }
    }

    /// An object begins where a value is due. What is returned is the index of its first member.
    #[inline(always)]
    pub fn begin_object(&mut self) -> usize
        ensures holds { (text : List ℕ) → (held : List Held) → (cs : List Open) → (key : Mark × List ℕ) → (offset : ℕ)
            → CheckHolds text self.old true held cs
            → CheckHolds text self.new false (members result ∷ held) (members_so_far [] key offset ∷ cs) }
    {
        self.members.len()
    }

    /// A key whose bytes are in the text from an index above 0 on, in double quotes and without escapes, and the
    /// index after it. With 0 for the first index the key may be anywhere.
    #[inline(always)]
    pub fn cut_key(
        &mut self,
        first: usize,
        key: &'a str,
        from: usize,
        after: usize,
    ) -> Result<(), AllocError>
        ensures holds { OnOk result ((text : List ℕ) → (held : List Held) → (fs : List Found) → (k : Mark × List ℕ)
            → (offset : ℕ) → (cs : List Open)
            → CheckHolds text self.old false (members first ∷ held) (members_so_far fs k offset ∷ cs)
            → (0 < from → slice_range text (from - 1) after ≡ in_quotes key.now)
            → CheckHolds text self.new true (members first ∷ held) (members_so_far fs (plain, key.now) after ∷ cs)) }
    {
        if from == 0 || !self.members.has_range(from, after) {
            return self.key(first, key, after);
        }
        self.members.begin_within(from, after - 1, after, 0)
    }

    /// Any key, and the index after it in the text.
    #[inline(always)]
    pub fn key(&mut self, first: usize, key: &str, after: usize) -> Result<(), AllocError>
        ensures holds { OnOk result ((text : List ℕ) → (held : List Held) → (fs : List Found) → (k : Mark × List ℕ)
            → (offset : ℕ) → (cs : List Open) → (mark : Mark)
            → CheckHolds text self.old false (members first ∷ held) (members_so_far fs k offset ∷ cs)
            → CheckHolds text self.new true (members first ∷ held) (members_so_far fs (mark, key.now) after ∷ cs)) }
    {
        self.members.begin_decoded(key, after, 0)
    }

    /// The end of an object, whose members are held no longer. Where a key comes twice, what is returned is the member
    /// where the least such key comes the second time.
    #[inline(always)]
    pub fn end_object(&mut self, first: usize) -> Result<Option<Repeat>, AllocError>
        ensures holds { IfOk result (λ repeat. (text : List ℕ) → (held : List Held) → (fs : List Found)
            → (key : Mark × List ℕ) → (offset : ℕ) → (cs : List Open)
            → CheckHolds text self.old false (members first ∷ held) (members_so_far fs key offset ∷ cs)
            → MatchOption repeat (CheckEnds text self.new fs held cs) (ReportsRepeatOf self.new.members fs)) }
    {
        let repeat = self.members.find_repeat(first)?;
        if repeat.is_none() {
            self.members.close(first);
        }
        Ok(repeat)
    }
}
