//! What is written while a text is parsed: serialized text, a sort key, or the text of a part.
ghost use Rattle.std.specs.Prelude.{◌≡◌, ◌+◌, ◌-◌, ◌^◌, ◌<◌, ◌++◌, ◌∷◌, [], ℕ, List, Bool, true, false, length, slice_range, IfOk, MatchBool, MatchOption, OnOk};
ghost use Rattle.text_scan.specs.Answer.{mode_of};
ghost use Rattle.jsonb_spec.specs.Parsing.Decoding.{ReportsBackslash};
ghost use Rattle.jsonb_spec.specs.Source.Open.{Open, elements_so_far, members_so_far};
ghost use Rattle.jsonb_spec.specs.Parsing.String.{body_of};
ghost use Rattle.jsonb_spec.specs.Source.{Found, Source, array_source_of, found_member};
ghost use Rattle.jsonb_spec.specs.Text.{in_quotes};
ghost use Rattle.jsonb_spec.specs.Text.StringText.{ArePlain};
ghost use Rattle.jsonb_spec.specs.Tree.{Mark};
ghost use Rattle.jsonb_spec.specs.Tree.Mark.{plain};
ghost use Rattle.text_write.specs.Contents.{ChecksAs};
ghost use Rattle.text_members.specs.OpenMembers.{EndsObject, ReportsRepeatOf};
ghost use Rattle.jsonb_spec.specs.PartAt.SoFar.{HasNoParts};
ghost use Rattle.text_write.specs.TextSink.{IsEncoded, SeesPart};
ghost use Rattle.text_members.specs.declared.open_members.OpenMembers.{OpenMembers};
ghost use Rattle.text_common.specs.VerbatimScalar.{IsVerbatimAt};

use crate::contents::Contents;
use crate::text::Part;
use jsonb_core::error::Error;
use std::alloc::AllocError;
use text_common::verbatim::Verbatim;
use text_members::open_members::{OpenMembers, Repeat, Unsettled};
use text_scan::parser::Mode;

/// What a text's value is written to, part by part.
///
/// An element that is a scalar comes by `next_item`, `fill` or `fill_verbatim`, and `push_inner`, unless it `passes`; one
/// that is a container comes by its own calls instead of `fill`. A member comes by its key, and then so too, by `insert_inner` at last.
pub trait Sink<'a>: Drop + Sized {
    /// What is held of an array that is open.
    type Items: Drop;

    /// What is held of an object that is open.
    type Members: Drop;

    /// What is held of a container that is open.
    ghost Held: { Type 0 };

    /// That of an array.
    ghost array: { Self.Items → Held };

    /// That of an object.
    ghost object: { Self.Members → Held };

    /// Of this text, the sink and what is held of the open containers, the innermost first, hold what was parsed so
    /// far. A value is due (true), or the innermost was opened or one of its parts ended (false).
    ghost holds: { List ℕ → Self → Bool → List Held → List Open → Type 0 };

    /// A value of this source is in the sink, where one was due.
    ghost filled: { List ℕ → Self → Source → List Held → List Open → Type 0 };

    /// What the sink held before the text, and holds.
    ghost base: { Self → List (List ℕ) };

    /// The members among which those of the innermost object are.
    ghost opened: { Self → OpenMembers };

    /// The contents of a string that have escapes, for this sink. An error counts from `offset`.
    ///
    /// # Errors
    ///
    /// `Syntax` with the code and the offset that decoding the contents fails with.
    fn contents(
        body: &'a str,
        mode: Mode,
        offset: usize,
    ) -> std::result::Result<Contents<'a>, Error>
        requires escaped { ReportsBackslash body.now (length body.now) true }
        requires space { offset + length body.now < 2 ^ 64 }
        ensures { ChecksAs offset result (body_of (mode_of mode) body.now) };

    /// A value that holds no others, where one is due. Of a range that has bytes it is parsed from these.
    fn fill(&mut self, part: &Part<'a>, from: usize, to: usize) -> Result<(), AllocError>
        ensures holds { OnOk result ((text : List ℕ) → (s : Source) → (held : List Held) → (cs : List Open)
            → holds text self.old true held cs → SeesPart part.now s → IsEncoded text from to part.now
            → filled text self.new s held cs) }
        ensures base { base self.new ≡ base self.old };

    /// A value that is put in from where it is in the text, where one is due.
    fn fill_verbatim(
        &mut self,
        verbatim: Verbatim,
        from: usize,
        to: usize,
    ) -> Result<(), AllocError>
        ensures holds { OnOk result ((text : List ℕ) → (s : Source) → (held : List Held) → (cs : List Open)
            → holds text self.old true held cs → IsVerbatimAt verbatim text from to s → filled text self.new s held cs) }
        ensures base { base self.new ≡ base self.old };

    /// An array begins where a value is due. Its bracket is in the text at an index.
    fn begin_array(&mut self, at: usize) -> Result<Self::Items, AllocError>
        ensures holds { IfOk result (λ items. (text : List ℕ) → (held : List Held) → (cs : List Open)
            → holds text self.old true held cs
            → holds text self.new false (array items ∷ held) (elements_so_far [] ∷ cs)) }
        ensures base { base self.new ≡ base self.old };

    /// Whether the next item, where it holds no others, changes nothing, so that it needn't be put in.
    fn passes(&self, items: &Self::Items) -> bool
        ensures holds { MatchBool result ((text : List ℕ) → (s : Source) → (held : List Held) → (ss : List Source)
            → (cs : List Open) → HasNoParts s
            → holds text self.now false (array items.now ∷ held) (elements_so_far ss ∷ cs)
            → holds text self.now false (array items.now ∷ held) (elements_so_far (ss ++ s ∷ []) ∷ cs)) (Unit {0}) };

    /// What is before an item.
    fn next_item(&mut self, items: &mut Self::Items) -> Result<(), AllocError>
        ensures holds { OnOk result ((text : List ℕ) → (held : List Held) → (ss : List Source) → (cs : List Open)
            → holds text self.old false (array items.old ∷ held) (elements_so_far ss ∷ cs)
            → holds text self.new true (array items.new ∷ held) (elements_so_far ss ∷ cs)) }
        ensures base { base self.new ≡ base self.old };

    /// An item that ended.
    fn push_inner(&mut self, items: &mut Self::Items)
        ensures holds { (text : List ℕ) → (s : Source) → (held : List Held) → (ss : List Source) → (cs : List Open)
            → filled text self.old s (array items.old ∷ held) (elements_so_far ss ∷ cs)
            → holds text self.new false (array items.new ∷ held) (elements_so_far (ss ++ s ∷ []) ∷ cs) }
        ensures base { base self.new ≡ base self.old };

    /// The end of an array. Its bracket is in the text at an index.
    fn end_array(&mut self, items: &Self::Items, at: usize) -> Result<(), AllocError>
        ensures holds { OnOk result ((text : List ℕ) → (held : List Held) → (ss : List Source) → (cs : List Open)
            → holds text self.old false (array items.now ∷ held) (elements_so_far ss ∷ cs)
            → filled text self.new (array_source_of ss) held cs) }
        ensures base { base self.new ≡ base self.old };

    /// An object begins where a value is due. Its brace is in the text at an index.
    fn begin_object(&mut self, at: usize) -> Result<Self::Members, AllocError>
        ensures holds { IfOk result (λ members. (text : List ℕ) → (held : List Held) → (cs : List Open)
            → (key : Mark × List ℕ) → (offset : ℕ) → holds text self.old true held cs
            → holds text self.new false (object members ∷ held) (members_so_far [] key offset ∷ cs)) }
        ensures base { base self.new ≡ base self.old };

    /// A key whose bytes are in the text from an index above 0 on, in double quotes and without escapes, and the
    /// index after it. With 0 for the first index the key may be anywhere. Of one that is plain no byte has an escape.
    fn cut_key(
        &mut self,
        members: &Self::Members,
        key: &'a str,
        is_plain: bool,
        from: usize,
        after: usize,
    ) -> Result<(), AllocError>
        ensures holds { OnOk result ((text : List ℕ) → (held : List Held) → (fs : List Found) → (k : Mark × List ℕ)
            → (offset : ℕ) → (cs : List Open)
            → holds text self.old false (object members.now ∷ held) (members_so_far fs k offset ∷ cs)
            → (0 < from → slice_range text (from - 1) after ≡ in_quotes key.now) → (is_plain ≡ true → ArePlain key.now)
            → holds text self.new true (object members.now ∷ held) (members_so_far fs (plain, key.now) after ∷ cs)) }
        ensures base { base self.new ≡ base self.old };

    /// Any key, and the index after it in the text.
    fn key(&mut self, members: &Self::Members, key: &str, after: usize) -> Result<(), AllocError>
        ensures holds { OnOk result ((text : List ℕ) → (held : List Held) → (fs : List Found) → (k : Mark × List ℕ)
            → (offset : ℕ) → (cs : List Open) → (mark : Mark)
            → holds text self.old false (object members.now ∷ held) (members_so_far fs k offset ∷ cs)
            → holds text self.new true (object members.now ∷ held) (members_so_far fs (mark, key.now) after ∷ cs)) }
        ensures base { base self.new ≡ base self.old };

    /// A member's value that ended.
    fn insert_inner(&mut self, members: &Self::Members)
        ensures holds { (text : List ℕ) → (s : Source) → (held : List Held) → (fs : List Found)
            → (k : Mark × List ℕ) → (offset : ℕ) → (cs : List Open) → (next : Mark × List ℕ) → (other : ℕ)
            → filled text self.old s (object members.now ∷ held) (members_so_far fs k offset ∷ cs)
            → holds text self.new false (object members.now ∷ held)
            (members_so_far (fs ++ found_member k s offset ∷ []) next other ∷ cs) }
        ensures base { base self.new ≡ base self.old };

    /// The end of an object. Its brace is in the text at an index. Where a key comes twice, what is returned is the
    /// member where the least such key comes the second time. An error is want of memory, or that much was moved before.
    fn end_object(
        &mut self,
        members: &Self::Members,
        at: usize,
    ) -> Result<Option<Repeat>, Unsettled>
        ensures holds { IfOk result (λ repeat. (text : List ℕ) → (held : List Held) → (fs : List Found)
            → (key : Mark × List ℕ) → (offset : ℕ) → (cs : List Open)
            → holds text self.old false (object members.now ∷ held) (members_so_far fs key offset ∷ cs)
            → MatchOption repeat (EndsObject (filled text) self.new fs held cs)
            (ReportsRepeatOf (opened self.new) fs)) }
        ensures base { base self.new ≡ base self.old };

    /// The members among which those of the innermost object are.
    fn open_members(&self) -> &OpenMembers<'a>
        ensures { result.now ≡ opened self.now };
}
