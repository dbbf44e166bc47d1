//! What a text's value is written to while the text is parsed, with no value made: serialized text, a sort key, or the
//! text of a part.
ghost use Rattle.std.specs.Prelude.{◌≡◌, ℕ, List, None, OnOk, Some, map, true};
ghost use Rattle.jsonb.specs.Held.{IsScalarAt, held_by};
ghost use Rattle.jsonb_spec.specs.Source.Open.{Open};
ghost use Rattle.jsonb_spec.specs.Source.{Source};
ghost use Rattle.text_write.specs.TextSink.{SeesPart};

use super::repeat::report_repeat;
use crate::parser::Mode;
use jsonb_core::error::Error;
use std::alloc::{AllocError, Global};
use std::borrow::CowStr;
use std::marker::PhantomData;
use text_members::open_members::Unsettled;
use text_parse::{Failed, Handler, OpenObject, Scalar, Text, Verbatim, Wants};
use text_write::sink::Sink;
use text_write::text::Part;

// A scalar that isn't written to the sink yet, or a container that is.
#[derive(Drop)]
pub(in crate::parser) struct SinkPart<'a, S> {
    part: Part<'a>,
    // It is put in from where it is in the text.
    verbatim: Option<Verbatim>,
    sink: PhantomData<S>,
}

impl<'a, S: Sink<'a>> SinkPart<'a, S> {
    // A scalar that isn't written yet, or a value that is.
    #[inline(always)]
    fn of(part: Part<'a>) -> SinkPart<'a, S>
        ensures part { result.part ≡ part.entry }
        ensures retained { result.verbatim ≡ None }
    {
        SinkPart {
            part,
            verbatim: None,
            sink: PhantomData,
        }
    }

    // Writes the scalar where a value is due.
    #[inline(always)]
    fn fill(&self, sink: &mut S, from: usize, to: usize) -> Result<(), AllocError>
        ensures filled { OnOk result ((text : List ℕ) → (s : Source) → (held : List S.Held) → (cs : List Open)
            → S.holds text sink.old true held cs → IsScalarAt self.now.part self.now.verbatim from to text s
            → S.filled text sink.new s held cs) }
        ensures base { S.base sink.new ≡ S.base sink.old }
    {
        match self.verbatim {
            Some(verbatim) => sink.fill_verbatim(verbatim, from, to),
            None => sink.fill(&self.part, from, to),
        }
    }
}

impl<'a, S: Sink<'a>> Handler<'a> for SinkPart<'a, S> {
    type Sink = S;

    type Items = S::Items;

    type Members = S::Members;

    type Key = ();

    ghost sees = { λ v s. (v.verbatim ≡ None) × SeesPart v.part s };

    ghost is_verbatim = { λ k v. v.verbatim ≡ Some k };

    ghost holds = { λ text sink due fs cs. S.holds text sink due (map (held_by S.array S.object) fs) cs };

    ghost completes = { λ text sink f s fs cs. S.filled text sink s (map (held_by S.array S.object) fs) cs };

    ghost filled = { λ text sink v s fs cs. S.filled text sink s (map (held_by S.array S.object) fs) cs };

    ghost base = { S.base };

    ghost silent = { true };

    ghost writes = { true };

    ghost preserves = { true };

    ghost reports_plain = { true };

    #[inline(always)]
    fn wants() -> Wants
        ensures verbatim { result.verbatim ≡ true }
        ensures plain { result.plain ≡ true }
    {
        Wants {
            plain: true,
            verbatim: true,
        }
    }

    #[inline(always)]
    fn scalar(value: Scalar<'a>) -> Self {
        let verbatim = match value {
            Scalar::Verbatim(verbatim) => Some(verbatim),
            _ => None,
        };
        let part = match value {
            Scalar::Null => Part::Null,
            Scalar::Bool(value) => Part::Bool(value),
            Scalar::Number(value) => Part::Number(value),
            Scalar::String(Text::Plain(text)) => Part::Plain(text),
            Scalar::String(Text::Borrowed(text)) => Part::String(CowStr::Borrowed(text)),
            Scalar::String(Text::Decoded(text)) => Part::String(text),
            Scalar::Verbatim(_) => Part::Null,
        };
        SinkPart {
            part,
            verbatim,
            sink: PhantomData,
        }
    }

    #[inline(always)]
    fn escaped_string(
        alloc: Global,
        body: &'a str,
        mode: Mode,
        offset: usize,
    ) -> Result<Self, Error> {
        let contents = S::contents(body, mode, offset)?;
        Ok(SinkPart::of(Part::Contents(contents)))
    }

    #[inline(always)]
    fn root(sink: &mut S, value: &Self, from: usize, to: usize) -> Result<(), AllocError> {
        value.fill(sink, from, to)
    }

    #[inline(always)]
    fn items(sink: &mut S, alloc: Global, at: usize) -> Result<S::Items, AllocError> {
        sink.begin_array(at)
    }

    #[inline(always)]
    fn next_item(sink: &mut S, items: &mut S::Items) -> Result<(), AllocError> {
        sink.next_item(items)
    }

    #[inline(always)]
    fn push(
        sink: &mut S,
        items: &mut S::Items,
        value: Self,
        from: usize,
        to: usize,
    ) -> Result<(), AllocError> {
        if sink.passes(items) {
            return Ok(());
        }
        sink.next_item(items)?;
        value.fill(sink, from, to)?;
        sink.push_inner(items);
        Ok(())
    }

    #[inline(always)]
    fn push_inner(
        sink: &mut S,
        items: &mut S::Items,
        value: Self,
        is_last: bool,
    ) -> Result<(), AllocError> {
        sink.push_inner(items);
        Ok(())
    }

    #[inline(always)]
    fn end_items(sink: &mut S, items: &mut S::Items, at: usize) -> Result<(), AllocError> {
        sink.end_array(items, at)
    }

    #[inline(always)]
    fn array(sink: &S, items: S::Items) -> Self {
        SinkPart::of(Part::Written)
    }

    #[inline(always)]
    fn members(
        sink: &mut S,
        alloc: Global,
        at: usize,
    ) -> Result<OpenObject<S::Members, ()>, AllocError> {
        let members = sink.begin_object(at)?;
        Ok(OpenObject { members, key: () })
    }

    #[inline(always)]
    fn key(
        sink: &mut S,
        object: &mut OpenObject<S::Members, ()>,
        alloc: Global,
        text: Text<'a>,
        from: usize,
        after: usize,
    ) -> Result<(), AllocError> {
        match text {
            Text::Plain(text) => sink.cut_key(&object.members, text, true, from, after),
            Text::Borrowed(text) => sink.cut_key(&object.members, text, false, from, after),
            Text::Decoded(text) => sink.key(&object.members, text.as_str(), after),
        }
    }

    #[inline(always)]
    fn insert(
        sink: &mut S,
        object: &mut OpenObject<S::Members, ()>,
        key: (),
        value: Self,
        from: usize,
        to: usize,
    ) -> Result<bool, AllocError> {
        value.fill(sink, from, to)?;
        sink.insert_inner(&object.members);
        Ok(true)
    }

    #[inline(always)]
    fn insert_inner(
        sink: &mut S,
        object: &mut OpenObject<S::Members, ()>,
        alloc: Global,
        value: Self,
    ) -> Result<bool, AllocError> {
        sink.insert_inner(&object.members);
        Ok(true)
    }

    #[inline(always)]
    fn finish(
        sink: &mut S,
        alloc: Global,
        members: &mut S::Members,
        reported: &mut Option<Error>,
        at: usize,
    ) -> Result<(), Failed> {
        match sink.end_object(members, at) {
            Ok(None) => Ok(()),
            Ok(Some(repeat)) => {
                report_repeat(sink.open_members(), alloc, &repeat, reported);
                Err(Failed)
            }
            Err(Unsettled::OutOfMemory) => {
                *reported = Some(Error::OutOfMemory);
                Err(Failed)
            }
            Err(Unsettled::MovedMuch) => {
                *reported = None;
                Err(Failed)
            }
        }
    }

    #[inline(always)]
    fn object(sink: &S, members: S::Members) -> Self {
        SinkPart::of(Part::Written)
    }

    fn dismantle(self) {}
}
