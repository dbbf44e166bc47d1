//! A `JsonAst` reports each fault, and holds its members in a vector until the object ends.
ghost use Rattle.std.specs.Prelude.{◌≡◌, List, [], map, true, false};
ghost use Rattle.std.specs.Cow.{cow_str_bytes};
ghost use Rattle.jsonb_core.specs.View.{mark_view};
ghost use Rattle.jsonb.specs.FrameContents.{Completes, FramesHold};
ghost use Rattle.jsonb.specs.Source.{found_of, source_view};
ghost use Rattle.jsonb_spec.specs.Source.{object_source, source_members_of};

use super::value::{grow, push_scalar};
use crate::parser::members::{Member, settle_members};
use crate::parser::{JsonAst, Mode};
use jsonb_core::error::Error;
use std::alloc::{AllocError, Global};
use std::borrow::CowStr;
use std::mem;
use text_parse::{Failed, Handler, OpenObject, Scalar, Text, Wants};
use text_scan::parser::string::decode_contents;

impl<'a> Handler<'a> for JsonAst<'a> {
    type Sink = ();

    type Items = Vec<JsonAst<'a>>;

    type Members = Vec<Member<'a>>;

    type Key = (CowStr<'a>, usize);

    ghost sees = { λ v s. source_view v ≡ s };

    // Nothing is held.
    ghost is_verbatim = { λ k v. ⊥ };

    ghost holds = { λ text sink due fs cs. FramesHold (λ v s. source_view v ≡ s) (λ key k offset. ((mark_view key.0, cow_str_bytes key.0) ≡ k) × (key.1 ≡ offset)) (λ ms found. map found_of ms.items ≡ found) due fs cs };

    ghost completes = { λ text sink f s fs cs. Completes (λ v s. source_view v ≡ s) (λ ms s. object_source (source_members_of (map found_of ms.items)) ≡ s) f s × FramesHold (λ v s. source_view v ≡ s) (λ key k offset. ((mark_view key.0, cow_str_bytes key.0) ≡ k) × (key.1 ≡ offset)) (λ ms found. map found_of ms.items ≡ found) true fs cs };

    ghost filled = { λ text sink v s fs cs. (source_view v ≡ s) × FramesHold (λ v s. source_view v ≡ s) (λ key k offset. ((mark_view key.0, cow_str_bytes key.0) ≡ k) × (key.1 ≡ offset)) (λ ms found. map found_of ms.items ≡ found) true fs cs };

    ghost base = { λ sink. [] };

    ghost silent = { false };

    ghost writes = { false };

    ghost preserves = { false };

    ghost reports_plain = { true };

    #[inline(always)]
    fn wants() -> Wants
        ensures verbatim { result.verbatim ≡ false }
        ensures plain { result.plain ≡ true }
    {
        Wants {
            plain: true,
            verbatim: false,
        }
    }

    #[inline(always)]
    fn scalar(value: Scalar<'a>) -> Self {
        match value {
            Scalar::Null => JsonAst::Null,
            Scalar::Bool(value) => JsonAst::Bool(value),
            Scalar::Number(value) => JsonAst::Number(value),
            Scalar::String(Text::Plain(text)) => JsonAst::String(CowStr::Borrowed(text)),
            Scalar::String(Text::Borrowed(text)) => JsonAst::String(CowStr::Borrowed(text)),
            Scalar::String(Text::Decoded(text)) => JsonAst::String(text),
            Scalar::Verbatim(_) => JsonAst::Null,
        }
    }

    #[inline(always)]
    fn escaped_string(
        alloc: Global,
        body: &'a str,
        mode: Mode,
        offset: usize,
    ) -> Result<Self, Error> {
        let text = decode_contents(alloc, body.as_bytes(), mode, true, offset)?;
        Ok(JsonAst::String(text))
    }

    #[inline(always)]
    fn root(sink: &mut (), value: &Self, from: usize, to: usize) -> Result<(), AllocError> {
        Ok(())
    }

    #[inline(always)]
    fn items(sink: &mut (), alloc: Global, at: usize) -> Result<Vec<Self>, AllocError> {
        Ok(Vec::new(alloc))
    }

    #[inline(always)]
    fn next_item(sink: &mut (), items: &mut Vec<Self>) -> Result<(), AllocError> {
        Ok(())
    }

    #[inline(always)]
    fn push(
        sink: &mut (),
        items: &mut Vec<Self>,
        value: Self,
        from: usize,
        to: usize,
    ) -> Result<(), AllocError> {
        push_scalar(items, value)
    }

    #[inline(always)]
    fn push_inner(
        sink: &mut (),
        items: &mut Vec<Self>,
        value: Self,
        is_last: bool,
    ) -> Result<(), AllocError> {
        grow(items, is_last);
        push_scalar(items, value)
    }

    #[inline(always)]
    fn end_items(sink: &mut (), items: &mut Vec<Self>, at: usize) -> Result<(), AllocError> {
        Ok(())
    }

    #[inline(always)]
    fn array(sink: &(), items: Vec<Self>) -> Self {
        JsonAst::Array(items)
    }

    #[inline(always)]
    fn members(
        sink: &mut (),
        alloc: Global,
        at: usize,
    ) -> Result<OpenObject<Vec<Member<'a>>, (CowStr<'a>, usize)>, AllocError> {
        Ok(OpenObject {
            members: Vec::new(alloc),
            key: (CowStr::Borrowed(""), 0),
        })
    }

    #[inline(always)]
    fn key(
        sink: &mut (),
        object: &mut OpenObject<Vec<Member<'a>>, (CowStr<'a>, usize)>,
        alloc: Global,
        text: Text<'a>,
        from: usize,
        after: usize,
    ) -> Result<(CowStr<'a>, usize), AllocError> {
        match text {
            Text::Plain(text) => Ok((CowStr::Borrowed(text), after)),
            Text::Borrowed(text) => Ok((CowStr::Borrowed(text), after)),
            Text::Decoded(text) => Ok((text, after)),
        }
    }

    #[inline(always)]
    fn insert(
        sink: &mut (),
        object: &mut OpenObject<Vec<Member<'a>>, (CowStr<'a>, usize)>,
        key: (CowStr<'a>, usize),
        value: Self,
        from: usize,
        to: usize,
    ) -> Result<bool, AllocError> {
        let (text, after) = key;
        push_scalar(&mut object.members, (text, value, after))?;
        Ok(true)
    }

    #[inline(always)]
    fn insert_inner(
        sink: &mut (),
        object: &mut OpenObject<Vec<Member<'a>>, (CowStr<'a>, usize)>,
        alloc: Global,
        value: Self,
    ) -> Result<bool, AllocError> {
        let (text, after) = mem::replace(&mut object.key, (CowStr::Borrowed(""), 0));
        push_scalar(&mut object.members, (text, value, after))?;
        Ok(true)
    }

    #[inline(always)]
    fn finish(
        sink: &mut (),
        alloc: Global,
        members: &mut Vec<Member<'a>>,
        reported: &mut Option<Error>,
        at: usize,
    ) -> Result<(), Failed> {
        if let Err(error) = settle_members(alloc, members) {
            *reported = Some(error);
            return Err(Failed);
        }
        Ok(())
    }

    #[inline(always)]
    fn object(sink: &(), members: Vec<Member<'a>>) -> Self {
        JsonAst::Object(members)
    }

    fn dismantle(self) {}
}
