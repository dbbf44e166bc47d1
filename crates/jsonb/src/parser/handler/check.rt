//! Nothing is made of a text that is only checked. The keys of the objects that are open are held, so that one that
//! comes twice is reported.
ghost use Rattle.std.specs.Prelude.{◌≡◌, ℕ, List, [], false, map, true};
ghost use Rattle.jsonb_core.specs.View.{number_view};
ghost use Rattle.jsonb.specs.Held.{IsAnyValue, key_held};
ghost use Rattle.jsonb_spec.specs.Source.{boolean_source, null_source, number_source};
ghost use Rattle.text_write.specs.CheckSink.{CheckFilled, CheckHolds};

use super::repeat::report_repeat;
use crate::parser::Mode;
use jsonb_core::error::Error;
use std::alloc::{AllocError, Global};
use text_parse::{Failed, Handler, OpenObject, Scalar, Text, Wants};
use text_scan::util::check_contents;
use text_write::check::CheckSink;

// A value of the text. Strings that are written without an escape are distinguished, or not.
#[derive(Drop)]
pub(in crate::parser) struct CheckedPart<const PLAIN: bool>;

impl<'a, const PLAIN: bool> Handler<'a> for CheckedPart<PLAIN> {
    type Sink = CheckSink<'a>;

    // Nothing is held of an array.
    type Items = ();

    // The index of the object's first member among those of the sink.
    type Members = usize;

    type Key = ();

    ghost sees = { IsAnyValue };

    ghost is_verbatim = { λ k v. Unit {0} };

    ghost holds = { λ text sink due fs cs. CheckHolds text sink due (map key_held fs) cs };

    ghost completes = { λ text sink f s fs cs. CheckFilled text sink (map key_held fs) cs };

    ghost filled = { λ text sink v s fs cs. CheckFilled text sink (map key_held fs) cs };

    ghost base = { λ sink. [] };

    ghost silent = { false };

    ghost writes = { false };

    ghost preserves = { true };

    ghost reports_plain = { PLAIN };

    #[inline(always)]
    fn wants() -> Wants
        ensures verbatim { result.verbatim ≡ true }
        ensures plain { result.plain ≡ PLAIN }
    {
        Wants {
            plain: PLAIN,
            verbatim: true,
        }
    }

    #[inline(always)]
    fn scalar(value: Scalar<'a>) -> Self {
        CheckedPart
    }

    #[inline(always)]
    fn escaped_string(
        alloc: Global,
        body: &'a str,
        mode: Mode,
        offset: usize,
    ) -> Result<Self, Error> {
        check_contents(body, mode, offset)?;
        Ok(CheckedPart)
    }

    #[inline(always)]
    fn root(
        sink: &mut CheckSink<'a>,
        value: &Self,
        from: usize,
        to: usize,
    ) -> Result<(), AllocError> {
        Ok(())
    }

    #[inline(always)]
    fn items(sink: &mut CheckSink<'a>, alloc: Global, at: usize) -> Result<(), AllocError> {
        Ok(())
    }

    #[inline(always)]
    fn next_item(sink: &mut CheckSink<'a>, items: &mut ()) -> Result<(), AllocError> {
        Ok(())
    }

    #[inline(always)]
    fn push(
        sink: &mut CheckSink<'a>,
        items: &mut (),
        value: Self,
        from: usize,
        to: usize,
    ) -> Result<(), AllocError> {
        Ok(())
    }

    #[inline(always)]
    fn push_inner(
        sink: &mut CheckSink<'a>,
        items: &mut (),
        value: Self,
        is_last: bool,
    ) -> Result<(), AllocError> {
        Ok(())
    }

    #[inline(always)]
    fn end_items(sink: &mut CheckSink<'a>, items: &mut (), at: usize) -> Result<(), AllocError> {
        Ok(())
    }

    #[inline(always)]
    fn array(sink: &CheckSink<'a>, items: ()) -> Self {
        CheckedPart
    }

    #[inline(always)]
    fn members(
        sink: &mut CheckSink<'a>,
        alloc: Global,
        at: usize,
    ) -> Result<OpenObject<usize, ()>, AllocError> {
        let members = sink.begin_object();
        Ok(OpenObject { members, key: () })
    }

    #[inline(always)]
    fn key(
        sink: &mut CheckSink<'a>,
        object: &mut OpenObject<usize, ()>,
        alloc: Global,
        text: Text<'a>,
        from: usize,
        after: usize,
    ) -> Result<(), AllocError> {
        match text {
            Text::Plain(text) => sink.cut_key(object.members, text, from, after),
            Text::Borrowed(text) => sink.cut_key(object.members, text, from, after),
            Text::Decoded(text) => sink.key(object.members, text.as_str(), after),
        }
    }

    #[inline(always)]
    fn insert(
        sink: &mut CheckSink<'a>,
        object: &mut OpenObject<usize, ()>,
        key: (),
        value: Self,
        from: usize,
        to: usize,
    ) -> Result<bool, AllocError> {
        Ok(true)
    }

    #[inline(always)]
    fn insert_inner(
        sink: &mut CheckSink<'a>,
        object: &mut OpenObject<usize, ()>,
        alloc: Global,
        value: Self,
    ) -> Result<bool, AllocError> {
        Ok(true)
    }

    #[inline(always)]
    fn finish(
        sink: &mut CheckSink<'a>,
        alloc: Global,
        members: &mut usize,
        reported: &mut Option<Error>,
        at: usize,
    ) -> Result<(), Failed> {
        match sink.end_object(*members) {
            Ok(None) => Ok(()),
            Ok(Some(repeat)) => {
                report_repeat(&sink.members, alloc, &repeat, reported);
                Err(Failed)
            }
            Err(_) => {
                *reported = Some(Error::OutOfMemory);
                Err(Failed)
            }
        }
    }

    #[inline(always)]
    fn object(sink: &CheckSink<'a>, members: usize) -> Self {
        CheckedPart
    }

    fn dismantle(self) {}
}
