//! A handler that follows the text, so that it is known what is open where the text is rejected.
ghost use Rattle.std.specs.Prelude.{◌≡◌, [], false, true};
ghost use Rattle.error_path.specs.Handler.{IsAnyValue};

use crate::steps::{Passed, Steps};
use jsonb_core::error::Error;
use std::alloc::{AllocError, Global};
use text_parse::{Failed, Handler, Mode, OpenObject, Scalar, Text, Wants};
use text_scan::util::check_contents;

/// A value of the text.
#[derive(Drop)]
pub(crate) struct PassedPart;

impl<'a> Handler<'a> for PassedPart {
    type Sink = Steps;

    type Items = ();

    type Members = ();

    type Key = ();

    ghost sees = { IsAnyValue };

    ghost is_verbatim = { λ k v. Unit {0} };

    // Nothing is promised of what is made, since only the steps are asked for where the text is rejected.
    ghost holds = { λ text sink due fs cs. ⊥ };

    ghost completes = { λ text sink f s fs cs. ⊥ };

    ghost filled = { λ text sink v s fs cs. ⊥ };

    ghost base = { λ sink. [] };

    ghost silent = { false };

    ghost writes = { false };

    ghost preserves = { true };

    ghost reports_plain = { true };

    fn wants() -> Wants
        ensures verbatim { result.verbatim ≡ true }
        ensures plain { result.plain ≡ true }
    {
        Wants {
            plain: true,
            verbatim: true,
        }
    }

    fn scalar(value: Scalar<'a>) -> Self {
        PassedPart
    }

    fn escaped_string(
        alloc: Global,
        body: &'a str,
        mode: Mode,
        offset: usize,
    ) -> Result<Self, Error> {
        check_contents(body, mode, offset)?;
        Ok(PassedPart)
    }

    fn root(sink: &mut Steps, value: &Self, from: usize, to: usize) -> Result<(), AllocError> {
        Ok(())
    }

    fn items(sink: &mut Steps, alloc: Global, at: usize) -> Result<(), AllocError> {
        sink.open(Passed::Elements(0), at)
    }

    fn next_item(sink: &mut Steps, items: &mut ()) -> Result<(), AllocError> {
        Ok(())
    }

    fn push(
        sink: &mut Steps,
        items: &mut (),
        value: Self,
        from: usize,
        to: usize,
    ) -> Result<(), AllocError> {
        sink.end_part(to);
        Ok(())
    }

    fn push_inner(
        sink: &mut Steps,
        items: &mut (),
        value: Self,
        is_last: bool,
    ) -> Result<(), AllocError> {
        Ok(())
    }

    fn end_items(sink: &mut Steps, items: &mut (), at: usize) -> Result<(), AllocError> {
        sink.close(at);
        Ok(())
    }

    fn array(sink: &Steps, items: ()) -> Self {
        PassedPart
    }

    fn members(
        sink: &mut Steps,
        alloc: Global,
        at: usize,
    ) -> Result<OpenObject<(), ()>, AllocError> {
        sink.open(Passed::Members(None, false), at)?;
        Ok(OpenObject {
            members: (),
            key: (),
        })
    }

    fn key(
        sink: &mut Steps,
        object: &mut OpenObject<(), ()>,
        alloc: Global,
        text: Text<'a>,
        from: usize,
        after: usize,
    ) -> Result<(), AllocError> {
        match text {
            Text::Plain(text) => sink.begin_member(alloc, text, after),
            Text::Borrowed(text) => sink.begin_member(alloc, text, after),
            Text::Decoded(text) => sink.begin_member(alloc, text.as_str(), after),
        }
    }

    fn insert(
        sink: &mut Steps,
        object: &mut OpenObject<(), ()>,
        key: (),
        value: Self,
        from: usize,
        to: usize,
    ) -> Result<bool, AllocError> {
        sink.end_part(to);
        Ok(true)
    }

    fn insert_inner(
        sink: &mut Steps,
        object: &mut OpenObject<(), ()>,
        alloc: Global,
        value: Self,
    ) -> Result<bool, AllocError> {
        Ok(true)
    }

    fn finish(
        sink: &mut Steps,
        alloc: Global,
        members: &mut (),
        reported: &mut Option<Error>,
        at: usize,
    ) -> Result<(), Failed> {
        sink.close(at);
        Ok(())
    }

    fn object(sink: &Steps, members: ()) -> Self {
        PassedPart
    }

    fn dismantle(self) {}
}
