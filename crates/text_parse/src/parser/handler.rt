//! What is made of a text while it is parsed: the parser sends the events of the text's value to a handler.
ghost use Rattle.std.specs.Prelude.{◌≡◌, ◌+◌, ◌^◌, ◌<◌, ℕ, Bool, List, [], ◌∷◌, length, MatchBool, Ok, IfOk, IfErr, OnOk, Option, true, false};
ghost use Rattle.jsonb_core.specs.declared.error.Error.{Error};
ghost use Rattle.jsonb_spec.specs.Tree.{Mark};
ghost use Rattle.text_parse.specs.Handler.{AwaitsElement, Begins, ElseFails, EndsArray, OpensArray, OpensObject, SeesContents, TakesElement, TakesInner, TakesInnerMember, TakesMember};
ghost use Rattle.text_parse.specs.Scalars.{IsGiven, IsKeyAt, SeesScalar, text_view};
ghost use Rattle.text_parse.specs.Stack.{object_end};
ghost use Rattle.text_parse.specs.declared.parser.frame.Frame.{Frame};
ghost use Rattle.text_parse.specs.declared.parser.frame.Frame.TheVariants.{Array, Object};
ghost use Rattle.text_scan.specs.Answer.{mode_of};
ghost use Rattle.jsonb_spec.specs.Parsing.Decoding.{ReportsBackslash};
ghost use Rattle.jsonb_spec.specs.Source.Open.{Open, members_so_far};
ghost use Rattle.jsonb_spec.specs.Parsing.String.{body_of};
ghost use Rattle.jsonb_spec.specs.Source.{Source, Found};
ghost use Rattle.jsonb_spec.specs.Text.Encoded.{IsEncodedAt};
ghost use Rattle.text_common.specs.declared.verbatim.Verbatim.{Verbatim};

use super::Mode;
use super::frame::{Frame, OpenObject};
use super::text::{Scalar, Text};
use jsonb_core::error::Error;
use std::alloc::{AllocError, Global};

/// Parsing failed. The error is held by the parser, unless the handler is silent about it.
#[derive(Drop)]
pub struct Failed;

/// Which scalars and keys a handler wants to be distinguished from others.
#[derive(Clone, Copy)]
pub struct Wants {
    /// Strings and keys that are written without an escape, as `Text::Plain`. In JSON, which has no control characters
    /// in strings, a handler that doesn't want this has each string decoded apart, which takes more time.
    pub plain: bool,
    /// Numbers whose serialized form is their own text, and strings whose escapes are of one letter, as
    /// `Scalar::Verbatim`.
    pub verbatim: bool,
}

/// What is made of one text: a value of this type for each scalar and each container that ended, with the elements,
/// members and keys of the containers that are open, and the space that all of them are written to.
///
/// A scalar is made first and put in then, with the indices of the text between which it is, where these are
/// known.
///
/// Of an array the parser calls `items`; for each element `push`, or `next_item` before a container and `push_inner`
/// after it; then `end_items` and `array`. Of an object it calls `members`; for each member `key`, and `insert`, or
/// `insert_inner` after a container; then `finish` and `object`. A text that is one scalar ends with `root`. After a
/// failure, what is open becomes a value by `array` and `object` too, and `dismantle` drops it.
pub trait Handler<'a>: Drop + Sized {
    /// What is written of all values.
    type Sink: Drop;

    /// The elements so far of an array that is open.
    type Items: Drop;

    /// The members so far of an object that is open.
    type Members: Drop;

    /// A key that waits for its value.
    type Key: Drop;

    /// The scalar is of this source, and isn't put in yet.
    ghost sees: { Self → Source → Type 0 };

    /// The scalar is one of this kind that is in the text, and isn't put in yet.
    ghost is_verbatim: { Verbatim → Self → Type 0 };

    /// Of this text, the sink and the open containers, the innermost first, hold what was parsed so far. A value is due
    /// (true), or the innermost was opened or one of its parts ended (false).
    ghost holds: { List ℕ → Self.Sink → Bool → List (Frame Self.Items Self.Members Self.Key) → List Open → Type 0 };

    /// The container ended, and is of this source. It is where a value was due.
    ghost completes: { List ℕ → Self.Sink → Frame Self.Items Self.Members Self.Key → Source → List (Frame Self.Items Self.Members Self.Key) → List Open → Type 0 };

    /// The value is of this source, and is where a value was due.
    ghost filled: { List ℕ → Self.Sink → Self → Source → List (Frame Self.Items Self.Members Self.Key) → List Open → Type 0 };

    /// What was in the sink before the text, and stays.
    ghost base: { Self.Sink → List (List ℕ) };

    /// Whether it may fail and say nothing, so that the text is parsed another way.
    ghost silent: { Bool };

    /// Whether a scalar takes memory.
    ghost writes: { Bool };

    /// Whether scalars are put in from where they are in the text.
    ghost preserves: { Bool };

    /// Whether strings and keys that are written without an escape are distinguished.
    ghost reports_plain: { Bool };

    /// What the handler wants.
    fn wants() -> Wants
        ensures verbatim { result.verbatim ≡ preserves }
        ensures plain { result.plain ≡ reports_plain };

    /// A scalar. It is a `null` also where an element is left out, or the text has no value.
    fn scalar(value: Scalar<'a>) -> Self
        ensures { SeesScalar sees is_verbatim preserves result value.entry };

    /// A string that has escapes, given its contents. An error counts from `offset`: the index after the opening quote,
    /// and one more. The mode is that of the grammar; what JSON has otherwise was checked before.
    fn escaped_string(
        alloc: Global,
        body: &'a str,
        mode: Mode,
        offset: usize,
    ) -> std::result::Result<Self, Error>
        requires escaped { ReportsBackslash body.now (length body.now) true }
        requires space { offset + length body.now < 2 ^ 64 }
        ensures { SeesContents sees offset result (body_of (mode_of mode) body.now) };

    /// The whole text is this scalar. Of one that is held, this range of the text is the serialized form.
    fn root(
        sink: &mut Self::Sink,
        value: &Self,
        from: usize,
        to: usize,
    ) -> std::result::Result<(), AllocError>
        ensures filled { OnOk result ((text : List ℕ) → (s : Source) → holds text sink.old true [] []
            → IsGiven sees is_verbatim value.now from to text s → filled text sink.new value.now s [] []) }
        ensures memory { IfErr result (λ _. writes ≡ true) }
        ensures base { base sink.new ≡ base sink.old };

    /// An array is opened. Its bracket is in the text at an index.
    fn items(
        sink: &mut Self::Sink,
        alloc: Global,
        at: usize,
    ) -> std::result::Result<Self::Items, AllocError>
        ensures opened { IfOk result (OpensArray holds sink.old sink.new) }
        ensures base { base sink.new ≡ base sink.old };

    /// An element is due that is a container.
    fn next_item(
        sink: &mut Self::Sink,
        items: &mut Self::Items,
    ) -> std::result::Result<(), AllocError>
        ensures due { OnOk result (AwaitsElement holds sink.old items.old sink.new items.new) }
        ensures base { base sink.new ≡ base sink.old };

    /// Puts in an element that is a scalar. Of one that is held, this range of the text is the serialized form.
    fn push(
        sink: &mut Self::Sink,
        items: &mut Self::Items,
        value: Self,
        from: usize,
        to: usize,
    ) -> std::result::Result<(), AllocError>
        ensures put { OnOk result (TakesElement holds (IsGiven sees is_verbatim value from to) sink.old items.old sink.new
            items.new) }
        ensures base { base sink.new ≡ base sink.old };

    /// Puts in an element that is a container. Where it is the last one, no other follows.
    fn push_inner(
        sink: &mut Self::Sink,
        items: &mut Self::Items,
        value: Self,
        is_last: bool,
    ) -> std::result::Result<(), AllocError>
        ensures put { OnOk result (TakesInner holds (λ s fs cs text. filled text sink.old value s fs cs) items.old
            sink.new items.new) }
        ensures base { base sink.new ≡ base sink.old };

    /// The array ends. Its bracket is in the text at an index.
    fn end_items(
        sink: &mut Self::Sink,
        items: &mut Self::Items,
        at: usize,
    ) -> std::result::Result<(), AllocError>
        ensures ended { OnOk result (EndsArray holds (λ text. completes text sink.new) sink.old items.old items.new) }
        ensures base { base sink.new ≡ base sink.old };

    /// The array of elements that ended, or is dropped.
    fn array(sink: &Self::Sink, items: Self::Items) -> Self
        ensures { (text : List ℕ) → (s : Source) → (fs : List (Frame Self.Items Self.Members Self.Key))
            → (cs : List Open) → completes text sink.now (Array items) s fs cs
            → filled text sink.now result s fs cs };

    /// An object is opened. Its brace is in the text at an index. No key waits for its value yet.
    fn members(
        sink: &mut Self::Sink,
        alloc: Global,
        at: usize,
    ) -> std::result::Result<OpenObject<Self::Members, Self::Key>, AllocError>
        ensures opened { IfOk result (OpensObject holds sink.old sink.new) }
        ensures base { base sink.new ≡ base sink.old };

    /// A member begins with a key. Where it was cut out of the text, it is there from an index on, after its opening
    /// quote. Behind it the text goes on at `after`.
    fn key(
        sink: &mut Self::Sink,
        object: &mut OpenObject<Self::Members, Self::Key>,
        alloc: Global,
        text: Text<'a>,
        from: usize,
        after: usize,
    ) -> std::result::Result<Self::Key, AllocError>
        ensures begun { IfOk result (λ key. (bytes : List ℕ) → IsKeyAt bytes text.entry from after
            → Begins (holds bytes) sink.old object.old sink.new object.new key (text_view text.entry) after) }
        ensures base { base sink.new ≡ base sink.old };

    /// Puts in a member whose value is a scalar, as by `push`. False where its key is there already, and the handler is
    /// silent about it.
    fn insert(
        sink: &mut Self::Sink,
        object: &mut OpenObject<Self::Members, Self::Key>,
        key: Self::Key,
        value: Self,
        from: usize,
        to: usize,
    ) -> std::result::Result<bool, AllocError>
        ensures put { IfOk result (λ is_new. MatchBool is_new (TakesMember holds (IsGiven sees is_verbatim value from to)
            sink.old object.old key sink.new object.new) (silent ≡ true)) }
        ensures base { base sink.new ≡ base sink.old };

    /// Puts in a member whose value is a container, under the key that waits for it.
    fn insert_inner(
        sink: &mut Self::Sink,
        object: &mut OpenObject<Self::Members, Self::Key>,
        alloc: Global,
        value: Self,
    ) -> std::result::Result<bool, AllocError>
        ensures put { IfOk result (λ is_new. MatchBool is_new (TakesInnerMember holds
            (λ s fs cs text. filled text sink.old value s fs cs) object.old sink.new object.new) (silent ≡ true)) }
        ensures base { base sink.new ≡ base sink.old };

    /// The object ends. A key that comes twice is reported. Its brace is in the text at an index.
    fn finish(
        sink: &mut Self::Sink,
        alloc: Global,
        members: &mut Self::Members,
        reported: &mut Option<Error>,
        at: usize,
    ) -> std::result::Result<(), Failed>
        ensures ended { (text : List ℕ) → (front : List Found) → (key : Self.Key) → (k : Mark × List ℕ) → (offset : ℕ)
            → (fs : List (Frame Self.Items Self.Members Self.Key)) → (cs : List Open) → (rest : List ℕ)
            → holds text sink.old false (Object (record { members = members.old; key = key }) ∷ fs)
            (members_so_far front k offset ∷ cs)
            → ElseFails silent reported.new result (object_end front rest) (λ _. (s : Source)
            × completes text sink.new (Object (record { members = members.new; key = key })) s fs cs
            × (object_end front rest ≡ Ok (s, rest))) }
        ensures base { base sink.new ≡ base sink.old };

    /// The object of members that ended, or is dropped.
    fn object(sink: &Self::Sink, members: Self::Members) -> Self
        ensures { (text : List ℕ) → (s : Source) → (key : Self.Key)
            → (fs : List (Frame Self.Items Self.Members Self.Key)) → (cs : List Open)
            → completes text sink.now (Object (record { members = members; key = key })) s fs cs
            → filled text sink.now result s fs cs };

    /// Drops a value that may nest deep.
    fn dismantle(self);
}
