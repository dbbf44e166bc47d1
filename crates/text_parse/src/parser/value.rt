//! Values with all that is in them, by a loop over the arrays and objects that are open.
ghost use Rattle.std.specs.Prelude.{◌≡◌, ◌+◌, ◌<◌, ◌≤◌, ℕ, false, true, length, List, MatchBool, OnOk, IfErr, MatchResult, None, Ok, Some, [], ◌∷◌, if◌then◌else◌};
ghost use Rattle.jsonb_spec.specs.Ascii as ascii;
ghost use Rattle.jsonb_spec.specs.Grammar.{max_depth};
ghost use Rattle.jsonb_spec.specs.Mode.{strictness};
ghost use Rattle.jsonb_core.specs.Error.CodeView.{code_of};
ghost use Rattle.text_parse.specs.declared.parser.frame.Frame.{Frame};
ghost use Rattle.text_parse.specs.declared.parser.frame.Frame.TheVariants.{Array, Object};
ghost use Rattle.text_parse.specs.Handler.{ElseFails, Builds};
ghost use Rattle.text_parse.specs.Frames.{AtEnd, AtNextPart, BeforeValue, IsParsedToEnd, OpensContainer, finish_container, scalar_or_null};
ghost use Rattle.text_scan.specs.Answer.{grammar_of};
ghost use Rattle.text_parse.specs.Grammars.{may_cut};
ghost use Rattle.text_parse.specs.Parser.{Advances, AdvancesOver, IsBehind, IsTextOf, parse_at, rest_of, size_of};
ghost use Rattle.jsonb_spec.specs.Parsing.{begins};
ghost use Rattle.jsonb_spec.specs.Parsing.Whitespace.{is_whitespace_start, skip_whitespace};
ghost use Rattle.jsonb_spec.specs.Parsing.Container.{is_left_out};
ghost use Rattle.jsonb_spec.specs.Parsing.Document.{value_at};
ghost use Rattle.jsonb_spec.specs.Parsing.Scalar.{scalar_at};
ghost use Rattle.jsonb_spec.specs.Source.{Source};
ghost use Rattle.jsonb_spec.specs.Source.Open.{Open};
ghost use Rattle.text_parse.specs.Slots.{Fits, TakesPart};
ghost use Rattle.text_parse.specs.Steps.{EndsPart, FillsFrame, Puts, PutsNext, PutsOrStops, Turns};

use super::frame::{Frame, OpenObject};
use super::handler::{Failed, Handler};
use super::slot::{Element, Member};
use super::text::Scalar;
use super::{Mode, Parser};
use jsonb_core::error::{Error, ParseErrorCode};
use std::alloc::{AllocError, Global};

// How many arrays and objects may be open at once.
const MAX_DEPTH: usize = 512;

// For how many open containers there is space from the first one on.
const FEW_FRAMES: usize = 4;

type FrameOf<'a, V> = Frame<
    <V as Handler<'a>>::Items,
    <V as Handler<'a>>::Members,
    <V as Handler<'a>>::Key,
>;

type ObjectOf<'a, V> = OpenObject<<V as Handler<'a>>::Members, <V as Handler<'a>>::Key>;

impl<'a> Parser<'a> {
    // Parses the array or object that begins here. After an error the open containers are dropped without recursion.
    pub(super) fn parse_container<V: Handler<'a>>(
        &mut self,
        sink: &mut V::Sink,
        text: &'a str,
    ) -> Result<V, Failed>
        requires same { IsTextOf text.now self.old }
        requires cuts { may_cut V.reports_plain text.now (grammar_of self.old.grammar) ≡ true }
        requires opens { OpensContainer (rest_of self.old) }
        ensures parses { V.holds self.old.buf.now sink.old true [] []
            → Builds V.silent self.new.reported (λ v s. V.filled self.old.buf.now sink.new v s [] []) result
            (parse_at (λ size mode. value_at size mode max_depth) self.old) (rest_of self.new) }
        ensures advances { AdvancesOver V.base self.old self.new sink.old sink.new }
    {
        let Ok(mut stack) = Vec::with_capacity(self.alloc, FEW_FRAMES) else {
            return Err(self.out_of_memory());
        };
        if let Err(failed) = self.parse_open_containers::<V>(sink, &mut stack, text) {
            dismantle_all::<V>(sink, stack);
            return Err(failed);
        }
        let Some(mut frame) = stack.pop() else {
            unreachable!();
        };
        let after = self.offset;
        finish::<V>(sink, self.alloc, &mut frame, &mut self.reported, after)?;
        Ok(frame_value::<V>(sink, frame))
    }

    // Parses a container by a loop over those that are open. The stack is left with the one container, parsed to its
    // end.
    fn parse_open_containers<V: Handler<'a>>(
        &mut self,
        sink: &mut V::Sink,
        stack: &mut Vec<FrameOf<'a, V>>,
        text: &'a str,
    ) -> Result<(), Failed>
        requires same { IsTextOf text.now self.old }
        requires cuts { may_cut V.reports_plain text.now (grammar_of self.old.grammar) ≡ true }
        requires opens { OpensContainer (rest_of self.old) }
        requires none { stack.old.items ≡ [] }
        ensures parses { V.holds self.old.buf.now sink.old true [] []
            → ElseFails V.silent self.new.reported result (parse_at (λ size mode. value_at size mode max_depth) self.old)
            (λ _. IsParsedToEnd (V.holds self.old.buf.now sink.new)
            (parse_at (λ size mode. value_at size mode max_depth) self.old) stack.new.items (rest_of self.new)) }
        ensures one { OnOk result (length stack.new.items ≡ 1) }
        ensures advances { AdvancesOver V.base self.old self.new sink.old sink.new }
    {
        let mut closed = self.open_container::<V>(sink, stack)?;
        'turns: loop {
            if closed {
                if stack.len() == 1 {
                    return Ok(());
                }
                closed = self.close_container::<V>(sink, stack)?;
            } else {
                closed = self.parse_parts::<V>(sink, stack, text)?;
            }
        }
    }

    // Opens an array or an object, up to its first part. True where it has none, and it is parsed to its end.
    #[inline(always)]
    fn open_container<V: Handler<'a>>(
        &mut self,
        sink: &mut V::Sink,
        stack: &mut Vec<FrameOf<'a, V>>,
    ) -> Result<bool, Failed>
        requires depth { length stack.old.items ≤ max_depth }
        requires opens { OpensContainer (rest_of self.old) }
        ensures { Turns V.Handler BeforeValue result self.old self.new sink.old sink.new stack.old.items
            stack.new.items }
    {
        if stack.len() == MAX_DEPTH {
            let error = self.fault_at_next(ParseErrorCode::DepthLimitExceeded, 1);
            return Err(self.fail(error));
        }
        let at = self.offset;
        if self.take_byte(b'[') {
            let Ok(items) = V::items(sink, self.alloc, at) else {
                return Err(self.out_of_memory());
            };
            let Ok(()) = stack.push(Frame::Array(items)) else {
                return Err(self.out_of_memory());
            };
            self.skip_whitespace();
            return Ok(self.take_byte(b']'));
        }
        self.offset += 1;
        let Ok(object) = V::members(sink, self.alloc, at) else {
            return Err(self.out_of_memory());
        };
        let Ok(()) = stack.push(Frame::Object(object)) else {
            return Err(self.out_of_memory());
        };
        self.skip_whitespace();
        Ok(self.take_byte(b'}'))
    }

    // Parses parts of the innermost container, up to its end, or up to a part that is a container and opens that one.
    // True where a container was parsed to its end.
    fn parse_parts<V: Handler<'a>>(
        &mut self,
        sink: &mut V::Sink,
        stack: &mut Vec<FrameOf<'a, V>>,
        text: &'a str,
    ) -> Result<bool, Failed>
        requires open { 0 < length stack.old.items }
        requires depth { length stack.old.items ≤ max_depth }
        requires same { IsTextOf text.now self.old }
        requires cuts { may_cut V.reports_plain text.now (grammar_of self.old.grammar) ≡ true }
        ensures { Turns V.Handler AtNextPart result self.old self.new sink.old sink.new stack.old.items
            stack.new.items }
    {
        let Some(frame) = stack.last_mut() else {
            unreachable!();
        };
        if self.fill::<V>(sink, frame, text)? {
            return Ok(true);
        }
        self.open_container::<V>(sink, stack)
    }

    // Parses parts of a container, up to one that is a container, or up to its end. True at the end. Where texts nest
    // deep, most arrays begin with an array.
    #[inline(always)]
    fn fill<V: Handler<'a>>(
        &mut self,
        sink: &mut V::Sink,
        frame: &mut FrameOf<'a, V>,
        text: &'a str,
    ) -> Result<bool, Failed>
        requires same { IsTextOf text.now self.old }
        requires cuts { may_cut V.reports_plain text.now (grammar_of self.old.grammar) ≡ true }
        ensures { FillsFrame V.Handler result self.old self.new sink.old sink.new frame.old frame.new }
    {
        match frame {
            Frame::Array(items) if self.next_is(b'[') => {
                let Ok(()) = V::next_item(sink, items) else {
                    return Err(self.out_of_memory());
                };
                Ok(false)
            }
            Frame::Array(items) => self.parse_elements::<V>(sink, items, text),
            Frame::Object(object) => self.parse_members::<V>(sink, object, text),
        }
    }

    // Parses elements of an array, up to one that is a container, or up to its end. True at the end.
    fn parse_elements<V: Handler<'a>>(
        &mut self,
        sink: &mut V::Sink,
        items: &mut V::Items,
        text: &'a str,
    ) -> Result<bool, Failed>
        requires same { IsTextOf text.now self.old }
        requires cuts { may_cut V.reports_plain text.now (grammar_of self.old.grammar) ≡ true }
        ensures { FillsFrame V.Handler result self.old self.new sink.old sink.new (Array items.old) (Array items.new) }
    {
        'elements: loop {
            if self.put_next::<V>(sink, items, text)? {
                let Ok(()) = V::next_item(sink, items) else {
                    return Err(self.out_of_memory());
                };
                return Ok(false);
            }
            if self.end_part(b']', ParseErrorCode::ExpectedArrayCommaOrEnd)? {
                return Ok(true);
            }
        }
    }

    // Puts in the next element, behind whitespace. True where it is a container, which isn't put in. A string is looked
    // for first.
    #[inline(always)]
    fn put_next<V: Handler<'a>>(
        &mut self,
        sink: &mut V::Sink,
        items: &mut V::Items,
        text: &'a str,
    ) -> Result<bool, Failed>
        requires same { IsTextOf text.now self.old }
        requires cuts { may_cut V.reports_plain text.now (grammar_of self.old.grammar) ≡ true }
        ensures { PutsNext V.Handler result self.old self.new sink.old sink.new (Array items.old) (Array items.new) }
    {
        if self.take_byte(b'"') {
            self.put_quoted::<V, Element>(sink, items, Element, text)?;
            return Ok(false);
        }
        self.skip_whitespace();
        if self.begins_container() {
            return Ok(true);
        }
        self.put_element::<V>(sink, items, text)?;
        Ok(false)
    }

    // Puts in an element that is no container: a scalar, or null where it is left out.
    #[inline(always)]
    fn put_element<V: Handler<'a>>(
        &mut self,
        sink: &mut V::Sink,
        items: &mut V::Items,
        text: &'a str,
    ) -> Result<(), Failed>
        requires same { IsTextOf text.now self.old }
        requires cuts { may_cut V.reports_plain text.now (grammar_of self.old.grammar) ≡ true }
        ensures { Puts V.Handler scalar_or_null result self.old self.new sink.old sink.new
            (TakesPart V.holds sink.old (Array items.old) sink.new (Array items.new)) true }
    {
        if !self.is_left_out() {
            return self.put_scalar::<V, Element>(sink, items, Element, text);
        }
        let null = V::scalar(Scalar::Null);
        self.put::<V, Element>(sink, items, Element, null, self.offset)
    }

    // Whether an element is left out here.
    fn is_left_out(&self) -> bool
        ensures { result ≡ is_left_out (strictness (grammar_of self.now.grammar)) (rest_of self.now) }
    {
        match self.mode {
            Mode::Standard => false,
            Mode::Extended => matches!(self.peek(), Some(b',' | b']')),
        }
    }

    // Parses members of an object, up to one whose value is a container, or up to its end. True at the end. The key of
    // the member whose value is a container is held.
    fn parse_members<V: Handler<'a>>(
        &mut self,
        sink: &mut V::Sink,
        object: &mut ObjectOf<'a, V>,
        text: &'a str,
    ) -> Result<bool, Failed>
        requires same { IsTextOf text.now self.old }
        requires cuts { may_cut V.reports_plain text.now (grammar_of self.old.grammar) ≡ true }
        ensures { FillsFrame V.Handler result self.old self.new sink.old sink.new (Object object.old)
            (Object object.new) }
    {
        'members: loop {
            let key = self.begin_member::<V>(sink, object, text)?;
            if self.put_member::<V>(sink, object, key, text)? {
                return Ok(false);
            }
            if self.end_part(b'}', ParseErrorCode::ExpectedObjectCommaOrEnd)? {
                return Ok(true);
            }
        }
    }

    // Puts in the value of a member. True where it is a container, which isn't put in, and for which the key is held.
    #[inline(always)]
    fn put_member<V: Handler<'a>>(
        &mut self,
        sink: &mut V::Sink,
        object: &mut ObjectOf<'a, V>,
        key: V::Key,
        text: &'a str,
    ) -> Result<bool, Failed>
        requires same { IsTextOf text.now self.old }
        requires cuts { may_cut V.reports_plain text.now (grammar_of self.old.grammar) ≡ true }
        ensures puts { PutsOrStops V.Handler scalar_at result self.old self.new sink.old sink.new
            (Object (record { members = object.old.members; key = key })) (Object object.new) }
        ensures advances { AdvancesOver V.base self.old self.new sink.old sink.new }
    {
        if self.begins_container() {
            object.key = key;
            return Ok(true);
        }
        if self.take_byte(b'"') {
            self.put_quoted::<V, Member<V::Key>>(sink, object, Member { key }, text)?;
            return Ok(false);
        }
        self.put_scalar::<V, Member<V::Key>>(sink, object, Member { key }, text)?;
        Ok(false)
    }

    // Passes the comma or the closing byte after a part of a container, and else fails with the code. True where it is
    // the closing byte. Most often no whitespace is before it.
    #[inline(always)]
    fn end_part(&mut self, close: u8, code: ParseErrorCode) -> Result<bool, Failed>
        requires stop { is_whitespace_start close ≡ false }
        requires other { begins ascii.comma (close ∷ []) ≡ false }
        ensures { EndsPart (code_of code) close result self.old self.new }
    {
        if self.take_byte(b',') {
            return Ok(false);
        }
        if self.take_byte(close) {
            return Ok(true);
        }
        self.skip_whitespace();
        if self.take_byte(b',') {
            return Ok(false);
        }
        if self.take_byte(close) {
            return Ok(true);
        }
        let error = self.fault_at_next(code, 0);
        Err(self.fail(error))
    }

    // Passes whitespace and this byte, where it comes next; else the whitespace alone. Most often there are none.
    #[inline(always)]
    pub(super) fn take_after_whitespace(&mut self, byte: u8) -> bool
        requires stop { is_whitespace_start byte ≡ false }
        ensures rest { skip_whitespace (grammar_of self.old.grammar) (rest_of self.old)
            ≡ (if result then byte ∷ rest_of self.new else rest_of self.new) }
        ensures other { MatchBool result (Unit {0}) (begins byte (rest_of self.new) ≡ false) }
        ensures onward { MatchBool result (self.old.offset < self.new.offset) (Unit {0}) }
        ensures behind { MatchBool result (IsBehind byte self.new) (Unit {0}) }
        ensures advances { Advances self.old self.new }
    {
        if self.take_byte(byte) {
            return true;
        }
        self.skip_whitespace();
        self.take_byte(byte)
    }

    // Puts the innermost container, which was parsed, into the one around it, up to the next part of that one. True
    // where that one ends there.
    fn close_container<V: Handler<'a>>(
        &mut self,
        sink: &mut V::Sink,
        stack: &mut Vec<FrameOf<'a, V>>,
    ) -> Result<bool, Failed>
        requires open { 1 < length stack.old.items }
        requires depth { length stack.old.items ≤ max_depth }
        ensures { Turns V.Handler AtEnd result self.old self.new sink.old sink.new stack.old.items stack.new.items }
    {
        let Some(mut inner) = stack.pop() else {
            unreachable!();
        };
        let after = self.offset;
        finish::<V>(sink, self.alloc, &mut inner, &mut self.reported, after)?;
        let value = frame_value::<V>(sink, inner);
        let Some(outer) = stack.last_mut() else {
            unreachable!();
        };
        match outer {
            Frame::Array(items) => {
                let Ok(()) = V::push_inner(sink, items, value, self.next_is(b']')) else {
                    return Err(self.out_of_memory());
                };
                self.end_part(b']', ParseErrorCode::ExpectedArrayCommaOrEnd)
            }
            Frame::Object(object) => {
                let inserted = V::insert_inner(sink, object, self.alloc, value);
                self.put_result(inserted)?;
                self.end_part(b'}', ParseErrorCode::ExpectedObjectCommaOrEnd)
            }
        }
    }

    // What an attempt to put in a value returns: where its key is there already and nobody reported it, nothing is
    // reported.
    #[inline(always)]
    pub(super) fn put_result(&mut self, put: Result<bool, AllocError>) -> Result<(), Failed>
        ensures ok { OnOk result ((put ≡ Ok true) × (self.new ≡ self.old)) }
        ensures reported { IfErr result (λ _. MatchResult put (λ is_new. (is_new ≡ false) × (self.new.reported ≡ None))
            (λ _. self.new.reported ≡ Some Error.OutOfMemory)) }
        ensures advances { Advances self.old self.new }
    {
        match put {
            Ok(true) => Ok(()),
            Ok(false) => Err(self.fail_silently()),
            Err(_) => Err(self.out_of_memory()),
        }
    }
}

// What comes at the end of a container, whose closing byte is before an index: a key that comes twice is reported.
#[inline(always)]
fn finish<'a, V: Handler<'a>>(
    sink: &mut V::Sink,
    alloc: Global,
    frame: &mut FrameOf<'a, V>,
    reported: &mut Option<Error>,
    after: usize,
) -> Result<(), Failed>
    ensures ended { (text : List ℕ) → (c : Open) → (rest : List ℕ) → (fs : List (Frame V.Items V.Members V.Key))
        → (cs : List Open) → Fits frame.old c → V.holds text sink.old false (frame.old ∷ fs) (c ∷ cs)
        → ElseFails V.silent reported.new result (finish_container c rest) (λ _. (s : Source)
        × V.completes text sink.new frame.new s fs cs × (finish_container c rest ≡ Ok (s, rest))) }
    ensures base { V.base sink.new ≡ V.base sink.old }
{
    let at = after.wrapping_sub(1);
    match frame {
        Frame::Array(items) => {
            if V::end_items(sink, items, at).is_err() {
                *reported = Some(Error::OutOfMemory);
                return Err(Failed);
            }
            Ok(())
        }
        Frame::Object(object) => V::finish(sink, alloc, &mut object.members, reported, at),
    }
}

// The value of a container that ended; or after a failure of one that is open, to be dismantled.
#[inline(always)]
fn frame_value<'a, V: Handler<'a>>(sink: &V::Sink, frame: FrameOf<'a, V>) -> V
    ensures { (text : List ℕ) → (s : Source) → (fs : List (Frame V.Items V.Members V.Key)) → (cs : List Open)
        → V.completes text sink.now frame s fs cs → V.filled text sink.now result s fs cs }
{
    match frame {
        Frame::Array(items) => V::array(sink, items),
        Frame::Object(object) => V::object(sink, object.members),
    }
}

// Drops the containers that are open. What they hold may nest deep.
#[cold]
#[inline(never)]
fn dismantle_all<'a, V: Handler<'a>>(sink: &V::Sink, stack: Vec<FrameOf<'a, V>>) {
    'frames: for frame in stack {
        frame_value::<V>(sink, frame).dismantle();
    }
}
