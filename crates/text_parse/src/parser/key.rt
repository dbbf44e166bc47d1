//! Keys, in quotes and without.
ghost use Rattle.std.specs.Prelude.{◌≡◌, ◌<◌, ◌≢◌, true, Err, ◌+◌, IfSome, None, Ok};
ghost use Rattle.std.specs.Cow.{cow_str_bytes};
ghost use Rattle.jsonb_spec.specs.Ascii as ascii;
ghost use Rattle.jsonb_spec.specs.Code.Code.{expected_colon};
ghost use Rattle.jsonb_core.specs.View.{mark_view};
ghost use Rattle.text_scan.specs.Answer.{grammar_of, NamesFault};
ghost use Rattle.jsonb_spec.specs.Parsing.{fault_at};
ghost use Rattle.text_parse.specs.Handler.{AsNamed, Begins, Builds};
ghost use Rattle.text_parse.specs.Grammars.{may_cut};
ghost use Rattle.text_parse.specs.Parser.{Advances, AdvancesOver, IsTextOf, ParsesAtOffset, ParsesString, parse_at, rest_of, size_of};
ghost use Rattle.text_parse.specs.Stack.{member_start};
ghost use Rattle.jsonb_spec.specs.Parsing.Whitespace.{skip_whitespace};
ghost use Rattle.jsonb_spec.specs.Parsing.String.{string_at};
ghost use Rattle.jsonb_spec.specs.Parsing.Scalar.{key_at};
ghost use Rattle.jsonb_spec.specs.Parsing.BareKey.{bare_key_at};
ghost use Rattle.text_parse.specs.Steps.{BeginsWith};

use super::frame::OpenObject;
use super::handler::{Failed, Handler};
use super::text::Text;
use super::{Mode, Parser};
use jsonb_core::error::{Error, ParseErrorCode, Result};
use std::borrow::CowStr;
use text_scan::parser::key::{KeyEnd, find_key_end};

impl<'a> Parser<'a> {
    // A key with its colon, up to where its value is due.
    #[inline(always)]
    pub(super) fn begin_member<V: Handler<'a>>(
        &mut self,
        sink: &mut V::Sink,
        object: &mut OpenObject<V::Members, V::Key>,
        text: &'a str,
    ) -> std::result::Result<V::Key, Failed>
        requires same { IsTextOf text.now self.old }
        requires cuts { may_cut V.reports_plain text.now (grammar_of self.old.grammar) ≡ true }
        ensures parses { Builds V.silent self.new.reported
            (AsNamed (Begins (V.holds self.old.buf.now) sink.old object.old sink.new object.new)) result
            (parse_at member_start self.old)
            (rest_of self.new) }
        ensures advances { AdvancesOver V.base self.old self.new sink.old sink.new }
    {
        let key = self.parse_member_key::<V>(sink, object, text)?;
        if !self.take_after_whitespace(b':') {
            return Err(self.fail_without_colon());
        }
        // Often there is one space.
        self.skip_space();
        self.skip_whitespace();
        Ok(key)
    }

    // Fails, where a colon is missing. It is a call of its own: inlined, it would clear the slot of an error before each
    // member.
    #[cold]
    #[inline(never)]
    fn fail_without_colon(&mut self) -> Failed
        ensures reported { IfSome self.new.reported (λ error. NamesFault error (fault_at (size_of self.old)
            expected_colon 0 (rest_of self.old))) }
        ensures some { self.new.reported ≢ None }
        ensures advances { Advances self.old self.new }
    {
        let error = self.fault_at_next(ParseErrorCode::ExpectedColon, 0);
        self.fail(error)
    }

    // A key, after whitespace.
    #[inline(always)]
    fn parse_member_key<V: Handler<'a>>(
        &mut self,
        sink: &mut V::Sink,
        object: &mut OpenObject<V::Members, V::Key>,
        text: &'a str,
    ) -> std::result::Result<V::Key, Failed>
        requires same { IsTextOf text.now self.old }
        requires cuts { may_cut V.reports_plain text.now (grammar_of self.old.grammar) ≡ true }
        ensures { BeginsWith V.Handler (λ size mode bytes. key_at size mode (skip_whitespace mode bytes)) result
            self.old self.new sink.old sink.new object.old object.new }
    {
        if !self.take_after_whitespace(b'"') {
            return self.other_key::<V>(sink, object);
        }
        let from = self.offset;
        if let Some(cut) = self.cut_string(V::wants().plain, text) {
            let key = V::key(sink, object, self.alloc, cut, from, self.offset);
            return self.or_out_of_memory(key);
        }
        self.escaped_key::<V>(sink, object)
    }

    // A key in double quotes that has escapes, or is rejected, from the byte after its opening quote on.
    #[inline(never)]
    fn escaped_key<V: Handler<'a>>(
        &mut self,
        sink: &mut V::Sink,
        object: &mut OpenObject<V::Members, V::Key>,
    ) -> std::result::Result<V::Key, Failed>
        ensures { BeginsWith V.Handler (λ size mode. string_at size mode ascii.quote) result
            self.old self.new sink.old sink.new object.old object.new }
    {
        let from = self.offset;
        let key = match self.parse_quoted(b'"') {
            Ok(key) => Text::Decoded(key),
            Err(error) => return Err(self.fail(error)),
        };
        let key = V::key(sink, object, self.alloc, key, from, self.offset);
        self.or_out_of_memory(key)
    }

    // A key in single quotes or in none.
    #[inline(never)]
    fn other_key<V: Handler<'a>>(
        &mut self,
        sink: &mut V::Sink,
        object: &mut OpenObject<V::Members, V::Key>,
    ) -> std::result::Result<V::Key, Failed>
        ensures { BeginsWith V.Handler key_at result self.old self.new sink.old sink.new object.old object.new }
    {
        let from = self.offset;
        let key = match self.parse_key() {
            Ok(key) => Text::Decoded(key),
            Err(error) => return Err(self.fail(error)),
        };
        let key = V::key(sink, object, self.alloc, key, from, self.offset);
        self.or_out_of_memory(key)
    }

    // A key.
    fn parse_key(&mut self) -> Result<CowStr<'a>>
        ensures { ParsesString (λ s. (mark_view s, cow_str_bytes s)) key_at result self.old self.new }
    {
        if self.take_byte(b'"') {
            return self.parse_quoted(b'"');
        }
        if self.take_single_quote() {
            return self.parse_quoted(b'\'');
        }
        match self.mode {
            Mode::Standard => Err(self.fault_at_next(ParseErrorCode::ExpectedSomeIdent, 1)),
            Mode::Extended => self.parse_bare_key(),
        }
    }

    // Parses a key without quotes. It is borrowed.
    fn parse_bare_key(&mut self) -> Result<CowStr<'a>>
        ensures { ParsesAtOffset (λ s. (mark_view s, cow_str_bytes s)) (λ size mode. bare_key_at size) result self.old
            self.new }
    {
        let Some(byte) = self.peek() else {
            return Err(Error::Syntax(ParseErrorCode::InvalidEOF, self.buf.len()));
        };
        if byte.is_ascii_digit() {
            return Err(Error::Syntax(ParseErrorCode::ObjectKeyInvalidNumber, self.offset + 1));
        }
        let rest = self.rest();
        match find_key_end(rest) {
            KeyEnd::Past(at) => Err(Error::Syntax(ParseErrorCode::InvalidEOF, self.offset + at)),
            KeyEnd::At(end) => {
                let after = self.offset + end;
                if end == 0 || rest[end] >= 0x80 {
                    return Err(Error::Syntax(ParseErrorCode::ObjectKeyInvalidCharacter, after));
                }
                match std::str::from_utf8(&rest[..end]) {
                    Ok(text) => {
                        self.offset = after;
                        Ok(CowStr::Borrowed(text))
                    }
                    Err(_) => Err(Error::Syntax(ParseErrorCode::InvalidStringValue, after)),
                }
            }
        }
    }
}
