//! Quoted strings.
ghost use Rattle.std.specs.Prelude.{◌≡◌, ◌≢◌, ◌+◌, ◌<◌, ◌^◌, true, false, IfErr, IfNone, IfSome, OnOk, length, slice_index};
ghost use Rattle.std.specs.Cow.{cow_str_bytes};
ghost use Rattle.jsonb_spec.specs.Ascii as ascii;
ghost use Rattle.jsonb_core.specs.View.{mark_view};
ghost use Rattle.jsonb_spec.specs.Tree.Mark.{plain};
ghost use Rattle.text_parse.specs.Grammars.{is_json, may_cut};
ghost use Rattle.text_parse.specs.Parser.{Advances, CutsString, CutsTo, IsAfterQuote, IsBehind, IsTextOf, PassesContents, ParsesString, rest_of};
ghost use Rattle.text_parse.specs.Scalars.{IsCut, text_view};
ghost use Rattle.text_scan.specs.Answer.{grammar_of, mode_of};
ghost use Rattle.jsonb_spec.specs.Parsing.String.{body_of, string_at};
ghost use Rattle.text_scan.specs.StrictString.{RejectsContents};

use super::text::Text;
use super::{Grammar, Parser};
use jsonb_core::error::{Error, ParseErrorCode, Result};
use jsonb_core::plain::first_escaped;
use std::borrow::CowStr;
use text_scan::parser::string::{StringEnd, decode_contents, find_end, near_mark};
use text_scan::util::check_strict;

impl<'a> Parser<'a> {
    // Parses a string from the byte after its opening quote on. It is borrowed where no backslash is in it. Most strings
    // are cut out of the text in place of it.
    #[inline(always)]
    pub(super) fn parse_quoted(&mut self, quote: u8) -> Result<CowStr<'a>>
        requires no_backslash { quote ≢ ascii.backslash }
        ensures { ParsesString (λ s. (mark_view s, cow_str_bytes s)) (λ size mode. string_at size mode quote) result
            self.old self.new }
    {
        let rest = self.rest();
        match find_end(rest, quote) {
            StringEnd::Unclosed { at } => {
                Err(Error::Syntax(ParseErrorCode::InvalidEOF, self.offset + at))
            }
            StringEnd::Closed { end, escaped } => {
                let body = &rest[..end];
                let after = self.offset + 1;
                self.check_grammar(body, after)?;
                let text = decode_contents(self.alloc, body, self.mode, escaped, after)?;
                self.offset += end + 1;
                Ok(text)
            }
        }
    }

    // The next bytes as text, up to a quote that is passed too. No character crosses a quote, so that the text is cut
    // at both without a look at the bytes there.
    #[inline(always)]
    pub(super) fn cut(&mut self, len: usize, quote: u8, text: &'a str) -> Option<&'a str>
        requires quote { IsAfterQuote quote self.old }
        requires same { IsTextOf text.now self.old }
        requires inside { len < length (rest_of self.old) }
        requires closed { slice_index (rest_of self.old) len ≡ quote }
        ensures cuts { IfSome result (λ body. CutsTo len self.old self.new body.now) }
        ensures some { IfSome result (λ _. 0 < length text.now) }
        ensures stays { IfNone result (self.new ≡ self.old) }
        ensures advances { Advances self.old self.new }
    {
        let after = self.offset + len;
        if after > text.len() {
            return None;
        }
        let body = &text[self.offset..after];
        // Reports that the body is UTF-8.
        let _bytes = body.as_bytes();
        self.offset = after + 1;
        Some(body)
    }

    // Whether the grammar is JSON.
    #[inline(always)]
    fn is_json(&self) -> bool
        ensures { result ≡ is_json (grammar_of self.now.grammar) }
    {
        matches!(self.grammar, Grammar::Json)
    }

    // What JSON rejects of the contents of a string, and its mode doesn't. An error counts from `idx`.
    #[inline(always)]
    pub(super) fn check_grammar(&self, body: &[u8], idx: usize) -> Result<()>
        requires space { idx + length body.now < 2 ^ 64 }
        ensures passed { OnOk result (body_of (grammar_of self.now.grammar) body.now
            ≡ body_of (mode_of self.now.mode) body.now) }
        ensures rejected { IfErr result (λ e. RejectsContents idx e (body_of (grammar_of self.now.grammar) body.now)) }
    {
        if self.is_json() {
            return check_strict(body, idx);
        }
        Ok(())
    }

    // A string without escapes, from the byte after its opening quote on. Control characters in it aren't seen.
    #[inline(always)]
    fn borrowed_string(&mut self, quote: u8, text: &'a str) -> Option<&'a str>
        requires quote { IsAfterQuote quote self.old }
        requires same { IsTextOf text.now self.old }
        requires cuts { may_cut false text.now (grammar_of self.old.grammar) ≡ true }
        ensures { CutsString (λ s. s.now) quote result self.old self.new }
    {
        let rest = self.rest();
        let end = near_mark(rest, quote)?;
        if rest[end] != quote {
            return None;
        }
        let body = self.cut(end, quote, text)?;
        Some(body)
    }

    // The contents of a string that has escapes, from the byte after its opening quote on.
    #[inline(always)]
    pub(super) fn escaped_contents(&mut self, quote: u8, text: &'a str) -> Option<&'a str>
        requires quote { IsAfterQuote quote self.old }
        requires same { IsTextOf text.now self.old }
        ensures passes { IfSome result (λ body. PassesContents quote self.old self.new body.now) }
        ensures stays { IfNone result (self.new ≡ self.old) }
        ensures advances { Advances self.old self.new }
    {
        let StringEnd::Closed { end, escaped } = find_end(self.rest(), quote) else {
            return None;
        };
        if !escaped {
            return None;
        }
        let body = self.cut(end, quote, text)?;
        Some(body)
    }

    // A string that can be cut out of the text, from the byte after its opening double quote on. Where that is asked,
    // it is one none of whose bytes is written as an escape.
    #[inline(always)]
    pub(super) fn cut_string(&mut self, reports_plain: bool, text: &'a str) -> Option<Text<'a>>
        requires opened { IsBehind ascii.quote self.old }
        requires same { IsTextOf text.now self.old }
        requires cuts { may_cut reports_plain text.now (grammar_of self.old.grammar) ≡ true }
        ensures cuts { CutsString (λ text. (text_view text).1) ascii.quote result self.old self.new }
        ensures cut { IfSome result IsCut }
    {
        if !reports_plain {
            let body = self.borrowed_string(b'"', text)?;
            return Some(Text::Borrowed(body));
        }
        let rest = self.rest();
        let end = first_escaped(rest)?;
        if rest[end] != b'"' {
            return None;
        }
        let body = self.cut(end, b'"', text)?;
        Some(Text::Plain(body))
    }

    // A string without escapes, from the byte after its opening quote of this kind on, where the grammar isn't JSON.
    #[inline(always)]
    pub(super) fn whole_string(&mut self, quote: u8, text: &'a str) -> Option<&'a str>
        requires quote { IsAfterQuote quote self.old }
        requires same { IsTextOf text.now self.old }
        ensures { CutsString (λ s. s.now) quote result self.old self.new }
    {
        if self.is_json() {
            return None;
        }
        self.borrowed_string(quote, text)
    }
}
