//! Values that hold no others.
ghost use Rattle.std.specs.Prelude.{◌≡◌, ◌≢◌, ◌<◌, ◌≤◌, ◌∷◌, ◌++◌, drop, length, MatchBool, Err, IfSome, Some, true, false, ◌^◌, pos, neg_ℤ};
ghost use Rattle.jsonb_spec.specs.Ascii as ascii;
ghost use Rattle.jsonb_spec.specs.Mode.{strict, strictness};
ghost use Rattle.jsonb_core.specs.View.{number_view};
ghost use Rattle.text_scan.specs.Answer.{mode_of, grammar_of, Gives};
ghost use Rattle.text_parse.specs.Scalars.{IsGiven};
ghost use Rattle.text_parse.specs.Literals.{literal_text, literal_tree};
ghost use Rattle.jsonb_spec.specs.Tree.{boolean, int64};
ghost use Rattle.text_parse.specs.Grammars.{may_cut, takes_decimals};
ghost use Rattle.text_parse.specs.Parser.{Advances, Finds, IsAfterQuote, IsBehind, IsTextOf, ParsesAtOffset, TakesByte, rest_of, size_of};
ghost use Rattle.jsonb_spec.specs.Parsing.{begins};
ghost use Rattle.jsonb_spec.specs.Parsing.Number.{is_number_start};
ghost use Rattle.jsonb_spec.specs.Parsing.Scalar.{number_value_at, begins_letter, begins_number, begins_single_quote, fold_letter, letters_at, null_at, number_at, quoted_at, scalar_at, word_at};
ghost use Rattle.jsonb_spec.specs.Text.VerbatimNumber.{IsBeforePoint};
ghost use Rattle.text_parse.specs.Steps.{MakesScalar, Puts, PutsIn};

use super::handler::{Failed, Handler};
use super::slot::Slot;
use super::start::Start;
use super::text::{Scalar, Text};
use super::{Grammar, Mode, Parser};
use jsonb_core::error::{Error, ParseErrorCode};
use jsonb_core::number::Number;
use text_common::verbatim::Verbatim;
use text_scan::parser::integer::StrictFront;

// A letter as words have it: in extended mode in lower case.
#[inline(always)]
fn fold(letter: u8, mode: Mode) -> u8
    ensures { result ≡ fold_letter (strictness (mode_of mode)) letter }
{
    match mode {
        Mode::Standard => letter,
        Mode::Extended => letter.to_ascii_lowercase(),
    }
}

// A literal.
#[derive(Drop)]
enum Literal {
    Null,
    Bool(bool),
}

// Whether the bytes begin with these letters.
#[inline(always)]
fn begins_with(bytes: &[u8], first: u8, second: u8, third: u8, fourth: u8) -> bool
    requires { 4 ≤ length bytes.now }
    ensures { MatchBool result (bytes.now ≡ first ∷ second ∷ third ∷ fourth ∷ drop 4 bytes.now) (Unit {0}) }
{
    bytes[0] == first && bytes[1] == second && bytes[2] == third && bytes[3] == fourth
}

// Whether a byte is a digit or a minus.
#[inline(always)]
fn begins_number(byte: u8) -> bool
    ensures { result ≡ is_number_start byte }
{
    byte.is_ascii_digit() || byte == b'-'
}

// The number below 0, or a 0 with a minus, of these digits.
#[inline(always)]
fn negative_number(magnitude: u64) -> Number
    requires { magnitude < 2 ^ 63 }
    ensures { number_view result ≡ record { form = int64; scale = 0; whole = neg_ℤ (pos magnitude) } }
{
    Number::Int64(-(magnitude as i64))
}

impl<'a> Parser<'a> {
    // Puts in a scalar that is in the text from an index up to here, or one that is held as it is there.
    #[inline(always)]
    pub(super) fn put<V: Handler<'a>, S: Slot<'a, V>>(
        &mut self,
        sink: &mut V::Sink,
        container: &mut S::Container,
        slot: S,
        value: V,
        from: usize,
    ) -> Result<(), Failed>
        ensures { PutsIn V.Handler (IsGiven V.sees V.is_verbatim value from self.old.offset) result self.old self.new sink.old
            sink.new (S.takes sink.old container.old slot sink.new container.new) S.writes }
    {
        let put = slot.put(sink, container, value, from, self.offset);
        self.put_result(put)
    }

    // Whether the grammar has decimals.
    #[inline(always)]
    pub(super) fn takes_decimals(&self) -> bool
        ensures { result ≡ takes_decimals (grammar_of self.now.grammar) }
    {
        !matches!(self.grammar, Grammar::Standard)
    }

    // Puts in a string in double quotes, from the byte after its opening quote on.
    #[inline(always)]
    pub(super) fn put_quoted<V: Handler<'a>, S: Slot<'a, V>>(
        &mut self,
        sink: &mut V::Sink,
        container: &mut S::Container,
        slot: S,
        text: &'a str,
    ) -> Result<(), Failed>
        requires opened { IsBehind ascii.quote self.old }
        requires same { IsTextOf text.now self.old }
        requires cuts { may_cut V.reports_plain text.now (grammar_of self.old.grammar) ≡ true }
        ensures { Puts V.Handler (λ size mode. quoted_at size mode ascii.quote) result
            self.old self.new sink.old sink.new (S.takes sink.old container.old slot sink.new container.new) S.writes }
    {
        let from = self.offset - 1;
        if let Some(cut) = self.cut_string(V::wants().plain, text) {
            let string = V::scalar(Scalar::String(cut));
            return self.put::<V, S>(sink, container, slot, string, from);
        }
        self.put_escaped::<V, S>(sink, container, slot, text)
    }

    // The same, where whitespace is before the string. It is apart, so that the loop over elements has the code
    // for strings once.
    #[inline(never)]
    pub(super) fn put_later_quoted<V: Handler<'a>, S: Slot<'a, V>>(
        &mut self,
        sink: &mut V::Sink,
        container: &mut S::Container,
        slot: S,
        text: &'a str,
    ) -> Result<(), Failed>
        requires opened { IsBehind ascii.quote self.old }
        requires same { IsTextOf text.now self.old }
        requires cuts { may_cut V.reports_plain text.now (grammar_of self.old.grammar) ≡ true }
        ensures { Puts V.Handler (λ size mode. quoted_at size mode ascii.quote) result
            self.old self.new sink.old sink.new (S.takes sink.old container.old slot sink.new container.new) S.writes }
    {
        self.put_quoted::<V, S>(sink, container, slot, text)
    }

    // Puts in a scalar. Strings and numbers are put in where they are made, since a value that comes from several arms
    // is copied more than once.
    #[inline(always)]
    pub(super) fn put_scalar<V: Handler<'a>, S: Slot<'a, V>>(
        &mut self,
        sink: &mut V::Sink,
        container: &mut S::Container,
        slot: S,
        text: &'a str,
    ) -> Result<(), Failed>
        requires same { IsTextOf text.now self.old }
        requires cuts { may_cut V.reports_plain text.now (grammar_of self.old.grammar) ≡ true }
        ensures { Puts V.Handler scalar_at result self.old self.new sink.old sink.new
            (S.takes sink.old container.old slot sink.new container.new) S.writes }
    {
        if self.take_byte(b'"') {
            return self.put_later_quoted::<V, S>(sink, container, slot, text);
        }
        match self.mode {
            Mode::Standard => self.put_strict_value::<V, S>(sink, container, slot, text),
            Mode::Extended if V::wants().verbatim => {
                self.put_extended_value::<V, S>(sink, container, slot, text)
            }
            Mode::Extended => self.put_other_scalar::<V, S>(sink, container, slot, text),
        }
    }

    // Puts in a scalar of a strict text that is no string. Many numbers are written by the same bytes again.
    #[inline(always)]
    fn put_strict_value<V: Handler<'a>, S: Slot<'a, V>>(
        &mut self,
        sink: &mut V::Sink,
        container: &mut S::Container,
        slot: S,
        text: &'a str,
    ) -> Result<(), Failed>
        requires strict { strictness (grammar_of self.old.grammar) ≡ strict }
        requires same { IsTextOf text.now self.old }
        ensures { Puts V.Handler scalar_at result self.old self.new sink.old sink.new
            (S.takes sink.old container.old slot sink.new container.new) S.writes }
    {
        let from = self.offset;
        match self.strict_front(V::wants().verbatim) {
            Some(StrictFront::Integer(_)) => {
                let integer = V::scalar(Scalar::Verbatim(Verbatim::Integer));
                self.put::<V, S>(sink, container, slot, integer, from)
            }
            Some(StrictFront::Point(front)) => {
                self.put_decimal_value::<V, S>(sink, container, slot, text, front)
            }
            None => self.put_short_value::<V, S>(sink, container, slot, text),
        }
    }

    // Puts in a number that has a point behind so many digits. It is apart, since integers take longer beside it.
    #[inline(never)]
    fn put_decimal_value<V: Handler<'a>, S: Slot<'a, V>>(
        &mut self,
        sink: &mut V::Sink,
        container: &mut S::Container,
        slot: S,
        text: &'a str,
        front: usize,
    ) -> Result<(), Failed>
        requires point { IsBeforePoint (rest_of self.old) front }
        requires same { IsTextOf text.now self.old }
        ensures { Puts V.Handler scalar_at result self.old self.new sink.old sink.new
            (S.takes sink.old container.old slot sink.new container.new) S.writes }
    {
        let from = self.offset;
        if self.verbatim_decimal(V::wants().verbatim, front) {
            let decimal = V::scalar(Scalar::Verbatim(Verbatim::Decimal));
            return self.put::<V, S>(sink, container, slot, decimal, from);
        }
        self.put_number::<V, S>(sink, container, slot)
    }

    // Puts in a number that isn't put in from where it is, or says its fault.
    #[inline(never)]
    fn put_number<V: Handler<'a>, S: Slot<'a, V>>(
        &mut self,
        sink: &mut V::Sink,
        container: &mut S::Container,
        slot: S,
    ) -> Result<(), Failed>
        ensures { Puts V.Handler number_value_at result self.old self.new sink.old sink.new
            (S.takes sink.old container.old slot sink.new container.new) S.writes }
    {
        let value = self.parse_number_value::<V>()?;
        self.put::<V, S>(sink, container, slot, value, self.offset)
    }

    // Puts in a scalar of a strict text that is no string, and isn't put in from where it is. Most numbers are integers
    // of few digits.
    #[inline(always)]
    fn put_short_value<V: Handler<'a>, S: Slot<'a, V>>(
        &mut self,
        sink: &mut V::Sink,
        container: &mut S::Container,
        slot: S,
        text: &'a str,
    ) -> Result<(), Failed>
        requires same { IsTextOf text.now self.old }
        ensures { Puts V.Handler scalar_at result self.old self.new sink.old sink.new
            (S.takes sink.old container.old slot sink.new container.new) S.writes }
    {
        let from = self.offset;
        if !matches!(self.peek(), Some(b'a'..=b'z')) {
            if self.takes_decimals() {
                return self.put_extended_value::<V, S>(sink, container, slot, text);
            }
            if let Some(read) = self.short_integer() {
                if read.negative {
                    let number = Scalar::Number(negative_number(read.magnitude));
                    return self.put::<V, S>(sink, container, slot, V::scalar(number), from);
                }
                let number = Scalar::Number(Number::UInt64(read.magnitude));
                return self.put::<V, S>(sink, container, slot, V::scalar(number), from);
            }
        }
        self.put_word::<V, S>(sink, container, slot, text)
    }

    // Puts in a scalar that is no string in double quotes, of a text that has decimals.
    #[inline(never)]
    fn put_extended_value<V: Handler<'a>, S: Slot<'a, V>>(
        &mut self,
        sink: &mut V::Sink,
        container: &mut S::Container,
        slot: S,
        text: &'a str,
    ) -> Result<(), Failed>
        requires decimals { takes_decimals (grammar_of self.old.grammar) ≡ true }
        requires same { IsTextOf text.now self.old }
        ensures { Puts V.Handler scalar_at result self.old self.new sink.old sink.new
            (S.takes sink.old container.old slot sink.new container.new) S.writes }
    {
        let from = self.offset;
        if let Some(verbatim) = self.verbatim_number(V::wants().verbatim) {
            let number = V::scalar(Scalar::Verbatim(verbatim));
            return self.put::<V, S>(sink, container, slot, number, from);
        }
        // Where a small letter comes next, it is worth while to look for a literal.
        if matches!(self.peek(), Some(b'a'..=b'z')) {
            return self.put_word::<V, S>(sink, container, slot, text);
        }
        self.put_other_scalar::<V, S>(sink, container, slot, text)
    }

    // Puts in a scalar that is no string in double quotes. Most words are in small letters.
    #[inline(always)]
    fn put_word<V: Handler<'a>, S: Slot<'a, V>>(
        &mut self,
        sink: &mut V::Sink,
        container: &mut S::Container,
        slot: S,
        text: &'a str,
    ) -> Result<(), Failed>
        requires same { IsTextOf text.now self.old }
        ensures { Puts V.Handler scalar_at result self.old self.new sink.old sink.new
            (S.takes sink.old container.old slot sink.new container.new) S.writes }
    {
        let from = self.offset;
        match self.short_literal() {
            Some(Literal::Null) => {
                let null = V::scalar(Scalar::Null);
                self.put::<V, S>(sink, container, slot, null, from)
            }
            Some(Literal::Bool(value)) => {
                let boolean = V::scalar(Scalar::Bool(value));
                self.put::<V, S>(sink, container, slot, boolean, from)
            }
            None => self.put_other_scalar::<V, S>(sink, container, slot, text),
        }
    }

    // Puts in a string in double quotes that has escapes, or is rejected, from the byte after its opening quote on. It
    // is apart, since its caller would clear the slot of an owned string before each value.
    #[inline(never)]
    fn put_escaped<V: Handler<'a>, S: Slot<'a, V>>(
        &mut self,
        sink: &mut V::Sink,
        container: &mut S::Container,
        slot: S,
        text: &'a str,
    ) -> Result<(), Failed>
        requires opened { IsBehind ascii.quote self.old }
        requires same { IsTextOf text.now self.old }
        ensures { Puts V.Handler (λ size mode. quoted_at size mode ascii.quote) result
            self.old self.new sink.old sink.new (S.takes sink.old container.old slot sink.new container.new) S.writes }
    {
        let from = self.offset - 1;
        if let Some(verbatim) = self.json_string(V::wants().verbatim, text) {
            return self.put::<V, S>(
                sink,
                container,
                slot,
                V::scalar(Scalar::Verbatim(verbatim)),
                from,
            );
        }
        let value = self.parse_escaped_string::<V>(b'"', text)?;
        self.put::<V, S>(sink, container, slot, value, self.offset)
    }

    // Puts in any other value that holds no others, or says its fault.
    #[inline(never)]
    fn put_other_scalar<V: Handler<'a>, S: Slot<'a, V>>(
        &mut self,
        sink: &mut V::Sink,
        container: &mut S::Container,
        slot: S,
        text: &'a str,
    ) -> Result<(), Failed>
        requires same { IsTextOf text.now self.old }
        ensures { Puts V.Handler scalar_at result self.old self.new sink.old sink.new
            (S.takes sink.old container.old slot sink.new container.new) S.writes }
    {
        if self.next_begins_number() {
            return self.put_number::<V, S>(sink, container, slot);
        }
        let value = self.parse_scalar::<V>(text)?;
        self.put::<V, S>(sink, container, slot, value, self.offset)
    }

    // A value that holds no others, or the fault of what is none.
    #[inline(always)]
    pub(super) fn parse_scalar<V: Handler<'a>>(&mut self, text: &'a str) -> Result<V, Failed>
        requires same { IsTextOf text.now self.old }
        ensures { MakesScalar V.Handler scalar_at result self.old self.new }
    {
        match self.start() {
            Start::DoubleQuote => self.parse_string(b'"', text),
            Start::SingleQuote => self.parse_string(b'\'', text),
            Start::Null => self.parse_null(),
            Start::True => self.parse_bool(b"true", true),
            Start::False => self.parse_bool(b"false", false),
            Start::Number => self.parse_number_value(),
            Start::Array | Start::Object | Start::NoValue => {
                let error = self.fault_at_next(ParseErrorCode::ExpectedSomeValue, 1);
                Err(self.fail(error))
            }
        }
    }

    // A word that means this boolean.
    #[inline(always)]
    fn parse_bool<V: Handler<'a>>(&mut self, word: &[u8], value: bool) -> Result<V, Failed>
        ensures { MakesScalar V.Handler (λ size mode. word_at size (strictness mode) word.now (boolean value)) result
            self.old self.new }
    {
        match self.parse_word(word) {
            Ok(()) => Ok(V::scalar(Scalar::Bool(value))),
            Err(error) => Err(self.fail(error)),
        }
    }

    // `null`; where that fails, in extended mode a number's word may begin with the same letter.
    #[inline(always)]
    fn parse_null<V: Handler<'a>>(&mut self) -> Result<V, Failed>
        ensures { MakesScalar V.Handler null_at result self.old self.new }
    {
        let start = self.offset;
        let error = match self.parse_word(b"null") {
            Ok(()) => return Ok(V::scalar(Scalar::Null)),
            Err(error) => error,
        };
        match self.mode {
            Mode::Standard => Err(self.fail(error)),
            Mode::Extended => {
                self.offset = start;
                self.parse_number_value()
            }
        }
    }

    // A number as a value.
    #[inline(always)]
    fn parse_number_value<V: Handler<'a>>(&mut self) -> Result<V, Failed>
        ensures { MakesScalar V.Handler number_value_at result self.old self.new }
    {
        match self.parse_number() {
            Ok(number) => Ok(V::scalar(Scalar::Number(number))),
            Err(error) => Err(self.fail(error)),
        }
    }

    // A string in quotes of this kind, of which one comes next, as a value.
    #[inline(always)]
    fn parse_string<V: Handler<'a>>(&mut self, quote: u8, text: &'a str) -> Result<V, Failed>
        requires no_backslash { quote ≢ ascii.backslash }
        requires is_ascii { quote < ascii.end }
        requires opens { begins quote (rest_of self.old) ≡ true }
        requires same { IsTextOf text.now self.old }
        ensures { MakesScalar V.Handler (λ size mode bytes. quoted_at size mode quote (drop 1 bytes)) result self.old
            self.new }
    {
        self.offset += 1;
        if let Some(body) = self.whole_string(quote, text) {
            return Ok(V::scalar(Scalar::String(Text::Borrowed(body))));
        }
        self.parse_escaped_string(quote, text)
    }

    // A string that has escapes, or is rejected, as a value.
    #[inline(always)]
    fn parse_escaped_string<V: Handler<'a>>(
        &mut self,
        quote: u8,
        text: &'a str,
    ) -> Result<V, Failed>
        requires quote { IsAfterQuote quote self.old }
        requires same { IsTextOf text.now self.old }
        ensures { MakesScalar V.Handler (λ size mode. quoted_at size mode quote) result self.old self.new }
    {
        let from = self.offset;
        let Some(body) = self.escaped_contents(quote, text) else {
            return match self.parse_quoted(quote) {
                Ok(string) => Ok(V::scalar(Scalar::String(Text::Decoded(string)))),
                Err(error) => Err(self.fail(error)),
            };
        };
        if let Err(error) = self.check_grammar(body.as_bytes(), from + 1) {
            return Err(self.fail(error));
        }
        match V::escaped_string(self.alloc, body, self.mode, from + 1) {
            Ok(value) => Ok(value),
            Err(error) => Err(self.fail(error)),
        }
    }

    // Passes a single quote, where one comes next that begins a string.
    #[inline(always)]
    pub(super) fn take_single_quote(&mut self) -> bool
        ensures { TakesByte ascii.single_quote (begins_single_quote (strictness (grammar_of self.old.grammar))
            (rest_of self.old)) result self.old self.new }
    {
        match self.mode {
            Mode::Standard => false,
            Mode::Extended => self.take_byte(b'\''),
        }
    }

    // Parses a literal in small letters, if one comes next. At the end of a text none is found.
    #[inline(always)]
    fn short_literal(&mut self) -> Option<Literal>
        ensures finds { Finds literal_tree scalar_at result self.old self.new }
        ensures encoded { IfSome result (λ l. rest_of self.old ≡ literal_text l ++ rest_of self.new) }
    {
        let rest = self.rest();
        if rest.len() < 5 {
            return None;
        }
        if begins_with(rest, b'n', b'u', b'l', b'l') {
            self.offset += 4;
            return Some(Literal::Null);
        }
        if begins_with(rest, b't', b'r', b'u', b'e') {
            self.offset += 4;
            return Some(Literal::Bool(true));
        }
        if begins_with(rest, b'f', b'a', b'l', b's') && rest[4] == b'e' {
            self.offset += 5;
            return Some(Literal::Bool(false));
        }
        None
    }

    // A number, or a word that names none.
    #[inline(always)]
    fn parse_number(&mut self) -> std::result::Result<Number, Error>
        ensures { ParsesAtOffset number_view number_at result self.old self.new }
    {
        match self.grammar {
            Grammar::Standard => self.parse_standard_number(),
            Grammar::Extended => self.parse_extended_number(),
            Grammar::Json | Grammar::ExtendedJson => self.parse_exact_number(),
        }
    }

    // A word, byte by byte.
    fn parse_word(&mut self, word: &[u8]) -> std::result::Result<(), Error>
        ensures parses { Gives (λ _. rest_of self.new) result
            (letters_at (size_of self.old) (strictness (grammar_of self.old.grammar)) word.now (rest_of self.old)) }
        ensures takes_no_memory { result ≢ Err Error.OutOfMemory }
        ensures advances { Advances self.old self.new }
    {
        'letters: for letter in word {
            if !self.next_is_letter(*letter) {
                return Err(self.fault_at_next(ParseErrorCode::ExpectedSomeIdent, 1));
            }
            self.offset += 1;
        }
        Ok(())
    }

    // Whether a digit or a minus comes next.
    #[inline(always)]
    fn next_begins_number(&self) -> bool
        ensures { result ≡ begins_number strict (rest_of self.now) }
    {
        matches!(self.peek(), Some(next) if begins_number(next))
    }

    // Whether this letter comes next.
    #[inline(always)]
    pub(super) fn next_is_letter(&self, letter: u8) -> bool
        ensures found { result ≡ begins_letter (strictness (grammar_of self.now.grammar)) letter (rest_of self.now) }
        ensures within { MatchBool result (self.now.offset < size_of self.now) (Unit {0}) }
    {
        matches!(self.peek(), Some(next) if fold(next, self.mode) == letter)
    }
}
