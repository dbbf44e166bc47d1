//! The numbers of standard texts.
ghost use Rattle.std.specs.Prelude.{◌≡◌, ◌≢◌, ℕ, List, ◌++◌, ◌+◌, ◌≤◌, ◌<◌, length, slice_index, Err, Some, None, IfSome, true, ◌^◌};
ghost use Rattle.jsonb_core.specs.View.{number_view};
ghost use Rattle.jsonb_core.specs.declared.error.Error.TheVariants.{Syntax, OutOfMemory};
ghost use Rattle.jsonb_core.specs.declared.error.ParseErrorCode.TheVariants.{InvalidNumberValue};
ghost use Rattle.text_scan.specs.Answer.{Fails, grammar_of};
ghost use Rattle.jsonb_spec.specs.Mode.{standard, strict, strictness};
ghost use Rattle.jsonb_spec.specs.Grammar.StandardNumber.{IsStandardNumber};
ghost use Rattle.jsonb_spec.specs.Tree.{number};
ghost use Rattle.text_parse.specs.Parser.{Finds, PreservesFront, ParsesAtOffset, rest_of, size_of};
ghost use Rattle.jsonb_spec.specs.Parsing.Scalar.{scalar_at};
ghost use Rattle.text_scan.specs.ShortInteger.{short_view};
ghost use Rattle.jsonb_spec.specs.Parsing.Number.{ContinuesAfterInteger, digits_from, exponent_from, fraction_from, whole_start, then_from, number_to, standard_number_at};

use super::Parser;
use jsonb_core::bytes::byte_at;
use jsonb_core::error::{Error, ParseErrorCode, Result};
use jsonb_core::number::Number;
use text_scan::parser::integer::{StrictFront, strict_front};
use text_scan::parser::number::{
    ShortInteger, after_minus, continues_after_integer, integer, leading_digits, number_end,
    short_integer,
};

impl Parser<'_> {
    // Passes an integer of a strict text that is written by the same bytes again, if that is asked and one comes
    // next. Digits before a point are counted, and not passed.
    #[inline(always)]
    pub(super) fn strict_front(&mut self, is_asked: bool) -> Option<StrictFront>
        requires strict { strictness (grammar_of self.old.grammar) ≡ strict }
        ensures { PreservesFront is_asked result self.old self.new }
    {
        if !is_asked {
            return None;
        }
        match strict_front(self.rest()) {
            Some(StrictFront::Integer(end)) => {
                self.offset += end;
                Some(StrictFront::Integer(end))
            }
            Some(StrictFront::Point(front)) => Some(StrictFront::Point(front)),
            None => None,
        }
    }

    // Parses an integer of a standard text, if one of at most 19 digits comes next.
    #[inline(always)]
    pub(super) fn short_integer(&mut self) -> Option<ShortInteger>
        requires standard { grammar_of self.old.grammar ≡ standard }
        ensures finds { Finds (λ read. number (short_view read)) scalar_at result self.old self.new }
        ensures encoded { IfSome result (λ read. (bytes : List ℕ) × (rest_of self.old ≡ bytes ++ rest_of self.new)
            × IsStandardNumber bytes (short_view read)) }
        ensures fits { IfSome result (λ read. read.negative ≡ true → read.magnitude < 2 ^ 63) }
    {
        let read = short_integer(self.rest())?;
        self.offset += read.end;
        Some(read)
    }

    // Parses the longest number text, and gives its number.
    #[inline(never)]
    pub(super) fn parse_standard_number(&mut self) -> Result<Number>
        ensures { ParsesAtOffset number_view (λ size mode. standard_number_at size) result self.old self.new }
    {
        let bytes = self.rest();
        let negative = byte_at(bytes, 0) == b'-';
        let start = usize::from(negative);
        let digits = leading_digits(after_minus(bytes));
        if digits.len == 0 {
            return Err(self.invalid_number(start));
        }
        let first = byte_at(bytes, start);
        if digits.len > 1 && first == b'0' {
            return Err(self.invalid_number(start + 2));
        }
        let end = start + digits.len;
        if continues_after_integer(byte_at(bytes, end)) {
            return Err(self.number_without_integer(bytes, end));
        }
        self.offset += end;
        match integer(negative, digits.value) {
            Some(number) => Ok(number),
            None => Err(Error::Syntax(ParseErrorCode::NumberNotCarried, self.offset)),
        }
    }

    // The fault in a number text, at this offset of the bytes that are still to be parsed.
    pub(super) fn invalid_number(&self, offset: usize) -> Error
        requires { offset ≤ length (rest_of self.now) + 2 }
        ensures { result ≡ Syntax InvalidNumberValue (self.now.offset + offset) }
    {
        Error::Syntax(ParseErrorCode::InvalidNumberValue, self.offset + offset)
    }

    // The fault at a number text that goes on past its whole part.
    #[cold]
    fn number_without_integer(&self, bytes: &[u8], end: usize) -> Error
        requires bytes { bytes.now ≡ rest_of self.now }
        requires whole { end ≡ digits_from bytes.now (whole_start bytes.now) }
        requires within { end ≤ length bytes.now }
        requires goes_on { ContinuesAfterInteger (slice_index bytes.now end) }
        ensures fault { Fails result (number_to (size_of self.now) (rest_of self.now)
            (then_from (fraction_from (rest_of self.now) end) (exponent_from (rest_of self.now)))) }
        ensures takes_no_memory { result ≢ OutOfMemory }
    {
        match number_end(bytes, end) {
            Ok(end) => Error::Syntax(ParseErrorCode::NumberNotCarried, self.offset + end),
            Err(offset) => self.invalid_number(offset),
        }
    }
}
