//! The numbers of extended texts: decimals, hexadecimals, `nan` and `infinity`.
ghost use Rattle.std.specs.Prelude.{◌≡◌, ◌+◌, ◌-◌, ◌<◌, true, Err, Some, None};
ghost use Rattle.jsonb_core.specs.View.{number_view};
ghost use Rattle.text_scan.specs.Answer.{grammar_of};
ghost use Rattle.text_parse.specs.Grammars.{takes_decimals};
ghost use Rattle.text_parse.specs.Parser.{PreservesDecimal, PreservesNumber, ParsesAtOffset, rest_of};
ghost use Rattle.jsonb_spec.specs.Parsing.ExtendedNumber.{extended_number_at};
ghost use Rattle.jsonb_spec.specs.Text.VerbatimNumber.{IsBeforePoint};

use super::Parser;
use jsonb_core::error::{Error, ParseErrorCode, Result};
use jsonb_core::number::Number;
use text_common::verbatim::Verbatim;
use text_scan::parser::extended_number::{scan_number, short_number};
use text_scan::parser::verbatim::{verbatim_decimal, verbatim_number};

impl Parser<'_> {
    // Passes a number that is written by the same bytes again, where the grammar has decimals, if that is asked and one
    // comes next, with a separator behind it.
    #[inline(always)]
    pub(super) fn verbatim_number(&mut self, is_asked: bool) -> Option<Verbatim>
        requires decimals { takes_decimals (grammar_of self.old.grammar) ≡ true }
        ensures { PreservesNumber is_asked result self.old self.new }
    {
        if !is_asked {
            return None;
        }
        let read = verbatim_number(self.rest())?;
        self.offset += read.end;
        if read.has_point {
            return Some(Verbatim::Decimal);
        }
        Some(Verbatim::Integer)
    }

    // Passes a decimal that is written by the same bytes again, where the grammar has decimals, if that is asked and
    // one comes next, with a separator behind it. So many digits are before its point.
    #[inline(always)]
    pub(super) fn verbatim_decimal(&mut self, is_asked: bool, front: usize) -> bool
        requires point { IsBeforePoint (rest_of self.old) front }
        ensures { PreservesDecimal is_asked result self.old self.new }
    {
        if !is_asked {
            return false;
        }
        if !self.takes_decimals() {
            return false;
        }
        match verbatim_decimal(self.rest(), front) {
            Some(end) => {
                self.offset += end;
                true
            }
            None => false,
        }
    }

    // Parses the longest number text, and gives its number.
    pub(super) fn parse_extended_number(&mut self) -> Result<Number>
        ensures { ParsesAtOffset number_view (λ size mode. extended_number_at size) result self.old self.new }
    {
        let bytes = self.rest();
        match short_number(bytes) {
            Some(read) => {
                self.offset += read.end;
                Ok(read.number)
            }
            None => self.parse_long_number(bytes),
        }
    }

    // Parses any number text, also one that `short_number` leaves.
    fn parse_long_number(&mut self, bytes: &[u8]) -> Result<Number>
        requires bytes { bytes.now ≡ rest_of self.old }
        ensures { ParsesAtOffset number_view (λ size mode. extended_number_at size) result self.old self.new }
    {
        let text = match scan_number(bytes) {
            Ok(text) => text,
            Err(fault) => {
                let offset = self.offset + fault.offset;
                return Err(Error::Syntax(fault.code, offset));
            }
        };
        self.offset += text.end;
        match text.number {
            Some(number) => Ok(number),
            None => Err(Error::Syntax(ParseErrorCode::NumberNotCarried, self.offset)),
        }
    }
}
