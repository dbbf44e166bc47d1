//! Numbers at their exact value: those of JSON and of extended JSON.
ghost use Rattle.std.specs.Prelude.{◌≡◌, ◌+◌, ◌≤◌, true, Ok, Err, IfErr, IfOk, IfSome, MatchOption, length};
ghost use Rattle.jsonb_spec.specs.Code.{invalid_number_value};
ghost use Rattle.jsonb_spec.specs.Mode.{strict, strictness};
ghost use Rattle.jsonb_core.specs.View.{number_view};
ghost use Rattle.text_scan.specs.Answer.{grammar_of, mode_of};
ghost use Rattle.jsonb_spec.specs.Parsing.Number.{digits_from, whole_from, whole_start};
ghost use Rattle.jsonb_spec.specs.Parsing.Scalar.{number_at};
ghost use Rattle.text_scan.specs.ScannedNumber.{scanned_view};
ghost use Rattle.text_parse.specs.Grammars.{exact_scan, takes_exponents};
ghost use Rattle.text_parse.specs.Parser.{ParsesAtOffset, rest_of};

use super::{Mode, Parser};
use jsonb_core::error::{Error, ParseErrorCode, Result};
use jsonb_core::number::Number;
use text_scan::parser::exact::{lacks_whole, scan_extended_json, scan_json, short_exact};
use text_scan::parser::extended_number::{NumberFault, NumberText};

// The offset at which a strict number's whole part lacks digits, or has a needless zero.
#[inline(always)]
fn lacks_digits(bytes: &[u8], mode: Mode) -> Option<usize>
    ensures fault { MatchOption result (strictness (mode_of mode) ≡ strict → whole_from bytes.now
        (whole_start bytes.now) ≡ Ok (digits_from bytes.now (whole_start bytes.now)))
        (λ offset. exact_scan (strictness (mode_of mode)) bytes.now ≡ Err (invalid_number_value, offset)) }
    ensures near { IfSome result (λ offset. offset ≤ length bytes.now) }
{
    match mode {
        Mode::Standard => lacks_whole(bytes),
        Mode::Extended => None,
    }
}

// The longest number text that the bytes begin with.
#[inline(always)]
fn scan_exact(bytes: &[u8], mode: Mode) -> std::result::Result<NumberText, NumberFault>
    ensures scan { scanned_view result ≡ exact_scan (strictness (mode_of mode)) bytes.now }
    ensures within { IfOk result (λ text. text.end ≤ length bytes.now) }
    ensures near { IfErr result (λ fault. fault.offset ≤ length bytes.now + 2) }
{
    match mode {
        Mode::Standard => scan_json(bytes),
        Mode::Extended => scan_extended_json(bytes),
    }
}

impl Parser<'_> {
    // Parses the longest number text, and gives its exact number, an exponent counted.
    pub(super) fn parse_exact_number(&mut self) -> Result<Number>
        requires exponents { takes_exponents (grammar_of self.old.grammar) ≡ true }
        ensures { ParsesAtOffset number_view number_at result self.old self.new }
    {
        let bytes = self.rest();
        if let Some(offset) = lacks_digits(bytes, self.mode) {
            return Err(self.invalid_number(offset));
        }
        match short_exact(bytes) {
            Some(read) => {
                self.offset += read.end;
                Ok(read.number)
            }
            None => self.parse_long_exact_number(bytes),
        }
    }

    // Parses any number text, also one that `short_exact` leaves.
    #[inline(never)]
    fn parse_long_exact_number(&mut self, bytes: &[u8]) -> Result<Number>
        requires exponents { takes_exponents (grammar_of self.old.grammar) ≡ true }
        requires bytes { bytes.now ≡ rest_of self.old }
        ensures { ParsesAtOffset number_view number_at result self.old self.new }
    {
        let text = match scan_exact(bytes, self.mode) {
            Ok(text) => text,
            Err(fault) => {
                let offset = self.offset + fault.offset;
                return Err(Error::Syntax(fault.code, offset));
            }
        };
        self.offset += text.end;
        match text.number {
            Some(number) => Ok(number),
            None => Err(Error::Syntax(ParseErrorCode::NumberNotCarried, self.offset)),
        }
    }
}
