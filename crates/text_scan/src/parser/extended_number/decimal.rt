//! Decimals of any length.
ghost use Rattle.std.specs.Prelude.{◌≡◌, ◌+◌, ◌-◌, ◌*◌, ◌≤◌, ◌<◌, ◌^◌, length, Err, Some, None, IfOk, IfErr};
ghost use Rattle.std.specs.Str.Parse.{AllDigits, digits_value_after};
ghost use Rattle.jsonb_spec.specs.Grammar.ExtendedNumber.{decimal_number};
ghost use Rattle.jsonb_spec.specs.Parsing.Number.{sign_end};
ghost use Rattle.jsonb_spec.specs.Parsing.ExtendedNumber.{zeros_from, zeros_end, front_end, point_end, behind_end, decimal_end, decimal_at, decimal_scan};
ghost use Rattle.text_scan.specs.ScannedNumber.{AreEnds, number_views, scanned_view};

use super::form::decimal;
use super::{MOST_DIGITS, NumberFault, NumberText};
use crate::parser::number::{digits_end, exponent_end, sign_end};
use jsonb_core::bytes::byte_at;
use jsonb_core::error::ParseErrorCode;
use jsonb_core::number::Number;

// Where the parts of a decimal end: its zeros, all digits before the point, the point, and the
// digits behind it.
#[derive(Clone, Copy)]
pub(crate) struct DecimalEnds {
    pub(crate) start: usize,
    pub(crate) zeros_end: usize,
    pub(crate) front_end: usize,
    pub(crate) point_end: usize,
    pub(crate) behind_end: usize,
}

// The number of digits that are parsed before a second point no longer is a fault.
const DIGITS_BEFORE_POINT: usize = 76;

// The index after the zeros from `start` on.
fn zeros_end(bytes: &[u8], start: usize) -> usize
    requires { start ≤ length bytes.now }
    ensures end { result ≡ zeros_from bytes.now start }
    ensures within { result ≤ length bytes.now }
{
    let mut end = start;
    'zeros: while end < bytes.len() && bytes[end] == b'0' {
        end += 1;
    }
    end
}

// Where the parts of the decimal end that the bytes begin with.
pub(crate) fn decimal_ends(bytes: &[u8]) -> DecimalEnds
    ensures { AreEnds bytes.now result }
{
    let start = sign_end(bytes, 0);
    let zeros_end = zeros_end(bytes, start);
    let front_end = digits_end(bytes, start);
    if byte_at(bytes, front_end) != b'.' {
        return DecimalEnds {
            start,
            zeros_end,
            front_end,
            point_end: front_end,
            behind_end: front_end,
        };
    }
    DecimalEnds {
        start,
        zeros_end,
        front_end,
        point_end: front_end + 1,
        behind_end: digits_end(bytes, front_end + 1),
    }
}

// The index after the decimal text; else the offset of the fault.
pub(crate) fn decimal_end(bytes: &[u8], ends: DecimalEnds) -> std::result::Result<usize, usize>
    requires { AreEnds bytes.now ends }
    ensures end { result ≡ decimal_end bytes.now }
    ensures within { IfOk result (λ end. end ≤ length bytes.now) }
    ensures near { IfErr result (λ offset. offset ≤ length bytes.now) }
{
    let scale = ends.behind_end - ends.point_end;
    if ends.front_end - ends.start + scale == 0 {
        return Err(ends.point_end);
    }
    if ends.front_end < ends.point_end
        && ends.front_end - ends.zeros_end + scale < DIGITS_BEFORE_POINT
        && byte_at(bytes, ends.behind_end) == b'.'
    {
        return Err(ends.behind_end);
    }
    exponent_end(bytes, ends.behind_end)
}

// The number that digits write when they follow those of `number`.
fn digits_onto(number: u128, digits: &[u8]) -> u128
    requires are_digits { AllDigits 10 digits.now }
    requires space { (number + 1) * 10 ^ length digits.now ≤ 10 ^ 38 }
    ensures value { result ≡ digits_value_after 10 number digits.now }
    ensures bound { result < (number + 1) * 10 ^ length digits.now }
{
    let mut all = number;
    for digit in digits {
        all = all * 10 + u128::from(*digit - b'0');
    }
    all
}

// The number of the decimal text that ends here, where it has no exponent and at most 38 digits.
fn decimal_number(bytes: &[u8], ends: DecimalEnds, end: usize) -> Option<Number>
    requires { AreEnds bytes.now ends }
    ensures { number_views result ≡ decimal_at bytes.now end }
{
    let scale = ends.behind_end - ends.point_end;
    let precision = ends.front_end - ends.zeros_end + scale;
    if ends.behind_end != end || precision > MOST_DIGITS {
        return None;
    }
    let front = digits_onto(0, &bytes[ends.zeros_end..ends.front_end]);
    let magnitude = digits_onto(front, &bytes[ends.point_end..ends.behind_end]);
    let negative = byte_at(bytes, 0) == b'-';
    Some(decimal(scale, precision, negative, magnitude))
}

// The decimal that the bytes begin with.
pub(super) fn scan_decimal(bytes: &[u8]) -> std::result::Result<NumberText, NumberFault>
    ensures scan { scanned_view result ≡ decimal_scan bytes.now }
    ensures within { IfOk result (λ text. text.end ≤ length bytes.now) }
    ensures near { IfErr result (λ fault. fault.offset ≤ length bytes.now) }
{
    let ends = decimal_ends(bytes);
    match decimal_end(bytes, ends) {
        Ok(end) => Ok(NumberText {
            number: decimal_number(bytes, ends, end),
            end,
        }),
        Err(offset) => Err(NumberFault {
            code: ParseErrorCode::InvalidNumberValue,
            offset,
        }),
    }
}
