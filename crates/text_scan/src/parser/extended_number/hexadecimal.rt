//! Hexadecimals.
ghost use Rattle.std.specs.Prelude.{◌≡◌, ◌+◌, ◌-◌, ◌*◌, ◌≤◌, ◌<◌, ◌^◌, length, Some, None, IfOk, IfErr};
ghost use Rattle.std.specs.Char.{digit_value};
ghost use Rattle.std.specs.Option.{SomeIff};
ghost use Rattle.std.specs.Str.Parse.{AllDigits, digits_value};
ghost use Rattle.jsonb_spec.specs.Grammar.ExtendedNumber.{hexadecimal_number};
ghost use Rattle.jsonb_spec.specs.Parsing.ExtendedNumber.{hexadecimal_length, fraction_scan, hexadecimal_scan, hexadecimal_starts, invalid};
ghost use Rattle.text_scan.specs.ScannedNumber.{number_views, scanned_view};

use super::form::with_sign;
use super::{NumberFault, NumberText, PAST_38_DIGITS, invalid};
use crate::parser::number::number_after;
use crate::util::digit;
use jsonb_core::bytes::byte_at;
use jsonb_core::number::{Decimal128, Number};

// The number of hexadecimal digits that the bytes begin with.
fn hexadecimal_length(bytes: &[u8]) -> usize
    ensures value { result ≡ hexadecimal_length bytes.now }
    ensures within { result ≤ length bytes.now }
{
    let mut end = 0;
    'digits: while digit(byte_at(bytes, end)) < 16 {
        end += 1;
    }
    end
}

// The number of a sign and a magnitude, where a form holds it.
fn hexadecimal(negative: bool, magnitude: u128) -> Option<Number>
    ensures { number_views result ≡ hexadecimal_number negative magnitude }
{
    if !negative {
        if let Ok(n) = u64::try_from(magnitude) {
            return Some(Number::UInt64(n));
        }
    } else if magnitude <= 1 << 63 {
        return Some(Number::Int64(with_sign(true, magnitude) as i64));
    }
    if magnitude >= PAST_38_DIGITS {
        return None;
    }
    Some(Number::Decimal128(Decimal128 {
        scale: 0,
        value: with_sign(negative, magnitude),
    }))
}

// The digits behind the point of a hexadecimal, of which the first has this offset.
fn scan_fraction(
    bytes: &[u8],
    offset: usize,
    whole_fits: bool,
) -> std::result::Result<NumberText, NumberFault>
    requires { offset + length bytes.now < 2 ^ 63 }
    ensures scan { scanned_view result ≡ fraction_scan offset whole_fits bytes.now }
    ensures within { IfOk result (λ text. text.end ≤ offset + length bytes.now) }
    ensures near { IfErr result (λ fault. fault.offset ≤ offset + length bytes.now) }
{
    let len = hexadecimal_length(bytes);
    if len == 0 {
        return invalid(offset);
    }
    let end = offset + len;
    let fraction = number_after(0, &bytes[..len], 16);
    if !whole_fits || fraction.is_none() {
        return invalid(end);
    }
    Ok(NumberText { number: None, end })
}

// The bytes after the x of a hexadecimal, of which the first has this offset.
#[cold]
pub(super) fn scan_hexadecimal(
    bytes: &[u8],
    offset: usize,
    negative: bool,
) -> std::result::Result<NumberText, NumberFault>
    requires { offset + length bytes.now < 2 ^ 63 }
    ensures scan { scanned_view result ≡ hexadecimal_scan offset negative bytes.now }
    ensures within { IfOk result (λ text. text.end ≤ offset + length bytes.now) }
    ensures near { IfErr result (λ fault. fault.offset ≤ offset + length bytes.now) }
{
    let len = hexadecimal_length(bytes);
    if len == 0 {
        return invalid(offset);
    }
    let end = offset + len;
    let whole = number_after(0, &bytes[..len], 16);
    if byte_at(bytes, len) == b'.' {
        let fits = whole.is_some();
        return scan_fraction(&bytes[len + 1..], end + 1, fits);
    }
    match whole {
        None => invalid(end),
        Some(magnitude) => Ok(NumberText {
            number: hexadecimal(negative, magnitude),
            end,
        }),
    }
}

// Whether a zero and an x are here.
pub(super) fn begins_hexadecimal(bytes: &[u8], start: usize) -> bool
    requires { start ≤ length bytes.now }
    ensures { result ≡ hexadecimal_starts bytes.now start }
{
    byte_at(bytes, start) == b'0' && byte_at(bytes, start + 1).to_ascii_lowercase() == b'x'
}
