//! Decimals of few digits, in one pass.
ghost use Rattle.std.specs.Prelude.{◌≡◌, ◌+◌, ◌-◌, ◌*◌, ◌≤◌, ◌<◌, ◌^◌, length, take, Some, None, IfSome};
ghost use Rattle.std.specs.Bool.{MatchBool};
ghost use Rattle.std.specs.Str.Parse.{digits_value_after};
ghost use Rattle.jsonb_core.specs.View.{number_view};
ghost use Rattle.jsonb_spec.specs.Parsing.Number.{digits_length, sign_end};
ghost use Rattle.jsonb_spec.specs.Parsing.ExtendedNumber.{front_end, extended_scan, FollowsDigits};

use super::form::{DECIMAL64_DIGITS, short_decimal, short_integer};
use crate::parser::number::{SAFE_DIGITS, continues_after_integer, sign_end};
use jsonb_core::bytes::byte_at;
use jsonb_core::number::Number;

/// A number and the index after its text.
#[derive(Drop)]
pub struct ReadNumber {
    pub number: Number,
    pub end: usize,
}

// Digits that 64 bits hold: how many, and the number that they write.
#[derive(Clone, Copy)]
pub(crate) struct FewDigits {
    pub(crate) len: usize,
    pub(crate) value: u64,
}

// The digits that the bytes begin with, behind those that were parsed before, unless they are too many.
#[inline(always)]
pub(crate) fn digits_behind(bytes: &[u8], before: FewDigits) -> Option<FewDigits>
    requires { before.len ≤ 19 × before.value < 10 ^ before.len }
    ensures len { IfSome result (λ all. all.len ≡ before.len + digits_length bytes.now) }
    ensures few { IfSome result (λ all. all.len ≤ 19) }
    ensures value { IfSome result (λ all. all.value ≡ digits_value_after 10 before.value
        (take (digits_length bytes.now) bytes.now)) }
    ensures small { IfSome result (λ all. all.value < 10 ^ all.len) }
{
    let mut value = before.value;
    let mut count = 0;
    'digits: while count < bytes.len() && bytes[count].is_ascii_digit() {
        if before.len + count == SAFE_DIGITS {
            return None;
        }
        value = value * 10 + u64::from(bytes[count] - b'0');
        count += 1;
    }
    Some(FewDigits {
        len: before.len + count,
        value,
    })
}

// Whether a byte goes on with a number after digits: a point, an exponent mark or an x.
fn follows_digits(byte: u8) -> bool
    ensures { MatchBool result (FollowsDigits byte) (¬ FollowsDigits byte) }
{
    matches!(byte, b'.' | b'e' | b'E' | b'x' | b'X')
}

/// The number that the bytes begin with, if it is a decimal of few digits and without an exponent.
#[inline(always)]
pub fn short_number(bytes: &[u8]) -> Option<ReadNumber>
    ensures found { IfSome result (λ read. extended_scan bytes.now ≡ Ok (Some (number_view read.number), read.end)) }
    ensures within { IfSome result (λ read. read.end ≤ length bytes.now) }
{
    let negative = byte_at(bytes, 0) == b'-';
    let start = sign_end(bytes, 0);
    let none = FewDigits { len: 0, value: 0 };
    let front = digits_behind(&bytes[start..], none)?;
    let front_end = start + front.len;
    let next = byte_at(bytes, front_end);
    if next == b'.' {
        let all = digits_behind(&bytes[front_end + 1..], front)?;
        let scale = all.len - front.len;
        let end = front_end + 1 + scale;
        if all.len == 0
            || all.len > DECIMAL64_DIGITS
            || continues_after_integer(byte_at(bytes, end))
        {
            return None;
        }
        return Some(ReadNumber {
            number: short_decimal(scale, negative, all.value),
            end,
        });
    }
    if front.len == 0 || follows_digits(next) {
        return None;
    }
    Some(ReadNumber {
        number: short_integer(negative, front.value),
        end: front_end,
    })
}
