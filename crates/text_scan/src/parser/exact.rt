//! Numbers with an exponent or none, at their exact value (RFC 8259, section 6): the point is moved as the exponent
//! says, no digit is dropped, and none is added behind the point. So `1.50e1` is 15.0, and `15e-1` is 1.5.
ghost use Rattle.std.specs.Prelude.{◌≡◌, ℕ, ◌+◌, ◌*◌, ◌≤◌, ◌<◌, ◌^◌, length, Ok, Err, Some, MatchOption, IfOk, IfErr, IfSome};
ghost use Rattle.std.specs.Option.{SomeIff};
ghost use Rattle.jsonb_spec.specs.Grammar.ExactNumber.{exact_number, moved_number};
ghost use Rattle.jsonb_spec.specs.Number.Signed.{signed_by};
ghost use Rattle.jsonb_core.specs.View.{number_view};
ghost use Rattle.text_scan.specs.ExactRead.{IsClamped, IsDecimalRead, Shifts};
ghost use Rattle.jsonb_spec.specs.Parsing.ExactNumber.{exact_at, exact_to, extended_json_scan, few_digits, left_at, right_at};
ghost use Rattle.jsonb_spec.specs.Parsing.Number.{digits_from, exponent_from, standard_end, whole_from, whole_start};
ghost use Rattle.text_scan.specs.ScannedNumber.{AreEnds, number_views, scanned_view};

use super::extended_number::decimal::{DecimalEnds, decimal_end, decimal_ends};
use super::extended_number::form::exact;
use super::extended_number::short::{FewDigits, digits_behind};
use super::extended_number::{
    NumberFault, NumberText, PAST_38_DIGITS, ReadNumber, invalid, scan_other,
};
use super::number::{digits_end, number_after, number_end, sign_end};
use jsonb_core::bytes::byte_at;
use jsonb_core::number::{Number, power_of_ten};

// The most digits of a number that is representable, before and behind its point.
const MOST_DIGITS: u64 = 38;

// How far an exponent moves the point: by so many digits, to the left or else to the right.
#[derive(Clone, Copy)]
struct Shift {
    left: bool,
    by: u64,
}

// ---- the value

// The number, where it has at most 38 digits, before and behind its point.
#[inline(always)]
fn in_range(negative: bool, magnitude: u128, scale: u64) -> Option<Number>
    ensures { number_views result ≡ few_digits (exact_number scale (signed_by negative magnitude)) }
{
    if scale > MOST_DIGITS || magnitude >= PAST_38_DIGITS {
        return None;
    }
    Some(exact(scale as usize, negative, magnitude))
}

// The magnitude with so many zeros behind it; `None` only where that has more than 38 digits.
fn scaled(magnitude: u128, zeros: u64) -> Option<u128>
    ensures value { MatchOption result (10 ^ 38 ≤ magnitude * 10 ^ zeros) (λ n. n ≡ magnitude * 10 ^ zeros) }
    ensures within { IfSome result (λ n. n < 2 ^ 128) }
{
    if magnitude == 0 {
        return Some(0);
    }
    if zeros > MOST_DIGITS {
        return None;
    }
    magnitude.checked_mul(power_of_ten(zeros as usize))
}

// The number of digits with this value, so many of them behind the point, once the point is moved.
#[inline(always)]
fn moved(negative: bool, magnitude: u128, behind: usize, shift: Shift) -> Option<Number>
    requires { behind < 2 ^ 63 }
    ensures { (right left : ℕ) → Shifts shift right left
        → number_views result ≡ few_digits (moved_number negative magnitude behind right left) }
{
    let behind = behind as u64;
    if shift.left {
        if shift.by > MOST_DIGITS {
            return None;
        }
        return in_range(negative, magnitude, behind + shift.by);
    }
    if shift.by <= behind {
        return in_range(negative, magnitude, behind - shift.by);
    }
    let whole = scaled(magnitude, shift.by - behind)?;
    in_range(negative, whole, 0)
}

// ---- numbers of few digits

// A decimal: the number that its digits write, how many of them are behind the point, and the index after it.
#[derive(Clone, Copy)]
struct DecimalRead {
    value: u64,
    behind: usize,
    end: usize,
}

// The decimal of at most 19 digits that the bytes begin with, if nothing follows that makes it a fault or a
// hexadecimal.
#[inline(always)]
fn read_decimal(bytes: &[u8]) -> Option<DecimalRead>
    ensures { IfSome result (λ decimal. IsDecimalRead bytes.now decimal) }
{
    let start = sign_end(bytes, 0);
    let none = FewDigits { len: 0, value: 0 };
    let front = digits_behind(&bytes[start..], none)?;
    if front.len == 0 {
        return None;
    }
    let front_end = start + front.len;
    let next = byte_at(bytes, front_end);
    if next == b'.' {
        let all = digits_behind(&bytes[front_end + 1..], front)?;
        let behind = all.len - front.len;
        let end = front_end + 1 + behind;
        if behind == 0 || byte_at(bytes, end) == b'.' {
            return None;
        }
        return Some(DecimalRead {
            value: all.value,
            behind,
            end,
        });
    }
    if next == b'x' || next == b'X' {
        return None;
    }
    Some(DecimalRead {
        value: front.value,
        behind: 0,
        end: front_end,
    })
}

// An exponent or none: how it moves the point, and the index after it.
#[derive(Clone, Copy)]
struct ExponentRead {
    shift: Shift,
    end: usize,
}

// The exponent of at most 19 digits that is here, or none; `None` where a digit lacks or more are there.
#[inline(always)]
fn read_exponent(bytes: &[u8], start: usize) -> Option<ExponentRead>
    requires { start ≤ length bytes.now }
    ensures end { IfSome result (λ exponent. exponent_from bytes.now start ≡ Ok exponent.end) }
    ensures shift { IfSome result (λ exponent. Shifts exponent.shift (right_at bytes.now start exponent.end)
        (left_at bytes.now start exponent.end)) }
    ensures within { IfSome result (λ exponent. exponent.end ≤ length bytes.now) }
{
    let mark = byte_at(bytes, start);
    if mark != b'e' && mark != b'E' {
        return Some(ExponentRead {
            shift: Shift { left: false, by: 0 },
            end: start,
        });
    }
    let digits = sign_end(bytes, start + 1);
    let none = FewDigits { len: 0, value: 0 };
    let few = digits_behind(&bytes[digits..], none)?;
    if few.len == 0 {
        return None;
    }
    let left = byte_at(bytes, start + 1) == b'-';
    Some(ExponentRead {
        shift: Shift {
            left,
            by: few.value,
        },
        end: digits + few.len,
    })
}

/// The number that the bytes begin with, if it is a decimal of few digits, with an exponent or none (RFC 8259,
/// section 6).
///
/// It is read at once: at most 19 digits, and as many of an exponent. `None` says nothing of the bytes: more digits, a
/// fault, another kind of number, or one that is out of range. A plus and needless zeros in front are read, which only
/// extended JSON has; [`lacks_whole`] finds them.
#[inline(always)]
pub fn short_exact(bytes: &[u8]) -> Option<ReadNumber>
    ensures extended { IfSome result (λ read. extended_json_scan bytes.now
        ≡ Ok (Some (number_view read.number), read.end)) }
    ensures json { IfSome result (λ read. (whole : ℕ) → whole_from bytes.now (whole_start bytes.now) ≡ Ok whole
        → exact_to bytes.now (standard_end bytes.now) ≡ Ok (Some (number_view read.number), read.end)) }
    ensures within { IfSome result (λ read. read.end ≤ length bytes.now) }
{
    let decimal = read_decimal(bytes)?;
    let exponent = read_exponent(bytes, decimal.end)?;
    let negative = byte_at(bytes, 0) == b'-';
    let number = moved(
        negative,
        u128::from(decimal.value),
        decimal.behind,
        exponent.shift,
    )?;
    Some(ReadNumber {
        number,
        end: exponent.end,
    })
}

// ---- numbers of any length

// A number in 64 bits. The greatest of these stands for each that they don't hold, and for `None`, which is one that
// 128 bits don't hold.
fn clamped(number: Option<u128>) -> u64
    ensures { (n : ℕ) → SomeIff number (n < 2 ^ 128) n → IsClamped result n }
{
    let Some(number) = number else {
        return u64::MAX;
    };
    match u64::try_from(number) {
        Ok(number) => number,
        Err(_) => u64::MAX,
    }
}

// How the exponent between these indices moves the point.
fn shift_between(bytes: &[u8], start: usize, end: usize) -> Shift
    requires within { start ≤ length bytes.now × end ≤ length bytes.now }
    requires exponent { exponent_from bytes.now start ≡ Ok end }
    ensures { Shifts result (right_at bytes.now start end) (left_at bytes.now start end) }
{
    if start == end {
        return Shift { left: false, by: 0 };
    }
    let digits = sign_end(bytes, start + 1);
    let by = clamped(number_after(0, &bytes[digits..end], 10));
    let left = byte_at(bytes, start + 1) == b'-';
    Shift { left, by }
}

// The number of the decimal text that ends here, with an exponent or none, where it is in range.
fn exact_value(bytes: &[u8], ends: DecimalEnds, end: usize) -> Option<Number>
    requires ends { AreEnds bytes.now ends }
    requires within { end ≤ length bytes.now }
    requires exponent { exponent_from bytes.now ends.behind_end ≡ Ok end }
    ensures { number_views result ≡ exact_at bytes.now end }
{
    let front = number_after(0, &bytes[ends.start..ends.front_end], 10)?;
    let magnitude = number_after(front, &bytes[ends.point_end..ends.behind_end], 10)?;
    let behind = ends.behind_end - ends.point_end;
    let negative = byte_at(bytes, 0) == b'-';
    let shift = shift_between(bytes, ends.behind_end, end);
    moved(negative, magnitude, behind, shift)
}

/// The offset of the fault where the whole part of a number of RFC 8259 (section 6) lacks digits or has a needless
/// zero; `None` where it is right.
#[inline(always)]
pub fn lacks_whole(bytes: &[u8]) -> Option<usize>
    ensures fault { MatchOption result
        (whole_from bytes.now (whole_start bytes.now) ≡ Ok (digits_from bytes.now (whole_start bytes.now)))
        (λ offset. whole_from bytes.now (whole_start bytes.now) ≡ Err offset) }
    ensures near { IfSome result (λ offset. offset ≤ length bytes.now) }
{
    let start = usize::from(byte_at(bytes, 0) == b'-');
    let first = byte_at(bytes, start);
    if !first.is_ascii_digit() {
        return Some(start);
    }
    if first == b'0' && byte_at(bytes, start + 1).is_ascii_digit() {
        return Some(start + 2);
    }
    None
}

/// The longest number text of RFC 8259 (section 6) that the bytes begin with, of any length.
///
/// The text's number is exact; without one the text is well-formed, but has more than 38 digits before or behind its
/// point. An error is a text that is not well-formed, and is `InvalidNumberValue` at the offset of the fault.
#[inline(never)]
pub fn scan_json(bytes: &[u8]) -> std::result::Result<NumberText, NumberFault>
    ensures scan { scanned_view result ≡ exact_to bytes.now (standard_end bytes.now) }
    ensures within { IfOk result (λ text. text.end ≤ length bytes.now) }
    ensures near { IfErr result (λ fault. fault.offset ≤ length bytes.now + 2) }
{
    if let Some(offset) = lacks_whole(bytes) {
        return invalid(offset);
    }
    let start = usize::from(byte_at(bytes, 0) == b'-');
    match number_end(bytes, digits_end(bytes, start)) {
        Ok(end) => Ok(NumberText {
            number: exact_value(bytes, decimal_ends(bytes), end),
            end,
        }),
        Err(offset) => invalid(offset),
    }
}

/// The longest number text of extended JSON that the bytes begin with, of any length: a decimal with an exponent or
/// none, a hexadecimal, or a word that names no number.
///
/// A decimal's number is exact. Without a number the text is well-formed, but names none or one that is out of range.
/// An error is a text that is not well-formed, and the offset of its fault.
#[inline(never)]
pub fn scan_extended_json(bytes: &[u8]) -> std::result::Result<NumberText, NumberFault>
    ensures scan { scanned_view result ≡ extended_json_scan bytes.now }
    ensures within { IfOk result (λ text. text.end ≤ length bytes.now) }
    ensures near { IfErr result (λ fault. fault.offset ≤ length bytes.now) }
{
    if let Some(other) = scan_other(bytes) {
        return other;
    }
    let ends = decimal_ends(bytes);
    match decimal_end(bytes, ends) {
        Ok(end) => Ok(NumberText {
            number: exact_value(bytes, ends, end),
            end,
        }),
        Err(offset) => invalid(offset),
    }
}
