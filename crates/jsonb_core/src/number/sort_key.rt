//! The sort key of a number: its sign, its exponent, and its digits.
ghost use Rattle.std.specs.Prelude.{◌≡◌, ◌*◌, ◌/◌, ◌%◌, ◌^◌, ◌<◌, ◌≤◌, ◌++◌, ◌↔◌, ◌-◌, ◌∷◌, [], map, drop};
ghost use Rattle.jsonb_spec.specs.Proper.{IsProperNumber};
ghost use Rattle.jsonb_spec.specs.SortKey.{digit_count, exponent_key, digits_key, magnitude_key, number_key, invert_if};
ghost use Rattle.jsonb_spec.specs.Text.Appending.{Appends};
ghost use Rattle.jsonb_core.specs.View.{number_view};

use super::{Number, power_of_ten};
use crate::sort_key::kind;
use std::alloc::AllocError;

// The result of a function that appends. After an error the buffer may hold a part of the key.
type Appended = Result<(), AllocError>;

impl Number {
    // Appends the number's key, whatever its variant is.
    pub(crate) fn append_sort_key(&self, buf: &mut Vec<u8>) -> Appended
        ensures appends { Appends result buf.old buf.new (number_key (number_view self.now)) }
        ensures proper { IsProperNumber (number_view self.now) }
    {
        let scale = self.scale();
        let (negative, magnitude) = self.sign_and_magnitude();
        if magnitude == 0 {
            return append_byte(kind::ZERO, buf);
        }
        append_magnitude(negative, scale, magnitude, buf)
    }
}

// Appends a byte of a key.
#[inline(always)]
fn append_byte(byte: u8, buf: &mut Vec<u8>) -> Appended
    ensures appends { Appends result buf.old buf.new (byte ∷ []) }
{
    if buf.push(byte).is_err() {
        return Err(AllocError);
    }
    Ok(())
}

// Appends two bytes of a key.
#[inline(always)]
fn append_two(first: u8, second: u8, buf: &mut Vec<u8>) -> Appended
    ensures appends { Appends result buf.old buf.new (first ∷ second ∷ []) }
{
    buf.extend_from_slice(&[first, second])
}

// Appends what is in a row of bytes from `start` on.
#[inline(always)]
fn append_row(row: &[u8; 12], start: usize, buf: &mut Vec<u8>) -> Appended
    requires { start ≤ 12 }
    ensures appends { Appends result buf.old buf.new (drop start row.now) }
{
    buf.extend_from_slice(&row[start..])
}

// A byte, turned round where the number is negative.
#[inline(always)]
fn invert_if(negative: bool, byte: u8) -> u8
    ensures { result ≡ invert_if negative byte }
{
    if negative { 255 - byte } else { byte }
}

// Appends the key of a number above 0 with this sign.
fn append_magnitude(negative: bool, scale: u8, magnitude: u128, buf: &mut Vec<u8>) -> Appended
    requires { 0 < magnitude }
    ensures appends { Appends result buf.old buf.new (map (invert_if negative) (magnitude_key scale magnitude)) }
{
    if magnitude < 100 && scale < 31 {
        return append_small(negative, scale, magnitude as u64, buf);
    }
    if magnitude < 0x1_0000_0000_0000_0000 {
        return append_short(negative, scale, magnitude as u64, buf);
    }
    append_long(negative, scale, magnitude, buf)
}

// Appends the key of a number of one or two digits, which has two bytes but for small fractions.
#[inline(always)]
fn append_small(negative: bool, scale: u8, magnitude: u64, buf: &mut Vec<u8>) -> Appended
    requires few { (0 < magnitude) × (magnitude < 100) }
    requires near { scale < 31 }
    ensures appends { Appends result buf.old buf.new (map (invert_if negative) (magnitude_key scale magnitude)) }
{
    let (count, digits) = small_digits(magnitude);
    let exponent = invert_if(negative, count + 0xA0 - scale);
    append_two(exponent, invert_if(negative, digits), buf)
}

// How many digits a number below 100 has, and their byte.
#[inline(always)]
fn small_digits(magnitude: u64) -> (u8, u8)
    requires { (0 < magnitude) × (magnitude < 100) }
    ensures count { result.0 ≡ digit_count magnitude }
    ensures digits { result.1 ∷ [] ≡ digits_key (digit_count magnitude) magnitude }
    ensures few { (1 ≤ result.0) × (result.0 ≤ 2) }
{
    if magnitude < 10 {
        (1, 20 * magnitude as u8)
    } else {
        (2, 2 * magnitude as u8)
    }
}

// Appends the key of a number that fits 64 bits, as most do: its bytes are made in a row and appended at once.
#[inline(always)]
fn append_short(negative: bool, scale: u8, magnitude: u64, buf: &mut Vec<u8>) -> Appended
    requires { 0 < magnitude }
    ensures appends { Appends result buf.old buf.new (map (invert_if negative) (magnitude_key scale magnitude)) }
{
    let count = short_digit_count(magnitude);
    let mut row = [0; 12];
    let digits = write_digits(negative, count, magnitude, &mut row);
    let start = write_exponent(negative, count + 255 - u32::from(scale), digits, &mut row);
    append_row(&row, start, buf)
}

// Appends the key of any number above 0 with this sign.
#[inline(never)]
fn append_long(negative: bool, scale: u8, magnitude: u128, buf: &mut Vec<u8>) -> Appended
    requires { 0 < magnitude }
    ensures appends { Appends result buf.old buf.new (map (invert_if negative) (magnitude_key scale magnitude)) }
{
    let count = digit_count(magnitude);
    append_exponent(negative, count + 255 - u32::from(scale), buf)?;
    append_digits(negative, count, magnitude, buf)
}

// How many digits a number above 0 has.
fn digit_count(magnitude: u128) -> u32
    requires { 0 < magnitude }
    ensures count { result ≡ digit_count magnitude }
    ensures some { 0 < result }
    ensures few { result ≤ 39 }
    ensures below { magnitude < 10 ^ result }
{
    magnitude.ilog10() + 1
}

// How many digits a number of 64 bits above 0 has.
#[inline(always)]
fn short_digit_count(magnitude: u64) -> u32
    requires { 0 < magnitude }
    ensures count { result ≡ digit_count magnitude }
    ensures some { 0 < result }
    ensures few { result ≤ 20 }
    ensures below { magnitude < 10 ^ result }
{
    magnitude.ilog10() + 1
}

// Writes the exponent of the first digit before what is in the row from `end` on, and answers where it begins.
#[inline(always)]
fn write_exponent(negative: bool, exponent: u32, end: usize, row: &mut [u8; 12]) -> usize
    requires small { exponent < 295 }
    requires space { (2 ≤ end) × (end ≤ 12) }
    ensures bytes { drop result row.new ≡ map (invert_if negative) (exponent_key exponent) ++ drop end row.old }
    ensures within { result ≤ 12 }
{
    if exponent < 225 {
        row[end - 1] = invert_if(negative, exponent as u8);
        row[end - 2] = invert_if(negative, kind::FAR_EXPONENT);
        return end - 2;
    }
    row[end - 1] = invert_if(negative, (exponent - 95) as u8);
    end - 1
}

// Appends the exponent of the first digit.
fn append_exponent(negative: bool, exponent: u32, buf: &mut Vec<u8>) -> Appended
    requires { exponent < 295 }
    ensures appends { Appends result buf.old buf.new (map (invert_if negative) (exponent_key exponent)) }
{
    let mut row = [0; 12];
    let start = write_exponent(negative, exponent, 12, &mut row);
    append_row(&row, start, buf)
}

// The last pair of digits, or the last digit and a 0 where their count is odd, and the number before them.
#[inline(always)]
fn split_last(count: u32, magnitude: u64) -> (u8, u64)
    requires { 0 < count }
    ensures last { (2 * result.0) ∷ []
        ≡ digits_key (2 - count % 2) (magnitude % 10 ^ (2 - count % 2)) }
    ensures zero { result.0 ≡ 0 ↔ magnitude % 10 ^ (2 - count % 2) ≡ 0 }
    ensures small { result.0 < 100 }
    ensures front { result.1 ≡ magnitude / 10 ^ (2 - count % 2) }
{
    if count % 2 == 0 {
        ((magnitude % 100) as u8, magnitude / 100)
    } else {
        (10 * (magnitude % 10) as u8, magnitude / 10)
    }
}

// Writes the digits to the end of the row, two at a time from the last on, and answers where they begin.
#[inline(always)]
fn write_digits(negative: bool, count: u32, magnitude: u64, row: &mut [u8; 12]) -> usize
    requires some { 0 < count }
    requires few { count ≤ 20 }
    requires below { magnitude < 10 ^ count }
    ensures bytes { drop result row.new ≡ map (invert_if negative) (digits_key count magnitude) }
    ensures space { (2 ≤ result) × (result ≤ 12) }
{
    let (last, mut front) = split_last(count, magnitude);
    let mut more = 0u8;
    if last != 0 {
        more = 1;
    }
    let mut start = 11;
    row[start] = invert_if(negative, 2 * last);
    let mut left = (count - 1) / 2;
    'pairs: while left > 0 {
        let pair = (front % 100) as u8;
        front /= 100;
        start -= usize::from(more);
        row[start] = invert_if(negative, 2 * pair + more);
        if pair != 0 {
            more = 1;
        }
        left -= 1;
    }
    start
}

// Appends the digits of a number that fits 64 bits, of which there are at most 20.
fn append_short_digits(negative: bool, count: u32, magnitude: u64, buf: &mut Vec<u8>) -> Appended
    requires some { 0 < count }
    requires few { count ≤ 20 }
    requires below { magnitude < 10 ^ count }
    ensures appends { Appends result buf.old buf.new (map (invert_if negative) (digits_key count magnitude)) }
{
    let mut row = [0; 12];
    let start = write_digits(negative, count, magnitude, &mut row);
    append_row(&row, start, buf)
}

// The first two digits, and the `left` digits behind them.
fn split_pair(magnitude: u128, left: u32) -> (u8, u128)
    requires few { left ≤ 37 }
    requires below { magnitude < 100 * 10 ^ left }
    ensures pair { result.0 ≡ magnitude / 10 ^ left }
    ensures rest { result.1 ≡ magnitude % 10 ^ left }
    ensures small { result.0 < 100 }
    ensures below { result.1 < 10 ^ left }
{
    let power = power_of_ten(left as usize);
    let pair = magnitude / power;
    (pair as u8, magnitude - pair * power)
}

// Appends the digits, two at a time until the rest fits 64 bits.
fn append_digits(negative: bool, count: u32, magnitude: u128, buf: &mut Vec<u8>) -> Appended
    requires some { 0 < magnitude }
    requires few { count ≤ 39 }
    requires below { magnitude < 10 ^ count }
    ensures appends { Appends result buf.old buf.new (map (invert_if negative) (digits_key count magnitude)) }
{
    if count <= 20 && magnitude < 0x1_0000_0000_0000_0000 {
        return append_short_digits(negative, count, magnitude as u64, buf);
    }
    let left = count - 2;
    let (pair, rest) = split_pair(magnitude, left);
    if rest == 0 {
        return append_byte(invert_if(negative, 2 * pair), buf);
    }
    append_byte(invert_if(negative, 2 * pair + 1), buf)?;
    append_digits(negative, left, rest, buf)
}
