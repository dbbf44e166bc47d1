//! The sort key of a decimal, made of its digits in a text.
ghost use Rattle.std.specs.Prelude.{◌≡◌, ◌≢◌, ◌+◌, ◌-◌, ◌<◌, ◌≤◌, ◌++◌, ◌∷◌, [], ℕ, List, length, map, take, slice_index, OnOk};
ghost use Rattle.std.specs.Str.Parse.{AllDigits, digits_value};
ghost use Rattle.jsonb_spec.specs.Ascii as ascii;
ghost use Rattle.jsonb_spec.specs.SortKey.{invert_if, magnitude_key, number_key};
ghost use Rattle.jsonb_spec.specs.Text.Appending.{Extends};
ghost use Rattle.jsonb_spec.specs.Text.NumberText.{number_text};
ghost use Rattle.jsonb_spec.specs.Tree.{Num};
ghost use Rattle.jsonb_spec.specs.Text.VerbatimScalar.{IsShortDecimal};
ghost use Rattle.text_write.specs.DecimalKey.{IsOnlyPoint, without_points};

use crate::integer_key::{append_pairs, invert_if, significant_len};
use crate::key::KeySink;
use jsonb_core::bytes::byte_at;
use jsonb_core::sort_key::kind;
use std::alloc::AllocError;
use text_scan::parser::number::after_minus;

// The digits of a decimal from the first on that is no zero, how many they are, and how many are behind the point.
#[derive(Drop)]
struct PointedDigits {
    row: [u8; 32],
    count: usize,
    scale: usize,
}

// Puts the digits around a point together.
#[inline(always)]
fn pointed_digits(bytes: &[u8]) -> PointedDigits
    requires { length bytes.now < 32 }
    ensures digits { AllDigits 10 (without_points bytes.now) → AllDigits 10 (take result.count result.row) }
    ensures value { digits_value 10 (take result.count result.row) ≡ digits_value 10 (without_points bytes.now) }
    ensures leads { 0 < result.count → slice_index result.row 0 ≢ ascii.digit_zero }
    ensures scale { (point : ℕ) → IsOnlyPoint bytes.now point → result.scale ≡ length bytes.now - 1 - point }
    ensures few { (result.count < 32) × (result.scale < 32) }
    ensures size { length result.row ≡ 32 }
{
    let mut row = [b'0'; 32];
    let mut count = 0;
    let mut scale = 0;
    let mut index = 0;
    'bytes: while index < bytes.len() {
        let byte = bytes[index];
        if byte == b'.' {
            scale = bytes.len() - 1 - index;
        } else if count > 0 || byte != b'0' {
            row[count] = byte;
            count += 1;
        }
        index += 1;
    }
    PointedDigits { row, count, scale }
}

// Appends the key of a decimal above or below 0, given its digits.
#[inline(always)]
fn append_pointed(
    negative: bool,
    digits: &PointedDigits,
    out: &mut Vec<u8>,
) -> Result<(), AllocError>
    requires some { 0 < digits.now.count }
    requires few { (digits.now.count < 32) × (digits.now.scale < 32) }
    requires leads { slice_index digits.now.row 0 ≢ ascii.digit_zero }
    ensures bytes { OnOk result (AllDigits 10 (take digits.now.count digits.now.row) → digits.now.scale ≤ 30
        → out.new.items ≡ out.old.items ++ map (invert_if negative)
        (magnitude_key digits.now.scale (digits_value 10 (take digits.now.count digits.now.row)))) }
    ensures retained { Extends out.old.items out.new.items }
{
    let len = significant_len(&digits.row[..digits.count]);
    let offset = 0xA0 + digits.count - digits.scale;
    out.try_reserve(17)?;
    out.push_reserved(invert_if(negative, offset as u8));
    append_pairs(negative, &digits.row, len, out)
}

// Appends the key of a decimal, given its text.
#[inline(always)]
pub(crate) fn append_decimal_key(bytes: &[u8], out: &mut Vec<u8>) -> Result<(), AllocError>
    ensures bytes { OnOk result ((n : Num) → IsShortDecimal n → bytes.now ≡ number_text n
        → out.new.items ≡ out.old.items ++ number_key n) }
    ensures retained { Extends out.old.items out.new.items }
{
    let digits = after_minus(bytes);
    if digits.len() >= 32 {
        return Ok(());
    }
    let pointed = pointed_digits(digits);
    if pointed.count == 0 {
        out.extend_from_slice(&[kind::ZERO])?;
        return Ok(());
    }
    append_pointed(byte_at(bytes, 0) == b'-', &pointed, out)
}

impl<'a> KeySink<'a> {
    ghost use Rattle.std.specs.Prelude.{slice_range};
    ghost use Rattle.text_write.specs.KeySink.{Writes, base_of};

    // Writes a decimal that is there in the text, in a function of its own, which is called less often than others.
    #[inline(never)]
    pub(crate) fn decimal(&mut self, from: usize, to: usize) -> Result<(), AllocError>
        ensures bytes { OnOk result ((n : Num) → to ≤ length self.old.members.text.now → IsShortDecimal n
            → slice_range self.old.members.text.now from to ≡ number_text n → Writes (number_key n) self.old self.new) }
        ensures base { base_of self.new ≡ base_of self.old }
    {
        if from >= to {
            return Ok(());
        }
        if to > self.members.text.len() {
            return Ok(());
        }
        append_decimal_key(&self.members.text[from..to], &mut self.out)
    }
}
