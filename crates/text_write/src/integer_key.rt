//! The sort key of an integer, made of its digits in a text.
ghost use Rattle.std.specs.Prelude.{◌≡◌, ◌≢◌, ◌-◌, ◌<◌, ◌≤◌, ◌++◌, ◌∷◌, [], ℕ, List, true, length, map, take, slice_index, slice_range, OnOk};
ghost use Rattle.std.specs.Str.Parse.{AllDigits, digits_value};
ghost use Rattle.jsonb_spec.specs.Ascii as ascii;
ghost use Rattle.jsonb_spec.specs.Grammar.StandardNumber.{IsStandardNumber};
ghost use Rattle.jsonb_spec.specs.SortKey.{invert_if, magnitude_key, number_key};
ghost use Rattle.jsonb_spec.specs.Text.Appending.{Extends};
ghost use Rattle.jsonb_spec.specs.Tree.{Num};
ghost use Rattle.text_write.specs.IntegerKey.{digit_bytes, last_byte, more_byte, more_bytes};

use crate::key::KeySink;
use crate::short::append_part;
use jsonb_core::bytes::byte_at;
use jsonb_core::sort_key::kind;
use std::alloc::AllocError;

// The byte of two digits behind which others are that aren't all zeros.
#[inline(always)]
fn more_byte(first: u8, second: u8) -> u8
    ensures { result ≡ more_byte first second }
{
    first
        .wrapping_mul(20)
        .wrapping_add(second.wrapping_mul(2))
        .wrapping_add(225)
}

// The byte of the last two digits.
#[inline(always)]
fn last_byte(first: u8, second: u8) -> u8
    ensures { result ≡ last_byte first second }
{
    first
        .wrapping_mul(20)
        .wrapping_add(second.wrapping_mul(2))
        .wrapping_add(224)
}

// The bytes of sixteen pairs of digits. They are made at once, since each is made alike.
#[inline(always)]
fn more_bytes(digits: &[u8; 32]) -> [u8; 16]
    ensures { result ≡ more_bytes 16 0 digits.now }
{
    [
        more_byte(digits[0], digits[1]),
        more_byte(digits[2], digits[3]),
        more_byte(digits[4], digits[5]),
        more_byte(digits[6], digits[7]),
        more_byte(digits[8], digits[9]),
        more_byte(digits[10], digits[11]),
        more_byte(digits[12], digits[13]),
        more_byte(digits[14], digits[15]),
        more_byte(digits[16], digits[17]),
        more_byte(digits[18], digits[19]),
        more_byte(digits[20], digits[21]),
        more_byte(digits[22], digits[23]),
        more_byte(digits[24], digits[25]),
        more_byte(digits[26], digits[27]),
        more_byte(digits[28], digits[29]),
        more_byte(digits[30], digits[31]),
    ]
}

// A byte of a key, turned round where the number is negative.
#[inline(always)]
pub(crate) fn invert_if(negative: bool, byte: u8) -> u8
    ensures { result ≡ invert_if negative byte }
{
    if negative { 255 - byte } else { byte }
}

// The bytes, turned round where the number is negative.
#[inline(always)]
fn turned(negative: bool, row: [u8; 16]) -> [u8; 16]
    ensures { result ≡ map (invert_if negative) row }
{
    if !negative {
        return row;
    }
    [
        255 - row[0],
        255 - row[1],
        255 - row[2],
        255 - row[3],
        255 - row[4],
        255 - row[5],
        255 - row[6],
        255 - row[7],
        255 - row[8],
        255 - row[9],
        255 - row[10],
        255 - row[11],
        255 - row[12],
        255 - row[13],
        255 - row[14],
        255 - row[15],
    ]
}

// How many of the digits are left without the zeros at their end. The first is held.
#[inline(always)]
pub(crate) fn significant_len(digits: &[u8]) -> usize
    requires { 0 < length digits.now }
    ensures within { result ≤ length digits.now }
    ensures some { 0 < result }
    ensures zeros { (k : ℕ) → result ≤ k → k < length digits.now → slice_index digits.now k ≡ ascii.digit_zero }
    ensures last { 1 < result → slice_index digits.now (result - 1) ≢ ascii.digit_zero }
{
    let mut len = digits.len();
    'zeros: while len > 1 && digits[len - 1] == b'0' {
        len -= 1;
    }
    len
}

// Appends the bytes of the first of these digits.
#[inline(always)]
fn append_short(
    negative: bool,
    digits: &[u8; 32],
    len: usize,
    out: &mut Vec<u8>,
) -> Result<(), AllocError>
    requires { (0 < len) × (len ≤ 32) }
    ensures bytes { OnOk result (out.new.items
        ≡ out.old.items ++ map (invert_if negative) (digit_bytes (take len digits.now))) }
    ensures retained { Extends out.old.items out.new.items }
{
    let mut row = more_bytes(digits);
    let last = (len - 1) / 2;
    let second = if len % 2 == 0 { digits[len - 1] } else { b'0' };
    row[last] = last_byte(digits[2 * last], second);
    append_part(turned(negative, row), last + 1, out)
}

// Appends the bytes of any digits.
#[inline(never)]
fn append_long(negative: bool, digits: &[u8], out: &mut Vec<u8>) -> Result<(), AllocError>
    ensures bytes { OnOk result (out.new.items
        ≡ out.old.items ++ map (invert_if negative) (digit_bytes digits.now)) }
    ensures retained { Extends out.old.items out.new.items }
{
    out.try_reserve(digits.len())?;
    let mut rest = digits;
    'pairs: while let [first, second, more @ ..] = rest {
        if more.is_empty() {
            out.push_reserved(invert_if(negative, last_byte(*first, *second)));
            return Ok(());
        }
        out.push_reserved(invert_if(negative, more_byte(*first, *second)));
        rest = more;
    }
    if let [first, ..] = rest {
        out.push_reserved(invert_if(negative, last_byte(*first, b'0')));
    }
    Ok(())
}

// Appends the bytes of the first digits. A row of 32 is read, where there are so many bytes.
#[inline(always)]
pub(crate) fn append_pairs(
    negative: bool,
    digits: &[u8],
    len: usize,
    out: &mut Vec<u8>,
) -> Result<(), AllocError>
    requires some { 0 < len }
    requires inside { len ≤ length digits.now }
    ensures bytes { OnOk result (out.new.items
        ≡ out.old.items ++ map (invert_if negative) (digit_bytes (take len digits.now))) }
    ensures retained { Extends out.old.items out.new.items }
{
    if len <= 32 {
        if let Some(chunk) = digits.first_chunk::<32>() {
            return append_short(negative, chunk, len, out);
        }
    }
    append_long(negative, &digits[..len], out)
}

// Appends the key of an integer of one or two digits above or below 0.
#[inline(always)]
fn append_few(
    negative: bool,
    digits: &[u8],
    count: usize,
    out: &mut Vec<u8>,
) -> Result<(), AllocError>
    requires some { (0 < count) × (count ≤ 2) }
    requires inside { count ≤ length digits.now }
    requires leads { slice_index digits.now 0 ≢ ascii.digit_zero }
    ensures bytes { OnOk result (AllDigits 10 (take count digits.now) → out.new.items ≡ out.old.items
        ++ map (invert_if negative) (magnitude_key 0 (digits_value 10 (take count digits.now)))) }
    ensures retained { Extends out.old.items out.new.items }
{
    let second = if count == 2 { digits[1] } else { b'0' };
    let offset = invert_if(negative, 0xA0 + count as u8);
    let byte = invert_if(negative, last_byte(digits[0], second));
    out.try_reserve(2)?;
    out.push_reserved(offset);
    out.push_reserved(byte);
    Ok(())
}

// Appends the key of an integer of any digits. It is a call of its own, since with it in the loop over the elements of
// an array the compiler no longer inlines the others.
#[inline(never)]
fn append_several(
    negative: bool,
    digits: &[u8],
    count: usize,
    out: &mut Vec<u8>,
) -> Result<(), AllocError>
    requires some { (0 < count) × (count < 32) }
    requires inside { count ≤ length digits.now }
    requires leads { slice_index digits.now 0 ≢ ascii.digit_zero }
    ensures bytes { OnOk result (AllDigits 10 (take count digits.now) → out.new.items ≡ out.old.items
        ++ map (invert_if negative) (magnitude_key 0 (digits_value 10 (take count digits.now)))) }
    ensures retained { Extends out.old.items out.new.items }
{
    let len = significant_len(&digits[..count]);
    out.try_reserve(17)?;
    out.push_reserved(invert_if(negative, 0xA0 + count as u8));
    append_pairs(negative, digits, len, out)
}

// Appends the key of an integer above or below 0, given its digits, and what is behind them.
#[inline(always)]
fn append_digits(
    negative: bool,
    digits: &[u8],
    count: usize,
    out: &mut Vec<u8>,
) -> Result<(), AllocError>
    requires some { (0 < count) × (count < 32) }
    requires inside { count ≤ length digits.now }
    requires leads { slice_index digits.now 0 ≢ ascii.digit_zero }
    ensures bytes { OnOk result (AllDigits 10 (take count digits.now) → out.new.items ≡ out.old.items
        ++ map (invert_if negative) (magnitude_key 0 (digits_value 10 (take count digits.now)))) }
    ensures retained { Extends out.old.items out.new.items }
{
    if count <= 2 {
        return append_few(negative, digits, count, out);
    }
    append_several(negative, digits, count, out)
}

// Appends the key of the integer that the first bytes of a text are.
#[inline(always)]
pub(crate) fn append_integer_key(
    bytes: &[u8],
    len: usize,
    out: &mut Vec<u8>,
) -> Result<(), AllocError>
    requires { len ≤ length bytes.now }
    ensures bytes { OnOk result ((n : Num) → IsStandardNumber (take len bytes.now) n
        → out.new.items ≡ out.old.items ++ number_key n) }
    ensures retained { Extends out.old.items out.new.items }
{
    let negative = byte_at(bytes, 0) == b'-';
    let start = usize::from(negative);
    if len <= start {
        return Ok(());
    }
    let count = len - start;
    if count >= 32 {
        return Ok(());
    }
    let digits = &bytes[start..];
    if digits[0] == b'0' {
        out.extend_from_slice(&[kind::ZERO])?;
        return Ok(());
    }
    append_digits(negative, digits, count, out)
}

impl<'a> KeySink<'a> {
    ghost use Rattle.text_write.specs.KeySink.{Writes, base_of};

    // Writes an integer that is there in the text.
    #[inline(always)]
    pub(crate) fn integer(&mut self, from: usize, to: usize) -> Result<(), AllocError>
        ensures bytes { OnOk result ((n : Num) → to ≤ length self.old.members.text.now
            → IsStandardNumber (slice_range self.old.members.text.now from to) n
            → Writes (number_key n) self.old self.new) }
        ensures base { base_of self.new ≡ base_of self.old }
    {
        if from >= to {
            return Ok(());
        }
        if to > self.members.text.len() {
            return Ok(());
        }
        append_integer_key(&self.members.text[from..], to - from, &mut self.out)
    }
}
