//! The text of a number from its key: two digits from each byte.
ghost use Rattle.std.specs.Prelude.{◌≡◌, ◌≢◌, ◌⊎◌, ◌+◌, ◌-◌, ◌*◌, ◌/◌, ◌%◌, ◌^◌, ◌<◌, ◌≤◌, ◌++◌, ◌∷◌, [], ℕ, List, length, map, false, get_or, replicate, slice_range, take, drop, IsTrue, IsFalse, IfOk, IfSome, MatchOption};
ghost use Rattle.std.specs.Fmt.{sign_text};
ghost use Rattle.jsonb_spec.specs.Ascii as ascii;
ghost use Rattle.jsonb_spec.specs.Proper.{IsProperNumber};
ghost use Rattle.jsonb_spec.specs.SortKey.{number_key, digits_key, invert_if};
ghost use Rattle.jsonb_spec.specs.Text.Appending.{Appends};
ghost use Rattle.jsonb_spec.specs.Text.NumberText.{number_text};
ghost use Rattle.jsonb_spec.specs.Tree.{Num};
ghost use Rattle.jsonb_spec.specs.SortKey.FewestDigits.{fewest_digits};
ghost use Rattle.key_text.specs.Writes.{IsEncoded, HasPairs, AppendsLeaving, AppendsPair, Takes, AppendsPairs, TakesNumber, TakesSome, scaled_text};
ghost use Rattle.jsonb_spec.specs.SortKey.Text.{Preserves};

use crate::append::{append_chunk, append_one, append_within};
use jsonb_core::sort_key::kind;
use key_value::KeyError;
use key_value::number::{exponent_after, invert_if};
use std::alloc::AllocError;

// The two digits of each number below 100, and zeros for those below 128.
static PAIRS: [u8; 256] =
    *b"00010203040506070809101112131415161718192021222324252627282930313233343536373839\
    40414243444546474849505152535455565758596061626364656667686970717273747576777879\
    80818283848586878889909192939495969798990000000000000000000000000000000000000000\
    0000000000000000";

// The first byte of the key of a number below 1 and not below 0.1. With each digit before the point it is one more.
const NO_FRONT: u8 = 0xA0;

// The same byte of the largest numbers.
const LARGEST: u8 = 0xC7;

// How many digits a number has at most before the point.
const MAX_FRONT: u32 = 40;

// Appends the number whose key begins with this byte and these others, and returns how many of the others are read of
// it. Where that is 0, nothing is appended: it is below 1, or it is left to `append_number`.
#[inline(always)]
pub(crate) fn append_positive(first: u8, digits: &[u8], buf: &mut Vec<u8>) -> usize
    ensures number { 0 < result → (160 < first) × (first < 200) }
    ensures found { 0 < result → (n : Num) → IsProperNumber n → (more : List ℕ)
        → first ∷ digits.now ≡ number_key n ++ more
        → Takes digits.now result buf.old buf.new more (number_text (fewest_digits n)) }
    ensures takes { TakesSome digits.now result buf.old buf.new }
{
    if first <= NO_FRONT || first > LARGEST {
        return 0;
    }
    let front = usize::from(first - NO_FRONT);
    let Some((byte, _)) = digits.split_first() else {
        return 0;
    };
    if front <= 2 && *byte % 2 == 0 {
        if append_pair(front, *byte / 2, buf) {
            return 1;
        }
        return 0;
    }
    if front <= 16 {
        if let Some(chunk) = digits.first_chunk::<8>() {
            return append_few(front, chunk, buf);
        }
    }
    append_many(front, digits, buf)
}

// Appends a number of one pair of digits, of which so many are before the point, if there is space. Returns whether it
// is appended.
#[inline(always)]
fn append_pair(front: usize, pair: u8, buf: &mut Vec<u8>) -> bool
    requires digits { (0 < front) × (front ≤ 2) × (pair < 128) }
    ensures appended { IsTrue result → pair < 100 → AppendsPair front pair buf.old.items buf.new.items }
    ensures unchanged { IsFalse result → buf.new.items ≡ buf.old.items }
    ensures preserves { Preserves buf.old buf.new }
{
    let (tens, ones) = digits_of_pair(pair);
    if buf.capacity() - buf.len() < 3 {
        return false;
    }
    buf.push_reserved(tens);
    if front == 2 {
        buf.push_reserved(ones);
        return true;
    }
    if ones != b'0' {
        buf.push_reserved(b'.');
        buf.push_reserved(ones);
    }
    true
}

// Appends a number with so many digits before its point, of which the bytes have those without zeros at the end, if
// there is space, and returns how many of the bytes are read, or 0.
#[inline(always)]
fn append_few(front: usize, bytes: &[u8; 8], buf: &mut Vec<u8>) -> usize
    requires few { (0 < front) × (front ≤ 16) }
    ensures found { (tail : List ℕ) → TakesNumber front (bytes.now ++ tail) result buf.old.items buf.new.items }
    ensures takes { TakesSome bytes.now result buf.old buf.new }
{
    let mut row = [b'0'; 16];
    let pairs = encode_few(bytes, &mut row);
    if pairs == 0 {
        return 0;
    }
    if front + 1 < 2 * pairs {
        return append_pointed(front, pairs, row, buf);
    }
    if front + 1 == 2 * pairs && row[front] != b'0' {
        return append_pointed(front, pairs, row, buf);
    }
    if append_within(&row, front, buf) {
        return pairs;
    }
    0
}

// Appends the digits that are in these pairs, the last of which may end in a zero, with a point behind so many, and
// returns how many pairs they are. Where memory lacks, it returns 0, and nothing is appended.
#[inline(never)]
fn append_pointed(front: usize, pairs: usize, row: [u8; 16], buf: &mut Vec<u8>) -> usize
    requires few { (front + 1 < 2 * pairs) ⊎ ((front + 1 ≡ 2 * pairs) × (get_or row front 0 ≢ ascii.digit_zero)) }
    requires within { pairs ≤ 8 }
    ensures found { 0 < result → (result ≡ pairs) × AppendsPairs front pairs row buf.old.items buf.new.items }
    ensures most { result ≤ pairs }
    ensures none { result ≡ 0 → buf.new.items ≡ buf.old.items }
    ensures preserves { Preserves buf.old buf.new }
{
    let old_len = buf.len();
    let count = digit_count(pairs, &row);
    if append_with_point(front, count, &row, buf).is_err() {
        buf.truncate(old_len);
        return 0;
    }
    pairs
}

// How many digits these pairs have, without a zero at the end.
#[inline(always)]
fn digit_count(pairs: usize, row: &[u8; 16]) -> usize
    requires { (0 < pairs) × (pairs ≤ 8) }
    ensures one { get_or row.now (2 * pairs - 1) 0 ≡ ascii.digit_zero → result ≡ 2 * pairs - 1 }
    ensures two { get_or row.now (2 * pairs - 1) 0 ≢ ascii.digit_zero → result ≡ 2 * pairs }
    ensures few { (2 * pairs ≤ result + 1) × (result ≤ 2 * pairs) }
{
    if row[2 * pairs - 1] == b'0' {
        return 2 * pairs - 1;
    }
    2 * pairs
}

// Writes the digits to the row, of which the others stay zeros, and returns how many pairs they are, or 0 where they go
// on behind the bytes.
#[inline(always)]
fn encode_few(bytes: &[u8; 8], row: &mut [u8; 16]) -> usize
    requires { row.old ≡ replicate 16 ascii.digit_zero }
    ensures found { 0 < result → (count magnitude : ℕ) → magnitude < 10 ^ count → 0 < magnitude → count ≤ 39
        → (tail more : List ℕ) → bytes.now ++ tail ≡ map (invert_if false) (digits_key count magnitude) ++ more
        → HasPairs count magnitude result row.new × (drop result bytes.now ++ tail ≡ more) }
    ensures few { result ≤ 8 }
{
    let mut pairs: usize = 0;
    'pairs: while pairs < 8 {
        let byte = bytes[pairs];
        let (tens, ones) = digits_of_pair(byte / 2);
        row[2 * pairs] = tens;
        row[2 * pairs + 1] = ones;
        pairs += 1;
        if byte % 2 == 0 {
            return pairs;
        }
    }
    0
}

// Does so for an integer of any size, in a function of its own, which is called less often.
#[inline(never)]
fn append_many(front: usize, bytes: &[u8], buf: &mut Vec<u8>) -> usize
    requires few { (0 < front) × (front ≤ 39) }
    ensures found { TakesNumber front bytes.now result buf.old.items buf.new.items }
    ensures takes { TakesSome bytes.now result buf.old buf.new }
{
    let mut row = [b'0'; 48];
    let Some((count, rest)) = encode(false, bytes, &mut row) else {
        return 0;
    };
    if front < count {
        return 0;
    }
    if append_within(&row, front, buf) {
        return bytes.len() - rest.len();
    }
    0
}

// Appends the text of the number whose key begins with this byte and these others.
#[inline(never)]
pub(crate) fn append_number<'k>(
    first: u8,
    others: &'k [u8],
    buf: &mut Vec<u8>,
) -> Result<&'k [u8], KeyError>
    ensures found { (n : Num) → IsProperNumber n → (more : List ℕ) → first ∷ others.now ≡ number_key n ++ more
        → AppendsLeaving result buf.old buf.new more (number_text (fewest_digits n)) }
    ensures within { IfOk result (λ rest. length rest.now ≤ length others.now) }
    ensures preserves { Preserves buf.old buf.new }
{
    if first == kind::ZERO {
        buf.extend_from_slice(b"0")?;
        return Ok(others);
    }
    let negative = first < kind::ZERO;
    let Some((exponent, digits)) = exponent_after(negative, first, others) else {
        return Err(KeyError::Invalid);
    };
    let mut row = [b'0'; 48];
    let Some((count, rest)) = encode(negative, digits, &mut row) else {
        return Err(KeyError::Invalid);
    };
    if exponent > 255 + MAX_FRONT {
        return Err(KeyError::Invalid);
    }
    append_sign(negative, buf)?;
    append_scaled(exponent, count, &row, buf)?;
    Ok(rest)
}

#[inline(always)]
fn append_sign(negative: bool, buf: &mut Vec<u8>) -> Result<(), AllocError>
    ensures { Appends result buf.old buf.new (sign_text negative) }
{
    if negative {
        return buf.extend_from_slice(b"-");
    }
    Ok(())
}

// Writes the digits to the row, of which the others stay zeros, and returns how many they are without zeros at the end,
// and the bytes after them.
#[inline(always)]
fn encode<'k>(negative: bool, bytes: &'k [u8], row: &mut [u8; 48]) -> Option<(usize, &'k [u8])>
    requires { row.old ≡ replicate 48 ascii.digit_zero }
    ensures found { (count magnitude : ℕ) → magnitude < 10 ^ count → 0 < magnitude → count ≤ 39 → (more : List ℕ)
        → bytes.now ≡ map (invert_if negative) (digits_key count magnitude) ++ more
        → MatchOption result ⊥ (λ r. IsEncoded count magnitude r.0 row.new × (r.1.now ≡ more)) }
    ensures few { IfSome result (λ r. r.0 ≤ 40) }
    ensures shorter { IfSome result (λ r. length r.1.now < length bytes.now) }
{
    let mut rest = bytes;
    let mut count: usize = 0;
    'pairs: while let Some((byte, others)) = rest.split_first() {
        let byte = invert_if(negative, *byte);
        if count > 38 {
            return None;
        }
        let (tens, ones) = digits_of_pair(byte / 2);
        row[count] = tens;
        row[count + 1] = ones;
        rest = others;
        if byte % 2 == 0 {
            if ones == b'0' {
                return Some((count + 1, rest));
            }
            return Some((count + 2, rest));
        }
        count += 2;
    }
    None
}

// The two digits of a number below 100.
#[inline(always)]
fn digits_of_pair(pair: u8) -> (u8, u8)
    requires { pair < 128 }
    ensures { pair < 100 → (result.0 ≡ ascii.digit_zero + pair / 10) × (result.1 ≡ ascii.digit_zero + pair % 10) }
{
    let from = usize::from(pair) * 2;
    (PAIRS[from], PAIRS[from + 1])
}

// Appends the digits that are first in the row, of which the first is at this exponent. Mostly there is no point.
#[inline(always)]
fn append_scaled(
    exponent: u32,
    count: usize,
    row: &[u8; 48],
    buf: &mut Vec<u8>,
) -> Result<(), AllocError>
    requires few { (exponent ≤ 295) × (count ≤ 40) }
    ensures { Appends result buf.old buf.new (scaled_text exponent count row.now) }
{
    if exponent > 255 {
        let front = (exponent - 255) as usize;
        if front >= count {
            return append_row(*row, front, buf);
        }
        return append_with_point(front, count, row, buf);
    }
    append_fraction((255 - exponent) as usize, &row[..count], buf)
}

// Appends the first digits of the row. A function of its own, in which the copy of a fixed length takes no call.
#[inline(never)]
fn append_row(row: [u8; 48], count: usize, buf: &mut Vec<u8>) -> Result<(), AllocError>
    requires { count ≤ 48 }
    ensures { Appends result buf.old buf.new (take count row) }
{
    append_chunk(&row, count, buf)
}

// Appends the first digits of the row, with a point behind so many.
#[inline(always)]
fn append_with_point(
    front: usize,
    count: usize,
    row: &[u8],
    buf: &mut Vec<u8>,
) -> Result<(), AllocError>
    requires { (front ≤ count) × (count ≤ length row.now) }
    ensures { Appends result buf.old buf.new (take front row.now ++ ascii.point ∷ slice_range row.now front count) }
{
    append_chunk(row, front, buf)?;
    append_one(b'.', buf)?;
    buf.extend_from_slice(&row[front..count])
}

// Appends digits behind a point and as many zeros.
#[inline(never)]
fn append_fraction(zeros: usize, digits: &[u8], buf: &mut Vec<u8>) -> Result<(), AllocError>
    requires { zeros ≤ 255 }
    ensures { Appends result buf.old buf.new
        (ascii.digit_zero ∷ ascii.point ∷ (replicate zeros ascii.digit_zero ++ digits.now)) }
{
    buf.extend_from_slice(b"0.")?;
    append_zeros(zeros, buf)?;
    buf.extend_from_slice(digits)
}

fn append_zeros(zeros: usize, buf: &mut Vec<u8>) -> Result<(), AllocError>
    requires { zeros ≤ 255 }
    ensures { Appends result buf.old buf.new (replicate zeros ascii.digit_zero) }
{
    let row = [b'0'; 255];
    buf.extend_from_slice(&row[..zeros])
}
