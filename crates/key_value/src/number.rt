//! The exponents, the digits, the integers and the decimals of sort keys.

ghost use Rattle.std.specs.Prelude.{◌≡◌, ◌≢◌, ◌*◌, ◌%◌, ◌^◌, ◌<◌, ◌≤◌, ◌++◌, ◌∷◌, ◌↔◌, List, ℕ, ℤ, length, map, ◌⊎◌, false, None, Some, FitsSigned, IfSome, MatchOption, option_map};
ghost use Rattle.std.specs.Int.{w64};
ghost use Rattle.jsonb_spec.specs.Number.Cast.{HasValue};
ghost use Rattle.jsonb_spec.specs.Number.Signed.{signed_by};
ghost use Rattle.jsonb_spec.specs.Proper.{IsProperNumber};
ghost use Rattle.jsonb_spec.specs.SortKey.{number_key, digits_key, invert_if};
ghost use Rattle.jsonb_spec.specs.Tree.{Num};
ghost use Rattle.jsonb_spec.specs.SortKey.Decimals.{HasFewDigits, HasManyDigits};
ghost use Rattle.jsonb_spec.specs.SortKey.Reading.{exponent_of, second_of, ExponentOccurs, IsDigits, IsLastPair, IsNoLastPair, IsPointed, ReadsDigits};

use jsonb_core::sort_key::kind;

/// A byte of a key, turned round where the number is negative.
pub fn invert_if(negative: bool, byte: u8) -> u8
    ensures { result ≡ invert_if negative byte }
{
    if negative { 255 - byte } else { byte }
}

/// The exponent of the first digit, with 255 added, and the bytes after it.
pub fn read_exponent(negative: bool, bytes: &[u8]) -> Option<(u32, &[u8])>
    ensures exponent { option_map (λ r. (r.0, r.1.now)) result ≡ exponent_of negative bytes.now }
    ensures read { IfSome result (λ r. ExponentOccurs negative bytes.now r.0 r.1.now) }
{
    let (first, rest) = bytes.split_first()?;
    exponent_after(negative, *first, rest)
}

/// The same of this byte and those after it.
#[inline]
pub fn exponent_after(negative: bool, first: u8, rest: &[u8]) -> Option<(u32, &[u8])>
    ensures exponent { option_map (λ r. (r.0, r.1.now)) result ≡ exponent_of negative (first ∷ rest.now) }
    ensures read { IfSome result (λ r. ExponentOccurs negative (first ∷ rest.now) r.0 r.1.now) }
{
    let byte = invert_if(negative, first);
    if byte == kind::FAR_EXPONENT {
        return read_second(negative, rest);
    }
    // 0x82 means 30 zeros behind the point.
    if byte < 0x82 {
        return None;
    }
    Some((u32::from(byte) + 95, rest))
}

// An exponent of two bytes, by what follows the first.
fn read_second(negative: bool, bytes: &[u8]) -> Option<(u32, &[u8])>
    ensures exponent { option_map (λ r. (r.0, r.1.now)) result ≡ second_of negative bytes.now }
    ensures read { IfSome result (λ r. (bytes.now ≡ invert_if negative r.0 ∷ r.1.now) × (r.0 < 225)) }
{
    let (second, rest) = bytes.split_first()?;
    let exponent = invert_if(negative, *second);
    if exponent >= 225 {
        return None;
    }
    Some((u32::from(exponent), rest))
}

// The least number of more than 18 digits.
const FEW: u128 = 1_000_000_000_000_000_000;

// How many digits `read_front` reads at most.
const MAX_FRONT: u32 = 16;

// The first digits, of which others follow, as a number, how many they are, and the bytes after them.
#[inline(always)]
fn read_front(negative: bool, bytes: &[u8]) -> (u64, u32, &[u8])
    ensures reads { ReadsDigits negative bytes.now result.0 result.1 result.2.now }
    ensures below { result.0 < 10 ^ result.1 }
    ensures few { result.1 ≤ 16 }
    ensures shorter { length result.2.now ≤ length bytes.now }
{
    let mut digits: u64 = 0;
    let mut count: u32 = 0;
    let mut rest = bytes;
    'pairs: while let Some((byte, others)) = rest.split_first() {
        let byte = invert_if(negative, *byte);
        let pair = byte / 2;
        if byte % 2 == 0 || pair > 99 || count + 2 > MAX_FRONT {
            break;
        }
        digits = digits * 100 + u64::from(pair);
        count += 2;
        rest = others;
    }
    (digits, count, rest)
}

// The digits as a number, and how many they are. A zero at the end is left out.
fn read_digits(negative: bool, bytes: &[u8]) -> Option<(u128, u32)>
    ensures found { (count magnitude : ℕ) → magnitude < 10 ^ count → 0 < magnitude → magnitude ≤ 2 ^ 127 → count ≤ 39
        → (more : List ℕ) → bytes.now ≡ map (invert_if negative) (digits_key count magnitude) ++ more
        → MatchOption result ⊥ (λ r. IsDigits count magnitude r.0 r.1) }
    ensures last { IfSome result (λ r. r.0 % 10 ≢ 0) }
    ensures few { IfSome result (λ r. r.1 ≤ 42) }
{
    let (front, mut count, mut rest) = read_front(negative, bytes);
    let mut digits = u128::from(front);
    'pairs: while let Some((byte, others)) = rest.split_first() {
        let byte = invert_if(negative, *byte);
        let pair = byte / 2;
        if byte % 2 == 0 {
            let (digits, last) = last_pair(digits, pair)?;
            return Some((digits, count + last));
        }
        if count > 38 {
            return None;
        }
        digits = digits.checked_mul(100)?.checked_add(u128::from(pair))?;
        count += 2;
        rest = others;
    }
    None
}

// The digits with the last pair of them, and how many digits of the pair are no zeros at the end. A pair of zeros is
// no last pair, nor is one past 99.
fn last_pair(digits: u128, pair: u8) -> Option<(u128, u32)>
    ensures { MatchOption result (IsNoLastPair digits pair) (λ r. IsLastPair digits pair r.0 r.1) }
{
    if pair == 0 || pair > 99 {
        return None;
    }
    let digits = digits.checked_mul(10)?.checked_add(u128::from(pair / 10))?;
    if pair % 10 == 0 {
        return Some((digits, 1));
    }
    Some((
        digits.checked_mul(10)?.checked_add(u128::from(pair % 10))?,
        2,
    ))
}

/// The integer that a number is, from the bytes that its key begins, or `None` where it isn't whole or has more than 64
/// bits. Of other bytes it may be any.
pub fn integer_of(bytes: &[u8]) -> Option<i64>
    ensures { (n : Num) → IsProperNumber n → (more : List ℕ) → bytes.now ≡ number_key n ++ more
        → (v : ℤ) → (result ≡ Some v) ↔ (HasValue n v × FitsSigned w64 v) }
{
    match short_integer(bytes) {
        Some(integer) => Some(integer),
        None => any_integer(bytes),
    }
}

// Does so for any number, in a function of its own, which is called less often.
#[inline(never)]
fn any_integer(bytes: &[u8]) -> Option<i64>
    ensures { (n : Num) → IsProperNumber n → (more : List ℕ) → bytes.now ≡ number_key n ++ more
        → (v : ℤ) → (result ≡ Some v) ↔ (HasValue n v × FitsSigned w64 v) }
{
    let (first, _) = bytes.split_first()?;
    if *first == kind::ZERO {
        return Some(0);
    }
    let negative = *first < kind::ZERO;
    let (exponent, rest) = read_exponent(negative, bytes)?;
    let (digits, count) = read_digits(negative, rest)?;
    // The last digit isn't 0, so none is behind the point.
    let zeros = exponent.checked_sub(255 + count)?;
    let power = 10u128.checked_pow(zeros)?;
    let magnitude = digits.checked_mul(power)?;
    let integer = with_sign(negative, magnitude)?;
    Some(integer)
}

/// A number with the fewest digits: `digits / 10^scale`.
#[derive(Clone, Copy, Debug, PartialEq, Eq, Drop)]
pub struct Decimal {
    pub digits: i64,
    pub scale: u32,
}

/// The decimal that a number is, from the bytes that its key begins, or `None` where it has more than 18 digits. Of
/// other bytes it may be any.
pub fn decimal_of(bytes: &[u8]) -> Option<Decimal>
    ensures { (n : Num) → IsProperNumber n → (more : List ℕ) → bytes.now ≡ number_key n ++ more
        → MatchOption result (HasManyDigits n) (λ d. HasFewDigits n d.digits d.scale) }
{
    let (first, _) = bytes.split_first()?;
    if *first == kind::ZERO {
        return Some(Decimal {
            digits: 0,
            scale: 0,
        });
    }
    let negative = *first < kind::ZERO;
    let (exponent, rest) = read_exponent(negative, bytes)?;
    let (digits, count) = read_digits(negative, rest)?;
    let (magnitude, scale) = put_point(digits, count, exponent)?;
    let digits = with_short_sign(negative, magnitude)?;
    Some(Decimal { digits, scale })
}

/// The same in 64 bits, of most numbers that have such a decimal. It is `None` of 0 too.
#[inline(always)]
pub fn short_decimal(bytes: &[u8]) -> Option<Decimal>
    ensures { (n : Num) → IsProperNumber n → (more : List ℕ) → bytes.now ≡ number_key n ++ more
        → IfSome result (λ d. HasFewDigits n d.digits d.scale) }
{
    let (first, _) = bytes.split_first()?;
    if *first == kind::ZERO {
        return None;
    }
    let negative = *first < kind::ZERO;
    let (exponent, rest) = read_exponent(negative, bytes)?;
    let (digits, count) = read_few_digits(negative, rest)?;
    let (whole, scale) = put_point(u128::from(digits), count, exponent)?;
    let digits = with_short_sign(negative, whole)?;
    Some(Decimal { digits, scale })
}

// The digits as a number, and how many they are, where they are at most 18. A zero at the end is left out.
#[inline(always)]
fn read_few_digits(negative: bool, bytes: &[u8]) -> Option<(u64, u32)>
    ensures found { (count magnitude : ℕ) → magnitude < 10 ^ count → 0 < magnitude → magnitude ≤ 2 ^ 127 → count ≤ 39
        → (more : List ℕ) → bytes.now ≡ map (invert_if negative) (digits_key count magnitude) ++ more
        → IfSome result (λ r. IsDigits count magnitude r.0 r.1) }
    ensures last { IfSome result (λ r. r.0 % 10 ≢ 0) }
    ensures few { IfSome result (λ r. r.1 ≤ 18) }
{
    let (front, count, rest) = read_front(negative, bytes);
    let (byte, _) = rest.split_first()?;
    let byte = invert_if(negative, *byte);
    if byte % 2 != 0 {
        return None;
    }
    let (digits, last) = short_last_pair(front, byte / 2)?;
    Some((digits, count + last))
}

// The digits with the last pair of them, as `last_pair` has it.
#[inline(always)]
fn short_last_pair(digits: u64, pair: u8) -> Option<(u64, u32)>
    requires { digits < 10 ^ 16 }
    ensures { IfSome result (λ r. IsLastPair digits pair r.0 r.1) }
{
    if pair == 0 || pair >= 100 {
        return None;
    }
    if pair % 10 == 0 {
        return Some((digits * 10 + u64::from(pair / 10), 1));
    }
    Some((digits * 100 + u64::from(pair), 2))
}

// The number of these digits, the first of which has this exponent, without the point, and how many of its digits are
// behind that. The last of the digits isn't 0, so none of those can be left out. `None` where it has more than 18.
#[inline(always)]
fn put_point(digits: u128, count: u32, exponent: u32) -> Option<(u64, u32)>
    requires last { digits % 10 ≢ 0 }
    requires few { count ≤ 42 }
    ensures { MatchOption result ((whole scale : ℕ) → IsPointed digits count exponent whole scale → 10 ^ 18 ≤ whole)
        (λ r. IsPointed digits count exponent r.0 r.1 × (r.0 < 10 ^ 18)) }
{
    let digits = few(digits)?;
    if exponent < 255 + count {
        return Some((digits, 255 + count - exponent));
    }
    if exponent == 255 + count {
        return Some((digits, 0));
    }
    let power = 10u64.checked_pow(exponent - (255 + count))?;
    let whole = digits.checked_mul(power)?;
    let whole = few(u128::from(whole))?;
    Some((whole, 0))
}

// A number of at most 18 digits.
fn few(magnitude: u128) -> Option<u64>
    ensures { MatchOption result (10 ^ 18 ≤ magnitude) (λ few. (few ≡ magnitude) × (few < 10 ^ 18)) }
{
    if magnitude >= FEW {
        return None;
    }
    u64::try_from(magnitude).ok()
}

// The integer of this sign.
fn with_sign(negative: bool, magnitude: u128) -> Option<i64>
    ensures { MatchOption result ((2 ^ 63 < magnitude) ⊎ ((negative ≡ false) × (2 ^ 63 ≤ magnitude)))
        (λ z. z ≡ signed_by negative magnitude) }
{
    if magnitude == 0 {
        return Some(0);
    }
    let Ok(below) = i64::try_from(magnitude - 1) else {
        return None;
    };
    if negative {
        return Some(-1 - below);
    }
    below.checked_add(1)
}

// The integer whose key the bytes begin with, if it has at most 18 digits without zeros at the end.
#[inline(always)]
fn short_integer(bytes: &[u8]) -> Option<i64>
    ensures { (n : Num) → IsProperNumber n → (more : List ℕ) → bytes.now ≡ number_key n ++ more
        → IfSome result (λ v. HasValue n v) }
{
    let (first, _) = bytes.split_first()?;
    if *first == kind::ZERO {
        return None;
    }
    let negative = *first < kind::ZERO;
    let (exponent, digits) = read_exponent(negative, bytes)?;
    if exponent < 256 {
        return None;
    }
    let (front, count, rest) = read_front(negative, digits);
    let (byte, _) = rest.split_first()?;
    let byte = invert_if(negative, *byte);
    if byte % 2 != 0 {
        return None;
    }
    let digits = front * 100 + u64::from(byte / 2);
    let magnitude = whole_of(digits, count + 2, exponent - 255)?;
    with_short_sign(negative, magnitude)
}

// The whole number of so many digits, of which these are before the point.
#[inline(always)]
fn whole_of(digits: u64, count: u32, before: u32) -> Option<u64>
    requires few { count ≤ 18 }
    ensures { IfSome result (λ whole. whole * 10 ^ count ≡ digits * 10 ^ before) }
{
    if before == count {
        return Some(digits);
    }
    if before > count {
        let power = 10u64.checked_pow(before - count)?;
        let whole = digits.checked_mul(power)?;
        return Some(whole);
    }
    if before + 1 < count || digits % 10 != 0 {
        return None;
    }
    Some(digits / 10)
}

// The integer of this sign, of fewer than 64 bits.
#[inline(always)]
fn with_short_sign(negative: bool, magnitude: u64) -> Option<i64>
    ensures signed { IfSome result (λ v. v ≡ signed_by negative magnitude) }
    ensures large { (result ≡ None) → 2 ^ 63 ≤ magnitude }
{
    let whole = i64::try_from(magnitude).ok()?;
    if negative {
        return Some(-whole);
    }
    Some(whole)
}
