//! Where the key of a number ends, checked with no number made.

ghost use Rattle.std.specs.Prelude.{◌≡◌, ◌≢◌, ◌<◌, ◌≤◌, ◌⊎◌, ◌*◌, ◌%◌, ◌/◌, ◌^◌, ◌++◌, ◌∷◌, List, ℕ, length, map, IfSome, MatchOption};
ghost use Rattle.jsonb_spec.specs.SortKey.{digits_key, invert_if};
ghost use Rattle.jsonb_spec.specs.SortKey.Kind as kind;
ghost use Rattle.key_walk.specs.AtKeys.{Checks};
ghost use Rattle.key_walk.specs.Frames.{NumberFirst, DigitsFirst};

use jsonb_core::sort_key::kind;
use key_value::number::{invert_if, read_exponent};

// How many digits a number has at most, before the point and behind it.
const MOST_DIGITS: u32 = 38;

// What `read_exponent` adds to an exponent: a number without digits before the point has this one.
const POINT: u32 = 255;

// The bytes after the number whose key they begin with, if it is one in range. It isn't 0, whose key is one byte.
pub(crate) fn checked_number(bytes: &[u8]) -> Option<&[u8]>
    requires not_zero { (rest : List ℕ) → bytes.now ≢ kind.zero ∷ rest }
    ensures checks { Checks (NumberFirst bytes.now) bytes.now result }
{
    let Some((first, _)) = bytes.split_first() else {
        return None;
    };
    let negative = *first < kind::ZERO;
    let Some((exponent, digits)) = read_exponent(negative, bytes) else {
        return None;
    };
    let Some((count, rest)) = checked_digits(negative, digits) else {
        return None;
    };
    // So many digits are before the point, or none where the number is below 1, and behind it.
    if exponent > POINT + MOST_DIGITS || exponent + MOST_DIGITS < POINT + count {
        return None;
    }
    Some(rest)
}

// How many digits there are, neither the first nor the last of which is 0, and the bytes after them, where there are at
// most 38.
#[inline(always)]
fn checked_digits(negative: bool, bytes: &[u8]) -> Option<(u32, &[u8])>
    ensures found { IfSome result (λ r. DigitsFirst negative bytes.now r.0 r.1.now) }
    ensures few { IfSome result (λ r. r.0 ≤ 38) }
    ensures shorter { IfSome result (λ r. length r.1.now < length bytes.now) }
    // Where the digits of a number are first, without its last zeros.
    ensures all { (count magnitude : ℕ) → count ≤ 38 → magnitude < 10 ^ count → 10 ^ count ≤ magnitude * 10
        → (more : List ℕ) → bytes.now ≡ map (invert_if negative) (digits_key count magnitude) ++ more
        → MatchOption result ⊥ (λ r. (r.0 ≤ count) × (r.1.now ≡ more)) }
{
    let Some((first, _)) = bytes.split_first() else {
        return None;
    };
    // The least byte of a pair that begins with a digit other than 0 is that of 10.
    if invert_if(negative, *first) < 20 {
        return None;
    }
    let mut count: u32 = 0;
    let mut rest = bytes;
    'pairs: while let Some((byte, others)) = rest.split_first() {
        let byte = invert_if(negative, *byte);
        // Twice 99, and 1 where digits follow, is the greatest byte of a pair.
        if byte > 199 {
            return None;
        }
        if byte % 2 == 0 {
            let Some(last) = last_digits(byte) else {
                return None;
            };
            return Some((count + last, others));
        }
        if count > 34 {
            return None;
        }
        count += 2;
        rest = others;
    }
    None
}

// How many digits the last pair has, by its byte. It is no pair of zeros.
fn last_digits(byte: u8) -> Option<u32>
    ensures { MatchOption result (byte / 2 ≡ 0) (λ last. ((last ≡ 1) × (byte / 2 % 10 ≡ 0) × (0 < byte / 2))
        ⊎ ((last ≡ 2) × (0 < byte / 2 % 10))) }
{
    let pair = byte / 2;
    if pair == 0 {
        return None;
    }
    if pair % 10 == 0 {
        return Some(1);
    }
    Some(2)
}
