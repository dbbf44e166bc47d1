//! What is stored of a number that zeros end: how many numbers without any come before it, and how many zeros.

ghost use Rattle.std.specs.Prelude.{◌≡◌, ◌<◌, ◌≤◌, ◌^◌, ◌+◌, ◌++◌, ◌∷◌, ℕ, List, length, IfOk, IfSome, MatchOption};
ghost use Rattle.jsonb_spec.specs.Text.Appending.{Appends};
ghost use Rattle.jsonb_spec.specs.SortKey.Text.{Preserves};
ghost use Rattle.jsonb_spec.specs.Document.Zeros.{in_sevens, entry_of, plain_behind};
ghost use Rattle.key_zeros.specs.Turned.{turned};

use std::alloc::AllocError;

/// Appends what is stored of a number with so many zeros, before which so many without any come. The answer is how many
/// come before the next one.
pub fn append_entry(plain: usize, count: u8, buf: &mut Vec<u8>) -> Result<usize, AllocError>
    ensures appends { plain < 2 ^ 63 → Appends result buf.old buf.new (entry_of plain count) }
    ensures plain { plain < 2 ^ 63 → IfOk result (λ more. more ≡ plain_behind plain count) }
    ensures preserves { Preserves buf.old buf.new }
    ensures within { IfOk result (λ more. more ≤ plain + 1) }
{
    if count == 0 {
        return Ok(plain.saturating_add(1));
    }
    append_sevens(plain, buf)?;
    buf.extend_from_slice(&[count])?;
    Ok(0)
}

/// Appends a number below 2^63, seven bits in a byte, the lowest first.
pub fn append_sevens(n: usize, buf: &mut Vec<u8>) -> Result<(), AllocError>
    ensures appends { n < 2 ^ 63 → Appends result buf.old buf.new (in_sevens 8 n) }
    ensures preserves { Preserves buf.old buf.new }
{
    let mut left = n;
    'sevens: while left >= 128 {
        let low = (left % 128) as u8;
        buf.extend_from_slice(&[128 + low])?;
        left /= 128;
    }
    buf.extend_from_slice(&[left as u8])
}

/// Of the first number that zeros end: how many numbers without any come before it, how many zeros there are, and what
/// is stored of the numbers behind it. `None` where the bytes begin with nothing of the kind.
pub fn next_entry(zeros: &[u8]) -> Option<(usize, u8, &[u8])>
    ensures found { (plain count : ℕ) → plain < 2 ^ 63 → 0 < count → (more : List ℕ)
        → zeros.now ≡ in_sevens 8 plain ++ count ∷ more
        → MatchOption result ⊥ (λ r. (r.0 ≡ plain) × (r.1 ≡ count) × (r.2.now ≡ more)) }
    ensures first { IfSome result (λ r. zeros.now ≡ in_sevens 8 r.0 ++ r.1 ∷ r.2.now) }
    ensures some { IfSome result (λ r. (r.0 < 2 ^ 63) × (0 < r.1)) }
    ensures shorter { IfSome result (λ r. length r.2.now < length zeros.now) }
{
    let (plain, behind) = read_sevens(false, zeros)?;
    let (count, rest) = behind.split_first()?;
    if *count == 0 {
        return None;
    }
    Some((plain, *count, rest))
}

/// The number below 2^63 that the bytes begin with, seven bits in a byte, and the bytes after it; or, from the end, the
/// one that they end with, the lowest bits last, and the bytes before it.
#[inline(always)]
pub fn read_sevens(from_end: bool, bytes: &[u8]) -> Option<(usize, &[u8])>
    ensures found { (n : ℕ) → n < 2 ^ 63 → (more : List ℕ) → turned from_end bytes.now ≡ in_sevens 8 n ++ more
        → MatchOption result ⊥ (λ r. (r.0 ≡ n) × (turned from_end r.1.now ≡ more)) }
    ensures first { IfSome result (λ r. turned from_end bytes.now ≡ in_sevens 8 r.0 ++ turned from_end r.1.now) }
    ensures small { IfSome result (λ r. r.0 < 2 ^ 63) }
    ensures shorter { IfSome result (λ r. length r.1.now < length bytes.now) }
{
    let (first, more) = split_byte(from_end, bytes)?;
    if *first < 128 {
        return Some((usize::from(*first), more));
    }
    let mut n = usize::from(*first - 128);
    // What one in the next byte means.
    let mut unit: usize = 128;
    let mut rest = more;
    'sevens: while let Some((byte, others)) = split_byte(from_end, rest) {
        // A number of several bytes has no seven bits in front that are 0.
        if *byte == 0 {
            return None;
        }
        if *byte < 128 {
            return Some((n + usize::from(*byte) * unit, others));
        }
        if unit > 1 << 49 {
            return None;
        }
        n += usize::from(*byte - 128) * unit;
        unit *= 128;
        rest = others;
    }
    None
}

// The first byte, or the last one, and the others.
#[inline(always)]
fn split_byte(from_end: bool, bytes: &[u8]) -> Option<(&u8, &[u8])>
    ensures split { MatchOption result (length (turned from_end bytes.now) ≡ 0)
        (λ r. (turned from_end bytes.now ≡ r.0.now ∷ turned from_end r.1.now) × (length r.1.now < length bytes.now)) }
{
    if from_end {
        return bytes.split_last();
    }
    bytes.split_first()
}
