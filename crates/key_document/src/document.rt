//! A document's key, and its zeros.

ghost use Rattle.std.specs.Prelude.{◌≡◌, ◌<◌, ◌≤◌, ◌+◌, ◌^◌, ◌++◌, ℕ, List, length, IfSome, MatchOption, MatchResult};
ghost use Rattle.std.specs.Vec.{vec_capacity};
ghost use Rattle.jsonb_spec.specs.SortKey.{key_of};
ghost use Rattle.jsonb_spec.specs.Document.{behind_key, zeros_at, OfDocument};
ghost use Rattle.jsonb_spec.specs.SortKey.Text.{Preserves};

use key_zeros::entry::{append_sevens, read_sevens};
use std::alloc::AllocError;

// The last byte of a document with zeros, with which no key ends.
pub(crate) const ZEROS_MARK: u8 = 0xFF;

/// The key of a document, and its zeros by the bytes of the key. Of other bytes they are two ranges of them.
///
/// It looks at the last bytes alone, at most ten.
#[inline(always)]
pub fn split_document(document: &[u8]) -> (&[u8], &[u8])
    ensures key { OfDocument document.now (λ t. result.0.now ≡ key_of t) }
    ensures zeros { OfDocument document.now (λ t. result.1.now ≡ zeros_at t) }
    ensures within { length result.0.now + length result.1.now ≤ length document.now }
    ensures whole { document.now ≡ result.0.now ++ behind_key result.1.now }
{
    match split_marked(document) {
        Some(parts) => parts,
        None => document.split_at(document.len()),
    }
}

// The same of bytes that end with some zeros and their end.
#[inline(always)]
fn split_marked(document: &[u8]) -> Option<(&[u8], &[u8])>
    ensures found { (key zeros : List ℕ) → 0 < length zeros → document.now ≡ key ++ behind_key zeros
        → MatchOption result ⊥ (λ r. (r.0.now ≡ key) × (r.1.now ≡ zeros)) }
    ensures whole { IfSome result (λ r. (0 < length r.1.now) × (document.now ≡ r.0.now ++ behind_key r.1.now)) }
{
    let Some((last, front)) = document.split_last() else {
        return None;
    };
    if *last != ZEROS_MARK {
        return None;
    }
    let Some((size, rest)) = read_sevens(true, front) else {
        return None;
    };
    if size == 0 {
        return None;
    }
    let Some(key_len) = rest.len().checked_sub(size) else {
        return None;
    };
    Some(rest.split_at(key_len))
}

/// Appends what follows the zeros that the buffer has from this index on: nothing where there are none.
///
/// # Errors
///
/// Where the buffer lacks the capacity.
pub(crate) fn end_zeros(start: usize, out: &mut Vec<u8>) -> Result<(), AllocError>
    ensures ended { (before zeros : List ℕ) → length before ≡ start → out.old.items ≡ before ++ zeros
        → MatchResult result (λ _. out.new.items ≡ before ++ behind_key zeros)
        (λ e. vec_capacity out.old < start + length (behind_key zeros)) }
    ensures preserves { Preserves out.old out.new }
{
    let end = out.len();
    if end <= start {
        return Ok(());
    }
    append_sevens(end - start, out)?;
    out[end..].reverse();
    out.extend_from_slice(&[ZEROS_MARK])
}
