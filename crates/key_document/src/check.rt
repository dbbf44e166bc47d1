//! Whether bytes are a document: checked with no memory.

ghost use Rattle.std.specs.Prelude.{◌≡◌, ◌<◌, ◌≤◌, ◌^◌, ◌++◌, ◌↔◌, ℕ, List, length, map, IfSome, IsTrue, MatchOption};
ghost use Rattle.jsonb_spec.specs.Proper.{IsProper, IsProperNumber};
ghost use Rattle.jsonb_spec.specs.SortKey.{digits_key, invert_if, key_of, number_key};
ghost use Rattle.jsonb_spec.specs.Tree.{Num, Tree};
ghost use Rattle.key_document.specs.Check.{Fits, IsCounted, IsStripped, ZerosFit, most_at, most_open, most_zeros};
ghost use Rattle.jsonb_spec.specs.Document.Check.{IsDocumentInRange};
ghost use Rattle.jsonb_spec.specs.SortKey.AtKeys.{OfKey};
ghost use Rattle.jsonb_spec.specs.SortKey.Open.{Open, IsOpen, IsScalar, is_object, open_key};
ghost use Rattle.jsonb_spec.specs.Document.PartsOf.{number_count, numbers_in};

use crate::document::split_document;
use crate::due::{ZerosDue, zeros_due};
use jsonb_core::sort_key::kind;
use key_value::number::{invert_if, read_exponent};
use key_walk::is_sort_key;
use key_walk::skip::opening;
use key_walk::steps::{Step, Steps};
use key_zeros::number_count;

// How many digits a number has at most, before the point and behind it.
const MOST_DIGITS: u32 = 38;

// What `read_exponent` adds to an exponent: a number without digits before the point has this one.
const POINT: u32 = 255;

/// Whether bytes are the document of a value in range: of JSON's kinds, with at most 512 nested arrays and objects, and
/// with numbers of at most 38 digits, before and behind the point. So each such document is that of an extended text.
///
/// The time is linear. Nothing is allocated, and no function calls itself.
pub fn is_document(document: &[u8]) -> bool
    ensures { IsTrue result ↔ IsDocumentInRange document.now }
{
    let (key, zeros) = split_document(document);
    if !is_sort_key(key) {
        return false;
    }
    zeros_fit(key, zeros)
}

// Whether the zeros are those of numbers of this key, each of which stays in range with them. A function of its own, so
// that the check of the key takes no stack beside it.
#[inline(never)]
fn zeros_fit(key: &[u8], zeros: &[u8]) -> bool
    ensures { OfKey key.now (λ t. IsTrue result ↔ ZerosFit (most_at t) zeros.now) }
{
    let Ok(due) = zeros_due(key.len(), zeros) else {
        return false;
    };
    if due.at == 0 {
        return true;
    }
    let Some((first, parts)) = key.split_first() else {
        return false;
    };
    match opening(*first) {
        Some(object) => parts_fit(object, parts, &due),
        None => match pass_scalar(*first, key, &due) {
            Some(rest) => rest.at == 0,
            None => false,
        },
    }
}

// Whether they are those of numbers of an array or an object, from the parts on, which the bytes are.
fn parts_fit(object: bool, bytes: &[u8], begun: &ZerosDue<'_>) -> bool
    ensures { (o : Open) → is_object o ≡ object → IsOpen o 511 → bytes.now ≡ open_key o → IsCounted begun.now
        → IsTrue result ↔ Fits begun.now (most_open o) }
{
    let mut steps = Steps::over(object, bytes);
    let mut due = *begun;
    'steps: while due.at > 0 {
        let Ok(passed) = steps.next() else {
            return false;
        };
        let Some(step) = passed else {
            return false;
        };
        if let Step::Scalar(scalar) = step {
            let Some(next) = pass_scalar(scalar.first, scalar.value, &due) else {
                return false;
            };
            due = next;
        }
    }
    true
}

// Passes a value that is no array and no object, from whose key on the bytes are, and whose first byte is passed too.
// `None` where it doesn't have the zeros that are due.
#[inline(always)]
fn pass_scalar<'z>(first: u8, bytes: &[u8], due: &ZerosDue<'z>) -> Option<ZerosDue<'z>>
    ensures passed { (t : Tree) → IsScalar t → IsProper t → number_count first ≡ numbers_in t → (more : List ℕ)
        → bytes.now ≡ key_of t ++ more → (most : List ℕ) → length most ≡ length more → IsCounted due.now
        → MatchOption result (Fits due.now (most_at t ++ most) → ⊥)
        (λ next. Fits next most ↔ Fits due.now (most_at t ++ most)) }
    ensures counted { IsCounted due.now → IfSome result IsCounted }
{
    if bytes.len() != due.at {
        return Some(*due);
    }
    if number_count(first) == 0 {
        return None;
    }
    if u32::from(due.count) > most_zeros(bytes) {
        return None;
    }
    let Ok(next) = zeros_due(bytes.len().saturating_sub(1), due.entries) else {
        return None;
    };
    Some(next)
}

// How many zeros the number may end in whose key the bytes begin with.
fn most_zeros(bytes: &[u8]) -> u32
    ensures { (n : Num) → IsProperNumber n → (more : List ℕ) → bytes.now ≡ number_key n ++ more
        → result ≡ most_zeros n }
{
    let Some((first, _)) = bytes.split_first() else {
        return 0;
    };
    if *first == kind::ZERO {
        return MOST_DIGITS;
    }
    let negative = *first < kind::ZERO;
    let Some((exponent, digits)) = read_exponent(negative, bytes) else {
        return 0;
    };
    let Some(count) = digit_count(negative, digits) else {
        return 0;
    };
    // With the fewest digits so many are behind the point, and so many before it.
    let behind = (POINT + count).saturating_sub(exponent);
    let before = exponent.saturating_sub(POINT);
    MOST_DIGITS.saturating_sub(behind + before)
}

// How many digits the bytes begin with, up to the last one that isn't 0.
fn digit_count(negative: bool, bytes: &[u8]) -> Option<u32>
    ensures found { (count magnitude : ℕ) → magnitude < 10 ^ count → 0 < magnitude → magnitude ≤ 2 ^ 127 → count ≤ 39
        → (more : List ℕ) → bytes.now ≡ map (invert_if negative) (digits_key count magnitude) ++ more
        → MatchOption result ⊥ (λ read. IsStripped count magnitude read) }
    ensures few { IfSome result (λ read. read ≤ 42) }
{
    let mut rest = bytes;
    let mut count: u32 = 0;
    'pairs: while let Some((byte, others)) = rest.split_first() {
        let byte = invert_if(negative, *byte);
        if byte % 2 == 0 {
            if byte / 2 % 10 == 0 {
                return Some(count + 1);
            }
            return Some(count + 2);
        }
        if count > 38 {
            return None;
        }
        rest = others;
        count += 2;
    }
    None
}
