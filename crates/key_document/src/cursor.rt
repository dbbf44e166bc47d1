//! The parts of a document one after the other, each as a document: all of them in time linear in the document.

ghost use Rattle.std.specs.Prelude.{◌≡◌, ◌<◌, ◌≤◌, ◌+◌, ◌^◌, ◌++◌, ℕ, List, IfErr, IfOk, MatchResult, Ok, drop, get_or, length};
ghost use Rattle.jsonb_spec.specs.SortKey.{key_of};
ghost use Rattle.key_document.specs.Changes.{AppendsDocument};
ghost use Rattle.jsonb_spec.specs.Document.PartAt.{PreservesOnError};
ghost use Rattle.key_document.specs.Cursor.{IsLeftAt, IsLeftBehind, IsLeftOf, OfNextPart, ReportsLeft, ReportsZeros};
ghost use Rattle.jsonb_spec.specs.Document.{OfDocument};
ghost use Rattle.jsonb_spec.specs.Document.Numbers.{Pends};
ghost use Rattle.jsonb_spec.specs.Document.Zeros.{zeros_of};

use crate::document::split_document;
use crate::error::DocumentError;
use crate::splice::take_zeros;
use crate::zeros::{all_left, pass};

/// What is left of a document's zeros behind the first bytes of its key.
#[repr(C)]
#[derive(Clone, Copy)]
pub struct ZerosLeft {
    /// How many bytes of the key are passed.
    pub passed: usize,
    /// How many bytes come before the next number with zeros.
    pub before: usize,
    /// How many zeros that number has; 0 where none with zeros is left.
    pub count: u8,
    /// Where in the document's zeros the entries behind that number begin.
    pub entries: usize,
}

/// What is left of the document's zeros behind its key's first bytes, which are so many: with 0, all of them.
///
/// # Errors
///
/// `NoDocument` only where the bytes are no document, or its key has fewer bytes.
#[inline(always)]
pub fn zeros_from(document: &[u8], offset: usize) -> Result<ZerosLeft, DocumentError>
    ensures left { OfDocument document.now (λ t. offset ≤ length (key_of t)
        → MatchResult result (IsLeftAt t offset) (λ e. ⊥)) }
{
    let (_, zeros) = split_document(document);
    let all = all_left(zeros)?;
    let rest = pass(all, offset)?;
    Ok(left_as(zeros, offset, rest))
}

/// Appends the document of the part whose key is at this offset in that of the document, and has this size, and returns
/// what is left of the zeros behind the part. `left` is what is left behind bytes before the part, as `zeros_from` or
/// this function returned it.
///
/// So the parts of a document are appended one after the other in time linear in the document: the zeros are passed
/// once. Nothing is allocated but for `out`. With any other bytes in `left` it may append any bytes.
///
/// # Errors
///
/// `NoDocument` only where the bytes are no document, the range isn't within its key, or `left` isn't what is left
/// before it. `OutOfMemory` only where the buffer lacks the capacity for the part's document. After an error the buffer
/// is as before.
pub fn append_next_range(
    out: &mut Vec<u8>,
    document: &[u8],
    left: ZerosLeft,
    offset: usize,
    size: usize,
) -> Result<ZerosLeft, DocumentError>
    ensures part { OfNextPart document.now left offset size (λ t part.
        AppendsDocument part result out.old out.new) }
    ensures left { OfNextPart document.now left offset size (λ t part. ReportsLeft t (offset + size) result) }
    ensures preserves { PreservesOnError result out.old out.new }
{
    let (key, zeros) = split_document(document);
    if offset < left.passed || offset > key.len() || size > key.len() - offset {
        return Err(DocumentError::NoDocument);
    }
    let (_, from_part) = key.split_at(offset);
    let (part, _) = from_part.split_at(size);
    let start = out.len();
    out.extend_from_slice(part)?;
    match take_zeros(out, next_of(zeros, left), offset - left.passed, size) {
        Ok(rest) => Ok(left_as(zeros, offset + size, rest)),
        Err(error) => {
            out.truncate(start);
            Err(error)
        }
    }
}

/// How many zeros end the number whose key begins at this offset, where what is left is left before it. What is left is
/// then that behind the first byte of the number's key, or as before.
///
/// # Errors
///
/// `NoDocument` only where the bytes are no document, or this isn't left before a number of it. What is left stays as
/// it is then.
#[inline(always)]
pub(crate) fn zeros_of_number(
    document: &[u8],
    left: &mut ZerosLeft,
    offset: usize,
) -> Result<u8, DocumentError>
    ensures zeros { OfDocument document.now (λ t. IsLeftBehind t left.old → left.old.passed ≤ offset
        → offset < length (key_of t) → ReportsZeros t offset result left.new) }
    ensures still { IfErr result (λ _. left.new ≡ left.old) }
{
    let Some(gap) = offset.checked_sub(left.passed) else {
        return Err(DocumentError::NoDocument);
    };
    if left.count == 0 || gap < left.before {
        return Ok(0);
    }
    let (count, rest) = pass_number(document, *left, offset)?;
    *left = rest;
    Ok(count)
}

// The same, and what is left behind the first byte of the number's key.
#[inline(never)]
fn pass_number(
    document: &[u8],
    left: ZerosLeft,
    offset: usize,
) -> Result<(u8, ZerosLeft), DocumentError>
    ensures zeros { OfDocument document.now (λ t. IsLeftBehind t left → left.passed ≤ offset
        → offset < length (key_of t) → MatchResult result (λ r. ReportsZeros t offset (Ok r.0) r.1) (λ e. ⊥)) }
{
    let Some(gap) = offset.checked_sub(left.passed) else {
        return Err(DocumentError::NoDocument);
    };
    let (_, zeros) = split_document(document);
    let here = pass(next_of(zeros, left), gap)?;
    let behind = pass(here, 1)?;
    Ok((
        first_count(here),
        left_as(zeros, offset.saturating_add(1), behind),
    ))
}

// The first of the counts of which this is left.
fn first_count(left: Option<(usize, u8, &[u8])>) -> u8
    ensures { (counts : List ℕ) → Pends counts left.entry → result ≡ get_or counts 0 0 }
{
    match left {
        Some((0, count, _)) => count,
        _ => 0,
    }
}

// What is left behind so many bytes of the key, as the number that it begins with, and where the entries behind are.
fn left_as(zeros: &[u8], passed: usize, rest: Option<(usize, u8, &[u8])>) -> ZerosLeft
    ensures left { (front behind : List ℕ) → zeros.now ≡ zeros_of 0 (front ++ behind) → Pends behind rest.entry
        → IsLeftOf behind zeros.now result }
    ensures passed { result.passed ≡ passed }
{
    match rest {
        Some((before, count, others)) => ZerosLeft {
            passed,
            before,
            count,
            entries: zeros.len().saturating_sub(others.len()),
        },
        None => ZerosLeft {
            passed,
            before: 0,
            count: 0,
            entries: 0,
        },
    }
}

// What is left, with the entries behind it.
fn next_of(zeros: &[u8], left: ZerosLeft) -> Option<(usize, u8, &[u8])>
    ensures next { (counts : List ℕ) → IsLeftOf counts zeros.now left → Pends counts result }
{
    if left.count == 0 {
        return None;
    }
    Some((left.before, left.count, entries_from(zeros, left.entries)))
}

// The bytes from the offset on; none where there are fewer.
fn entries_from(zeros: &[u8], offset: usize) -> &[u8]
    ensures { result.now ≡ drop offset zeros.now }
{
    let (_, rest) = zeros.split_at(offset.min(zeros.len()));
    rest
}
