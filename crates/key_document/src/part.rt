//! Parts of documents, as documents.

ghost use Rattle.std.specs.Prelude.{◌≡◌, ◌<◌, ◌^◌, ℕ, List, length, map, string_bytes};
ghost use Rattle.jsonb_spec.specs.SortKey.Readable.{IsReadable};
ghost use Rattle.jsonb_spec.specs.PartAt.{part_at};
ghost use Rattle.jsonb_spec.specs.Proper.{IsProper};
ghost use Rattle.jsonb_spec.specs.SortKey.{key_of};
ghost use Rattle.jsonb_spec.specs.Tree.{Tree};
ghost use Rattle.jsonb_spec.specs.SortKey.AtKeys.{OfKey};
ghost use Rattle.key_document.specs.Changes.{Answers, AnswersOf, AppendsDocument, FindsRange};
ghost use Rattle.jsonb_spec.specs.Document.PartAt.{IsPartAt, PreservesOnError, OfPartAt};
ghost use Rattle.jsonb_spec.specs.Document.{zeros_at, OfDocument};

use crate::document::split_document;
use crate::error::DocumentError;
use crate::splice::cut_zeros;
use key_edit::slot::find_slot;
use key_walk::find::find_part;
use key_walk::skip::after_key;
use key_walk::walk::front;

/// Appends the document of the value's part at the path of these names, and returns true. Where there is no part,
/// nothing is appended, and it returns false. A name is that of a member, or in an array an index in decimal digits.
///
/// # Errors
///
/// `NoDocument` only where the bytes are no document, and `OutOfMemory` only where the buffer lacks the capacity for
/// the part's document. After an error the buffer is as before.
pub fn append_part(
    out: &mut Vec<u8>,
    document: &[u8],
    names: &[String],
) -> Result<bool, DocumentError>
    ensures answers { AnswersOf (part_at (map string_bytes names.now)) document.now result out.old out.new }
    ensures preserves { PreservesOnError result out.old out.new }
{
    let (key, zeros) = split_document(document);
    if zeros.is_empty() {
        return append_plain_part(out, key, names);
    }
    let Some((offset, part)) = find_range(key, names)? else {
        return Ok(false);
    };
    match append_slot(out, zeros, offset, part) {
        Ok(()) => Ok(true),
        Err(error) => Err(error),
    }
}

/// Appends the document of the part whose key is at this offset in that of the document, and has this size.
///
/// # Errors
///
/// As of `append_part`; `NoDocument` also where the range isn't within the key.
pub fn append_range(
    out: &mut Vec<u8>,
    document: &[u8],
    offset: usize,
    size: usize,
) -> Result<(), DocumentError>
    ensures part { OfDocument document.now (λ t. OfPartAt t offset size (λ part.
        AppendsDocument part result out.old out.new)) }
    ensures preserves { PreservesOnError result out.old out.new }
{
    let (key, zeros) = split_document(document);
    if offset > key.len() || size > key.len() - offset {
        return Err(DocumentError::NoDocument);
    }
    append_slot(out, zeros, offset, &key[offset..offset + size])
}

// Appends the key of the part at the path of these names in the key of a value without zeros: such a part has none.
fn append_plain_part(out: &mut Vec<u8>, key: &[u8], names: &[String]) -> Result<bool, DocumentError>
    ensures answers { OfKey key.now (λ t. length (zeros_at t) ≡ 0
        → Answers (part_at (map string_bytes names.now) t) result out.old out.new) }
    ensures preserves { PreservesOnError result out.old out.new }
{
    let Some(rest) = find_part(key, names)? else {
        return Ok(false);
    };
    let Some(behind) = after_key(rest) else {
        return Err(DocumentError::NoDocument);
    };
    out.extend_from_slice(front(rest, behind))?;
    Ok(true)
}

// The offset of the key of the part at the path of these names, and that key.
fn find_range<'k>(
    key: &'k [u8],
    names: &[String],
) -> Result<Option<(usize, &'k [u8])>, DocumentError>
    ensures found { OfKey key.now (λ t. FindsRange t (part_at (map string_bytes names.now) t) result) }
{
    let Some(_) = find_part(key, names)? else {
        return Ok(None);
    };
    if names.is_empty() {
        return Ok(Some((0, key)));
    }
    let Some(slot) = find_slot(key, names)? else {
        return Ok(None);
    };
    let value = slot.spot.value;
    let offset = key.len().saturating_sub(value.len());
    Ok(Some((offset, front(value, slot.behind))))
}

// Appends the document of the part whose key this is, which is at this offset in that of the value with these zeros.
fn append_slot(
    out: &mut Vec<u8>,
    zeros: &[u8],
    offset: usize,
    part: &[u8],
) -> Result<(), DocumentError>
    ensures appended { (t u : Tree) → IsProper t → length (key_of t) < 2 ^ 63 → zeros.now ≡ zeros_at t → IsReadable u
        → IsPartAt t offset u → part.now ≡ key_of u → AppendsDocument u result out.old out.new }
    ensures preserves { PreservesOnError result out.old out.new }
{
    let start = out.len();
    out.extend_from_slice(part)?;
    match cut_zeros(out, zeros, offset, part.len()) {
        Ok(()) => Ok(()),
        Err(error) => {
            out.truncate(start);
            Err(error)
        }
    }
}
