//! Parts of documents, set and removed.

ghost use Rattle.std.specs.Prelude.{◌≡◌, ◌≤◌, Bool, Option, map, string_bytes};
ghost use Rattle.jsonb_spec.specs.SortKey.Readable.{IsReadable};
ghost use Rattle.jsonb_spec.specs.SortKey.{key_of};
ghost use Rattle.jsonb_spec.specs.Tree.{Tree};
ghost use Rattle.key_document.specs.Changes.{Answers, AnswersOf, AnswersOfBoth};
ghost use Rattle.jsonb_spec.specs.Document.PartAt.{PreservesOnError};
ghost use Rattle.jsonb_spec.specs.Document.{zeros_at, OfDocument};
ghost use Rattle.key_document.specs.Splices.{PutsPart};
ghost use Rattle.jsonb_spec.specs.Edit.Splices.{Spliced};
ghost use Rattle.jsonb_spec.specs.Edit.{Outcome, becomes, with_part, without_part};
ghost use Rattle.key_edit.specs.Spots.{SlotIn};
ghost use Rattle.jsonb_spec.specs.Document.Counts.{counts_at};

use crate::document::split_document;
use crate::error::DocumentError;
use crate::splice::{Lengths, splice_tail};
use key_edit::edit::put_part;
use key_edit::slot::{Slot, find_slot};
use key_edit::splice::splice;
use key_walk::walk::front;

/// Appends the document of the value without its part at the path of these names, and returns whether there is one.
/// Where there is none, nothing is appended. A name is that of a member, or in an array an index in decimal digits, or
/// with a minus sign from the end, where -1 is the last item. Each number that stays holds all its digits.
///
/// # Errors
///
/// `NoDocument` only where the bytes are no document, and `OutOfMemory` only where the buffer lacks the capacity for
/// the whole document. After an error the buffer is as before.
pub fn append_without_part(
    out: &mut Vec<u8>,
    document: &[u8],
    names: &[String],
) -> Result<bool, DocumentError>
    ensures answers { AnswersOf (without_part (map string_bytes names.now)) document.now result out.old out.new }
    ensures preserves { PreservesOnError result out.old out.new }
{
    let (key, zeros) = split_document(document);
    let Some(slot) = find_slot(key, names)? else {
        return Ok(false);
    };
    if !slot.spot.found {
        return Ok(false);
    }
    let start = out.len();
    let before = front(key, slot.spot.entry);
    if splice(out, before, &[], &[], slot.behind).is_err() {
        return Err(DocumentError::OutOfMemory);
    }
    let lengths = Lengths {
        front: before.len(),
        name: 0,
        part: 0,
        behind: slot.behind.len(),
    };
    splice_tail(out, start, key.len(), zeros, &[], &lengths)
}

/// Appends the document of the value with this part, of which the document is passed, at the path of these names, and
/// says whether there is such a slot. Where there is none, nothing is appended. A part that is there is replaced. Where
/// only the last name leads nowhere, and `create` is true, a member is added to an object, and an item to an array: at
/// its end, or at its front for an index that counts from the end. Each number holds all its digits.
///
/// # Errors
///
/// `TooDeep` only where the answer would have more than 512 arrays and objects in one another, `NoDocument` only where
/// the bytes are no document or the part's are none, and `OutOfMemory` only where the buffer lacks the capacity for the
/// whole document. After an error the buffer is as before.
pub fn append_with_part(
    out: &mut Vec<u8>,
    document: &[u8],
    names: &[String],
    part: &[u8],
    create: bool,
) -> Result<bool, DocumentError>
    ensures answers { AnswersOfBoth (λ u. with_part (map string_bytes names.now) u create) document.now part.now result
        out.old out.new }
    ensures preserves { PreservesOnError result out.old out.new }
{
    let (key, zeros) = split_document(document);
    let Some(slot) = find_slot(key, names)? else {
        return Ok(false);
    };
    if !slot.spot.found && !create {
        return Ok(false);
    }
    put_document(out, key, zeros, &slot, part)
}

/// Appends the document with this part, of which the document is passed, at the slot in the key, and returns true.
#[inline(always)]
pub(crate) fn put_document(
    out: &mut Vec<u8>,
    key: &[u8],
    zeros: &[u8],
    slot: &Slot,
    part: &[u8],
) -> Result<bool, DocumentError>
    requires { slot.now.depth_left ≤ 511 }
    ensures put { (t : Tree) → IsReadable t → key.now ≡ key_of t → zeros.now ≡ zeros_at t
        → (changed : (Option Tree → Outcome) → Option Tree) → Spliced key_of counts_at t changed
        → (s : SlotIn changed key.now slot.now) → OfDocument part.now (λ u. (change : Option Tree → Outcome)
        → PutsPart u change → change s.0.there ≡ becomes u → Answers (changed change) result out.old out.new) }
    ensures preserves { PreservesOnError result out.old out.new }
{
    let (part_key, part_zeros) = split_document(part);
    let start = out.len();
    put_part(out, key, slot, part_key)?;
    let before = front(key, slot.spot.entry).len();
    let others = before
        .saturating_add(part_key.len())
        .saturating_add(slot.behind.len());
    let lengths = Lengths {
        front: before,
        name: out.len().saturating_sub(start).saturating_sub(others),
        part: part_key.len(),
        behind: slot.behind.len(),
    };
    splice_tail(out, start, key.len(), zeros, part_zeros, &lengths)
}
