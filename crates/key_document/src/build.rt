//! Objects and arrays with a part more, as documents.

ghost use Rattle.key_document.specs.Changes.{AnswersOfBoth};
ghost use Rattle.jsonb_spec.specs.Document.PartAt.{PreservesOnError};
ghost use Rattle.jsonb_spec.specs.Edit.{with_item, with_member};

use crate::document::split_document;
use crate::edit::put_document;
use crate::error::DocumentError;
use key_edit::slot::{end_slot, member_slot};

/// Appends the document of the object with this member, of whose value the document is passed, and returns true. A
/// member of that name is replaced. For a value that is no object nothing is appended, and it returns false.
///
/// # Errors
///
/// As of `append_with_part`.
pub fn append_with_member(
    out: &mut Vec<u8>,
    document: &[u8],
    name: &str,
    value: &[u8],
) -> Result<bool, DocumentError>
    ensures answers { AnswersOfBoth (with_member name.now) document.now value.now result out.old out.new }
    ensures preserves { PreservesOnError result out.old out.new }
{
    let (key, zeros) = split_document(document);
    let Some(slot) = member_slot(key, name)? else {
        return Ok(false);
    };
    put_document(out, key, zeros, &slot, value)
}

/// Appends the document of the array with this item at its end, of which the document is passed, and returns true. For
/// a value that is no array nothing is appended, and it returns false.
///
/// # Errors
///
/// As of `append_with_part`.
pub fn append_with_item(
    out: &mut Vec<u8>,
    document: &[u8],
    item: &[u8],
) -> Result<bool, DocumentError>
    ensures answers { AnswersOfBoth with_item document.now item.now result out.old out.new }
    ensures preserves { PreservesOnError result out.old out.new }
{
    let (key, zeros) = split_document(document);
    let Some(slot) = end_slot(key)? else {
        return Ok(false);
    };
    put_document(out, key, zeros, &slot, item)
}
