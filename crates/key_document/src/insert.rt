//! Parts inserted into documents: between the items of an array, or as a new member of an object.

ghost use Rattle.std.specs.Prelude.{map, string_bytes};
ghost use Rattle.jsonb_spec.specs.Document.PartAt.{PreservesOnError};
ghost use Rattle.jsonb_spec.specs.Document.{OfDocument};
ghost use Rattle.key_document.specs.Inserting.{AnswersInsertion};
ghost use Rattle.jsonb_spec.specs.Edit.Insert.{with_inserted, without_member};

use crate::document::split_document;
use crate::edit::put_document;
use crate::error::DocumentError;
use key_edit::insert::find_insertion;

/// What became of a part that was to be inserted.
#[derive(Clone, Copy, Debug, PartialEq, Eq)]
pub enum Insertion {
    /// The document with the part is appended.
    Inserted,
    /// Nothing is appended: the object has a member of that name.
    Present,
    /// Nothing is appended: the path leads nowhere.
    Nowhere,
}

/// Appends the document of the value with this part inserted at the path of these names, of which the document is
/// passed, and says whether it is. Each number holds all its digits.
///
/// Where the last name leads into an array, the part is put before the item of that index, or behind it where `after`
/// is true; at the end where there are fewer items; and before all of them where there are fewer than an index counts
/// from the end. Where it leads into an object, the part is the member of that name, if there is none yet. The names are
/// as in `append_with_part`; where one before the last leads nowhere, nothing is appended.
///
/// # Errors
///
/// As of `append_with_part`.
pub fn append_with_inserted(
    out: &mut Vec<u8>,
    document: &[u8],
    names: &[String],
    part: &[u8],
    after: bool,
) -> Result<Insertion, DocumentError>
    ensures answers { OfDocument document.now (λ t. OfDocument part.now (λ u.
        AnswersInsertion (with_inserted (map string_bytes names.now) u after t)
        (without_member (map string_bytes names.now) t) result out.old out.new)) }
    ensures preserves { PreservesOnError result out.old out.new }
{
    let (key, zeros) = split_document(document);
    let Some(slot) = find_insertion(key, names, after)? else {
        return Ok(Insertion::Nowhere);
    };
    if slot.spot.found {
        return Ok(Insertion::Present);
    }
    match put_document(out, key, zeros, &slot, part) {
        Ok(_) => Ok(Insertion::Inserted),
        Err(error) => Err(error),
    }
}
