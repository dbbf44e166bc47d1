//! Parts inserted into documents: between the items of an array, or as a new member of an object.
//!
//! Any bytes are safe to pass. What a call writes is promised for the documents of values of JSON's kinds with at most
//! 512 nested arrays and objects; of other bytes it may be `NO_DOCUMENT` or any bytes.
ghost use Rattle.std.specs.Prelude.{◌≡◌, ◌⊎◌, ◌==◌, ℕ, List, not, map, string_bytes};
ghost use Rattle.jsonb_spec.specs.Interface.Document.{IsDocumentStatus, IsTreeDocument};
ghost use Rattle.jsonb_spec.specs.Interface.DocumentInsert.{IsInsertionAnswer};
ghost use Rattle.jsonb_spec.specs.Interface.{PreservesBuffer, ReportsPath};
ghost use Rattle.jsonb_c.specs.declared.TheConstants.{OUT_OF_MEMORY};
ghost use Rattle.jsonb_spec.specs.Path.{IsPath};
ghost use Rattle.jsonb_spec.specs.Tree.{Tree};
ghost use Rattle.jsonb_spec.specs.Edit.Insert.{with_inserted, without_member};

use crate::document::document_status;
use crate::{NO_PART, NO_PATH, PRESENT, names_of, put};
use key_document::{Insertion, append_with_inserted};
use std::alloc::Global;

/// Writes the document of a value with a part inserted at the path, of which the document is passed, to the start of
/// `out`, and its size to `size`. Where `out` is too short, it stays as it is, and `size` is what is needed. In an
/// array the part is put before the item of the last name's index, or behind it if `after` isn't 0. In an object it is
/// the member of the last name, which must not be there.
#[unsafe(no_mangle)]
pub extern "C" fn vizhoniku_document_insert(
    alloc: Global,
    document: &[u8],
    path: &[u8],
    part: &[u8],
    after: u32,
    out: &mut [u8],
    size: &mut usize,
) -> u32
    ensures status { (result ≡ NO_PATH) ⊎ (result ≡ PRESENT) ⊎ IsDocumentStatus result }

    // What is written is the document of the value with the part; or a member is there, or there is no such slot, or it
    // would be too deep.
    ensures written { (t : Tree) → IsTreeDocument document.now t → (u : Tree) → IsTreeDocument part.now u
        → (names : List (List ℕ)) → IsPath path.now names → (result ≡ OUT_OF_MEMORY)
        ⊎ IsInsertionAnswer (with_inserted names u (not (after == 0)) t) (without_member names t) result size.new
        out.old out.new }

    // What is wrong with a path is reported, unless memory ran out.
    ensures path { ReportsPath path.now result }
    ensures preserves { PreservesBuffer result size.new out.old out.new }
{
    match names_of(alloc, path) {
        Ok(names) => insert_part(alloc, document, &names, part, after != 0, out, size),
        Err(status) => {
            *size = 0;
            status
        }
    }
}

// Writes the document with the part inserted at the path of these names.
fn insert_part(
    alloc: Global,
    document: &[u8],
    names: &[String],
    part: &[u8],
    after: bool,
    out: &mut [u8],
    size: &mut usize,
) -> u32
    ensures status { (result ≡ PRESENT) ⊎ IsDocumentStatus result }
    ensures written { (t : Tree) → IsTreeDocument document.now t → (u : Tree) → IsTreeDocument part.now u
        → (result ≡ OUT_OF_MEMORY)
        ⊎ IsInsertionAnswer (with_inserted (map string_bytes names.now) u after t)
        (without_member (map string_bytes names.now) t) result size.new out.old out.new }
    ensures preserves { PreservesBuffer result size.new out.old out.new }
{
    let mut bytes = Vec::new(alloc);
    match append_with_inserted(&mut bytes, document, names, part, after) {
        Ok(Insertion::Inserted) => {
            *size = bytes.len();
            put(&bytes, out)
        }
        Ok(Insertion::Present) => {
            *size = 0;
            PRESENT
        }
        Ok(Insertion::Nowhere) => {
            *size = 0;
            NO_PART
        }
        Err(error) => {
            *size = 0;
            document_status(&error)
        }
    }
}
