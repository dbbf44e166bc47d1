//! Documents changed by splicing: parts set, removed and added, and two values merged, with all digits.
//!
//! Any bytes are safe to pass. What a call writes is promised for the documents of values of JSON's kinds with at most
//! 512 nested arrays and objects; of other bytes it may be `NO_DOCUMENT` or any bytes.
ghost use Rattle.std.specs.Prelude.{◌≡◌, ◌↔◌, ◌⊎◌, ◌==◌, IsUtf8, ℕ, List, not, map, string_bytes, Some};
ghost use Rattle.jsonb_spec.specs.Interface.Document.{IsDocumentAnswer, IsDocumentStatus, IsTreeDocument};
ghost use Rattle.jsonb_spec.specs.Interface.{PreservesBuffer, ReportsPath};
ghost use Rattle.jsonb_c.specs.declared.TheConstants.{OUT_OF_MEMORY};
ghost use Rattle.jsonb_spec.specs.Path.{IsPath};
ghost use Rattle.jsonb_spec.specs.Tree.{Tree};
ghost use Rattle.jsonb_spec.specs.Edit.{merge, with_item, with_member, with_part, without_part};

use crate::document::{answer, report_document};
use crate::{NO_PATH, names_of};
use key_document::{
    append_merged, append_with_item, append_with_member, append_with_part, append_without_part,
};
use std::alloc::Global;

/// Writes the document of a value with a part at the path, of which the document is passed, to the start of `out`, and
/// its size to `size`. Where `out` is too short, it stays as it is, and `size` is what is needed. The part that is
/// there is replaced. Where the last name leads nowhere, it is added if `create` isn't 0.
#[unsafe(no_mangle)]
pub extern "C" fn vizhoniku_document_set(
    alloc: Global,
    document: &[u8],
    path: &[u8],
    part: &[u8],
    create: u32,
    out: &mut [u8],
    size: &mut usize,
) -> u32
    ensures status { (result ≡ NO_PATH) ⊎ IsDocumentStatus result }

    // What is written is the document of the value with the part; or there is no such slot, or it would be too deep.
    ensures written { (t : Tree) → IsTreeDocument document.now t → (u : Tree) → IsTreeDocument part.now u
        → (names : List (List ℕ)) → IsPath path.now names → (result ≡ OUT_OF_MEMORY)
        ⊎ IsDocumentAnswer (with_part names u (not (create == 0)) t) result size.new out.old out.new }

    // What is wrong with a path is reported, unless memory ran out.
    ensures path { ReportsPath path.now result }
    ensures preserves { PreservesBuffer result size.new out.old out.new }
{
    match names_of(alloc, path) {
        Ok(names) => set_part(alloc, document, &names, part, create != 0, out, size),
        Err(status) => {
            *size = 0;
            status
        }
    }
}

// Writes the document with the part at the path of these names.
fn set_part(
    alloc: Global,
    document: &[u8],
    names: &[String],
    part: &[u8],
    create: bool,
    out: &mut [u8],
    size: &mut usize,
) -> u32
    ensures status { IsDocumentStatus result }
    ensures written { (t : Tree) → IsTreeDocument document.now t → (u : Tree) → IsTreeDocument part.now u
        → (result ≡ OUT_OF_MEMORY)
        ⊎ IsDocumentAnswer (with_part (map string_bytes names.now) u create t) result size.new out.old out.new }
    ensures preserves { PreservesBuffer result size.new out.old out.new }
{
    let mut bytes = Vec::new(alloc);
    let reported = append_with_part(&mut bytes, document, names, part, create);
    report_document(reported, &bytes, out, size)
}

/// Writes the document of a value without its part at the path to the start of `out`, and its size to `size`. Where
/// `out` is too short, it stays as it is, and `size` is what is needed.
#[unsafe(no_mangle)]
pub extern "C" fn vizhoniku_document_remove(
    alloc: Global,
    document: &[u8],
    path: &[u8],
    out: &mut [u8],
    size: &mut usize,
) -> u32
    ensures status { (result ≡ NO_PATH) ⊎ IsDocumentStatus result }

    // What is written is the document of the value without the part; or there is no such part.
    ensures written { (t : Tree) → IsTreeDocument document.now t → (names : List (List ℕ)) → IsPath path.now names
        → (result ≡ OUT_OF_MEMORY) ⊎ IsDocumentAnswer (without_part names t) result size.new out.old out.new }

    // What is wrong with a path is reported, unless memory ran out.
    ensures path { ReportsPath path.now result }
    ensures preserves { PreservesBuffer result size.new out.old out.new }
{
    match names_of(alloc, path) {
        Ok(names) => remove_part(alloc, document, &names, out, size),
        Err(status) => {
            *size = 0;
            status
        }
    }
}

// Writes the document without the part at the path of these names.
fn remove_part(
    alloc: Global,
    document: &[u8],
    names: &[String],
    out: &mut [u8],
    size: &mut usize,
) -> u32
    ensures status { IsDocumentStatus result }
    ensures written { (t : Tree) → IsTreeDocument document.now t → (result ≡ OUT_OF_MEMORY)
        ⊎ IsDocumentAnswer (without_part (map string_bytes names.now) t) result size.new out.old out.new }
    ensures preserves { PreservesBuffer result size.new out.old out.new }
{
    let mut bytes = Vec::new(alloc);
    let reported = append_without_part(&mut bytes, document, names);
    report_document(reported, &bytes, out, size)
}

/// Writes the document of an object with a member, of whose value the document is passed, to the start of `out`, and
/// its size to `size`. Where `out` is too short, it stays as it is, and `size` is what is needed. A member of that name
/// is replaced.
#[unsafe(no_mangle)]
pub extern "C" fn vizhoniku_document_put(
    alloc: Global,
    document: &[u8],
    name: &[u8],
    value: &[u8],
    out: &mut [u8],
    size: &mut usize,
) -> u32
    ensures status { (result ≡ NO_PATH) ⊎ IsDocumentStatus result }

    // What is written is the document of the object with the member; or the value is none, or would be too deep.
    ensures written { IsUtf8 name.now → (t : Tree) → IsTreeDocument document.now t → (u : Tree)
        → IsTreeDocument value.now u
        → (result ≡ OUT_OF_MEMORY) ⊎ IsDocumentAnswer (with_member name.now u t) result size.new out.old out.new }
    ensures no_path { result ≡ NO_PATH ↔ (IsUtf8 name.now → ⊥) }
    ensures preserves { PreservesBuffer result size.new out.old out.new }
{
    let Ok(name) = str::from_utf8(name) else {
        *size = 0;
        return NO_PATH;
    };
    let mut bytes = Vec::new(alloc);
    let reported = append_with_member(&mut bytes, document, name, value);
    report_document(reported, &bytes, out, size)
}

/// Writes the document of an array with an item more, of which the document is passed, to the start of `out`, and its
/// size to `size`. Where `out` is too short, it stays as it is, and `size` is what is needed.
#[unsafe(no_mangle)]
pub extern "C" fn vizhoniku_document_push(
    alloc: Global,
    document: &[u8],
    item: &[u8],
    out: &mut [u8],
    size: &mut usize,
) -> u32
    ensures status { IsDocumentStatus result }

    // What is written is the document of the array with the item; or the value is none, or would be too deep.
    ensures written { (t : Tree) → IsTreeDocument document.now t → (u : Tree) → IsTreeDocument item.now u
        → (result ≡ OUT_OF_MEMORY) ⊎ IsDocumentAnswer (with_item u t) result size.new out.old out.new }
    ensures preserves { PreservesBuffer result size.new out.old out.new }
{
    let mut bytes = Vec::new(alloc);
    let reported = append_with_item(&mut bytes, document, item);
    report_document(reported, &bytes, out, size)
}

/// Writes the document of both values in one to the start of `out`, and its size to `size`: an object with the members
/// of both, or else an array with the items of both. Where `out` is too short, it stays as it is, and `size` is what is
/// needed.
#[unsafe(no_mangle)]
pub extern "C" fn vizhoniku_document_merge(
    alloc: Global,
    left: &[u8],
    right: &[u8],
    out: &mut [u8],
    size: &mut usize,
) -> u32
    ensures status { IsDocumentStatus result }

    // What is written is the document of both values in one; or it would be too deep.
    ensures written { (t : Tree) → IsTreeDocument left.now t → (u : Tree) → IsTreeDocument right.now u
        → (result ≡ OUT_OF_MEMORY) ⊎ IsDocumentAnswer (Some (merge t u)) result size.new out.old out.new }
    ensures preserves { PreservesBuffer result size.new out.old out.new }
{
    let mut bytes = Vec::new(alloc);
    let reported = answer(append_merged(&mut bytes, left, right));
    report_document(reported, &bytes, out, size)
}
