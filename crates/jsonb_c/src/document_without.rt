//! Documents of values from which members and items are left out, with all digits.
//!
//! Any bytes are safe to pass. What a call writes is promised for the documents of values of JSON's kinds with at most
//! 512 nested arrays and objects; of other bytes it may be `NO_DOCUMENT` or any bytes.
ghost use Rattle.std.specs.Prelude.{◌≡◌, ◌⊎◌, ◌==◌, not, Some};
ghost use Rattle.jsonb_spec.specs.Interface.Document.{IsDocumentAnswer, IsDocumentStatus, IsTreeDocument};
ghost use Rattle.jsonb_spec.specs.Interface.{PreservesBuffer};
ghost use Rattle.jsonb_c.specs.declared.TheConstants.{OUT_OF_MEMORY};
ghost use Rattle.jsonb_spec.specs.Tree.{Tree};
ghost use Rattle.jsonb_spec.specs.Edit.LeftOut.{without_names, without_nulls};

use crate::document::{answer, report_document};
use key_document::{append_without_names, append_without_nulls};
use std::alloc::Global;

/// Writes the document of a value without what an object names, of which the document or the key is passed, to the start
/// of `out`, and its size to `size`. Where `out` is too short, it stays as it is, and `size` is what is needed.
#[unsafe(no_mangle)]
pub extern "C" fn vizhoniku_document_without(
    alloc: Global,
    document: &[u8],
    names: &[u8],
    out: &mut [u8],
    size: &mut usize,
) -> u32
    ensures status { IsDocumentStatus result }

    // What is written is the document of what stays; or nothing is left out.
    ensures written { (t : Tree) → IsTreeDocument document.now t → (u : Tree) → IsTreeDocument names.now u
        → (result ≡ OUT_OF_MEMORY) ⊎ IsDocumentAnswer (without_names u t) result size.new out.old out.new }
    ensures preserves { PreservesBuffer result size.new out.old out.new }
{
    let mut bytes = Vec::new(alloc);
    let reported = append_without_names(&mut bytes, document, names);
    report_document(reported, &bytes, out, size)
}

/// Writes the document of a value without its members that are null, at all depths, and without its items that are if
/// `in_arrays` isn't 0, to the start of `out`, and its size to `size`. Where `out` is too short, it stays as it is, and
/// `size` is what is needed.
#[unsafe(no_mangle)]
pub extern "C" fn vizhoniku_document_strip_nulls(
    alloc: Global,
    document: &[u8],
    in_arrays: u32,
    out: &mut [u8],
    size: &mut usize,
) -> u32
    ensures status { IsDocumentStatus result }

    // What is written is the document of what stays.
    ensures written { (t : Tree) → IsTreeDocument document.now t → (result ≡ OUT_OF_MEMORY)
        ⊎ IsDocumentAnswer (Some (without_nulls (not (in_arrays == 0)) t)) result size.new out.old out.new }
    ensures preserves { PreservesBuffer result size.new out.old out.new }
{
    let mut bytes = Vec::new(alloc);
    let reported = answer(append_without_nulls(&mut bytes, document, in_arrays != 0));
    report_document(reported, &bytes, out, size)
}
