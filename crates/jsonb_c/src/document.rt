//! Documents: sort keys with the zeros that end decimals behind them. Documents of texts, and texts of documents; their
//! keys, their order, and parts of them.
//!
//! Any bytes are safe to pass. What a call writes is promised for the documents of values of JSON's kinds with at most
//! 512 nested arrays and objects; of other bytes it may be `NO_DOCUMENT` or any bytes.
ghost use Rattle.std.specs.Prelude.{◌≡◌, ◌⊎◌, ◌≤◌, ◌↔◌, ◌++◌, IfOk, IsTrue, ℕ, List, [], length, map, string_bytes, Option, Some, Vec};
ghost use Rattle.std.specs.declared.alloc.Global.{Global as GlobalAlloc};
ghost use Rattle.jsonb_c.specs.Document.{document_status_of};
ghost use Rattle.jsonb_spec.specs.Interface.Document.{IsDocumentAnswer, IsDocumentOfText, IsDocumentStatus, IsTreeDocument};
ghost use Rattle.jsonb_spec.specs.Interface.{sign, FillsBuffer, FormMayAllocate, IsStatusOfForm, PreservesBuffer, ReportsPath};
ghost use Rattle.jsonb_c.specs.Interface.{FailsFor, IsRejected, Reports};
ghost use Rattle.jsonb_spec.specs.Interface.KeyParts.{IsWritten};
ghost use Rattle.jsonb_spec.specs.SortKey.Readable.{IsReadable};
ghost use Rattle.jsonb_spec.specs.Path.{IsPath};
ghost use Rattle.jsonb_spec.specs.Order.{tree_cmp};
ghost use Rattle.jsonb_spec.specs.PartAt.{part_at};
ghost use Rattle.jsonb_spec.specs.SortKey.{key_of};
ghost use Rattle.jsonb_spec.specs.Text.{text_of};
ghost use Rattle.jsonb_spec.specs.Tree.{Tree};
ghost use Rattle.jsonb_spec.specs.Document.Check.{IsDocumentInRange};
ghost use Rattle.key_document.specs.Changes.{Answers, AppendsDocument};
ghost use Rattle.jsonb_spec.specs.Document.PartAt.{IsPartAt};
ghost use Rattle.jsonb_spec.specs.Table.{has_table, table_of};

use crate::{
    ACCEPTED, Failure, NO_DOCUMENT, NO_PART, NO_PATH, NOTHING, OUT_OF_MEMORY, Rejection, TOO_DEEP,
    TOO_SHORT, names_of, put, report, sign, sort_key_of, text_of,
};
use jsonb::may_end_in_zeros;
use key_document::{
    DocumentError, append_document_of_text, append_part, append_range, append_text_of_document,
    compare_documents, is_document, split_document,
};
use key_table::split_table;
use std::alloc::Global;

/// Writes the document of the text's value to the start of `out`, and its size to `size`. Where `out` is too
/// short, it stays as it is, and `size` is what is needed.
#[unsafe(no_mangle)]
pub extern "C" fn vizhoniku_document(
    alloc: Global,
    mode: u32,
    text: &[u8],
    out: &mut [u8],
    size: &mut usize,
    rejection: &mut Rejection,
) -> u32
    // A document is accepted, unless memory ran out.
    ensures status { IsStatusOfForm mode text.now result }

    // What is written is the document of the text's tree, and no other byte of the buffer changes.
    ensures fills { FillsBuffer (IsDocumentOfText mode text.now) ACCEPTED result size.new out.old out.new }

    // Which fault it is, and where.
    ensures reports { Reports (IsRejected mode text.now 1) result rejection.new }
{
    match document_of_text(alloc, mode, text) {
        Ok(bytes) => {
            *rejection = NOTHING;
            *size = bytes.len();
            put(&bytes, out)
        }
        Err(rejected) => {
            *size = 0;
            report(rejected, rejection)
        }
    }
}

// The document of the value of a text. Where no number ends in zeros, it is the sort key.
fn document_of_text(alloc: Global, mode: u32, text: &[u8]) -> Result<Vec<u8>, Failure>
    ensures document { IfOk result (λ bytes. IsDocumentOfText mode text.now bytes.items) }
    ensures fails { FailsFor mode (IsRejected mode text.now 1) (FormMayAllocate mode text.now) result }
{
    if !may_end_in_zeros(text) {
        return sort_key_of(alloc, mode, text, 1);
    }
    let serialized = text_of(alloc, mode, text)?;
    let mut bytes = Vec::new(alloc);
    match append_document_of_text(&mut bytes, &serialized) {
        Ok(()) => Ok(bytes),
        Err(_) => Err(Failure::OutOfMemory),
    }
}

/// Whether bytes are the document of a value in range: of JSON's kinds, with at most 512 nested arrays and objects, and
/// numbers of at most 38 digits, before and behind the point. Then its text is an extended document with that document.
#[unsafe(no_mangle)]
pub extern "C" fn vizhoniku_document_check(document: &[u8]) -> u32
    ensures accepted { result ≡ ACCEPTED ↔ IsDocumentInRange document.now }
    ensures status { (result ≡ ACCEPTED) ⊎ (result ≡ NO_DOCUMENT) }
{
    if is_document(document) {
        ACCEPTED
    } else {
        NO_DOCUMENT
    }
}

/// Returns how many of the document's first bytes are its key, also where its table is behind it. It looks at the last
/// ten bytes alone, and at the three that end the table.
#[unsafe(no_mangle)]
pub extern "C" fn vizhoniku_document_key(document: &[u8]) -> usize
    ensures size { (t : Tree) → IsTreeDocument document.now t → result ≡ length (key_of t) }
    ensures before_table { (front : List ℕ) → (t : Tree) → IsTreeDocument front t → IsTrue (has_table t)
        → document.now ≡ front ++ table_of t → result ≡ length (key_of t) }
    ensures within { result ≤ length document.now }
{
    let (front, _) = split_table(document);
    let (key, _) = split_document(front);
    key.len()
}

/// Compares the values of two documents: -1, 0 or 1, as `vizhoniku_compare` does those of two texts.
#[unsafe(no_mangle)]
pub extern "C" fn vizhoniku_document_compare<'d>(left: &'d [u8], right: &'d [u8]) -> i32
    ensures order { (t u : Tree) → IsTreeDocument left.now t → IsTreeDocument right.now u
        → result ≡ sign (tree_cmp t u) }
{
    sign(compare_documents(left, right))
}

/// Writes the text of the document's value, with each number's digits, to the start of `out`, and its size to
/// `size`. Where `out` is too short, it stays as it is, and `size` is what is needed.
#[unsafe(no_mangle)]
pub extern "C" fn vizhoniku_document_text(
    alloc: Global,
    document: &[u8],
    out: &mut [u8],
    size: &mut usize,
) -> u32
    ensures status { IsDocumentStatus result }

    // What is written is the text of the value, digits and all, and no other byte of the buffer changes.
    ensures written { (t : Tree) → IsTreeDocument document.now t → (result ≡ OUT_OF_MEMORY)
        ⊎ IsWritten (text_of t) result size.new out.old out.new }
    ensures preserves { PreservesBuffer result size.new out.old out.new }
{
    let mut bytes = Vec::new(alloc);
    match append_text_of_document(&mut bytes, document) {
        Ok(()) => {
            *size = bytes.len();
            put(&bytes, out)
        }
        Err(error) => {
            *size = 0;
            document_status(&error)
        }
    }
}

/// Writes the document of the part at the path to the start of `out`, and its size to `size`. Where `out` is too short,
/// it stays as it is, and `size` is what is needed.
#[unsafe(no_mangle)]
pub extern "C" fn vizhoniku_document_part(
    alloc: Global,
    document: &[u8],
    path: &[u8],
    out: &mut [u8],
    size: &mut usize,
) -> u32
    ensures status { (result ≡ NO_PATH) ⊎ IsDocumentStatus result }

    // What is written is the document of the part; or there is no such part.
    ensures written { (t : Tree) → IsTreeDocument document.now t → (names : List (List ℕ)) → IsPath path.now names
        → (result ≡ OUT_OF_MEMORY) ⊎ IsDocumentAnswer (part_at names t) result size.new out.old out.new }

    // What is wrong with a path is reported, unless memory ran out.
    ensures path { ReportsPath path.now result }
    ensures preserves { PreservesBuffer result size.new out.old out.new }
{
    match names_of(alloc, path) {
        Ok(names) => cut_part(alloc, document, &names, out, size),
        Err(status) => {
            *size = 0;
            status
        }
    }
}

// Writes the document of the part at the path of these names.
fn cut_part(
    alloc: Global,
    document: &[u8],
    names: &[String],
    out: &mut [u8],
    size: &mut usize,
) -> u32
    ensures status { IsDocumentStatus result }
    ensures written { (t : Tree) → IsTreeDocument document.now t → (result ≡ OUT_OF_MEMORY)
        ⊎ IsDocumentAnswer (part_at (map string_bytes names.now) t) result size.new out.old out.new }
    ensures preserves { PreservesBuffer result size.new out.old out.new }
{
    let mut bytes = Vec::new(alloc);
    let reported = append_part(&mut bytes, document, names);
    report_document(reported, &bytes, out, size)
}

/// Writes the document of the part whose key is at the offset in the document's key, and has this size, to the start of
/// `out`, and its size to `size`. Where `out` is too short, it stays as it is, and `size` is what is needed.
#[unsafe(no_mangle)]
pub extern "C" fn vizhoniku_document_range(
    alloc: Global,
    document: &[u8],
    offset: usize,
    part_size: usize,
    out: &mut [u8],
    size: &mut usize,
) -> u32
    ensures status { IsDocumentStatus result }

    // What is written is the document of the part that has this range.
    ensures written { (t : Tree) → IsTreeDocument document.now t → (part : Tree) → IsReadable part
        → IsPartAt t offset part → part_size ≡ length (key_of part)
        → (result ≡ OUT_OF_MEMORY) ⊎ IsDocumentAnswer (Some part) result size.new out.old out.new }
    ensures preserves { PreservesBuffer result size.new out.old out.new }
{
    let mut bytes = Vec::new(alloc);
    let reported = answer(append_range(&mut bytes, document, offset, part_size));
    report_document(reported, &bytes, out, size)
}

// What is reported of a call that always has an answer.
pub(crate) fn answer(reported: Result<(), DocumentError>) -> Result<bool, DocumentError>
    ensures { (t : Tree) → (old new : Vec ℕ GlobalAlloc) → AppendsDocument t reported old new
        → Answers (Some t) result old new }
{
    match reported {
        Ok(()) => Ok(true),
        Err(error) => Err(error),
    }
}

// Writes the bytes that were appended, and gives the status of what was reported.
pub(crate) fn report_document(
    reported: Result<bool, DocumentError>,
    bytes: &[u8],
    out: &mut [u8],
    size: &mut usize,
) -> u32
    ensures status { IsDocumentStatus result }
    ensures written { (answer : Option Tree) → (old new : Vec ℕ GlobalAlloc) → old.items ≡ [] → new.items ≡ bytes.now
        → Answers answer reported old new
        → (result ≡ OUT_OF_MEMORY) ⊎ IsDocumentAnswer answer result size.new out.old out.new }
    ensures preserves { PreservesBuffer result size.new out.old out.new }
{
    match reported {
        Ok(true) => {
            *size = bytes.len();
            put(bytes, out)
        }
        Ok(false) => {
            *size = 0;
            NO_PART
        }
        Err(error) => {
            *size = 0;
            document_status(&error)
        }
    }
}

/// The status of an error.
pub(crate) fn document_status(error: &DocumentError) -> u32
    ensures { result ≡ document_status_of error.now }
{
    match error {
        DocumentError::NoDocument => NO_DOCUMENT,
        DocumentError::TooDeep => TOO_DEEP,
        DocumentError::OutOfMemory => OUT_OF_MEMORY,
    }
}
