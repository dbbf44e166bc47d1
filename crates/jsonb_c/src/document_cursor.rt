//! The parts of a document one after the other, each as a document, in time linear in the whole.
//!
//! Any bytes are safe to pass, and any cursor. What a call writes is promised for the documents of values of JSON's
//! kinds with at most 512 nested arrays and objects, and for a cursor that these calls put there; of other bytes it may
//! be `NO_DOCUMENT` or any bytes.
ghost use Rattle.std.specs.Prelude.{◌≡◌, ◌≢◌, ◌⊎◌, ◌<◌, ◌++◌, List, ℕ, IfErr, IfOk, IfSome, MatchOption, MatchResult, None, Some};
ghost use Rattle.jsonb_spec.specs.Interface.Document.{IsDocumentStatus, IsTreeDocument};
ghost use Rattle.jsonb_spec.specs.Interface.DocumentCursor.{all_parts, behind_first, first_part};
ghost use Rattle.jsonb_c.specs.DocumentCursor.{zeros_left, IsBefore, IsBegunBefore, WritesNext};
ghost use Rattle.jsonb_spec.specs.Interface.{PreservesBuffer};
ghost use Rattle.jsonb_c.specs.KeyParts.{IsNextPart, LiesWithin};
ghost use Rattle.jsonb_spec.specs.SortKey.{key_of};
ghost use Rattle.jsonb_spec.specs.Tree.{Tree};
ghost use Rattle.jsonb_spec.specs.Document.{document_of};
ghost use Rattle.jsonb_spec.specs.SortKey.Readable.{IsReadable};
ghost use Rattle.jsonb_spec.specs.SortKey.Open.{Open};

use crate::document::document_status;
use crate::key::{Cursor, Entry, NO_CURSOR, NO_ENTRY, kind_of_parts, next_entry};
use crate::{ACCEPTED, NO_DOCUMENT, NO_PART, OUT_OF_MEMORY, TOO_SHORT, put};
use key_document::{DocumentError, ZerosLeft, append_next_range, split_document, zeros_from};
use key_walk::open_key;
use std::alloc::Global;

/// Where the next item or member begins in the key of a document, and what is left of the zeros there.
#[repr(C)]
#[derive(Clone, Copy)]
pub struct DocumentCursor {
    /// A cursor over the parts of the key.
    pub parts: Cursor,
    /// How many bytes of the key come before the next number with zeros.
    pub before: usize,
    /// Where in the document's zeros the entries behind that number begin.
    pub entries: usize,
    /// How many zeros that number has; 0 where none with zeros is left.
    pub count: u8,
}

const NO_DOCUMENT_CURSOR: DocumentCursor = DocumentCursor {
    parts: NO_CURSOR,
    before: 0,
    entries: 0,
    count: 0,
};

/// Puts the cursor before all items or members of a document.
#[unsafe(no_mangle)]
pub extern "C" fn vizhoniku_document_begin(document: &[u8], cursor: &mut DocumentCursor) -> u32
    ensures status { (result ≡ ACCEPTED) ⊎ (result ≡ NO_PART) ⊎ (result ≡ NO_DOCUMENT) }

    // The cursor is before all parts of the value, and a scalar has none.
    ensures begun { (t : Tree) → IsTreeDocument document.now t → IsBegunBefore t (all_parts t) result cursor.new }
    ensures no_cursor { result ≢ ACCEPTED → cursor.new ≡ NO_DOCUMENT_CURSOR }
{
    match cursor_of(document) {
        Ok(Some(begun)) => {
            *cursor = begun;
            ACCEPTED
        }
        Ok(None) => {
            *cursor = NO_DOCUMENT_CURSOR;
            NO_PART
        }
        Err(_) => {
            *cursor = NO_DOCUMENT_CURSOR;
            NO_DOCUMENT
        }
    }
}

// The cursor before all parts of a document; `None` where its value has none.
fn cursor_of(document: &[u8]) -> Result<Option<DocumentCursor>, DocumentError>
    ensures begun { (t : Tree) → IsTreeDocument document.now t → MatchResult result
        (λ answer. MatchOption answer (all_parts t ≡ None) (λ cursor. IsBegunBefore t (all_parts t) ACCEPTED cursor))
        (λ e. ⊥) }
{
    let (key, _) = split_document(document);
    let Some((object, _)) = open_key(key)? else {
        return Ok(None);
    };
    let left = zeros_from(document, 1)?;
    let parts = Cursor {
        kind: kind_of_parts(object),
        offset: 1,
    };
    Ok(Some(cursor_at(parts, left)))
}

// The cursor with what is left of the zeros.
fn cursor_at(parts: Cursor, left: ZerosLeft) -> DocumentCursor
    ensures parts { result.parts ≡ parts }
    ensures left { parts.offset ≡ left.passed → zeros_left result ≡ left }
{
    DocumentCursor {
        parts,
        before: left.before,
        entries: left.entries,
        count: left.count,
    }
}

/// Writes the document of the item or the member's value at the cursor to the start of `out`, and its size to `size`,
/// says where in the document's key it is, and moves the cursor behind it. Where `out` is too short, it stays as it is,
/// and so does the cursor, and `size` is what is needed.
#[unsafe(no_mangle)]
pub extern "C" fn vizhoniku_document_next(
    alloc: Global,
    document: &[u8],
    cursor: &mut DocumentCursor,
    entry: &mut Entry,
    out: &mut [u8],
    size: &mut usize,
) -> u32
    ensures status { IsDocumentStatus result }

    // The document of the first part that is left is written, and the cursor is before the others; or none is left.
    ensures next { (t : Tree) → IsTreeDocument document.now t → (left : Open) → IsBefore t left cursor.old
        → (result ≡ OUT_OF_MEMORY) ⊎ WritesNext t left result size.new entry.new out.old out.new cursor.new }

    // Of any bytes and any cursor the ranges lie within the bytes, and the cursor moves only where a part is reported.
    ensures within { LiesWithin document.now entry.new }
    ensures still { result ≢ ACCEPTED → (cursor.new ≡ cursor.old) × (entry.new ≡ NO_ENTRY) }
    ensures further { result ≡ ACCEPTED → cursor.old.parts.offset < cursor.new.parts.offset }
    ensures preserves { PreservesBuffer result size.new out.old out.new }
{
    let mut bytes = Vec::new(alloc);
    *entry = NO_ENTRY;
    match append_next(&mut bytes, document, *cursor) {
        Ok(Some(reported)) => {
            *size = bytes.len();
            if put(&bytes, out) != ACCEPTED {
                return TOO_SHORT;
            }
            *entry = reported.0;
            *cursor = reported.1;
            ACCEPTED
        }
        Ok(None) => {
            *size = 0;
            NO_PART
        }
        Err(error) => {
            *size = 0;
            document_status(&error)
        }
    }
}

// Appends the document of the part at the cursor, and says where the part is, and what the cursor behind it is; `None`
// where no part is left.
fn append_next(
    out: &mut Vec<u8>,
    document: &[u8],
    cursor: DocumentCursor,
) -> Result<Option<(Entry, DocumentCursor)>, DocumentError>
    ensures next { (t : Tree) → IsTreeDocument document.now t → (left : Open) → IsBefore t left cursor
        → IfOk result (λ answer. MatchOption answer (first_part left ≡ None) (λ reported.
        (part : Tree) × IsReadable part × (first_part left ≡ Some part)
        × (out.new.items ≡ out.old.items ++ document_of part)
        × IsNextPart (key_of t) left ACCEPTED reported.0 reported.1.parts
        × IsBefore t (behind_first left) reported.1)) }
    ensures errors { (t : Tree) → IsTreeDocument document.now t → (left : Open) → IsBefore t left cursor
        → IfErr result (λ e. e ≡ DocumentError.OutOfMemory) }
    ensures within { IfOk result (λ answer. IfSome answer (λ reported. LiesWithin document.now reported.0)) }
    ensures further { IfOk result (λ answer. IfSome answer (λ reported.
        cursor.parts.offset < reported.1.parts.offset)) }
{
    let (key, _) = split_document(document);
    let Some((entry, parts)) = next_entry(key, cursor.parts)? else {
        return Ok(None);
    };
    let left = append_next_range(out, document, left_of(cursor), entry.offset, entry.size)?;
    Ok(Some((entry, cursor_at(parts, left))))
}

// What the cursor says is left of the zeros.
fn left_of(cursor: DocumentCursor) -> ZerosLeft
    ensures { result ≡ zeros_left cursor }
{
    ZerosLeft {
        passed: cursor.parts.offset,
        before: cursor.before,
        count: cursor.count,
        entries: cursor.entries,
    }
}
