//! Texts from documents.

ghost use Rattle.std.specs.Prelude.{◌≡◌, IfErr, OnErr, OnOk};
ghost use Rattle.jsonb_spec.specs.Text.{AppendsText, tree_text};
ghost use Rattle.jsonb_spec.specs.SortKey.Text.{LacksCapacity};
ghost use Rattle.jsonb_spec.specs.Document.PartAt.{PreservesOnError};
ghost use Rattle.jsonb_spec.specs.Document.{OfDocument};

use crate::document::split_document;
use crate::due::zeros_due;
use crate::error::DocumentError;
use key_text::{write_text_of_key, write_text_with};

/// Appends the serialized form of the document's value. Each number has all its digits: for the document of `1.50` it
/// is `1.50`.
///
/// The time is linear in the document and the text. The only allocations are those of `out`. Of other bytes it may
/// append any bytes.
///
/// # Errors
///
/// `NoDocument` only where the bytes are no document, and `OutOfMemory` where memory runs out; of a document only where
/// the buffer lacks the capacity for the whole text. After an error the buffer is as before.
pub fn append_text_of_document(out: &mut Vec<u8>, document: &[u8]) -> Result<(), DocumentError>
    ensures text { OnOk result (OfDocument document.now (λ t. AppendsText t out.old.items out.new.items)) }
    // A document fails only where memory runs out, as the capacity for the whole text is missing.
    ensures errors { IfErr result (λ e. OfDocument document.now (λ t. e ≡ DocumentError.OutOfMemory)) }
    ensures full { OnErr result (OfDocument document.now (λ t. LacksCapacity out.old (tree_text t))) }
    ensures preserves { PreservesOnError result out.old out.new }
{
    let (key, zeros) = split_document(document);
    if zeros.is_empty() {
        write_text_of_key(key, out)?;
        return Ok(());
    }
    let mut due = zeros_due(key.len(), zeros)?;
    write_text_with(key, &mut due, out)?;
    Ok(())
}
