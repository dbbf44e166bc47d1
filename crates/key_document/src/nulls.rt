//! Nulls left out.

ghost use Rattle.std.specs.Prelude.{◌≡◌, ◌==◌, ◌&&◌, ◌||◌};
ghost use Rattle.jsonb_spec.specs.SortKey.Kind as kind;
ghost use Rattle.jsonb_spec.specs.SortKey.AtKeys.{OfKey};
ghost use Rattle.jsonb_spec.specs.SortKey.Open.{Open, is_object, open_key, opening_byte, IsOpen};
ghost use Rattle.jsonb_spec.specs.SortKey.Parts.{opened_tree};
ghost use Rattle.key_document.specs.Changes.{AppendsDocument};
ghost use Rattle.jsonb_spec.specs.Document.PartAt.{PreservesOnError};
ghost use Rattle.jsonb_spec.specs.Document.{behind_key, zeros_at, OfDocument};
ghost use Rattle.jsonb_spec.specs.Edit.LeftOut.{without_nulls};
ghost use Rattle.key_document.specs.Retaining.{AreAhead, IsBegun, WritesAll};
ghost use Rattle.key_document.specs.Splices.{AppendsZeros};
ghost use Rattle.jsonb_spec.specs.Document.Counts.{counts_at, counts_open};
ghost use Rattle.jsonb_spec.specs.SortKey.Text.{Preserves};

use crate::document::{end_zeros, split_document};
use crate::error::DocumentError;
use crate::retain::{Output, Retaining, pass_bytes, write_rest};
use crate::zeros::all_left;
use jsonb_core::sort_key::kind;
use key_walk::skip::opening;
use key_walk::steps::{Step, Steps};

/// Appends the document of the value without its members that are null, at all depths, and without the items that are
/// null where `in_arrays` is true. A null that is the whole value stays, and so does an object or an array of which
/// nothing is left. Each number holds all its digits. Where there is no such null, the same document is appended again.
///
/// The time is linear. Nothing is allocated but for `out`, and no function calls itself. Where the document has zeros,
/// it is walked a second time.
///
/// # Errors
///
/// `NoDocument` only where the bytes are no document, and `OutOfMemory` only where the buffer lacks the capacity for
/// the whole document. After an error the buffer is as before.
pub fn append_without_nulls(
    out: &mut Vec<u8>,
    document: &[u8],
    in_arrays: bool,
) -> Result<(), DocumentError>
    ensures appends { OfDocument document.now (λ t.
        AppendsDocument (without_nulls in_arrays t) result out.old out.new) }
    ensures preserves { PreservesOnError result out.old out.new }
{
    let (key, zeros) = split_document(document);
    let start = out.len();
    match write_document(out, key, zeros, in_arrays) {
        Ok(()) => Ok(()),
        Err(error) => {
            out.truncate(start);
            Err(error)
        }
    }
}

// Appends the key of what stays, and what follows it.
fn write_document(
    out: &mut Vec<u8>,
    key: &[u8],
    zeros: &[u8],
    in_arrays: bool,
) -> Result<(), DocumentError>
    ensures appends { OfKey key.now (λ t. zeros.now ≡ zeros_at t
        → AppendsDocument (without_nulls in_arrays t) result out.old out.new) }
    ensures preserves { Preserves out.old out.new }
{
    write_value(key, in_arrays, Output::Bytes, out)?;
    write_tail(out, key, zeros, in_arrays)
}

// Appends what follows the key: the zeros, and their end.
fn write_tail(
    out: &mut Vec<u8>,
    key: &[u8],
    zeros: &[u8],
    in_arrays: bool,
) -> Result<(), DocumentError>
    ensures written { OfKey key.now (λ t. zeros.now ≡ zeros_at t
        → AppendsZeros result out.old out.new (behind_key (zeros_at (without_nulls in_arrays t)))) }
    ensures preserves { Preserves out.old out.new }
{
    if zeros.is_empty() {
        return Ok(());
    }
    let start = out.len();
    let all = all_left(zeros)?;
    write_value(key, in_arrays, Output::Zeros(0, all), out)?;
    end_zeros(start, out)?;
    Ok(())
}

// Writes what stays of the value of this key.
fn write_value(
    key: &[u8],
    in_arrays: bool,
    output: Output<'_>,
    out: &mut Vec<u8>,
) -> Result<(), DocumentError>
    ensures written { OfKey key.now (λ t. AreAhead output.entry (counts_at t)
        → WritesAll output.entry (without_nulls in_arrays t) result out.old out.new) }
    ensures preserves { Preserves out.old out.new }
{
    let Some((first, parts)) = key.split_first() else {
        return Err(DocumentError::NoDocument);
    };
    let begun = Retaining {
        output,
        pending: key,
        found: false,
    };
    match opening(*first) {
        Some(object) => write_parts(object, parts, in_arrays, &begun, out),
        None => write_rest(&begun, out),
    }
}

// Writes what stays of an array or an object, from the parts on, which the bytes are.
fn write_parts(
    object: bool,
    bytes: &[u8],
    in_arrays: bool,
    begun: &Retaining<'_, '_>,
    out: &mut Vec<u8>,
) -> Result<(), DocumentError>
    ensures written { (o : Open) → is_object o ≡ object → IsOpen o 511 → bytes.now ≡ open_key o
        → IsBegun (opening_byte object) begun.now bytes.now (counts_open o)
        → WritesAll begun.now.output (without_nulls in_arrays (opened_tree o)) result out.old out.new }
    ensures preserves { Preserves out.old out.new }
{
    let mut steps = Steps::over(object, bytes);
    let mut retaining = *begun;
    'steps: while let Some(step) = steps.next()? {
        if let Step::Scalar(scalar) = step {
            let goes = is_left_out(scalar.first, scalar.is_member, in_arrays);
            retaining = pass_bytes(&retaining, goes, scalar.part, scalar.after, out)?;
        }
    }
    write_rest(&retaining, out)
}

// Whether a part goes whose key begins with this byte.
fn is_left_out(first: u8, inside_object: bool, in_arrays: bool) -> bool
    ensures { result ≡ ((first == kind.null) && (inside_object || in_arrays)) }
{
    if first != kind::NULL {
        return false;
    }
    inside_object || in_arrays
}
