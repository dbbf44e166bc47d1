//! The text of a value from that with the fewest digits and the zeros.

ghost use Rattle.std.specs.Prelude.{◌≡◌, ◌≤◌, ◌++◌, ◌∷◌, [], IfOk, IfErr, OnErr, if◌then◌else◌};
ghost use Rattle.std.specs.Vec.{vec_capacity};
ghost use Rattle.jsonb_spec.specs.Ascii as ascii;
ghost use Rattle.jsonb_spec.specs.Text.{tree_text};
ghost use Rattle.jsonb_spec.specs.Text.Appending.{Appends};
ghost use Rattle.jsonb_spec.specs.Document.Counts.{ending_text};
ghost use Rattle.jsonb_spec.specs.SortKey.Text.{Preserves, LacksCapacity};
ghost use Rattle.key_zeros.specs.Appending.{AppendsOr};
ghost use Rattle.jsonb_spec.specs.Document.TextAndZeros.{OfTextAndZeros};

use crate::entry::next_entry;
use crate::error::ZerosError;
use crate::scan::after_numbers;
use key_walk::walk::front;
use std::alloc::AllocError;

// As many zeros as a number ends with at most.
static ZEROS: [u8; 255] = [b'0'; 255];

/// Appends the serialized form of a value, from the one with the fewest digits, as `write_text_of_key` of the crate
/// `key_text` writes it, and the zeros of the value: of each number that zeros end behind the point, in the order of
/// the text, how many numbers without any come before it since the last with some (seven bits in a byte, the lowest
/// first, and the highest bit where more follow), and how many zeros there are, in one byte. After an error `buf` has
/// the same bytes as before.
///
/// The time is linear in the text that is appended and the zeros. The only allocations are those of `buf`, and no
/// function calls itself.
///
/// Of other bytes it may be any bytes.
///
/// # Errors
///
/// `Invalid` only where the bytes aren't the serialized form of a value of JSON's kinds with at most 512 nested arrays
/// and objects, with the fewest digits, and the zeros of such a value; always where the zeros are of more numbers than
/// the text has. `OutOfMemory` where `buf` could not grow; of such bytes only where it lacks the capacity for the whole
/// text.
pub fn write_text_with_zeros(
    shortest: &[u8],
    zeros: &[u8],
    buf: &mut Vec<u8>,
) -> Result<(), ZerosError>
    ensures ok { IfOk result (λ _. OfTextAndZeros shortest.now zeros.now (λ t.
        buf.new.items ≡ buf.old.items ++ tree_text t)) }
    ensures err { OnErr result (buf.new.items ≡ buf.old.items) }
    ensures invalid { IfErr result (λ e. e ≡ ZerosError.Invalid → OfTextAndZeros shortest.now zeros.now (λ t. ⊥)) }
    ensures full { OnErr result (OfTextAndZeros shortest.now zeros.now (λ t. LacksCapacity buf.old (tree_text t))) }
    ensures capacity { vec_capacity buf.old ≤ vec_capacity buf.new }
{
    let old_len = buf.len();
    // Mostly a number has at most two zeros, and needs a point. Where there is no such space, each append asks for its
    // own.
    let space = shortest.len().saturating_add(zeros.len());
    let _reserved = buf.try_reserve(space.saturating_add(zeros.len()));
    match append_text(shortest, zeros, buf) {
        Ok(()) => Ok(()),
        Err(error) => {
            buf.truncate(old_len);
            Err(error)
        }
    }
}

// Appends the text with the zeros.
fn append_text(shortest: &[u8], zeros: &[u8], buf: &mut Vec<u8>) -> Result<(), ZerosError>
    ensures found { OfTextAndZeros shortest.now zeros.now (λ t.
        AppendsOr ZerosError.OutOfMemory result buf.old buf.new (tree_text t)) }
    ensures preserves { Preserves buf.old buf.new }
{
    let mut text = shortest;
    let mut left = zeros;
    'entries: while !left.is_empty() {
        let Some((before, count, others)) = next_entry(left) else {
            return Err(ZerosError::Invalid);
        };
        let Some((pointed, behind)) = after_numbers(before, text) else {
            return Err(ZerosError::Invalid);
        };
        append_number(front(text, behind), pointed, count, buf)?;
        text = behind;
        left = others;
    }
    buf.extend_from_slice(text)?;
    Ok(())
}

// Appends a text that a number ends, with so many zeros behind its point.
fn append_number(text: &[u8], pointed: bool, count: u8, buf: &mut Vec<u8>) -> Result<(), AllocError>
    ensures { Appends result buf.old buf.new (text.now ++ ending_text pointed count) }
{
    buf.extend_from_slice(text)?;
    append_ending(pointed, count, buf)
}

/// Appends so many zeros behind a number, and a point before them where it has none.
pub fn append_ending(pointed: bool, count: u8, buf: &mut Vec<u8>) -> Result<(), AllocError>
    ensures { Appends result buf.old buf.new (ending_text pointed count) }
{
    append_point(pointed, buf)?;
    buf.extend_from_slice(&ZEROS[..usize::from(count)])
}

// Appends a point behind a number that has none.
fn append_point(pointed: bool, buf: &mut Vec<u8>) -> Result<(), AllocError>
    ensures { Appends result buf.old buf.new (if pointed then [] else ascii.point ∷ []) }
{
    if pointed {
        return Ok(());
    }
    buf.extend_from_slice(b".")
}
