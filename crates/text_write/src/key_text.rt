//! Texts of a sort key at the end of a buffer: their bytes, and their end.
ghost use Rattle.std.specs.Prelude.{◌≡◌, ◌<◌, ◌≤◌, ◌++◌, ◌∷◌, [], length, drop, take, OnOk};
ghost use Rattle.jsonb_spec.specs.SortKey.Kind as kind;
ghost use Rattle.jsonb_spec.specs.Text.Appending.{Extends};

use crate::short::{append_first, append_part};
use jsonb_core::sort_key::kind;
use std::alloc::AllocError;

// Appends the first bytes of a row, and the end of a text.
#[inline(always)]
fn append_row(row: [u8; 32], count: usize, out: &mut Vec<u8>) -> Result<(), AllocError>
    requires { count ≤ 30 }
    ensures bytes { OnOk result (out.new.items
        ≡ out.old.items ++ (take count row ++ kind.terminator ∷ kind.text_end ∷ [])) }
    ensures retained { Extends out.old.items out.new.items }
{
    let mut whole = row;
    whole[count] = kind::TERMINATOR;
    whole[count + 1] = kind::TEXT_END;
    append_part(whole, count + 2, out)
}

// Appends the end of a text.
#[inline(always)]
pub(crate) fn append_end(out: &mut Vec<u8>) -> Result<(), AllocError>
    ensures bytes { OnOk result (out.new.items ≡ out.old.items ++ kind.terminator ∷ kind.text_end ∷ []) }
    ensures retained { Extends out.old.items out.new.items }
{
    out.extend_from_slice(&[kind::TERMINATOR, kind::TEXT_END])
}

// Appends few bytes, and the end of a text.
#[inline(always)]
fn append_short(bytes: &[u8], out: &mut Vec<u8>) -> Result<(), AllocError>
    ensures bytes { OnOk result (out.new.items
        ≡ out.old.items ++ (bytes.now ++ kind.terminator ∷ kind.text_end ∷ [])) }
    ensures retained { Extends out.old.items out.new.items }
{
    out.extend_from_slice(bytes)?;
    append_end(out)
}

// Appends the first bytes, and the end of a text, where they are many, or near the end of the text.
#[inline(never)]
fn append_long(bytes: &[u8], count: usize, out: &mut Vec<u8>) -> Result<(), AllocError>
    requires { count ≤ length bytes.now }
    ensures bytes { OnOk result (out.new.items
        ≡ out.old.items ++ (take count bytes.now ++ kind.terminator ∷ kind.text_end ∷ [])) }
    ensures retained { Extends out.old.items out.new.items }
{
    if count < 16 {
        return append_short(&bytes[..count], out);
    }
    append_first(bytes, count, out)?;
    append_end(out)
}

// Appends the first bytes, and the end of a text. More are copied where there are so many, since a copy of a fixed
// length takes no call.
#[inline(always)]
pub(crate) fn append_key_text(
    bytes: &[u8],
    count: usize,
    out: &mut Vec<u8>,
) -> Result<(), AllocError>
    requires { count ≤ length bytes.now }
    ensures bytes { OnOk result (out.new.items
        ≡ out.old.items ++ (take count bytes.now ++ kind.terminator ∷ kind.text_end ∷ [])) }
    ensures retained { Extends out.old.items out.new.items }
{
    if count <= 30 {
        if let Some(chunk) = bytes.first_chunk::<32>() {
            return append_row(*chunk, count, out);
        }
    }
    append_long(bytes, count, out)
}

// Appends the first bytes so, with another instead of the first one.
#[inline(always)]
pub(crate) fn append_with_kind(
    first: u8,
    bytes: &[u8],
    count: usize,
    out: &mut Vec<u8>,
) -> Result<(), AllocError>
    requires some { 0 < count }
    requires inside { count ≤ length bytes.now }
    ensures bytes { OnOk result (out.new.items
        ≡ out.old.items ++ (first ∷ drop 1 (take count bytes.now) ++ kind.terminator ∷ kind.text_end ∷ [])) }
    ensures retained { Extends out.old.items out.new.items }
{
    if count <= 30 {
        if let Some(chunk) = bytes.first_chunk::<32>() {
            let mut row = *chunk;
            row[0] = first;
            return append_row(row, count, out);
        }
    }
    out.extend_from_slice(&[first])?;
    append_long(&bytes[1..], count - 1, out)
}
