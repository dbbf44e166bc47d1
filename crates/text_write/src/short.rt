//! The first bytes of a text at the end of a buffer.
ghost use Rattle.std.specs.Prelude.{◌≡◌, ◌+◌, ◌≤◌, ◌++◌, length, take, OnOk};
ghost use Rattle.jsonb_spec.specs.Text.Appending.{Extends};

use std::alloc::AllocError;

// Appends the first bytes. More are copied where there are so many and there is space, since a copy of a fixed length
// takes no call.
#[inline(always)]
pub(crate) fn append_first(bytes: &[u8], count: usize, out: &mut Vec<u8>) -> Result<(), AllocError>
    requires { count ≤ length bytes.now }
    ensures bytes { OnOk result (out.new.items ≡ out.old.items ++ take count bytes.now) }
    ensures retained { Extends out.old.items out.new.items }
{
    if count <= 32 && out.capacity() - out.len() >= 32 {
        if let Some(chunk) = bytes.first_chunk::<32>() {
            return append_part(*chunk, count, out);
        }
    }
    append_more(bytes, count, out)
}

// Appends all bytes of a row, and takes back those behind the first ones. By its value the row is known not to be in the
// buffer, so that no copy asks for it.
#[inline(always)]
pub(crate) fn append_part<const N: usize>(
    row: [u8; N],
    count: usize,
    out: &mut Vec<u8>,
) -> Result<(), AllocError>
    requires { count ≤ N }
    ensures bytes { OnOk result (out.new.items ≡ out.old.items ++ take count row.entry) }
    ensures retained { Extends out.old.items out.new.items }
{
    let len = out.len();
    out.extend_from_slice(&row)?;
    out.truncate(len + count);
    Ok(())
}

// Appends the first bytes where they are many, or near the end of the text.
#[inline(never)]
fn append_more(bytes: &[u8], count: usize, out: &mut Vec<u8>) -> Result<(), AllocError>
    requires { count ≤ length bytes.now }
    ensures bytes { OnOk result (out.new.items ≡ out.old.items ++ take count bytes.now) }
    ensures retained { Extends out.old.items out.new.items }
{
    if count <= 64 {
        if let Some(chunk) = bytes.first_chunk::<64>() {
            return append_part(*chunk, count, out);
        }
    }
    out.extend_from_slice(&bytes[..count])
}
