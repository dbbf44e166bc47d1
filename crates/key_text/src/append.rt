//! Bytes at the end of a buffer.
ghost use Rattle.std.specs.Prelude.{◌≤◌, ◌∷◌, [], length, take};
ghost use Rattle.jsonb_spec.specs.Text.Appending.{Appends};
ghost use Rattle.key_text.specs.Writes.{AppendsOrNot};

use std::alloc::AllocError;

// Appends the first bytes. More are copied where there are so many and there is space, since a copy of a fixed length
// takes no call.
#[inline(always)]
pub(crate) fn append_first(bytes: &[u8], count: usize, buf: &mut Vec<u8>) -> Result<(), AllocError>
    requires { count ≤ length bytes.now }
    ensures { Appends result buf.old buf.new (take count bytes.now) }
{
    if count <= 32 && buf.capacity() - buf.len() >= 32 {
        if let Some(chunk) = bytes.first_chunk::<32>() {
            return append_chunk(chunk, count, buf);
        }
    }
    buf.extend_from_slice(&bytes[..count])
}

// Appends the first of these bytes: all of them, where there is space, without those behind the first ones.
#[inline(always)]
pub(crate) fn append_chunk(bytes: &[u8], count: usize, buf: &mut Vec<u8>) -> Result<(), AllocError>
    requires { count ≤ length bytes.now }
    ensures { Appends result buf.old buf.new (take count bytes.now) }
{
    let len = buf.len();
    if buf.capacity() - len >= bytes.len() {
        buf.extend_from_slice(bytes)?;
        buf.truncate(len + count);
        return Ok(());
    }
    append_alone(bytes, count, buf)
}

// Appends the first bytes alone. In a function of its own, which is seldom called.
#[cold]
#[inline(never)]
fn append_alone(bytes: &[u8], count: usize, buf: &mut Vec<u8>) -> Result<(), AllocError>
    requires { count ≤ length bytes.now }
    ensures { Appends result buf.old buf.new (take count bytes.now) }
{
    buf.extend_from_slice(&bytes[..count])
}

// Appends a byte.
#[inline(always)]
pub(crate) fn append_one(byte: u8, buf: &mut Vec<u8>) -> Result<(), AllocError>
    ensures { Appends result buf.old buf.new (byte ∷ []) }
{
    if buf.push(byte).is_err() {
        return Err(AllocError);
    }
    Ok(())
}

// Appends the first of these bytes where there is space for all of them, and returns whether there is.
#[inline(always)]
pub(crate) fn append_within(bytes: &[u8], count: usize, buf: &mut Vec<u8>) -> bool
    requires { count ≤ length bytes.now }
    ensures { AppendsOrNot result buf.old buf.new (take count bytes.now) }
{
    let len = buf.len();
    if buf.capacity() - len < bytes.len() {
        return false;
    }
    if buf.extend_from_slice(bytes).is_err() {
        return false;
    }
    buf.truncate(len + count);
    true
}
