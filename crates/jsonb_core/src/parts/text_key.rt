//! The bytes of a text in a sort key.
ghost use Rattle.std.specs.Prelude.{◌≡◌, ◌≤◌, length, take, IsTrue};
ghost use Rattle.std.specs.List.{flat_map};
ghost use Rattle.jsonb_spec.specs.SortKey.{byte_key, text_key};
ghost use Rattle.jsonb_spec.specs.Text.Appending.{Appends};

use crate::plain::run_len;
use crate::sort_key::kind;
use memchr::memchr;
use std::alloc::AllocError;

// The result of a function that appends. After an error the buffer may hold a part of the key.
type Appended = Result<(), AllocError>;

// Appends a text and what closes it.
pub(crate) fn append_closed(bytes: &[u8], buf: &mut Vec<u8>) -> Appended
    ensures appends { Appends result buf.old buf.new (text_key bytes.now) }
{
    append_escaped(bytes, buf)?;
    buf.extend_from_slice(&[kind::TERMINATOR, kind::TEXT_END])
}

// Appends a text's bytes. Most texts have no byte that their JSON text escapes, and so no zero.
#[inline(always)]
fn append_escaped(bytes: &[u8], buf: &mut Vec<u8>) -> Appended
    ensures appends { Appends result buf.old buf.new (flat_map byte_key bytes.now) }
{
    if !is_plain(bytes) {
        return append_runs(bytes, buf);
    }
    buf.extend_from_slice(bytes)
}

// Whether a JSON text has all bytes as they are. There is no zero among them then.
#[inline(always)]
fn is_plain(bytes: &[u8]) -> bool
    ensures { IsTrue result → flat_map byte_key bytes.now ≡ bytes.now }
{
    run_len(bytes) == bytes.len()
}

// Appends the key of a text's bytes with zeros. Runs between zeros are copied whole.
#[inline(never)]
fn append_runs(bytes: &[u8], buf: &mut Vec<u8>) -> Appended
    ensures appends { Appends result buf.old buf.new (flat_map byte_key bytes.now) }
{
    let mut rest = bytes;
    'runs: loop {
        let (run, others) = rest.split_at(first_zero(rest));
        buf.extend_from_slice(run)?;
        let Some((byte, more)) = others.split_first() else {
            return Ok(());
        };
        append_byte(*byte, buf)?;
        rest = more;
    }
}

// The index of the first zero, or the number of bytes.
fn first_zero(bytes: &[u8]) -> usize
    ensures within { result ≤ length bytes.now }
    ensures plain { flat_map byte_key (take result bytes.now) ≡ take result bytes.now }
{
    memchr(0, bytes).unwrap_or(bytes.len())
}

fn append_byte(byte: u8, buf: &mut Vec<u8>) -> Appended
    ensures appends { Appends result buf.old buf.new (byte_key byte) }
{
    if byte == 0 {
        buf.extend_from_slice(&[0, kind::ESCAPED])
    } else {
        buf.extend_from_slice(&[byte])
    }
}
