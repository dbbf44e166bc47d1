//! A string's text.
ghost use Rattle.std.specs.List.{flat_map};
ghost use Rattle.std.specs.Str.{IsUtf8};
ghost use Rattle.jsonb_spec.specs.Text.Appending.{Appends};
ghost use Rattle.jsonb_spec.specs.Text.StringText.{byte_text, quoted_text};

use crate::plain::{append_byte, run_len};
use std::alloc::AllocError;

// The result of a function that appends. After an error the buffer may hold a part of the text.
type Appended = Result<(), AllocError>;

// Appends a string or a key in double quotes.
pub(crate) fn append_string(text: &str, buf: &mut Vec<u8>) -> Appended
    ensures appends { Appends result buf.old buf.new (quoted_text text.now) }
    ensures utf8 { IsUtf8 text.now }
{
    buf.extend_from_slice(b"\"")?;
    append_contents(text.as_bytes(), buf)?;
    buf.extend_from_slice(b"\"")
}

// Appends a string's bytes, which mostly need no escape.
#[inline(always)]
pub(crate) fn append_contents(bytes: &[u8], buf: &mut Vec<u8>) -> Appended
    ensures appends { Appends result buf.old buf.new (flat_map byte_text bytes.now) }
{
    if run_len(bytes) < bytes.len() {
        return append_runs(bytes, buf);
    }
    buf.extend_from_slice(bytes)
}

// Appends a string's bytes with their escapes. Runs between escapes are copied whole.
#[inline(never)]
fn append_runs(bytes: &[u8], buf: &mut Vec<u8>) -> Appended
    ensures appends { Appends result buf.old buf.new (flat_map byte_text bytes.now) }
{
    let mut rest = bytes;
    'runs: loop {
        let (run, others) = rest.split_at(run_len(rest));
        buf.extend_from_slice(run)?;
        let Some((byte, more)) = others.split_first() else {
            return Ok(());
        };
        append_byte(*byte, buf)?;
        rest = more;
    }
}
