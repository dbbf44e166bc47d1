//! The contents of a string with escapes in a sort key. They are decoded where they are written.
ghost use Rattle.std.specs.Prelude.{◌≡◌, ◌≤◌, ◌++◌, drop, length, take, OnOk};
ghost use Rattle.jsonb_spec.specs.SortKey.{text_key};
ghost use Rattle.jsonb_spec.specs.Text.Appending.{Extends};
ghost use Rattle.text_scan.specs.Answer.{mode_of};
ghost use Rattle.jsonb_spec.specs.Parsing.Decoding.{AreContents};
ghost use Rattle.jsonb_spec.specs.Parsing.Contents.{decoded_text};

use crate::escaped::append_decoded;
use crate::key_text::append_end;
use jsonb_core::parts::append_bytes_key;
use memchr::memchr;
use std::alloc::AllocError;
use text_scan::parser::Mode;

// Writes a text, from an index of the buffer on, as a sort key has it: with a byte more behind each zero. Another
// buffer holds the text meanwhile.
#[cold]
#[inline(never)]
fn double_zeros(from: usize, out: &mut Vec<u8>, spare: &mut Vec<u8>) -> Result<(), AllocError>
    requires { from ≤ length out.old.items }
    ensures bytes { OnOk result (out.new.items ≡ take from out.old.items ++ text_key (drop from out.old.items)) }
    ensures retained { Extends (take from out.old.items) out.new.items }
    ensures spare { OnOk result (spare.new.items ≡ spare.old.items) }
{
    let start = spare.len();
    spare.extend_from_slice(&out[from..])?;
    out.truncate(from);
    append_bytes_key(&spare[start..], out)?;
    spare.truncate(start);
    Ok(())
}

// Ends a text that is in the buffer from an index on. Hardly any has a zero.
#[inline(always)]
fn close_text(from: usize, out: &mut Vec<u8>, spare: &mut Vec<u8>) -> Result<(), AllocError>
    requires { from ≤ length out.old.items }
    ensures bytes { OnOk result (out.new.items ≡ take from out.old.items ++ text_key (drop from out.old.items)) }
    ensures retained { Extends (take from out.old.items) out.new.items }
    ensures spare { OnOk result (spare.new.items ≡ spare.old.items) }
{
    let None = memchr(0, &out[from..]) else {
        return double_zeros(from, out, spare);
    };
    append_end(out)
}

// Appends the contents of a string, and what ends a text.
#[inline(never)]
pub(crate) fn append_contents_key(
    body: &[u8],
    mode: Mode,
    out: &mut Vec<u8>,
    spare: &mut Vec<u8>,
) -> Result<(), AllocError>
    ensures bytes { OnOk result (AreContents (mode_of mode) body.now
        → out.new.items ≡ out.old.items ++ text_key (decoded_text (mode_of mode) body.now)) }
    ensures retained { Extends out.old.items out.new.items }
    ensures spare { OnOk result (spare.new.items ≡ spare.old.items) }
{
    let from = out.len();
    append_decoded(body, mode, out)?;
    close_text(from, out, spare)
}
