//! The contents of a string with escapes, which are decoded where they are written.
ghost use Rattle.std.specs.Prelude.{◌≡◌, ◌≤◌, ◌++◌, drop, length, take, OnOk};
ghost use Rattle.std.specs.List.{flat_map};
ghost use Rattle.jsonb_spec.specs.Text.Appending.{Extends};
ghost use Rattle.jsonb_spec.specs.Text.StringText.{byte_text};
ghost use Rattle.text_scan.specs.Answer.{mode_of};
ghost use Rattle.jsonb_spec.specs.Parsing.Decoding.{AreContents};
ghost use Rattle.jsonb_spec.specs.Parsing.Contents.{decoded_text};

use jsonb_core::parts;
use jsonb_core::plain::is_plain;
use std::alloc::AllocError;
use text_scan::parser::Mode;
use text_scan::util::decode_behind;

// Appends what contents mean.
#[inline(always)]
pub(crate) fn append_decoded(body: &[u8], mode: Mode, out: &mut Vec<u8>) -> Result<(), AllocError>
    ensures bytes { OnOk result (AreContents (mode_of mode) body.now
        → out.new.items ≡ out.old.items ++ decoded_text (mode_of mode) body.now) }
    ensures retained { Extends out.old.items out.new.items }
{
    let len = out.len();
    out.extend_from_slice(body)?;
    let Some(end) = decode_behind(body, mode, out, len) else {
        out.truncate(len);
        return Ok(());
    };
    out.truncate(end);
    Ok(())
}

// Writes what is in the buffer from an index on with the escapes that a text needs.
#[cold]
#[inline(never)]
fn escape_again(from: usize, out: &mut Vec<u8>) -> Result<(), AllocError>
    requires { from ≤ length out.old.items }
    ensures bytes { OnOk result (out.new.items ≡ take from out.old.items ++ flat_map byte_text (drop from out.old.items)) }
    ensures retained { Extends (take from out.old.items) out.new.items }
{
    let mut decoded = Vec::new(*out.allocator());
    decoded.extend_from_slice(&out[from..])?;
    out.truncate(from);
    parts::append_contents(&decoded, out)
}

// Appends the contents of a string as they are written. Mostly no escape is left where they are decoded.
#[inline(always)]
pub(crate) fn append_contents(body: &[u8], mode: Mode, out: &mut Vec<u8>) -> Result<(), AllocError>
    ensures bytes { OnOk result (AreContents (mode_of mode) body.now
        → out.new.items ≡ out.old.items ++ flat_map byte_text (decoded_text (mode_of mode) body.now)) }
    ensures retained { Extends out.old.items out.new.items }
{
    let from = out.len();
    append_decoded(body, mode, out)?;
    if is_plain(&out[from..], out.len() - from) {
        return Ok(());
    }
    escape_again(from, out)
}
