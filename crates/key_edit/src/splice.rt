//! Bytes with others between them, at the end of a buffer.

ghost use Rattle.std.specs.Prelude.{◌++◌};
ghost use Rattle.jsonb_spec.specs.SortKey.{text_key};
ghost use Rattle.jsonb_spec.specs.Text.Appending.{Appends, AppendsAllOrNothing};

use jsonb_core::parts::append_text_key;
use std::alloc::AllocError;

/// Appends the bytes.
pub(crate) fn append(out: &mut Vec<u8>, bytes: &[u8]) -> Result<(), AllocError>
    ensures { AppendsAllOrNothing result out.old out.new bytes.now }
{
    out.extend_from_slice(bytes)
}

/// Appends both, one after the other, of which either may be empty.
#[inline(always)]
pub(crate) fn append_both(out: &mut Vec<u8>, first: &[u8], second: &[u8]) -> Result<(), AllocError>
    ensures appends { Appends result out.old out.new (first.now ++ second.now) }
{
    if !first.is_empty() {
        out.extend_from_slice(first)?;
    }
    if second.is_empty() {
        return Ok(());
    }
    out.extend_from_slice(second)
}

/// Appends the four, one after the other.
pub fn splice(
    out: &mut Vec<u8>,
    front: &[u8],
    first: &[u8],
    second: &[u8],
    behind: &[u8],
) -> Result<(), AllocError>
    ensures { AppendsAllOrNothing result out.old out.new (front.now ++ (first.now ++ (second.now ++ behind.now))) }
{
    let old_len = out.len();
    let parts = first.len().saturating_add(second.len());
    let depth_left = front
        .len()
        .saturating_add(parts)
        .saturating_add(behind.len());
    let _reserved = out.try_reserve(depth_left);
    if append_four(out, front, first, second, behind).is_err() {
        out.truncate(old_len);
        return Err(AllocError);
    }
    Ok(())
}

fn append_four(
    out: &mut Vec<u8>,
    front: &[u8],
    first: &[u8],
    second: &[u8],
    behind: &[u8],
) -> Result<(), AllocError>
    ensures appends { Appends result out.old out.new (front.now ++ (first.now ++ (second.now ++ behind.now))) }
{
    out.extend_from_slice(front)?;
    out.extend_from_slice(first)?;
    out.extend_from_slice(second)?;
    out.extend_from_slice(behind)
}

/// Appends a part with its name, and with what is in front of them and behind them.
pub(crate) fn splice_named(
    out: &mut Vec<u8>,
    front: &[u8],
    name: &str,
    part: &[u8],
    behind: &[u8],
) -> Result<(), AllocError>
    ensures { AppendsAllOrNothing result out.old out.new (front.now
        ++ (text_key name.now ++ (part.now ++ behind.now))) }
{
    let old_len = out.len();
    let depth_left = front
        .len()
        .saturating_add(part.len())
        .saturating_add(behind.len());
    let _reserved = out.try_reserve(depth_left.saturating_add(name.len()).saturating_add(2));
    if append_named(out, front, name, part, behind).is_err() {
        out.truncate(old_len);
        return Err(AllocError);
    }
    Ok(())
}

fn append_named(
    out: &mut Vec<u8>,
    front: &[u8],
    name: &str,
    part: &[u8],
    behind: &[u8],
) -> Result<(), AllocError>
    ensures appends { Appends result out.old out.new (front.now ++ (text_key name.now ++ (part.now ++ behind.now))) }
{
    out.extend_from_slice(front)?;
    append_text_key(name, out)?;
    out.extend_from_slice(part)?;
    out.extend_from_slice(behind)
}
