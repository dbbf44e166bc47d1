//! The keys of strings and names, from serialized forms.

ghost use Rattle.std.specs.Prelude.{◌≡◌, ◌<◌, ◌≤◌, ◌++◌, ◌∷◌, ◌+◌, ◌*◌, [], List, ℕ, length, take, IfOk, IfSome, MatchOption, if◌then◌else◌, Bool};
ghost use Rattle.std.specs.List.{flat_map};
ghost use Rattle.jsonb_spec.specs.Ascii as ascii;
ghost use Rattle.jsonb_spec.specs.SortKey.{byte_key, text_key};
ghost use Rattle.jsonb_spec.specs.SortKey.Kind as kind;
ghost use Rattle.jsonb_spec.specs.Text.Appending.{Appends};
ghost use Rattle.jsonb_spec.specs.Text.StringText.{byte_text};
ghost use Rattle.key_document.specs.FromText.{WritesPart, is_name, string_key};
ghost use Rattle.jsonb_spec.specs.SortKey.Text.{Preserves};

use super::item::{is_name, read_item};
use crate::error::DocumentError;
use jsonb_core::plain::plain_len;
use jsonb_core::sort_key::kind;
use std::alloc::AllocError;

/// Appends the key of the string inside of which the bytes begin, or of the name where a colon is behind it. The bytes
/// behind it are left.
#[inline(always)]
pub(crate) fn append_string<'t>(
    bytes: &'t [u8],
    out: &mut Vec<u8>,
) -> Result<&'t [u8], DocumentError>
    ensures found { (text more : List ℕ) → bytes.now ≡ flat_map byte_text text ++ ascii.quote ∷ more
        → WritesPart (λ rest. rest.now ≡ more) result out.old out.new (string_key more text) }
    ensures shorter { IfOk result (λ rest. length rest.now < length bytes.now) }
    ensures preserves { Preserves out.old out.new }
{
    let size = plain_len(bytes);
    let (_, others) = bytes.split_at(size);
    if let Some((last, behind)) = others.split_first() {
        if *last == b'"' {
            append_kind(is_name(behind), out)?;
            append_first(bytes, size, out)?;
            out.extend_from_slice(&[kind::TERMINATOR, kind::TEXT_END])?;
            return Ok(behind);
        }
    }
    append_escaped(bytes, out)
}

// Appends the first bytes. Where they are few, and there is space, sixteen are copied, since a copy of a fixed length
// takes no call.
#[inline(always)]
fn append_first(bytes: &[u8], count: usize, out: &mut Vec<u8>) -> Result<(), AllocError>
    requires { count ≤ length bytes.now }
    ensures { Appends result out.old out.new (take count bytes.now) }
{
    let len = out.len();
    if count <= 16 && out.capacity() - len >= 16 {
        if let Some(chunk) = bytes.first_chunk::<16>() {
            out.extend_from_slice(chunk)?;
            out.truncate(len + count);
            return Ok(());
        }
    }
    out.extend_from_slice(&bytes[..count])
}

// Appends the kind of a string, which a name has none of.
#[inline(always)]
fn append_kind(name: bool, out: &mut Vec<u8>) -> Result<(), AllocError>
    ensures { Appends result out.old out.new (if name then [] else kind.string ∷ []) }
{
    if name {
        return Ok(());
    }
    out.extend_from_slice(&[kind::STRING])
}

// Does so where there are escapes.
#[cold]
#[inline(never)]
fn append_escaped<'t>(bytes: &'t [u8], out: &mut Vec<u8>) -> Result<&'t [u8], DocumentError>
    ensures found { (text more : List ℕ) → bytes.now ≡ flat_map byte_text text ++ ascii.quote ∷ more
        → WritesPart (λ rest. rest.now ≡ more) result out.old out.new (string_key more text) }
    ensures shorter { IfOk result (λ rest. length rest.now < length bytes.now) }
    ensures preserves { Preserves out.old out.new }
{
    let Some((_, behind)) = key_size(bytes) else {
        return Err(DocumentError::NoDocument);
    };
    append_kind(is_name(behind), out)?;
    append_contents(bytes, out)?;
    Ok(behind)
}

/// How many bytes the key of the string has inside of which the bytes begin, or of the name; and the bytes behind it.
#[inline(always)]
pub(crate) fn string_size(bytes: &[u8]) -> Option<(usize, &[u8])>
    ensures found { (text more : List ℕ) → bytes.now ≡ flat_map byte_text text ++ ascii.quote ∷ more
        → MatchOption result ⊥ (λ r. (r.0 ≡ length (string_key more text)) × (r.1.now ≡ more)) }
    ensures shorter { IfSome result (λ r. length r.1.now < length bytes.now) }
{
    let size = plain_len(bytes);
    let (_, others) = bytes.split_at(size);
    if let Some((last, behind)) = others.split_first() {
        if *last == b'"' {
            return Some((size + frame_size(behind), behind));
        }
    }
    let Some((contents, rest)) = key_size(bytes) else {
        return None;
    };
    Some((contents + frame_size(rest), rest))
}

// How many bytes kind and end take in the key of a string, behind which these bytes come.
#[inline(always)]
fn frame_size(behind: &[u8]) -> usize
    ensures exact { result ≡ length (if is_name behind.now then [] else kind.string ∷ []) + 2 }
    ensures few { result ≤ 3 }
{
    if is_name(behind) { 2 } else { 3 }
}

// How many bytes the key of the string has inside of which the bytes begin, without kind and end; and the bytes behind
// the string.
fn key_size(bytes: &[u8]) -> Option<(usize, &[u8])>
    ensures found { (text more : List ℕ) → bytes.now ≡ flat_map byte_text text ++ ascii.quote ∷ more
        → MatchOption result ⊥ (λ r. (r.0 ≡ length (flat_map byte_key text)) × (r.1.now ≡ more)) }
    ensures shorter { IfSome result (λ r. length r.1.now < length bytes.now) }
    ensures small { IfSome result (λ r. r.0 + 2 ≤ 2 * length bytes.now) }
{
    let mut size: usize = 0;
    let mut rest = bytes;
    'items: loop {
        let (run, others) = rest.split_at(plain_len(rest));
        size += run.len();
        let Some((byte, behind)) = others.split_first() else {
            return None;
        };
        if *byte == b'"' {
            return Some((size, behind));
        }
        let Some((byte, behind)) = read_item(others) else {
            return None;
        };
        size += byte_size(byte);
        rest = behind;
    }
}

// How many bytes a byte of a text takes in its key.
fn byte_size(byte: u8) -> usize
    ensures exact { result ≡ length (byte_key byte) }
    ensures few { result ≤ 2 }
{
    if byte == 0 { 2 } else { 1 }
}

// Appends the key of the string inside of which the bytes begin, without its kind.
fn append_contents(bytes: &[u8], out: &mut Vec<u8>) -> Result<(), DocumentError>
    ensures found { (text more : List ℕ) → bytes.now ≡ flat_map byte_text text ++ ascii.quote ∷ more
        → WritesPart (λ _. Unit {0}) result out.old out.new (text_key text) }
    ensures preserves { Preserves out.old out.new }
{
    let mut rest = bytes;
    'items: loop {
        let (run, others) = rest.split_at(plain_len(rest));
        out.extend_from_slice(run)?;
        let Some((byte, _)) = others.split_first() else {
            return Err(DocumentError::NoDocument);
        };
        if *byte == b'"' {
            out.extend_from_slice(&[kind::TERMINATOR, kind::TEXT_END])?;
            return Ok(());
        }
        let Some((byte, behind)) = read_item(others) else {
            return Err(DocumentError::NoDocument);
        };
        append_byte(byte, out)?;
        rest = behind;
    }
}

// Appends a byte of a text as it is in a key.
fn append_byte(byte: u8, out: &mut Vec<u8>) -> Result<(), AllocError>
    ensures { Appends result out.old out.new (byte_key byte) }
{
    if byte == 0 {
        return out.extend_from_slice(&[0, kind::ESCAPED]);
    }
    out.extend_from_slice(&[byte])
}
