//! The keys of a path (RFC 6901): each after a slash, with `~0` for `~` and `~1` for `/`.

ghost use Rattle.std.specs.Prelude.{◌≡◌, ◌↔◌, ◌<◌, ◌≤◌, ℕ, List, ◌++◌, ◌∷◌, length, take, drop, map, string_bytes, option_map, None, IfOk, IfErr, IfSome, IfNone, IsTrue, IsUtf8};
ghost use Rattle.jsonb_spec.specs.Ascii as ascii;
ghost use Rattle.jsonb_spec.specs.Path.{encoded_key, encoded_keys, IsPath, IsPlainKey, StartsKey};
ghost use Rattle.jsonb_spec.specs.Path.KeyEncoding.{escape_of, byte_of, BeginsAscii, BeginsPlain, BeginsPlainText};

use std::alloc::{AllocError, Global};

/// The keys of the path, or `None` where the bytes aren't a path.
pub fn read_keys(alloc: Global, path: &[u8]) -> Result<Option<Vec<String>>, AllocError>
    ensures some { IfOk result (λ answer. IfSome answer (λ keys. IsPath path.now (map string_bytes keys.items))) }
    ensures only { IfOk result (λ answer. IfSome answer (λ keys. (others : List (List ℕ)) → IsPath path.now others
        → others ≡ map string_bytes keys.items)) }
    ensures none { IfOk result (λ answer. IfNone answer ((others : List (List ℕ)) → IsPath path.now others → ⊥)) }
    ensures memory { IfErr result (λ _. StartsKey path.now) }
{
    let mut keys = Vec::new(alloc);
    let mut rest = path;
    'parts: while let Some((slash, more)) = rest.split_first() {
        if *slash != b'/' {
            return Ok(None);
        }
        let (key, more) = read_key(alloc, more)?;
        let Ok(key) = String::from_utf8(key) else {
            return Ok(None);
        };
        keys.push(key)?;
        rest = more;
    }
    Ok(Some(keys))
}

/// The first key of a path as it is there, and what is left; `None` where the path doesn't begin with a key, or
/// where an escape is in the key, or where the key isn't UTF-8.
#[inline(always)]
pub fn plain_key(path: &[u8]) -> Option<(&str, &[u8])>
    ensures plain { IfSome result (λ r. (text : List ℕ) × (path.now ≡ ascii.slash ∷ text)
        × BeginsPlain text r.0.now r.1.now) }
    ensures text { IfSome result (λ r. IsUtf8 r.0.now) }
    ensures shorter { IfSome result (λ r. length r.1.now < length path.now) }
    ensures none { IfNone result ((key : List ℕ) → (keys : List (List ℕ)) → IsPath path.now (key ∷ keys)
        → IsPlainKey key → ⊥) }
{
    let (slash, text) = path.split_first()?;
    if *slash != b'/' {
        return None;
    }
    let len = key_len(text);
    if len > text.len() {
        return None;
    }
    let (key, rest) = text.split_at(len);
    Some((unsafe { str::from_utf8_unchecked(key) }, rest))
}

// How many bytes the first key has, if it is UTF-8 and nothing is escaped in it, or else more than there are. Most keys
// are ASCII.
#[inline(always)]
fn key_len(text: &[u8]) -> usize
    ensures plain { result ≤ length text.now → BeginsPlainText text.now result }
    ensures none { length text.now < result → (key : List ℕ) → (keys : List (List ℕ))
        → text.now ≡ key ++ encoded_keys keys → IsUtf8 key → IsPlainKey key → ⊥ }
{
    let len = ascii_len(text);
    let (_, rest) = text.split_at(len);
    if is_ended(rest) {
        return len;
    }
    any_key_len(text)
}

// How many of the first bytes are ASCII and encoded as they are.
#[inline(always)]
fn ascii_len(text: &[u8]) -> usize
    ensures { BeginsAscii text.now result }
{
    let mut rest = text;
    let mut len: usize = 0;
    'bytes: while let Some((byte, others)) = rest.split_first() {
        if *byte >= b'~' || *byte == b'/' {
            return len;
        }
        rest = others;
        len += 1;
    }
    len
}

// Whether the key that is passed ends here.
#[inline(always)]
fn is_ended(rest: &[u8]) -> bool
    ensures { IsTrue result → byte_of rest.now ≡ None }
{
    match rest {
        [] => true,
        [first, ..] => *first == b'/',
    }
}

// How many bytes the first key has, if it is UTF-8 and nothing is escaped in it, or else more than there are.
#[inline(never)]
fn any_key_len(text: &[u8]) -> usize
    ensures plain { result ≤ length text.now → BeginsPlainText text.now result }
    ensures none { length text.now < result → (key : List ℕ) → (keys : List (List ℕ))
        → text.now ≡ key ++ encoded_keys keys → IsUtf8 key → IsPlainKey key → ⊥ }
{
    let Some(len) = plain_len(text) else {
        return text.len() + 1;
    };
    let (key, _) = text.split_at(len);
    if !is_utf8(key) {
        return text.len() + 1;
    }
    len
}

fn is_utf8(bytes: &[u8]) -> bool
    ensures { IsTrue result ↔ IsUtf8 bytes.now }
{
    str::from_utf8(bytes).is_ok()
}

// How many bytes the text has before its first slash; `None` where a tilde is among them.
fn plain_len(text: &[u8]) -> Option<usize>
    ensures plain { IfSome result (λ len. BeginsPlain text.now (take len text.now) (drop len text.now)) }
    ensures within { IfSome result (λ len. len ≤ length text.now) }
    ensures none { IfNone result ((key : List ℕ) → (keys : List (List ℕ)) → text.now ≡ key ++ encoded_keys keys
        → IsPlainKey key → ⊥) }
{
    let mut rest = text;
    let mut len: usize = 0;
    'bytes: while let Some((byte, others)) = rest.split_first() {
        if *byte == b'/' {
            return Some(len);
        }
        if *byte == b'~' {
            return None;
        }
        rest = others;
        len += 1;
    }
    Some(len)
}

// The key whose encoding the text begins with, up to what encodes no byte of a key, and what is left.
fn read_key(alloc: Global, text: &[u8]) -> Result<(Vec<u8>, &[u8]), AllocError>
    ensures key { IfOk result (λ r. text.now ≡ encoded_key r.0.items ++ r.1.now) }
    ensures whole { IfOk result (λ r. byte_of r.1.now ≡ None) }
    ensures within { IfOk result (λ r. length r.1.now ≤ length text.now) }
{
    let mut key = Vec::new(alloc);
    let mut rest = text;
    'bytes: while let Some((byte, more)) = read_byte(rest) {
        key.push(byte)?;
        rest = more;
    }
    Ok((key, rest))
}

// The byte of a key whose encoding the text begins with, and what is left.
fn read_byte(text: &[u8]) -> Option<(u8, &[u8])>
    ensures byte { option_map (λ r. (r.0, r.1.now)) result ≡ byte_of text.now }
    ensures shorter { IfSome result (λ r. length r.1.now < length text.now) }
{
    let (byte, rest) = text.split_first()?;
    match *byte {
        b'/' => None,
        b'~' => read_escape(rest),
        byte => Some((byte, rest)),
    }
}

// The byte that an escape means by what follows its `~`, and what is left.
fn read_escape(text: &[u8]) -> Option<(u8, &[u8])>
    ensures byte { option_map (λ r. (r.0, r.1.now)) result ≡ escape_of text.now }
    ensures shorter { IfSome result (λ r. length r.1.now < length text.now) }
{
    let (letter, rest) = text.split_first()?;
    match *letter {
        b'0' => Some((b'~', rest)),
        b'1' => Some((b'/', rest)),
        _ => None,
    }
}
