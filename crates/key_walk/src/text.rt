//! Texts of strings and names, from their keys.

ghost use Rattle.std.specs.Prelude.{◌≡◌, ◌≤◌, ◌++◌, ◌∷◌, List, ℕ, length, drop, IfSome, Some};
ghost use Rattle.jsonb_spec.specs.SortKey.AtKeys.{Leaves};
ghost use Rattle.jsonb_spec.specs.SortKey.{text_key};
ghost use Rattle.jsonb_spec.specs.SortKey.Kind as kind;

use jsonb_core::sort_key::kind;
use key_value::text::{read_byte, skip_pair};
use memchr::memchr;

/// The key of the text of a string, whose key this is; `None` of any other value.
pub fn text_of_string(key: &[u8]) -> Option<&[u8]>
    ensures found { (body : List ℕ) → key.now ≡ kind.string ∷ body → Leaves result body }
    ensures some { IfSome result (λ rest. key.now ≡ kind.string ∷ rest.now) }
{
    let (first, rest) = key.split_first()?;
    if *first != kind::STRING {
        return None;
    }
    Some(rest)
}

/// The text whose key this is, as it is in it; `None` where the text has a zero.
pub fn plain_text(key: &[u8]) -> Option<&[u8]>
    ensures plain { (text : List ℕ) → key.now ≡ text_key text → IfSome result (λ plain. plain.now ≡ text) }
    ensures within { IfSome result (λ plain. length plain.now ≤ length key.now) }
{
    let zero = memchr(0, key)?;
    let (text, end) = key.split_at(zero);
    match end {
        [_, kind::TEXT_END] => Some(text),
        _ => None,
    }
}

/// How many bytes the text has whose key this is; `None` where it is the key of no text.
pub fn text_size(key: &[u8]) -> Option<usize>
    ensures sized { (text : List ℕ) → key.now ≡ text_key text → result ≡ Some (length text) }
    ensures within { IfSome result (λ size. size ≤ length key.now) }
{
    let mut rest = key;
    let mut size: usize = 0;
    'bytes: while let Some((_, others)) = read_byte(rest) {
        size += 1;
        rest = others;
    }
    let after = skip_pair(kind::TEXT_END, rest)?;
    if !after.is_empty() {
        return None;
    }
    Some(size)
}

/// Puts the text whose key this is at the front of the buffer, as far as it has space.
pub fn put_text(key: &[u8], out: &mut [u8])
    ensures put { (text more : List ℕ) → key.now ≡ text_key text ++ more → length text ≤ length out.old
        → out.new ≡ text ++ drop (length text) out.old }
{
    let mut rest = key;
    let mut at: usize = 0;
    'bytes: while let Some((byte, others)) = read_byte(rest) {
        if at >= out.len() {
            return;
        }
        out[at] = byte;
        at += 1;
        rest = others;
    }
}
