//! The bytes of the texts of sort keys.

ghost use Rattle.std.specs.Prelude.{◌≡◌, ◌<◌, ◌∷◌, List, ℕ, length, IfSome, option_map, Some};
ghost use Rattle.jsonb_spec.specs.SortKey.Reading.{byte_of, escape_of};

use jsonb_core::sort_key::kind;

/// The byte of a text whose key the bytes begin with, and the bytes after it.
pub fn read_byte(bytes: &[u8]) -> Option<(u8, &[u8])>
    ensures byte { option_map (λ r. (r.0, r.1.now)) result ≡ byte_of bytes.now }
    ensures shorter { IfSome result (λ r. length r.1.now < length bytes.now) }
{
    let (byte, rest) = bytes.split_first()?;
    match *byte {
        0 => read_escape(rest),
        byte => Some((byte, rest)),
    }
}

// A zero by what follows its first byte, and the bytes after it.
fn read_escape(bytes: &[u8]) -> Option<(u8, &[u8])>
    ensures byte { option_map (λ r. (r.0, r.1.now)) result ≡ escape_of bytes.now }
    ensures shorter { IfSome result (λ r. length r.1.now < length bytes.now) }
{
    let (mark, rest) = bytes.split_first()?;
    match *mark {
        kind::ESCAPED => Some((0, rest)),
        _ => None,
    }
}

/// The bytes after a zero and this byte, if they begin so.
pub fn skip_pair(second: u8, bytes: &[u8]) -> Option<&[u8]>
    ensures some { IfSome result (λ rest. bytes.now ≡ 0 ∷ second ∷ rest.now) }
    ensures found { (more : List ℕ) → bytes.now ≡ 0 ∷ second ∷ more → option_map (λ rest. rest.now) result ≡ Some more }
{
    let (zero, rest) = bytes.split_first()?;
    if *zero != 0 {
        return None;
    }
    let (byte, rest) = rest.split_first()?;
    if *byte != second {
        return None;
    }
    Some(rest)
}
