//! The index of an item, as a key of a path encodes it.
ghost use Rattle.std.specs.Prelude.{◌≡◌, ◌<◌, ◌^◌, ℕ, IfNone, IfSome};
ghost use Rattle.jsonb_spec.specs.PartAt.{IsIndex, index_named, leads_well};

// Whether there is one byte alone, or the first is no 0.
fn leads_well(bytes: &[u8]) -> bool
    ensures { result ≡ leads_well bytes.now }
{
    match bytes {
        [] => false,
        [_] => true,
        [first, ..] => *first != b'0',
    }
}

/// The index that a key is in decimal digits, without leading zeros.
pub fn index_of(key: &str) -> Option<usize>
    ensures named { result ≡ index_named key.now }
    ensures some { IfSome result (λ index. IsIndex key.now index) }
    ensures none { IfNone result ((index : ℕ) → index < 2 ^ 64 → IsIndex key.now index → ⊥) }
{
    let bytes = key.as_bytes();
    if !leads_well(bytes) {
        return None;
    }
    if bytes[0] == b'+' {
        return None;
    }
    key.parse().ok()
}
