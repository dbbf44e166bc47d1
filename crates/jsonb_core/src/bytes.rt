//! Bytes of a slice.
ghost use Rattle.std.specs.Prelude.{◌≡◌, slice_index};

/// The byte at an index, or 0 past the end.
pub fn byte_at(bytes: &[u8], index: usize) -> u8
    ensures { result ≡ slice_index bytes.now index }
{
    if index < bytes.len() { bytes[index] } else { 0 }
}
