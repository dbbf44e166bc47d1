//! Writing into the text, of which the first `len` bytes are decoded so far.
ghost use Rattle.std.specs.Prelude.{◌≡◌, ◌+◌, ◌≤◌, ◌<◌, ◌++◌, ◌∷◌, [], length, take};

// Writes a byte behind those that are decoded.
#[inline(always)]
pub(super) fn write_byte(text: &mut [u8], len: usize, byte: u8) -> usize
    requires { len < length text.old }
    ensures written { take result text.new ≡ take len text.old ++ byte ∷ [] }
    ensures len { result ≡ len + 1 }
    ensures size { length text.new ≡ length text.old }
{
    text[len] = byte;
    len + 1
}

// Writes bytes behind those that are decoded.
#[inline(always)]
pub(super) fn write_all(text: &mut [u8], len: usize, bytes: &[u8]) -> usize
    requires { len + length bytes.now ≤ length text.old }
    ensures written { take result text.new ≡ take len text.old ++ bytes.now }
    ensures len { result ≡ len + length bytes.now }
    ensures size { length text.new ≡ length text.old }
{
    let end = len + bytes.len();
    text[len..end].copy_from_slice(bytes);
    end
}

// A decoded text holds space for so many bytes more than it has, and no more.
const SPARE: usize = 63;

// Gives back space that nothing needs, where there is enough of it to be worth the call.
pub(super) fn give_back(text: &mut Vec<u8>)
    ensures { text.new.items ≡ text.old.items }
{
    if text.capacity() - text.len() > SPARE {
        text.shrink_to_fit();
    }
}
