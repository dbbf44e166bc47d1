//! The text of a value from its sort key.
ghost use Rattle.std.specs.Prelude.{◌≡◌, ◌⊎◌};
ghost use Rattle.jsonb_spec.specs.Interface.{FillsBuffer};
ghost use Rattle.jsonb_spec.specs.Interface.KeyText.{IsNoKey, IsTextOfKey};
ghost use Rattle.jsonb_c.specs.KeyText.{key_status_of};

use crate::{ACCEPTED, NO_KEY, OUT_OF_MEMORY, TOO_SHORT, put};
use key_text::write_text_of_key;
use key_value::KeyError;
use std::alloc::Global;

/// Writes the text of the value whose sort key the bytes are to the start of `out`, and its size to `size`. Where `out`
/// is too short, it stays as it is, and `size` is what is needed.
#[unsafe(no_mangle)]
pub extern "C" fn vizhoniku_key_text(
    alloc: Global,
    key: &[u8],
    out: &mut [u8],
    size: &mut usize,
) -> u32
    ensures status { (result ≡ ACCEPTED) ⊎ (result ≡ OUT_OF_MEMORY) ⊎ (result ≡ TOO_SHORT) ⊎ (result ≡ NO_KEY) }

    // What is written of a key is the text of the value with the fewest digits that has it, of a checked key a document
    // with that key, and no other byte of the buffer changes.
    ensures fills { FillsBuffer (IsTextOfKey key.now) ACCEPTED result size.new out.old out.new }

    // A key is never reported to be none.
    ensures no_key { result ≡ NO_KEY → IsNoKey key.now }
{
    let mut bytes = Vec::new(alloc);
    match write_text_of_key(key, &mut bytes) {
        Ok(()) => {
            *size = bytes.len();
            put(&bytes, out)
        }
        Err(error) => {
            *size = 0;
            key_status(&error)
        }
    }
}

// The status of an error.
fn key_status(error: &KeyError) -> u32
    ensures { result ≡ key_status_of error.now }
{
    match error {
        KeyError::Invalid => NO_KEY,
        KeyError::OutOfMemory => OUT_OF_MEMORY,
    }
}
