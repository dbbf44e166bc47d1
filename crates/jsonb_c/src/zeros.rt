//! The zeros that end decimals, which a sort key doesn't have: stored beside it, they give the text again.
ghost use Rattle.std.specs.Prelude.{◌≡◌, ◌⊎◌};
ghost use Rattle.jsonb_spec.specs.Interface.{FillsBuffer};
ghost use Rattle.jsonb_c.specs.Zeros.{zeros_status_of};
ghost use Rattle.jsonb_spec.specs.Interface.Zeros.{IsTextWithZeros, LackZeros};

use crate::{ACCEPTED, NO_ZEROS, OUT_OF_MEMORY, TOO_SHORT, put};
use key_zeros::{ZerosError, write_text_with_zeros};
use std::alloc::Global;

/// Writes the serialized form of a value to the start of `out`, and its size to `size`, from the one with the fewest
/// digits in each number, as `vizhoniku_key_text` writes it, and the value's zeros. Where `out` is too short, it stays
/// as it is, and `size` is what is needed.
#[unsafe(no_mangle)]
pub extern "C" fn vizhoniku_text_with_zeros(
    alloc: Global,
    text: &[u8],
    zeros: &[u8],
    out: &mut [u8],
    size: &mut usize,
) -> u32
    ensures status { (result ≡ ACCEPTED) ⊎ (result ≡ OUT_OF_MEMORY) ⊎ (result ≡ TOO_SHORT) ⊎ (result ≡ NO_ZEROS) }
    ensures fills { FillsBuffer (IsTextWithZeros text.now zeros.now) ACCEPTED result size.new out.old out.new }

    // A text and zeros of one value are never reported to be none.
    ensures no_zeros { result ≡ NO_ZEROS → LackZeros text.now zeros.now }
{
    let mut bytes = Vec::new(alloc);
    match write_text_with_zeros(text, zeros, &mut bytes) {
        Ok(()) => {
            *size = bytes.len();
            put(&bytes, out)
        }
        Err(error) => {
            *size = 0;
            zeros_status(&error)
        }
    }
}

// The status of an error.
fn zeros_status(error: &ZerosError) -> u32
    ensures { result ≡ zeros_status_of error.now }
{
    match error {
        ZerosError::Invalid => NO_ZEROS,
        ZerosError::OutOfMemory => OUT_OF_MEMORY,
    }
}
