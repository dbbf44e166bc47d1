//! Where in a document's value its text is rejected.
ghost use Rattle.std.specs.Prelude.{◌≡◌, ◌⊎◌, ◌↔◌, ◌<◌};
ghost use Rattle.jsonb_spec.specs.Interface.{FillsBuffer};
ghost use Rattle.jsonb_spec.specs.Interface.Rejected.{IsSomePath};
ghost use Rattle.jsonb_spec.specs.Characters.{character_at};

use crate::{ACCEPTED, OUT_OF_MEMORY, Rejection, TOO_SHORT, UNKNOWN_MODE, choose_grammar, put};
use error_path::{Fault, character_at, error_path};
use std::alloc::Global;

// The codes of a repeated key, and of a number that isn't representable.
const OBJECT_DUPLICATE_KEY: u32 = 17;

const NUMBER_NOT_CARRIED: u32 = 20;

/// Writes the path (RFC 6901) of the part of the text's value at which the text is rejected to the start of `out`, and
/// its size to `size`. Where `out` is too short, it stays as it is, and `size` is what is needed.
#[unsafe(no_mangle)]
pub extern "C" fn vizhoniku_error_path(
    alloc: Global,
    mode: u32,
    text: &[u8],
    rejection: &Rejection,
    out: &mut [u8],
    size: &mut usize,
) -> u32
    ensures status { (result ≡ ACCEPTED) ⊎ (result ≡ OUT_OF_MEMORY) ⊎ (result ≡ TOO_SHORT) ⊎ (result ≡ UNKNOWN_MODE) }
    ensures mode { result ≡ UNKNOWN_MODE ↔ 3 < mode }
    ensures fills { FillsBuffer IsSomePath ACCEPTED result size.new out.old out.new }
{
    let Some(grammar) = choose_grammar(mode) else {
        *size = 0;
        return UNKNOWN_MODE;
    };
    match error_path(alloc, text, grammar, fault_of(rejection)) {
        Ok(path) => {
            *size = path.len();
            put(&path, out)
        }
        Err(_) => {
            *size = 0;
            OUT_OF_MEMORY
        }
    }
}

// Where the text is rejected.
fn fault_of(rejection: &Rejection) -> Fault {
    match rejection.code {
        OBJECT_DUPLICATE_KEY => Fault::Key(rejection.position),
        NUMBER_NOT_CARRIED => Fault::Number(rejection.position),
        _ => Fault::Other,
    }
}

/// Returns which character of the text the byte at `index` is of, counted from 1 at the byte at `first`.
#[unsafe(no_mangle)]
pub extern "C" fn vizhoniku_character(text: &[u8], first: usize, index: usize) -> usize
    ensures { result ≡ character_at text.now first index }
{
    character_at(text, first, index)
}
