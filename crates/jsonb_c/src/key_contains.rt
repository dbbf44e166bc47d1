//! Whether a value contains another, from their sort keys.
ghost use Rattle.std.specs.Prelude.{◌≡◌, ◌⊎◌};
ghost use Rattle.jsonb_spec.specs.Interface.KeyContains.{IsContained};
ghost use Rattle.jsonb_spec.specs.Interface.KeyParts.{IsTreeKey};
ghost use Rattle.jsonb_spec.specs.Containment.{contains};
ghost use Rattle.jsonb_spec.specs.Tree.{Tree};

use crate::{ACCEPTED, NO_KEY, NO_PART};
use key_walk::{NoKey, contains};

/// Whether the value of the first sort key contains that of the second, as PostgreSQL's `jsonb` has it.
#[unsafe(no_mangle)]
pub extern "C" fn vizhoniku_key_contains<'k>(key: &'k [u8], other: &'k [u8]) -> u32
    ensures status { (result ≡ ACCEPTED) ⊎ (result ≡ NO_PART) ⊎ (result ≡ NO_KEY) }

    // Of the keys of two values it says exactly whether the first contains the second.
    ensures contained { (t u : Tree) → IsTreeKey key.now t → IsTreeKey other.now u → IsContained (contains t u) result }
{
    match contains(key, other) {
        Ok(true) => ACCEPTED,
        Ok(false) => NO_PART,
        Err(NoKey) => NO_KEY,
    }
}
