//! Which bytes begin the keys of numbers.

ghost use Rattle.std.specs.Prelude.{◌≡◌, ◌≤◌};
ghost use Rattle.jsonb_spec.specs.Document.PartsOf.{number_count};

use jsonb_core::sort_key::kind;

/// One for the first byte of a number's key, and else none.
pub fn number_count(first: u8) -> usize
    ensures exact { result ≡ number_count first }
    ensures few { result ≤ 1 }
{
    if first > kind::TRUE && first < kind::STRING {
        1
    } else {
        0
    }
}
