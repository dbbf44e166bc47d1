//! A table apart from what it is kept behind.

ghost use Rattle.std.specs.Prelude.{◌≡◌, ◌++◌, ◌∷◌, [], IsTrue, List, ℕ};
ghost use Rattle.jsonb_spec.specs.Tree.{Tree};
ghost use Rattle.jsonb_spec.specs.Table.{has_table, table_of, IsUnmarked};

use crate::entry::{END_SIZE, TABLE_MARK, two_at};

/// What is stored before a table, and the table. Where there is none, all bytes, and no others.
///
/// It looks at the last byte, and where that ends a table at the two bytes before it.
#[inline(always)]
pub fn split_table(bytes: &[u8]) -> (&[u8], &[u8])
    ensures table { (front : List ℕ) → (t : Tree) → IsTrue (has_table t) → bytes.now ≡ front ++ table_of t
        → (result.0.now ≡ front) × (result.1.now ≡ table_of t) }
    ensures none { IsUnmarked bytes.now → (result.0.now ≡ bytes.now) × (result.1.now ≡ []) }
    ensures whole { bytes.now ≡ result.0.now ++ result.1.now }
{
    let Some((last, _)) = bytes.split_last() else {
        return (bytes, bytes);
    };
    if *last == TABLE_MARK {
        return split_marked(bytes);
    }
    bytes.split_at(bytes.len())
}

// The same of bytes that end with the mark.
#[inline(never)]
fn split_marked(bytes: &[u8]) -> (&[u8], &[u8])
    ensures table { (front : List ℕ) → (t : Tree) → IsTrue (has_table t) → bytes.now ≡ front ++ table_of t
        → (result.0.now ≡ front) × (result.1.now ≡ table_of t) }
    ensures whole { bytes.now ≡ result.0.now ++ result.1.now }
{
    let Some(end) = bytes.len().checked_sub(END_SIZE) else {
        return bytes.split_at(bytes.len());
    };
    match end.checked_sub(2 * two_at(bytes, end)) {
        Some(start) => bytes.split_at(start),
        None => bytes.split_at(bytes.len()),
    }
}
