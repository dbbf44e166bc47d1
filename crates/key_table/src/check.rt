//! Whether bytes are the table of a value.

ghost use Rattle.std.specs.Prelude.{◌≡◌, ◌<◌, ◌≤◌, ◌↔◌, ◌++◌, ◌∷◌, [], ℕ, length, IsTrue};
ghost use Rattle.jsonb_spec.specs.SortKey.AtKeys.{OfKey};
ghost use Rattle.jsonb_spec.specs.SortKey.Found.{members_len};
ghost use Rattle.key_table.specs.Entries.{OfMembers};
ghost use Rattle.jsonb_spec.specs.Table.{has_table, in_two, table_mark, table_of, table_of_members};

use crate::entry::{LEAST_MEMBERS, TABLE_MARK, after_two, members_within};
use key_walk::find::next_part;

/// Whether the value with this key has a table, and the bytes are it. The key is walked once, and no memory is taken.
pub fn is_table(key: &[u8], table: &[u8]) -> bool
    ensures { OfKey key.now (λ t. IsTrue result ↔ (IsTrue (has_table t) × (table.now ≡ table_of t))) }
{
    match members_within(key) {
        Some(members) => is_table_of(members, table),
        None => false,
    }
}

// Whether there are enough of the members that the bytes begin with, and this is their table.
fn is_table_of(members: &[u8], table: &[u8]) -> bool
    requires { length members.now < 65535 }
    ensures { OfMembers members.now (λ ms.
        IsTrue result ↔ ((4 ≤ members_len ms) × (table.now ≡ table_of_members ms))) }
{
    let mut left = members;
    let mut entries = table;
    let mut count: usize = 0;
    'members: loop {
        let Ok(next) = next_part(true, left) else {
            return false;
        };
        let Some((_, others)) = next else {
            return count >= LEAST_MEMBERS && is_end(entries, count as u16);
        };
        let Some(rest) = after_two(entries, (1 + members.len() - left.len()) as u16) else {
            return false;
        };
        entries = rest;
        left = others;
        count += 1;
    }
}

// Whether the bytes are the end of a table with so many entries.
fn is_end(bytes: &[u8], count: u16) -> bool
    ensures { IsTrue result ↔ (bytes.now ≡ in_two count ++ table_mark ∷ []) }
{
    let Some(rest) = after_two(bytes, count) else {
        return false;
    };
    rest.len() == 1 && rest[0] == TABLE_MARK
}
