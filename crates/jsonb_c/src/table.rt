//! Tables of the members of an object, which a store keeps behind its document, and by which a member is found.
//!
//! Any bytes are safe to pass. What a call answers is promised for the key of a value of JSON's kinds with at most 512
//! nested arrays and objects, and for its table; of other bytes it may be any answer within them.
ghost use Rattle.std.specs.Prelude.{◌≡◌, ◌⊎◌, ◌↔◌, ◌≤◌, ◌++◌, ℕ, List, length, IsTrue};
ghost use Rattle.jsonb_spec.specs.Interface.{PreservesBuffer};
ghost use Rattle.jsonb_spec.specs.Interface.KeyParts.{IsFound, IsPartStatus, IsTreeKey, IsWithinKey, IsWritten};
ghost use Rattle.jsonb_spec.specs.Interface.Table.{kept_table, IsTableStatus};
ghost use Rattle.jsonb_c.specs.Table.{table_status_of};
ghost use Rattle.jsonb_c.specs.declared.TheConstants.{OUT_OF_MEMORY};
ghost use Rattle.jsonb_spec.specs.Accessors.{get_by_name};
ghost use Rattle.jsonb_spec.specs.Tree.{Tree};
ghost use Rattle.jsonb_spec.specs.Table.{has_table, table_of, IsUnmarked};

use crate::{ACCEPTED, NO_KEY, NO_PART, OUT_OF_MEMORY, put};
use key_table::{TableError, append_table, find_by_table, is_table, split_table};
use std::alloc::Global;

/// Writes the table of the members of a sort key's value to the start of `out`, and its size to `size`. Where `out` is
/// too short, it stays as it is, and `size` is what is needed.
#[unsafe(no_mangle)]
pub extern "C" fn vizhoniku_table(
    alloc: Global,
    key: &[u8],
    out: &mut [u8],
    size: &mut usize,
) -> u32
    ensures status { IsTableStatus result }

    // What is written is the table of the value; or the value has none.
    ensures written { (t : Tree) → IsTreeKey key.now t → (result ≡ OUT_OF_MEMORY)
        ⊎ IsWritten (kept_table t) result size.new out.old out.new }
    ensures preserves { PreservesBuffer result size.new out.old out.new }
{
    let mut bytes = Vec::new(alloc);
    match append_table(&mut bytes, key) {
        Ok(true) => {
            *size = bytes.len();
            put(&bytes, out)
        }
        Ok(false) => {
            *size = 0;
            NO_PART
        }
        Err(error) => {
            *size = 0;
            table_status(&error)
        }
    }
}

// The status of an error.
fn table_status(error: &TableError) -> u32
    ensures { result ≡ table_status_of error.now }
{
    match error {
        TableError::NoKey => NO_KEY,
        TableError::OutOfMemory => OUT_OF_MEMORY,
    }
}

/// Returns how many of the last bytes are a table, and 0 where there is none. It looks at the last three bytes alone.
#[unsafe(no_mangle)]
pub extern "C" fn vizhoniku_table_size(stored: &[u8]) -> usize
    ensures size { (front : List ℕ) → (t : Tree) → IsTrue (has_table t) → stored.now ≡ front ++ table_of t
        → result ≡ length (table_of t) }
    ensures none { IsUnmarked stored.now → result ≡ 0 }
    ensures within { result ≤ length stored.now }
{
    let (_, table) = split_table(stored);
    table.len()
}

/// Where in a sort key the member of that name is, by the table of the key: the range of its value, which is the key of
/// that.
#[unsafe(no_mangle)]
pub extern "C" fn vizhoniku_table_member(
    key: &[u8],
    table: &[u8],
    name: &[u8],
    offset: &mut usize,
    size: &mut usize,
) -> u32
    ensures status { IsPartStatus result }

    // The range is that of the member of the name, and there is none where the value has none.
    ensures finds { (t : Tree) → IsTreeKey key.now t → IsTrue (has_table t) → table.now ≡ table_of t
        → IsFound key.now (get_by_name name.now t) result offset.new size.new }
    ensures within { IsWithinKey key.now result offset.new size.new }
{
    match find_by_table(key, table, name) {
        Ok(Some((at, len))) => {
            *offset = at;
            *size = len;
            ACCEPTED
        }
        Ok(None) => {
            *offset = 0;
            *size = 0;
            NO_PART
        }
        Err(_) => {
            *offset = 0;
            *size = 0;
            NO_KEY
        }
    }
}

/// Checks whether bytes are the table of a sort key.
#[unsafe(no_mangle)]
pub extern "C" fn vizhoniku_table_check<'b>(key: &'b [u8], table: &'b [u8]) -> u32
    ensures accepted { (t : Tree) → IsTreeKey key.now t
        → (result ≡ ACCEPTED) ↔ (IsTrue (has_table t) × (table.now ≡ table_of t)) }
    ensures status { (result ≡ ACCEPTED) ⊎ (result ≡ NO_PART) }
{
    if is_table(key, table) {
        ACCEPTED
    } else {
        NO_PART
    }
}
