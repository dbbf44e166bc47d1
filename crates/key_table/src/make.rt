//! Tables made of keys.

ghost use Rattle.std.specs.Prelude.{◌≡◌, ◌<◌, nat_lt, length};
ghost use Rattle.jsonb_spec.specs.SortKey.AtKeys.{OfKey};
ghost use Rattle.jsonb_spec.specs.SortKey.Text.{Preserves};
ghost use Rattle.jsonb_spec.specs.Tree.{Members, object};
ghost use Rattle.jsonb_spec.specs.SortKey.Found.{members_len};
ghost use Rattle.key_table.specs.Entries.{OfMembers, WritesTable};
ghost use Rattle.key_table.specs.Results.{AppendsTable, PreservesUnlessTable};

use crate::entry::{LEAST_MEMBERS, TABLE_MARK, append_two, members_within};
use crate::error::TableError;
use key_walk::find::{count_parts, next_part};

/// Appends the table of the value with this key, and returns true. Where the value has none, nothing is appended, and
/// it returns false.
///
/// The key is walked once, and no other memory is taken. A key that is too short or too long, or of no object, isn't
/// walked.
///
/// # Errors
///
/// `NoKey` only where the bytes are no key, and `OutOfMemory` only where the buffer lacks the capacity for the table.
/// After an error the buffer is as before.
pub fn append_table(out: &mut Vec<u8>, key: &[u8]) -> Result<bool, TableError>
    ensures appends { OfKey key.now (λ t. AppendsTable t result out.old out.new) }
    ensures preserves { PreservesUnlessTable result out.old out.new }
{
    let Some(members) = members_within(key) else {
        return Ok(false);
    };
    let start = out.len();
    // Space for the table of 30 members. Where there is none, each append asks for its own.
    let _reserved = out.try_reserve(64);
    match write_table(out, members) {
        Ok(true) => Ok(true),
        Ok(false) => {
            out.truncate(start);
            Ok(false)
        }
        Err(error) => {
            out.truncate(start);
            // The capacity may be missing for the entries of members that are too few for a table.
            if has_few_members(key) {
                return Ok(false);
            }
            Err(error)
        }
    }
}

// Whether it is the key of an object with too few members for a table.
fn has_few_members(key: &[u8]) -> bool
    ensures { OfKey key.now (λ t. (ms : Members) → t ≡ object ms → result ≡ nat_lt (members_len ms) 4) }
{
    let Ok(count) = count_parts(key) else {
        return false;
    };
    match count {
        Some(count) => count < LEAST_MEMBERS,
        None => false,
    }
}

// Appends the table of the members that the bytes begin with, and tells whether there are enough; else it appends their
// entries.
fn write_table(out: &mut Vec<u8>, members: &[u8]) -> Result<bool, TableError>
    requires { length members.now < 65535 }
    ensures written { OfMembers members.now (λ ms. WritesTable ms result out.old out.new) }
    ensures retained { Preserves out.old out.new }
{
    let mut left = members;
    let mut count: usize = 0;
    'members: while let Some((_, others)) = next_part(true, left)? {
        append_two(out, (1 + members.len() - left.len()) as u16)?;
        left = others;
        count += 1;
    }
    if count < LEAST_MEMBERS {
        return Ok(false);
    }
    append_two(out, count as u16)?;
    out.extend_from_slice(&[TABLE_MARK])?;
    Ok(true)
}
