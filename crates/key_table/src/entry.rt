//! The entries of a table: numbers in two bytes, the higher first.

ghost use Rattle.std.specs.Prelude.{◌≡◌, ◌↔◌, ◌<◌, ◌≤◌, ◌+◌, ◌/◌, ◌-◌, ◌^◌, ◌++◌, List, ℕ, length, IfSome};
ghost use Rattle.jsonb_spec.specs.SortKey.{key_of};
ghost use Rattle.jsonb_spec.specs.Text.Appending.{Appends};
ghost use Rattle.jsonb_spec.specs.SortKey.AtKeys.{Leaves, OfKey};
ghost use Rattle.key_table.specs.Entries.{LeavesMembers};
ghost use Rattle.jsonb_spec.specs.Table.{in_two};

use key_walk::walk::members_of;
use std::alloc::AllocError;

/// How many members an object has at least that has a table.
pub(crate) const LEAST_MEMBERS: usize = 4;

// How many bytes the key of such an object has at least, and at most.
const LEAST_KEY: usize = 256;

const MOST_KEY: usize = 65535;

/// The last byte of a table.
pub(crate) const TABLE_MARK: u8 = 0xFE;

/// How many bytes of a table are no entries: how many members there are, and the mark.
pub(crate) const END_SIZE: usize = 3;

/// What is behind the first byte of an object's key, if it has as many bytes as the key of one with a table.
pub(crate) fn members_within(key: &[u8]) -> Option<&[u8]>
    ensures members { OfKey key.now (λ t. LeavesMembers t result) }
    ensures some { IfSome result (λ members. (length members.now + 1 ≡ length key.now) × (length key.now ≤ 65535)) }
{
    if key.len() < LEAST_KEY || key.len() > MOST_KEY {
        return None;
    }
    members_of(key)
}

/// How many entries a table of this size has.
#[inline(always)]
pub(crate) fn entry_count(size: usize) -> usize
    ensures count { result ≡ (size - 3) / 2 }
{
    size.saturating_sub(END_SIZE) / 2
}

/// The number in the two bytes at this index.
#[inline(always)]
pub(crate) fn two_at(bytes: &[u8], index: usize) -> usize
    requires { index + 1 < length bytes.now }
    ensures two { (front more : List ℕ) → (number : ℕ) → number < 2 ^ 16 → length front ≡ index
        → bytes.now ≡ front ++ (in_two number ++ more) → result ≡ number }
    ensures small { result < 2 ^ 16 }
{
    usize::from(u16::from_be_bytes([bytes[index], bytes[index + 1]]))
}

/// The bytes behind so many.
#[inline(always)]
pub(crate) fn behind(bytes: &[u8], count: usize) -> Option<&[u8]>
    ensures { (before rest : List ℕ) → bytes.now ≡ before ++ rest → length before ≡ count → Leaves result rest }
{
    if count > bytes.len() {
        return None;
    }
    let (_, rest) = bytes.split_at(count);
    Some(rest)
}

/// Appends a number in two bytes.
///
/// # Errors
///
/// Where the buffer lacks the capacity.
pub(crate) fn append_two(out: &mut Vec<u8>, number: u16) -> Result<(), AllocError>
    ensures { Appends result out.old out.new (in_two number) }
{
    out.extend_from_slice(&number.to_be_bytes())
}

/// What is behind the number in two bytes with which the bytes begin.
pub(crate) fn after_two(bytes: &[u8], number: u16) -> Option<&[u8]>
    ensures { (rest : List ℕ) → Leaves result rest ↔ (bytes.now ≡ in_two number ++ rest) }
{
    let (first, rest) = bytes.split_first_chunk::<2>()?;
    if u16::from_be_bytes(*first) != number {
        return None;
    }
    Some(rest)
}
