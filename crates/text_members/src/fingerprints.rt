//! Whether keys are all different, told by a table of their fingerprints, so that they aren't sorted for it.
ghost use Rattle.std.specs.Prelude.{◌≡◌, ◌≢◌, ◌≤◌, ℕ, IsTrue, None};
ghost use Rattle.text_members.specs.Fingerprints.{IsIn, fingerprint_of, home_of, tag_of};
ghost use Rattle.text_members.specs.Members.{AreKeyed, ReportsRepeat, key_in};

use crate::members::{Member, key_of, prefix_within};
use crate::object::Keys;

// Times these, numbers differ in their highest bits: 2 ^ 64 by the golden ratio, and another odd number.
const SPREAD: u64 = 11400714819323198485;

const SPREAD_TAG: u64 = 15241094284759029579;

// So many slots from its home on are looked at for a fingerprint.
const MOST_STEPS: usize = 96;

// There are so many slots behind the last home.
const BEHIND: usize = 64;

// A key as a number, to which all bytes of a short one belong, and of a long one the first and the last 8 and the
// length.
#[inline(always)]
fn fingerprint(keys: &Keys<'_>, member: &Member) -> u64
    ensures { result ≡ fingerprint_of member.now.prefix (key_in keys.now.text.now keys.now.decoded.now member.now) }
{
    let key = key_of(keys.text, keys.decoded, member);
    if key.len() <= 8 {
        return member.prefix;
    }
    prefix_within(key, key.len() - 8, key.len())
        .wrapping_add(key.len() as u64)
        .wrapping_mul(SPREAD)
        .wrapping_add(member.prefix)
}

// The slot from which on a fingerprint is looked for, of 2 ^ `bits` slots.
#[inline(always)]
fn home(number: u64, bits: u32) -> usize
    requires least { 1 ≤ bits }
    requires most { bits ≤ 64 }
    ensures { result ≡ home_of bits number }
{
    (number.wrapping_mul(SPREAD) >> (64 - bits)) as usize
}

// What is held of a fingerprint.
#[inline(always)]
fn tag(number: u64) -> u32
    ensures { result ≡ tag_of number }
{
    (number.wrapping_mul(SPREAD_TAG) >> 32) as u32
}

// Puts a tag into the first free slot from an index on, if it isn't before that.
#[inline(always)]
fn put(row: &mut [u32], home: usize, tag: u32) -> bool
    ensures retained { IsTrue result → (other tag : ℕ) → IsIn row.old other tag → IsIn row.new other tag }
    ensures there { IsTrue result → IsIn row.new home tag }
    ensures new { IsTrue result → IsIn row.old home tag → ⊥ }
{
    if tag == 0 {
        return false;
    }
    'slots: for slot in home..home.saturating_add(MOST_STEPS) {
        if slot >= row.len() || row[slot] == tag {
            return false;
        }
        if row[slot] == 0 {
            row[slot] = tag;
            return true;
        }
    }
    false
}

/// Whether the keys are all different, as far as a table of two to four slots for each shows it.
#[inline(never)]
pub(crate) fn keys_differ(keys: &Keys<'_>, table: &mut Vec<u32>) -> bool
    ensures { IsTrue result → AreKeyed keys.now.text.now keys.now.decoded.now keys.now.members.now
        → ReportsRepeat keys.now.text.now keys.now.decoded.now keys.now.members.now None }
{
    let bits = (keys.members.len().max(1).ilog2() + 2).min(40);
    table.clear();
    if table.resize((1 << bits) + BEHIND, 0).is_err() {
        return false;
    }
    let row = table.as_mut_slice();
    let mut rest = keys.members;
    'members: while let Some((member, others)) = rest.split_first() {
        let number = fingerprint(keys, member);
        if !put(row, home(number, bits), tag(number)) {
            return false;
        }
        rest = others;
    }
    true
}
