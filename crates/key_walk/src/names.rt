//! A name that is looked for among the members of an object: how it compares with a name in a key.

ghost use Rattle.std.specs.Prelude.{◌≡◌, ◌≢◌, ◌<◌, ◌≤◌, ◌+◌, ◌*◌, ◌++◌, List, ℕ, length, drop, take, get_or, IfSome, IsTrue};
ghost use Rattle.std.specs.declared.cmp.Ordering.TheVariants.{Equal};
ghost use Rattle.jsonb_spec.specs.SortKey.{text_key};
ghost use Rattle.jsonb_spec.specs.SortKey.AtKeys.{ComparesName, Leaves, NoMembersEnd};
ghost use Rattle.key_walk.specs.Fronts.{BeginAlike, IsFront, IsKeyFront, IsMade, IsNext};
ghost use Rattle.jsonb_spec.specs.SortKey.Front.{AreNoZeros};

use crate::find::compare_name;
use crate::skip::{after_text, is_over, split_text};
use std::cmp::Ordering;

/// The first bytes of the key of a name, at most 8, as a number: most names differ in them.
#[derive(Clone, Copy)]
pub struct Front {
    // The number, of which the first byte is the highest.
    pub(crate) number: u64,
    // How many bits of 64 it doesn't take.
    pub(crate) low: u32,
    // How many bytes the key of the name has, if these are all, or else 0.
    pub(crate) size: u32,
}

/// In place of a front that isn't made yet.
pub const NO_FRONT: Front = Front {
    number: 0,
    low: 64,
    size: 0,
};

/// The front of a name.
#[inline(always)]
pub fn front_of(name: &[u8]) -> Front
    ensures front { IsFront name.now result }
    // Where it has 8 bytes, all but the last one are no zeros.
    ensures plain { result.size ≡ 0 → result.low ≡ 0 → AreNoZeros name.now 7 }
{
    let mut number: u64 = 0;
    let mut count: u32 = 0;
    let mut left = name;
    'bytes: while let Some((byte, others)) = left.split_first() {
        if count == 8 {
            return first_bytes(number, count);
        }
        number = number * 256 + u64::from(*byte);
        count += 1;
        // Behind a zero is the byte that says whether the text ends.
        if *byte == 0 {
            return first_bytes(number, count);
        }
        left = others;
    }
    if count > 6 {
        return first_bytes(number, count);
    }
    Front {
        number: number * 65536 + 1,
        low: 48 - 8 * count,
        size: count + 2,
    }
}

/// The front of a name by its first 4 bytes alone, which takes less time to make; `None` where it has fewer, or a zero
/// among them.
#[inline(always)]
pub fn front_of_four(name: &[u8]) -> Option<Front>
    ensures { IfSome result (λ front. IsFront name.now front × (front.low ≡ 32)) }
{
    let chunk = name.first_chunk::<4>()?;
    if chunk[0] == 0 || chunk[1] == 0 || chunk[2] == 0 || chunk[3] == 0 {
        return None;
    }
    Some(Front {
        number: u64::from(u32::from_be_bytes(*chunk)),
        low: 32,
        size: 0,
    })
}

// A front that isn't the whole key.
#[inline(always)]
fn first_bytes(number: u64, count: u32) -> Front
    requires { (0 < count) × (count ≤ 8) }
    ensures { (result.number ≡ number) × (result.low + 8 * count ≡ 64) × (result.size ≡ 0) }
{
    Front {
        number,
        low: 64 - 8 * count,
        size: 0,
    }
}

// Whether the eighth byte is there, and no zero.
#[inline(always)]
fn ends_plain(name: &[u8]) -> bool
    ensures { IsTrue result → (8 ≤ length name.now) × (get_or name.now 7 0 ≢ 0) }
{
    name.len() >= 8 && name[7] != 0
}

/// How the name with this front compares with the one whose key the bytes begin with. For a long name the front of what
/// is behind its first 8 bytes is made where it is first asked for.
#[inline(always)]
pub fn compare_wanted<const LONG: bool>(
    front: Front,
    next: &mut Front,
    name: &[u8],
    bytes: &[u8],
) -> Ordering
    requires front { IsFront name.now front }
    requires plain { front.size ≡ 0 → front.low ≡ 0 → AreNoZeros name.now 7 }
    requires next { IsNext name.now next.old }
    ensures compares { ComparesName name.now bytes.now result }
    ensures not_over { result ≡ Equal → NoMembersEnd bytes.now }
    ensures next { IsNext name.now next.new }
{
    let Some(chunk) = bytes.first_chunk::<8>() else {
        return compare_any(name, bytes);
    };
    let number = u64::from_be_bytes(*chunk) >> front.low;
    if number > front.number {
        return Ordering::Less;
    }
    if number < front.number {
        return Ordering::Greater;
    }
    if front.size > 0 {
        return Ordering::Equal;
    }
    if LONG {
        return compare_behind(front.low, next, name, bytes);
    }
    compare_long(name, bytes)
}

// The same where so many bits of the front are no bytes, and the others are the same.
#[inline(always)]
fn compare_behind(low: u32, next: &mut Front, name: &[u8], bytes: &[u8]) -> Ordering
    requires same { low ≡ 0 → BeginAlike name.now bytes.now }
    requires next { IsNext name.now next.old }
    ensures compares { ComparesName name.now bytes.now result }
    ensures not_over { result ≡ Equal → NoMembersEnd bytes.now }
    ensures next { IsNext name.now next.new }
{
    if low > 0 || !ends_plain(name) {
        return compare_long(name, bytes);
    }
    let (_, left) = name.split_at(8);
    let (_, rest) = bytes.split_at(8);
    compare_by_front(made_front(next, left), left, rest)
}

// The front of a name, which is made where it isn't yet.
#[inline(always)]
fn made_front(front: &mut Front, name: &[u8]) -> Front
    requires { IsMade name.now front.old }
    ensures front { IsFront name.now result }
    ensures made { front.new ≡ result }
{
    if front.low == NO_FRONT.low {
        *front = front_of(name);
    }
    *front
}

// How the name with this front compares with the one whose key the bytes begin with.
#[inline(always)]
fn compare_by_front(front: Front, name: &[u8], bytes: &[u8]) -> Ordering
    requires { IsFront name.now front }
    ensures compares { ComparesName name.now bytes.now result }
    ensures not_over { result ≡ Equal → NoMembersEnd bytes.now }
{
    let Some(chunk) = bytes.first_chunk::<8>() else {
        return compare_any(name, bytes);
    };
    let number = u64::from_be_bytes(*chunk) >> front.low;
    if number > front.number {
        return Ordering::Less;
    }
    if number < front.number {
        return Ordering::Greater;
    }
    if front.size > 0 {
        return Ordering::Equal;
    }
    compare_long(name, bytes)
}

// The same of names whose first bytes may be the same.
#[inline(never)]
fn compare_long(name: &[u8], bytes: &[u8]) -> Ordering
    ensures compares { ComparesName name.now bytes.now result }
    ensures not_over { result ≡ Equal → NoMembersEnd bytes.now }
{
    match split_text(bytes) {
        Some((text, _)) => name.cmp(text),
        None => compare_any(name, bytes),
    }
}

// The same where the name in the key may have zeros, or where few bytes are left.
#[inline(never)]
fn compare_any(name: &[u8], bytes: &[u8]) -> Ordering
    ensures compares { ComparesName name.now bytes.now result }
    ensures not_over { result ≡ Equal → NoMembersEnd bytes.now }
{
    if is_over(true, bytes) {
        return Ordering::Greater;
    }
    let (order, _) = compare_name(name, bytes);
    order
}

/// The bytes behind the key of the name with this front.
#[inline(always)]
pub fn after_front(front: Front, bytes: &[u8]) -> Option<&[u8]>
    ensures found { (name more : List ℕ) → IsFront name front → bytes.now ≡ text_key name ++ more
        → Leaves result more }
    ensures shorter { IfSome result (λ rest. length rest.now < length bytes.now) }
{
    let size = front.size as usize;
    if size == 0 || size > bytes.len() {
        return after_text(bytes);
    }
    let (_, rest) = bytes.split_at(size);
    Some(rest)
}

/// The bytes behind the name of a member; `None` at the end of an object.
#[inline(always)]
pub(crate) fn after_member_name(bytes: &[u8]) -> Option<&[u8]>
    ensures found { (text more : List ℕ) → bytes.now ≡ text_key text ++ more → Leaves result more }
    ensures not_over { IfSome result (λ rest. NoMembersEnd bytes.now) }
    ensures shorter { IfSome result (λ rest. length rest.now < length bytes.now) }
{
    if let Some((_, rest)) = split_text(bytes) {
        return Some(rest);
    }
    let size = any_name_size(bytes);
    if size == 0 {
        return None;
    }
    let (_, rest) = bytes.split_at(size);
    Some(rest)
}

// How many bytes the key of a member's name has, which may have zeros; 0 where it is none.
#[inline(never)]
fn any_name_size(bytes: &[u8]) -> usize
    ensures found { (text more : List ℕ) → bytes.now ≡ text_key text ++ more
        → (0 < result) × (drop result bytes.now ≡ more) }
    ensures within { result ≤ length bytes.now }
    ensures not_over { 0 < result → NoMembersEnd bytes.now }
{
    if is_over(true, bytes) {
        return 0;
    }
    match after_text(bytes) {
        Some(rest) => bytes.len() - rest.len(),
        None => 0,
    }
}

/// The front of a name whose key is so many of the bytes.
#[inline(always)]
pub(crate) fn key_front(bytes: &[u8], size: usize) -> Front
    requires { (0 < size) × (size ≤ length bytes.now) }
    ensures front { IsKeyFront (take size bytes.now) result }
{
    let Some(chunk) = bytes.first_chunk::<8>() else {
        return first_byte(bytes);
    };
    let number = u64::from_be_bytes(*chunk);
    if size > 8 {
        return first_bytes(number, 8);
    }
    let low = 64 - 8 * size as u32;
    Front {
        number: number >> low,
        low,
        size: size as u32,
    }
}

// The first byte alone as a front, where few bytes are left.
#[inline(always)]
fn first_byte(bytes: &[u8]) -> Front
    requires { 0 < length bytes.now }
    ensures front { (size : ℕ) → 0 < size → IsKeyFront (take size bytes.now) result }
{
    first_bytes(u64::from(bytes[0]), 1)
}

/// How the name with this key, which has this front, compares with the one whose key the bytes begin with.
#[inline(always)]
pub(crate) fn compare_key(front: Front, key: &[u8], bytes: &[u8]) -> Ordering
    requires { IsKeyFront key.now front }
    ensures compares { (name : List ℕ) → key.now ≡ text_key name → ComparesName name bytes.now result }
    ensures not_over { (name : List ℕ) → key.now ≡ text_key name → result ≡ Equal → NoMembersEnd bytes.now }
{
    let Some(chunk) = bytes.first_chunk::<8>() else {
        return compare_keys(key, bytes);
    };
    let number = u64::from_be_bytes(*chunk) >> front.low;
    if number > front.number {
        return Ordering::Less;
    }
    if number < front.number {
        return Ordering::Greater;
    }
    if front.size > 0 {
        return Ordering::Equal;
    }
    compare_keys(key, bytes)
}

// The same where the first bytes may be the same.
#[inline(never)]
fn compare_keys(key: &[u8], bytes: &[u8]) -> Ordering
    ensures compares { (name : List ℕ) → key.now ≡ text_key name → ComparesName name bytes.now result }
    ensures not_over { (name : List ℕ) → key.now ≡ text_key name → result ≡ Equal → NoMembersEnd bytes.now }
{
    if bytes.len() < key.len() {
        return key.cmp(bytes);
    }
    let (first, _) = bytes.split_at(key.len());
    key.cmp(first)
}
