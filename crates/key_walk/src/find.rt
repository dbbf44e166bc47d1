//! Parts of keys where they are in the bytes, and how many parts there are.

ghost use Rattle.std.specs.Prelude.{◌≡◌, ◌<◌, ◌≤◌, ◌+◌, ◌++◌, ◌∷◌, List, ℕ, length, map, string_bytes, IfNone, IfOk, IfSome, MatchResult, Ok, Option};
ghost use Rattle.std.specs.Option.{option_and_then};
ghost use Rattle.std.specs.Str.{bytes_eq};
ghost use Rattle.jsonb_spec.specs.SortKey.Readable.{IsAnyNumber};
ghost use Rattle.jsonb_spec.specs.Path.{IsPath, IsPlainPath};
ghost use Rattle.jsonb_spec.specs.PartAt.{child_at, part_at};
ghost use Rattle.jsonb_spec.specs.SortKey.Found.{count_of, item_back, item_from, IsRange, PartOccurs};
ghost use Rattle.key_walk.specs.Found.{open_len, Finds, IsNext, Opens};
ghost use Rattle.key_walk.specs.AtKeys.{AtItems, AtMembers, FindsPart, FindsWithin};
ghost use Rattle.key_walk.specs.Passing.{PassesTo};
ghost use Rattle.jsonb_spec.specs.SortKey.AtKeys.{AtKey, AtParts, ReportsOrder};
ghost use Rattle.jsonb_spec.specs.SortKey.Open.{opening_byte};
ghost use Rattle.jsonb_spec.specs.Accessors.{find_member, get_by_name, item_at};
ghost use Rattle.jsonb_spec.specs.Keys.{KeysAscend};
ghost use Rattle.jsonb_spec.specs.Order.{bytes_cmp};
ghost use Rattle.jsonb_spec.specs.Proper.{HaveProperParts};
ghost use Rattle.jsonb_spec.specs.SortKey.{key_of, members_key, text_key};
ghost use Rattle.jsonb_spec.specs.Text.Range.{HaveWithin};
ghost use Rattle.jsonb_spec.specs.Tree.{Tree, Members};

use crate::names::{NO_FRONT, after_front, after_member_name, compare_wanted, front_of};
use crate::pass::Passed;
use crate::skip::{after_key, after_name, is_over, opening};
use crate::walk::{kind_of, members_of};
use jsonb_path::{index_of, plain_key};
use key_value::text::{read_byte, skip_pair};
use std::cmp::Ordering;

/// The bytes aren't the sort key of a value of JSON's kinds with at most 512 nested arrays and objects.
#[derive(Clone, Copy, Debug, PartialEq, Eq, Drop)]
pub struct NoKey;

// How many bytes a name has at most whose front mostly decides.
const SHORT: usize = 8;

/// Whether the key is of an object, and what is behind its first byte; `None` where it is of neither an object nor
/// an array.
///
/// # Errors
///
/// `NoKey` where the bytes begin with no key.
pub fn open_key(key: &[u8]) -> Result<Option<(bool, &[u8])>, NoKey>
    ensures opens { AtKey key.now (λ t more. Opens t more result) }
    ensures some { IfOk result (λ answer. IfSome answer (λ r. key.now ≡ opening_byte r.0 ∷ r.1.now)) }
{
    let Some((first, parts)) = key.split_first() else {
        return Err(NoKey);
    };
    if let Some(object) = opening(*first) {
        return Ok(Some((object, parts)));
    }
    match kind_of(key) {
        Some(_) => Ok(None),
        None => Err(NoKey),
    }
}

/// How many items an array has, or members an object; `None` of any other value.
///
/// # Errors
///
/// `NoKey` where the bytes begin with no key.
pub fn count_parts(key: &[u8]) -> Result<Option<usize>, NoKey>
    ensures counted { AtKey key.now (λ t more. result ≡ Ok (count_of t)) }
    ensures within { IfOk result (λ answer. IfSome answer (λ count. count ≤ length key.now)) }
{
    let Some((object, parts)) = open_key(key)? else {
        return Ok(None);
    };
    let count = count_left(object, parts)?;
    Ok(Some(count))
}

// How many parts are before the end of the object or the array.
fn count_left(object: bool, bytes: &[u8]) -> Result<usize, NoKey>
    ensures counted { AtParts object bytes.now (λ o more. result ≡ Ok (open_len o)) }
    ensures within { IfOk result (λ count. count ≤ length bytes.now) }
{
    let mut rest = bytes;
    let mut count: usize = 0;
    'parts: loop {
        if is_over(object, rest) {
            return Ok(count);
        }
        let Some(value) = after_name(object, rest) else {
            return Err(NoKey);
        };
        let Some(others) = after_key(value) else {
            return Err(NoKey);
        };
        rest = others;
        count += 1;
    }
}

/// The bytes from the value of the member of that name on; `None` where an object has none, or for any other value.
///
/// # Errors
///
/// `NoKey` where the bytes begin with no key.
pub fn find_member<'k>(key: &'k [u8], name: &[u8]) -> Result<Option<&'k [u8]>, NoKey>
    ensures finds { FindsPart key.now (get_by_name name.now) result }
{
    let Some((object, parts)) = open_key(key)? else {
        return Ok(None);
    };
    if object {
        return find_name(parts, name);
    }
    Ok(None)
}

/// The bytes from the item of that index on; `None` where an array has none, or for any other value. A negative index
/// counts from the end, where -1 is the last item.
///
/// # Errors
///
/// `NoKey` where the bytes begin with no key.
pub fn find_item(key: &[u8], index: i64) -> Result<Option<&[u8]>, NoKey>
    ensures finds { FindsPart key.now (item_from index) result }
{
    let Some((object, parts)) = open_key(key)? else {
        return Ok(None);
    };
    if object {
        return Ok(None);
    }
    let steps = index.unsigned_abs() as usize;
    if index < 0 {
        item_from_end(parts, steps)
    } else {
        item_at(parts, steps)
    }
}

/// The bytes from the part at the path of these names on; `None` where there is none.
///
/// # Errors
///
/// `NoKey` where the bytes begin with no key.
pub fn find_part<'k>(key: &'k [u8], names: &[String]) -> Result<Option<&'k [u8]>, NoKey>
    ensures finds { FindsPart key.now (part_at (map string_bytes names.now)) result }
{
    let mut part = key;
    let mut left = names;
    'names: while let Some((name, others)) = left.split_first() {
        let Some(inner) = find_child(part, name.as_str())? else {
            return Ok(None);
        };
        part = inner;
        left = others;
    }
    Ok(Some(part))
}

/// The bytes from the part at a path on (RFC 6901), as `find_part` finds them, with nothing copied of the path; `None`
/// instead of them where an escape is in a key of the path, or where the bytes aren't a path.
#[inline(always)]
pub fn find_plain_part<'k>(key: &'k [u8], path: &[u8]) -> Option<Result<Option<&'k [u8]>, NoKey>>
    ensures path { IfSome result (λ _. (names : List (List ℕ)) × IsPath path.now names) }
    ensures found { IfSome result (λ found. AtKey key.now (λ t more.
        (names : List (List ℕ)) → IsPath path.now names → Finds key.now (part_at names t) found)) }
    ensures within { IfSome result (FindsWithin key.now) }
    ensures none { IfNone result ((names : List (List ℕ)) → IsPlainPath path.now names → ⊥) }
{
    let mut found = Ok(Some(key));
    let mut rest = path;
    'names: while !rest.is_empty() {
        let (name, others) = plain_key(rest)?;
        found = child_of(found, name);
        rest = others;
    }
    Some(found)
}

// What is found of the child of a part that was found.
#[inline(always)]
fn child_of<'k>(
    found: Result<Option<&'k [u8]>, NoKey>,
    name: &str,
) -> Result<Option<&'k [u8]>, NoKey>
    ensures found { (bytes : List ℕ) → (part : Option Tree) → Finds bytes part found.entry
        → Finds bytes (option_and_then (child_at name.now) part) result }
    ensures within { (bytes : List ℕ) → FindsWithin bytes found.entry → FindsWithin bytes result }
{
    let Some(part) = found? else {
        return Ok(None);
    };
    find_child(part, name)
}

// The bytes from the member of that name on, or from the item of that index on.
#[inline(always)]
fn find_child<'k>(key: &'k [u8], name: &str) -> Result<Option<&'k [u8]>, NoKey>
    ensures finds { FindsPart key.now (child_at name.now) result }
{
    if name.len() <= SHORT {
        if let Some(members) = members_of(key) {
            return member_from::<false>(members, name.as_bytes());
        }
    }
    find_any_child(key, name)
}

// The same of any value.
#[inline(never)]
fn find_any_child<'k>(key: &'k [u8], name: &str) -> Result<Option<&'k [u8]>, NoKey>
    ensures finds { FindsPart key.now (child_at name.now) result }
{
    let Some((object, parts)) = open_key(key)? else {
        return Ok(None);
    };
    if object {
        return find_name(parts, name.as_bytes());
    }
    match index_of(name) {
        Some(index) => item_at(parts, index),
        None => Ok(None),
    }
}

// The bytes from the value of the member of that name on.
#[inline(never)]
fn find_name<'k>(members: &'k [u8], name: &[u8]) -> Result<Option<&'k [u8]>, NoKey>
    ensures found { (ms : Members) → KeysAscend ms → HaveProperParts ms → HaveWithin IsAnyNumber ms 511
        → (more : List ℕ) → members.now ≡ members_key ms ++ more
        → Finds members.now (find_member (bytes_eq name.now) ms) result }
    ensures within { FindsWithin members.now result }
{
    member_from::<true>(members, name)
}

// The bytes from the value of the member of that name on, which is compared so if it may be long.
#[inline(always)]
fn member_from<'k, const LONG: bool>(
    members: &'k [u8],
    name: &[u8],
) -> Result<Option<&'k [u8]>, NoKey>
    ensures found { (ms : Members) → KeysAscend ms → HaveProperParts ms → HaveWithin IsAnyNumber ms 511
        → (more : List ℕ) → members.now ≡ members_key ms ++ more
        → Finds members.now (find_member (bytes_eq name.now) ms) result }
    ensures within { FindsWithin members.now result }
{
    let passed = members_from::<LONG>(members, name)?;
    Ok(passed.same)
}

/// The members from the first one on whose name isn't below this one, which is compared so if it may be long.
///
/// # Errors
///
/// `NoKey` where a name, a value or the end is missing.
#[inline(always)]
pub fn members_from<'k, const LONG: bool>(
    members: &'k [u8],
    name: &[u8],
) -> Result<Passed<'k>, NoKey>
    ensures passed { AtMembers members.now (λ ms more.
        MatchResult result (PassesTo members.now name.now ms more) (λ e. ⊥)) }
    ensures within { IfOk result (λ r. (length r.rest.now ≤ length members.now)
        × IfSome r.same (λ value. length value.now ≤ length members.now)) }
{
    let front = front_of(name);
    let mut next = NO_FRONT;
    let mut rest = members;
    'members: loop {
        match compare_wanted::<LONG>(front, &mut next, name, rest) {
            Ordering::Less => return Ok(Passed { rest, same: None }),
            Ordering::Equal => {
                let Some(value) = after_front(front, rest) else {
                    return Err(NoKey);
                };
                return Ok(Passed {
                    rest,
                    same: Some(value),
                });
            }
            Ordering::Greater => {}
        }
        let Some(value) = after_member_name(rest) else {
            if is_over(true, rest) {
                return Ok(Passed { rest, same: None });
            }
            return Err(NoKey);
        };
        let Some(others) = after_key(value) else {
            return Err(NoKey);
        };
        rest = others;
    }
}

// The bytes from that item on.
fn item_at(items: &[u8], index: usize) -> Result<Option<&[u8]>, NoKey>
    ensures found { AtItems items.now (λ ts more. Finds items.now (item_at ts index) result) }
    ensures within { FindsWithin items.now result }
{
    let mut rest = items;
    let mut before = index;
    'items: loop {
        if is_over(false, rest) {
            return Ok(None);
        }
        let Some(less) = before.checked_sub(1) else {
            return Ok(Some(rest));
        };
        let Some(others) = after_key(rest) else {
            return Err(NoKey);
        };
        rest = others;
        before = less;
    }
}

// The bytes from that item on, counted from the end: 1 is the last.
fn item_from_end(items: &[u8], back: usize) -> Result<Option<&[u8]>, NoKey>
    ensures found { AtItems items.now (λ ts more. Finds items.now (item_back ts back) result) }
    ensures within { FindsWithin items.now result }
{
    let count = count_left(false, items)?;
    match count.checked_sub(back) {
        Some(index) => item_at(items, index),
        None => Ok(None),
    }
}

/// How the name compares with the one whose key the bytes begin with, and what is behind that where they are equal.
pub fn compare_name<'k>(name: &[u8], bytes: &'k [u8]) -> (Ordering, &'k [u8])
    ensures compares { (text more : List ℕ) → bytes.now ≡ text_key text ++ more
        → ReportsOrder (bytes_cmp name.now text) more result }
    ensures within { length result.1.now ≤ length bytes.now }
{
    let mut rest = bytes;
    let mut left = name;
    'bytes: while let Some((wanted, others)) = left.split_first() {
        let Some((byte, more)) = read_byte(rest) else {
            return (Ordering::Greater, rest);
        };
        if *wanted != byte {
            return (wanted.cmp(&byte), rest);
        }
        rest = more;
        left = others;
    }
    match skip_pair(1, rest) {
        Some(after) => (Ordering::Equal, after),
        None => (Ordering::Less, rest),
    }
}

/// The first part that is left of an object or an array, whose keys the bytes begin with: the bytes from its value on,
/// before which the name of a member is, and the bytes behind it. `None` where no part is left.
///
/// # Errors
///
/// `NoKey` where no key of a part is left, nor the end.
pub fn next_part(object: bool, left: &[u8]) -> Result<Option<(&[u8], &[u8])>, NoKey>
    ensures next { AtParts object left.now (λ o more. IsNext o more result) }
    ensures within { IfOk result (λ answer. IfSome answer (λ r. (length r.0.now ≤ length left.now)
        × (length r.1.now < length r.0.now))) }
{
    if is_over(object, left) {
        return Ok(None);
    }
    let Some(value) = after_name(object, left) else {
        return Err(NoKey);
    };
    let Some(others) = after_key(value) else {
        return Err(NoKey);
    };
    Ok(Some((value, others)))
}

/// Where in the key its last bytes are, and how long the key is that these begin with: an offset and a size.
///
/// # Errors
///
/// `NoKey` where the last bytes begin with no key.
#[inline(always)]
pub fn range_of(key: &[u8], part: &[u8]) -> Result<(usize, usize), NoKey>
    ensures range { (t : Tree) → PartOccurs key.now part.now t
        → MatchResult result (λ r. IsRange key.now r.0 r.1 (key_of t)) (λ e. ⊥) }
    ensures within { IfOk result (λ r. r.0 + r.1 ≤ length key.now) }
{
    let Some(rest) = after_key(part) else {
        return Err(NoKey);
    };
    let Some(offset) = key.len().checked_sub(part.len()) else {
        return Err(NoKey);
    };
    Ok((offset, part.len() - rest.len()))
}
