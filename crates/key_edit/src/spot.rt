//! Where a part is among the parts of an array or an object, or would be.

ghost use Rattle.std.specs.Prelude.{◌≡◌, ◌<◌, ◌≤◌, ◌++◌, Bool, IsTrue, List, ℕ, length, option_map, true, false, None, Option, IfOk, IfSome, MatchResult, MatchOption};
ghost use Rattle.jsonb_spec.specs.SortKey.Readable.{IsAnyNumber, IsReadable};
ghost use Rattle.jsonb_spec.specs.SortKey.AtKeys.{AtKey, AtParts};
ghost use Rattle.key_walk.specs.AtKeys.{AtItems, AtMembers};
ghost use Rattle.jsonb_spec.specs.SortKey.Open.{Open, members};
ghost use Rattle.jsonb_spec.specs.SortKey.{items_key};
ghost use Rattle.jsonb_spec.specs.Text.Range.{AreWithin, HaveWithin};
ghost use Rattle.jsonb_spec.specs.Tree.{Tree};
ghost use Rattle.jsonb_spec.specs.Edit.{Outcome, changed_at_step, changed_member};
ghost use Rattle.key_edit.specs.Spots.{changed_open, items_from, FindsItems, OpenSpotIn, OpenWithin, Occurs, OccursFirst, ReportsBehind};

use crate::step::step_of;
use key_walk::find::{NoKey, compare_name};
use key_walk::skip::{after_end, after_key, after_name};
use std::cmp::Ordering;

/// Where a part is in the bytes, or would be: all that is left of them from its name on, which an item has none
/// of, and from its value on. Where no part is there, both are what follows the slot.
#[derive(Clone, Copy)]
pub struct Spot<'k> {
    pub found: bool,
    pub entry: &'k [u8],
    pub value: &'k [u8],
}

/// A slot where no part is, before what is left.
pub(crate) fn no_part(rest: &[u8]) -> Spot<'_>
    ensures { (result.found ≡ false) × (result.entry.now ≡ rest.now) }
{
    Spot {
        found: false,
        entry: rest,
        value: rest,
    }
}

/// The bytes behind the part at the spot, which is walked to its end, or behind the slot where no part is.
pub(crate) fn behind_part<'k>(spot: &Spot<'k>) -> Result<&'k [u8], NoKey>
    ensures behind { (object : Bool) → (name more : List ℕ) → (there : Option Tree) → IfSome there IsReadable
        → Occurs object name spot.now more there → ReportsBehind more result }
{
    if spot.found {
        behind_key(spot.value)
    } else {
        Ok(spot.entry)
    }
}

/// The bytes behind the key that they begin with.
pub(crate) fn behind_key(bytes: &[u8]) -> Result<&[u8], NoKey>
    ensures behind { AtKey bytes.now (λ t more. ReportsBehind more result) }
    ensures shorter { IfOk result (λ rest. length rest.now < length bytes.now) }
{
    match after_key(bytes) {
        Some(rest) => Ok(rest),
        None => Err(NoKey),
    }
}

/// The bytes from the value of the first part on that is left of an object or an array; `None` where no part is left.
pub(crate) fn first_value(object: bool, left: &[u8]) -> Result<Option<&[u8]>, NoKey>
    ensures first { AtParts object left.now (λ o more. OccursFirst o more result) }
    ensures within { IfOk result (λ answer. IfSome answer (λ value. length value.now ≤ length left.now)) }
{
    match after_end(object, left) {
        Some(_) => Ok(None),
        None => match after_name(object, left) {
            Some(value) => Ok(Some(value)),
            None => Err(NoKey),
        },
    }
}

// Where the member of that name is among the members, or would be.
#[inline(never)]
pub(crate) fn member_spot<'k>(members: &'k [u8], name: &[u8]) -> Result<Spot<'k>, NoKey>
    ensures spot { AtMembers members.now (λ ms more. (depth_left : ℕ) → HaveWithin IsAnyNumber ms depth_left → MatchResult result
        (OpenSpotIn (λ change. option_map Open.members (changed_member change name.now ms)) true name.now members.now
        more depth_left) (λ e. ⊥)) }
{
    let mut rest = members;
    'members: loop {
        let Some(value) = first_value(true, rest)? else {
            return Ok(no_part(rest));
        };
        let (order, _) = compare_name(name, rest);
        match order {
            Ordering::Less => return Ok(no_part(rest)),
            Ordering::Equal => {
                return Ok(Spot {
                    found: true,
                    entry: rest,
                    value,
                });
            }
            Ordering::Greater => {}
        }
        rest = behind_key(value)?;
    }
}

// The items behind so many; the end where there are fewer.
#[inline(never)]
pub(crate) fn pass_items(items: &[u8], count: usize) -> Result<&[u8], NoKey>
    ensures behind { AtItems items.now (λ ts more. ReportsBehind (items_key (items_from count ts) ++ more) result) }
{
    let mut rest = items;
    let mut left = count;
    'items: while left > 0 {
        let Some(value) = first_value(false, rest)? else {
            return Ok(rest);
        };
        rest = behind_key(value)?;
        left -= 1;
    }
    Ok(rest)
}

// The items from the one on that is so many from the end, where 1 is the last; `None` where there are fewer. All are
// walked once: what is left after each `back` of them is held, and what was held before; the item is fewer than `back`
// behind that.
#[inline(never)]
fn items_back(items: &[u8], back: usize) -> Result<Option<&[u8]>, NoKey>
    requires { 0 < back }
    ensures found { FindsItems items.now (true, back) result }
{
    let mut rest = items;
    let mut later = items;
    let mut earlier: Option<&[u8]> = None;
    let mut since: usize = 0;
    'items: loop {
        let Some(value) = first_value(false, rest)? else {
            let Some(start) = earlier else {
                return Ok(None);
            };
            let found = pass_items(start, since)?;
            return Ok(Some(found));
        };
        rest = behind_key(value)?;
        since += 1;
        if since == back {
            earlier = Some(later);
            later = rest;
            since = 0;
        }
    }
}

/// The items from the one of that index on, which counts from the end or not; `None` where it is before the first.
#[inline(always)]
pub(crate) fn items_at(items: &[u8], from_end: bool, number: usize) -> Result<Option<&[u8]>, NoKey>
    requires { IsTrue from_end → 0 < number }
    ensures found { FindsItems items.now (from_end, number) result }
{
    if from_end {
        return items_back(items, number);
    }
    let rest = pass_items(items, number)?;
    Ok(Some(rest))
}

// Where the item of that index is, which counts from the end or not, or would be.
fn item_spot(items: &[u8], from_end: bool, number: usize) -> Result<Spot<'_>, NoKey>
    requires { IsTrue from_end → 0 < number }
    ensures spot { AtItems items.now (λ ts more. (depth_left : ℕ) → AreWithin IsAnyNumber ts depth_left
        → (name : List ℕ) → MatchResult result (OpenSpotIn (λ change.
        option_map Open.items (changed_at_step change ts (from_end, number))) false name items.now more depth_left)
        (λ e. ⊥)) }
{
    let Some(rest) = items_at(items, from_end, number)? else {
        return Ok(no_part(items));
    };
    let Some(value) = first_value(false, rest)? else {
        return Ok(no_part(rest));
    };
    Ok(Spot {
        found: true,
        entry: rest,
        value,
    })
}

/// Where the member of that name is, or the item of that index; `None` where the name encodes no index.
pub(crate) fn part_spot<'k>(
    object: bool,
    parts: &'k [u8],
    name: &str,
) -> Result<Option<Spot<'k>>, NoKey>
    ensures spot { AtParts object parts.now (λ o more. (depth_left : ℕ) → OpenWithin o depth_left → MatchResult result
        (λ answer. MatchOption answer ((change : Option Tree → Outcome) → changed_open change name.now o ≡ None)
        (OpenSpotIn (λ change. changed_open change name.now o) object name.now parts.now more depth_left)) (λ e. ⊥)) }
{
    if object {
        let spot = member_spot(parts, name.as_bytes())?;
        return Ok(Some(spot));
    }
    let Some((from_end, number)) = step_of(name) else {
        return Ok(None);
    };
    let spot = item_spot(parts, from_end, number)?;
    Ok(Some(spot))
}
