//! The slot in a key that a path leads to.

ghost use Rattle.std.specs.Prelude.{◌≡◌, ◌≤◌, ◌+◌, map, string_bytes, Option, None, IfOk, IfSome, MatchResult, MatchOption};
ghost use Rattle.jsonb_spec.specs.SortKey.Readable.{IsAnyNumber};
ghost use Rattle.jsonb_spec.specs.SortKey.AtKeys.{AtKey, OfKey};
ghost use Rattle.jsonb_spec.specs.Text.Range.{IsWithin};
ghost use Rattle.jsonb_spec.specs.Tree.{Tree};
ghost use Rattle.jsonb_spec.specs.Edit.{Outcome, changed_at, changed_at_member, changed_part};
ghost use Rattle.key_edit.specs.Insert.{changed_within, IsPartWithin, SlotBefore, SpotBefore};
ghost use Rattle.key_edit.specs.Spots.{changed_end, FindsSlot};

use crate::spot::{Spot, behind_part, member_spot, no_part, part_spot};
use key_walk::find::{NoKey, open_key};
use key_walk::skip::MAX_DEPTH;

/// Where in a key the part at a path is, or would be; what is behind it; whether that is in an object; the last
/// name of the path; and how many arrays and objects a part may have in one another there.
#[derive(Clone, Copy)]
pub struct Slot<'k, 'n> {
    pub spot: Spot<'k>,
    pub behind: &'k [u8],
    pub object: bool,
    pub name: &'n str,
    pub depth_left: usize,
}

/// The slot that the path leads to; `None` where there is none, since an earlier name leads nowhere, the last one is
/// no index of an array, or there is no name. Of an earlier part only the beginning is looked for.
pub fn find_slot<'k, 'n>(key: &'k [u8], names: &'n [String]) -> Result<Option<Slot<'k, 'n>>, NoKey>
    ensures slot { OfKey key.now (λ t. MatchResult result
        (FindsSlot (λ change. changed_at change (map string_bytes names.now) t) key.now) (λ e. ⊥)) }
    ensures space { IfOk result (λ answer. IfSome answer (λ slot. slot.depth_left ≤ 511)) }
{
    let Some((name, before)) = names.split_last() else {
        return Ok(None);
    };
    let Some((bytes, depth_left)) = part_from(key, before)? else {
        return Ok(None);
    };
    slot_in(bytes, name.as_str(), depth_left)
}

// The bytes from the part on that the path leads to, which is the value where it has no names, and how many arrays and
// objects may be in one another there; `None` where it leads nowhere. Of each part only the beginning is looked for.
pub(crate) fn part_from<'k>(
    key: &'k [u8],
    names: &[String],
) -> Result<Option<(&'k [u8], usize)>, NoKey>
    ensures found { OfKey key.now (λ t. MatchResult result (λ answer. MatchOption answer
        ((change : Tree → Option Tree) → changed_within change (map string_bytes names.now) t ≡ None)
        (λ r. IsPartWithin t (map string_bytes names.now) key.now r.0.now r.1)) (λ e. ⊥)) }
    ensures space { IfOk result (λ answer. IfSome answer (λ r. r.1 ≤ 512)) }
{
    let mut part = key;
    let mut left = names;
    let mut depth_left = MAX_DEPTH;
    'names: while let Some((name, others)) = left.split_first() {
        let Some((spot, _, inner)) = spot_in(part, name.as_str(), depth_left)? else {
            return Ok(None);
        };
        if !spot.found {
            return Ok(None);
        }
        part = spot.value;
        left = others;
        depth_left = inner;
    }
    Ok(Some((part, depth_left)))
}

// The slot in the value whose key the bytes begin with; `None` as of `spot_in`.
pub(crate) fn slot_in<'k, 'n>(
    bytes: &'k [u8],
    name: &'n str,
    depth_left: usize,
) -> Result<Option<Slot<'k, 'n>>, NoKey>
    ensures slot { AtKey bytes.now (λ t more. IsWithin IsAnyNumber t depth_left → MatchResult result
        (λ answer. MatchOption answer ((change : Option Tree → Outcome) → changed_part change name.now t ≡ None)
        (SlotBefore more (λ change. changed_part change name.now t) bytes.now depth_left)) (λ e. ⊥)) }
    ensures space { IfOk result (λ answer. IfSome answer (λ slot. slot.depth_left + 1 ≡ depth_left)) }
{
    let Some((spot, object, inner)) = spot_in(bytes, name, depth_left)? else {
        return Ok(None);
    };
    let behind = behind_part(&spot)?;
    Ok(Some(Slot {
        spot,
        behind,
        object,
        name,
        depth_left: inner,
    }))
}

// The spot in the value whose key the bytes begin with, whether that is an object, and how many arrays and objects a
// part may have in one another there; `None` where it is neither an array nor an object, or the name encodes no index
// of an array.
#[inline(always)]
fn spot_in<'k>(
    bytes: &'k [u8],
    name: &str,
    depth_left: usize,
) -> Result<Option<(Spot<'k>, bool, usize)>, NoKey>
    ensures spot { AtKey bytes.now (λ t more. IsWithin IsAnyNumber t depth_left → MatchResult result
        (λ answer. MatchOption answer ((change : Option Tree → Outcome) → changed_part change name.now t ≡ None)
        (λ r. SpotBefore more (λ change. changed_part change name.now t) r.1 name.now bytes.now depth_left r.2 r.0))
        (λ e. ⊥)) }
    ensures space { IfOk result (λ answer. IfSome answer (λ r. r.2 + 1 ≡ depth_left)) }
{
    let Some((object, parts)) = open_key(bytes)? else {
        return Ok(None);
    };
    let Some(inner) = depth_left.checked_sub(1) else {
        return Err(NoKey);
    };
    let Some(spot) = part_spot(object, parts, name)? else {
        return Ok(None);
    };
    Ok(Some((spot, object, inner)))
}

/// Where the member of that name is in an object, or would be; `None` for another value.
pub fn member_slot<'k, 'n>(key: &'k [u8], name: &'n str) -> Result<Option<Slot<'k, 'n>>, NoKey>
    ensures slot { OfKey key.now (λ t. MatchResult result
        (FindsSlot (λ change. changed_at_member change name.now t) key.now) (λ e. ⊥)) }
    ensures space { IfOk result (λ answer. IfSome answer (λ slot. slot.depth_left ≤ 511)) }
{
    let Some((object, members)) = open_key(key)? else {
        return Ok(None);
    };
    if !object {
        return Ok(None);
    }
    let spot = member_spot(members, name.as_bytes())?;
    let behind = behind_part(&spot)?;
    Ok(Some(Slot {
        spot,
        behind,
        object: true,
        name,
        depth_left: MAX_DEPTH - 1,
    }))
}

/// The slot behind the last item of an array; `None` for another value.
#[inline(always)]
pub fn end_slot<'k, 'n>(key: &'k [u8]) -> Result<Option<Slot<'k, 'n>>, NoKey>
    ensures slot { OfKey key.now (λ t. MatchResult result
        (FindsSlot (λ change. changed_end change t) key.now) (λ e. ⊥)) }
    ensures space { IfOk result (λ answer. IfSome answer (λ slot. slot.depth_left ≤ 511)) }
{
    let Some((object, items)) = open_key(key)? else {
        return Ok(None);
    };
    if object {
        return Ok(None);
    }
    let Some((_, front)) = items.split_last() else {
        return Err(NoKey);
    };
    let (_, behind) = items.split_at(front.len());
    Ok(Some(Slot {
        spot: no_part(behind),
        behind,
        object: false,
        name: "",
        depth_left: MAX_DEPTH - 1,
    }))
}
