//! The slot at which a part is inserted: between the items of an array, or among the members of an object.

ghost use Rattle.std.specs.Prelude.{◌≡◌, ◌<◌, ◌≤◌, ◌+◌, ◌++◌, List, ℕ, length, map, string_bytes, Bool, Option, None, Some, IfOk, IfSome, IsTrue, MatchBool, MatchResult, MatchOption};
ghost use Rattle.jsonb_spec.specs.SortKey.Readable.{IsAnyNumber};
ghost use Rattle.key_walk.specs.AtKeys.{AtItems};
ghost use Rattle.jsonb_spec.specs.SortKey.AtKeys.{AtKey, OfKey};
ghost use Rattle.jsonb_spec.specs.Accessors.{trees_len};
ghost use Rattle.jsonb_spec.specs.Proper.{AreProper};
ghost use Rattle.jsonb_spec.specs.SortKey.{items_key, key_of};
ghost use Rattle.jsonb_spec.specs.Text.Range.{AreWithin, IsWithin};
ghost use Rattle.jsonb_spec.specs.Tree.{Tree, Trees, array};
ghost use Rattle.jsonb_spec.specs.Edit.{Outcome, step_named};
ghost use Rattle.jsonb_spec.specs.Edit.Insert.{changed_slot, changed_slot_at, slot_index};
ghost use Rattle.key_edit.specs.Insert.{SlotBefore};
ghost use Rattle.key_edit.specs.Spots.{items_from, FindsSlot, ReportsBehind};

use crate::slot::{Slot, part_from, slot_in};
use crate::spot::{items_at, no_part, pass_items};
use crate::step::step_of;
use key_walk::find::NoKey;
use key_walk::walk::items_of;

/// The slot at which a part is inserted that the path leads to. In an array it is before the item of the last name's
/// index, or behind it where `after` is true; at the end where there are fewer items; and before all of them where there
/// are fewer than an index counts from the end. In an object it is that of the member of the last name, which may be
/// there. `None` where there is none, as of `find_slot`.
pub fn find_insertion<'k, 'n>(
    key: &'k [u8],
    names: &'n [String],
    after: bool,
) -> Result<Option<Slot<'k, 'n>>, NoKey>
    ensures slot { OfKey key.now (λ t. MatchResult result
        (FindsSlot (λ change. changed_slot_at change after (map string_bytes names.now) t) key.now) (λ e. ⊥)) }
    ensures space { IfOk result (λ answer. IfSome answer (λ slot. slot.depth_left ≤ 511)) }
{
    let Some((name, before)) = names.split_last() else {
        return Ok(None);
    };
    let Some((bytes, depth_left)) = part_from(key, before)? else {
        return Ok(None);
    };
    insertion_in(bytes, name.as_str(), after, depth_left)
}

// The slot in the value whose key the bytes begin with; `None` where it is neither an array nor an object, or the name
// encodes no index of an array.
fn insertion_in<'k, 'n>(
    bytes: &'k [u8],
    name: &'n str,
    after: bool,
    depth_left: usize,
) -> Result<Option<Slot<'k, 'n>>, NoKey>
    ensures slot { AtKey bytes.now (λ t more. IsWithin IsAnyNumber t depth_left → MatchResult result
        (λ answer. MatchOption answer ((change : Option Tree → Outcome) → changed_slot change after name.now t ≡ None)
        (SlotBefore more (λ change. changed_slot change after name.now t) bytes.now depth_left)) (λ e. ⊥)) }
    ensures space { IfOk result (λ answer. IfSome answer (λ slot. slot.depth_left + 1 ≡ depth_left)) }
{
    let Some(items) = items_of(bytes) else {
        return slot_in(bytes, name, depth_left);
    };
    let Some(inner) = depth_left.checked_sub(1) else {
        return Err(NoKey);
    };
    let Some((from_end, number)) = step_of(name) else {
        return Ok(None);
    };
    let behind = behind_slot(items, from_end, number, after)?;
    Ok(Some(Slot {
        spot: no_part(behind),
        behind,
        object: false,
        name,
        depth_left: inner,
    }))
}

// The items behind the slot.
fn behind_slot(items: &[u8], from_end: bool, number: usize, after: bool) -> Result<&[u8], NoKey>
    requires { IsTrue from_end → 0 < number }
    ensures behind { AtItems items.now (λ ts more. ReportsBehind
        (items_key (items_from (slot_index after (trees_len ts) (from_end, number)) ts) ++ more) result) }
{
    let Some(rest) = items_at(items, from_end, number)? else {
        return Ok(items);
    };
    if after { pass_items(rest, 1) } else { Ok(rest) }
}
