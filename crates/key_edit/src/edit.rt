//! A part put at a slot of a key.

ghost use Rattle.std.specs.Prelude.{◌≡◌, ◌≤◌, ◌++◌, List, ℕ, Option, None, MatchOption};
ghost use Rattle.jsonb_spec.specs.SortKey.Readable.{IsReadable};
ghost use Rattle.jsonb_spec.specs.SortKey.{key_of};
ghost use Rattle.jsonb_spec.specs.Text.Appending.{AppendsAllOrNothing, Extends};
ghost use Rattle.jsonb_spec.specs.Tree.{Tree};
ghost use Rattle.jsonb_spec.specs.Edit.{Outcome, becomes, PreservesOnError};
ghost use Rattle.key_edit.specs.Edit.{AppendsKey};
ghost use Rattle.jsonb_spec.specs.SortKey.Open.{name_key};
ghost use Rattle.key_edit.specs.Spots.{SlotIn, Occurs};

use crate::error::EditError;
use crate::fit::fits;
use crate::slot::Slot;
use crate::splice::{splice, splice_named};
use key_walk::walk::front;
use std::alloc::AllocError;

/// Appends the key of the value with this part, of which the key is passed, at the slot.
///
/// # Errors
///
/// As of `append_merged`.
#[inline(always)]
pub fn put_part(out: &mut Vec<u8>, key: &[u8], slot: &Slot, part: &[u8]) -> Result<(), EditError>
    requires { slot.now.depth_left ≤ 511 }
    ensures put { (changed : (Option Tree → Outcome) → Option Tree) → (s : SlotIn changed key.now slot.now)
        → (u : Tree) → IsReadable u → part.now ≡ key_of u → (change : Option Tree → Outcome)
        → change s.0.there ≡ becomes u → MatchOption (changed change) ⊥ (λ v. AppendsKey v result out.old out.new) }
    ensures preserves { PreservesOnError result out.old out.new }
    ensures retained { Extends out.old.items out.new.items }
{
    if !fits(part, slot.depth_left)? {
        return Err(EditError::TooDeep);
    }
    if write_part(out, key, slot, part).is_err() {
        return Err(EditError::OutOfMemory);
    }
    Ok(())
}

// Appends what is before the slot, the part with its name, and what is behind the slot.
#[inline(always)]
fn write_part(out: &mut Vec<u8>, key: &[u8], slot: &Slot, part: &[u8]) -> Result<(), AllocError>
    ensures written { (there : Option Tree) → (name front : List ℕ) → key.now ≡ front ++ slot.now.spot.entry.now
        → Occurs slot.now.object name slot.now.spot slot.now.behind.now there
        → (there ≡ None → name ≡ slot.now.name.now) → AppendsAllOrNothing result out.old out.new
        (front ++ (name_key slot.now.object name ++ (part.now ++ slot.now.behind.now))) }
    ensures preserves { PreservesOnError result out.old out.new }
    ensures retained { Extends out.old.items out.new.items }
{
    let spot = slot.spot;
    if spot.found {
        return splice(out, front(key, spot.value), &[], part, slot.behind);
    }
    if slot.object {
        return splice_named(out, front(key, spot.entry), slot.name, part, slot.behind);
    }
    splice(out, front(key, spot.entry), &[], part, slot.behind)
}
