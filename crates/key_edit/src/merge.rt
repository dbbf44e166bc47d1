//! Two keys merged.

ghost use Rattle.std.specs.Prelude.{◌≡◌, ◌+◌, ◌<◌, ◌≤◌, ◌++◌, ◌∷◌, [], List, ℕ, length, true, false, IfOk, MatchBool, MatchOption, MatchResult, Ok};
ghost use Rattle.std.specs.Vec.{vec_capacity};
ghost use Rattle.jsonb_spec.specs.SortKey.Readable.{IsAnyNumber, IsReadable};
ghost use Rattle.jsonb_spec.specs.SortKey.Checked.{HaveReadable};
ghost use Rattle.jsonb_spec.specs.Order.{bytes_cmp};
ghost use Rattle.jsonb_spec.specs.SortKey.{key_of, members_key, text_key};
ghost use Rattle.jsonb_spec.specs.SortKey.Kind as kind;
ghost use Rattle.jsonb_spec.specs.Text.Appending.{Extends};
ghost use Rattle.jsonb_spec.specs.Text.Range.{IsWithin, AreWithin};
ghost use Rattle.jsonb_spec.specs.Tree.{Tree, Members, array, more_members, no_members, object};
ghost use Rattle.jsonb_spec.specs.Edit.{as_items, joined_items, merge, PreservesOnError};
ghost use Rattle.key_edit.specs.Edit.{AppendsBoth, AppendsMembersOfBoth, FitsInside};
ghost use Rattle.jsonb_spec.specs.SortKey.AtKeys.{OfKey};
ghost use Rattle.key_edit.specs.Merging.{keys_of_items, ComeFirst, IsStep};

use crate::error::EditError;
use crate::fit::fits;
use crate::splice::{append, append_both, splice};
use jsonb_core::sort_key::kind;
use key_walk::find::NoKey;
use key_walk::pass::pass_below;
use key_walk::skip::{after_end, after_key};
use key_walk::walk::{front, items_of, members_of};

/// Appends the key of both values in one. Two objects are one with the members of both, where those of the right one
/// win. Else two arrays are one with the items of the left one and then those of the right one, for which a value that
/// is no array is an array of itself.
///
/// # Errors
///
/// `TooDeep` only where the answer would have more than 512 arrays and objects in one another, `NoKey` only where the
/// bytes on one side are no sort key, and `OutOfMemory` only where the buffer lacks the capacity for the whole key.
/// After an error the buffer is as before.
pub fn append_merged(out: &mut Vec<u8>, left: &[u8], right: &[u8]) -> Result<(), EditError>
    ensures merges { AppendsBoth merge left.now right.now result out.old out.new }
    ensures preserves { PreservesOnError result out.old out.new }
    ensures retained { Extends out.old.items out.new.items }
{
    match both_members(left, right) {
        Some((members, others)) => merge_objects(out, members, others),
        None => join_items(out, left, right),
    }
}

/// What is behind the first bytes of the keys, where both are of objects.
pub fn both_members<'k, 'l>(left: &'k [u8], right: &'l [u8]) -> Option<(&'k [u8], &'l [u8])>
    ensures { MatchOption result
        ((ms ns : Members) → left.now ≡ key_of (object ms) → right.now ≡ key_of (object ns) → ⊥)
        (λ r. (left.now ≡ kind.object ∷ r.0.now) × (right.now ≡ kind.object ∷ r.1.now)) }
{
    let Some(members) = members_of(left) else {
        return None;
    };
    let Some(others) = members_of(right) else {
        return None;
    };
    Some((members, others))
}

// Appends the key of an object with the members of both.
fn merge_objects(out: &mut Vec<u8>, left: &[u8], right: &[u8]) -> Result<(), EditError>
    ensures merges { AppendsMembersOfBoth left.now right.now result out.old out.new }
    ensures preserves { PreservesOnError result out.old out.new }
    ensures retained { Extends out.old.items out.new.items }
{
    let old_len = out.len();
    let depth_left = left.len().saturating_add(right.len());
    let _reserved = out.try_reserve(depth_left.saturating_add(1));
    match append_members(out, left, right) {
        Ok(()) => Ok(()),
        Err(error) => {
            out.truncate(old_len);
            Err(error)
        }
    }
}

// Appends the first byte of an object's key, and the members of both.
fn append_members(out: &mut Vec<u8>, left: &[u8], right: &[u8]) -> Result<(), EditError>
    ensures merges { AppendsMembersOfBoth left.now right.now result out.old out.new }
    ensures retained { Extends out.old.items out.new.items }
    ensures capacity { vec_capacity out.old ≤ vec_capacity out.new }
{
    if append(out, &[kind::OBJECT]).is_err() {
        return Err(EditError::OutOfMemory);
    }
    let mut members = left;
    let mut others = right;
    'members: loop {
        let Ok(step) = merge_step(members, others) else {
            return Err(EditError::NoKey);
        };
        if append_both(out, step.run, step.part).is_err() {
            return Err(EditError::OutOfMemory);
        }
        if step.over {
            return Ok(());
        }
        members = step.members;
        others = step.others;
    }
}

/// One step of a merge: the bytes of members on the left side that come first, those of members on the right side that
/// come then, and what is left on both sides; or the bytes are the last ones.
#[derive(Clone, Copy)]
pub struct Step<'k> {
    pub run: &'k [u8],
    pub part: &'k [u8],
    pub members: &'k [u8],
    pub others: &'k [u8],
    pub over: bool,
}

/// The members on the left side up to the first one on the right, which wins where both have it, and those behind it on
/// the right that come before what is left.
pub fn merge_step<'k>(left: &'k [u8], right: &'k [u8]) -> Result<Step<'k>, NoKey>
    ensures step { (ms ns : Members) → HaveReadable ms → HaveReadable ns → left.now ≡ members_key ms
        → right.now ≡ members_key ns → MatchResult result (IsStep ms ns) (λ e. ⊥) }
    ensures shorter { IfOk result (λ step. step.over ≡ false
        → length step.members.now + length step.others.now < length left.now + length right.now) }
{
    if is_end(left) {
        return Ok(last_step(&[], right));
    }
    if is_end(right) {
        return Ok(last_step(left, &[]));
    }
    next_step(left, right)
}

// The bytes are the last ones.
fn last_step<'k>(run: &'k [u8], part: &'k [u8]) -> Step<'k>
    ensures { (result.over ≡ true) × (result.run.now ≡ run.now) × (result.part.now ≡ part.now) }
{
    Step {
        run,
        part,
        members: run,
        others: part,
        over: true,
    }
}

// The step where both sides have members.
fn next_step<'k>(left: &'k [u8], right: &'k [u8]) -> Result<Step<'k>, NoKey>
    ensures step { (ms ns : Members) → HaveReadable ms → HaveReadable ns → left.now ≡ members_key ms
        → (name : List ℕ) → (t : Tree) → (others : Members) → ns ≡ more_members name t others
        → right.now ≡ members_key ns → MatchResult result (IsStep ms ns) (λ e. ⊥) }
    ensures shorter { IfOk result (λ step.
        length step.members.now + length step.others.now < length left.now + length right.now) }
{
    let (passed, value) = pass_below(left, right)?;
    let Some(first) = after_key(value) else {
        return Err(NoKey);
    };
    let Some(replaced) = passed.same else {
        let others = pass_more(first, passed.rest)?;
        return Ok(step_to(left, passed.rest, passed.rest, right, others));
    };
    let Some(members) = after_key(replaced) else {
        return Err(NoKey);
    };
    Ok(step_to(left, passed.rest, members, right, first))
}

// The step up to what is left on the left side, of which some may be replaced, and on the right side.
#[inline(always)]
fn step_to<'k>(
    left: &'k [u8],
    rest: &'k [u8],
    members: &'k [u8],
    right: &'k [u8],
    others: &'k [u8],
) -> Step<'k>
    ensures run { (before : List ℕ) → left.now ≡ before ++ rest.now → result.run.now ≡ before }
    ensures part { (before : List ℕ) → right.now ≡ before ++ others.now → result.part.now ≡ before }
    ensures left { (result.members.now ≡ members.now) × (result.others.now ≡ others.now) × (result.over ≡ false) }
{
    Step {
        run: front(left, rest),
        part: front(right, others),
        members,
        others,
        over: false,
    }
}

// Passes the members that come before the first one on the other side, where there is one.
fn pass_more<'k>(members: &'k [u8], other: &'k [u8]) -> Result<&'k [u8], NoKey>
    ensures passed { (ms ns : Members) → HaveReadable ms → HaveReadable ns → members.now ≡ members_key ms
        → other.now ≡ members_key ns → MatchResult result (λ rest. ComeFirst ms ns rest.now) (λ e. ⊥) }
    ensures within { IfOk result (λ rest. length rest.now ≤ length members.now) }
{
    if !may_come_first(members, other) || is_end(other) {
        return Ok(members);
    }
    let (passed, _) = pass_below(members, other)?;
    Ok(passed.rest)
}

// Whether the first member may come before the first one on the other side: at least where the first bytes say so.
#[inline(always)]
fn may_come_first(members: &[u8], other: &[u8]) -> bool {
    let Some(first) = members.first_chunk::<8>() else {
        return false;
    };
    let Some(second) = other.first_chunk::<8>() else {
        return false;
    };
    u64::from_be_bytes(*first) < u64::from_be_bytes(*second)
}

// Whether an object ends here.
fn is_end(members: &[u8]) -> bool
    ensures end { (ms : Members) → HaveReadable ms → members.now ≡ members_key ms
        → MatchBool result (ms ≡ no_members) (ms ≡ no_members → ⊥) }
{
    match after_end(true, members) {
        Some(_) => true,
        None => false,
    }
}

// Appends the key of an array with the items of both.
fn join_items(out: &mut Vec<u8>, left: &[u8], right: &[u8]) -> Result<(), EditError>
    ensures joins { AppendsBoth (λ t u. array (joined_items (as_items t) (as_items u))) left.now right.now result
        out.old out.new }
    ensures preserves { PreservesOnError result out.old out.new }
    ensures retained { Extends out.old.items out.new.items }
{
    let items = match item_keys(left) {
        Ok(items) => items,
        Err(error) => return Err(error),
    };
    let others = match item_keys(right) {
        Ok(items) => items,
        Err(error) => return Err(error),
    };
    if splice(out, &[kind::ARRAY], items, others, &[kind::TERMINATOR]).is_err() {
        return Err(EditError::OutOfMemory);
    }
    Ok(())
}

// The keys of an array's items without its end, or the key of another value.
fn item_keys(key: &[u8]) -> Result<&[u8], EditError>
    ensures { OfKey key.now (λ t.
        FitsInside (keys_of_items (as_items t)) (AreWithin IsAnyNumber (as_items t) 511) result) }
{
    match items_of(key) {
        Some(items) => without_end(items),
        None => as_item(key),
    }
}

// The bytes but the last.
pub(crate) fn without_end(items: &[u8]) -> Result<&[u8], EditError>
    ensures { (last : ℕ) → (keys : List ℕ) → items.now ≡ keys ++ last ∷ []
        → MatchResult result (λ front. front.now ≡ keys) (λ e. ⊥) }
{
    let Some(count) = items.len().checked_sub(1) else {
        return Err(EditError::NoKey);
    };
    let (keys, _) = items.split_at(count);
    Ok(keys)
}

// The key of an item, if an array may hold it.
pub(crate) fn as_item(key: &[u8]) -> Result<&[u8], EditError>
    ensures { OfKey key.now (λ t. FitsInside key.now (IsWithin IsAnyNumber t 511) result) }
{
    if !fits(key, 511)? {
        return Err(EditError::TooDeep);
    }
    Ok(key)
}
