//! Two documents merged.

ghost use Rattle.std.specs.Prelude.{◌≡◌, ◌<◌, ◌≤◌, ◌+◌, ◌-◌, ◌^◌, ℕ, List, MatchResult, length};
ghost use Rattle.jsonb_spec.specs.SortKey.{key_of, members_key};
ghost use Rattle.jsonb_spec.specs.Tree.{Members, array, object};
ghost use Rattle.jsonb_spec.specs.SortKey.AtKeys.{OfKey};
ghost use Rattle.jsonb_spec.specs.SortKey.Checked.{HaveReadable};
ghost use Rattle.key_document.specs.Changes.{AppendsBoth};
ghost use Rattle.jsonb_spec.specs.Document.PartAt.{PreservesOnError};
ghost use Rattle.jsonb_spec.specs.Document.{behind_key, zeros_at};
ghost use Rattle.key_document.specs.Merging.{CopiesStep, ItemsLeft, OfBoth, item_edge};
ghost use Rattle.key_document.specs.Splices.{AppendsZeros};
ghost use Rattle.jsonb_spec.specs.Edit.{as_items, joined_items, merge, merged_members};
ghost use Rattle.jsonb_spec.specs.Document.Counts.{counts_at_members};
ghost use Rattle.jsonb_spec.specs.SortKey.Text.{Preserves};
ghost use Rattle.jsonb_spec.specs.Document.Numbers.{Pends};

use crate::document::{end_zeros, split_document};
use crate::error::DocumentError;
use crate::zeros::{all_left, copy, pass};
use key_edit::merge::{Step, both_members, merge_step};
use key_walk::walk::items_of;

/// Appends the document of both values in one, as `append_merged` of the crate `key_edit` does with keys. Each
/// number holds all its digits.
///
/// Nothing is allocated but for `out`. Where both values are objects, and one of them has zeros, their members are
/// walked a second time.
///
/// # Errors
///
/// `TooDeep` only where the answer would have more than 512 arrays and objects in one another, `NoDocument` only where
/// the bytes on one side are no document, and `OutOfMemory` only where the buffer lacks the capacity for the whole
/// document. After an error the buffer is as before.
pub fn append_merged(out: &mut Vec<u8>, left: &[u8], right: &[u8]) -> Result<(), DocumentError>
    ensures merges { AppendsBoth merge left.now right.now result out.old out.new }
    ensures preserves { PreservesOnError result out.old out.new }
{
    let (key, zeros) = split_document(left);
    let (other, other_zeros) = split_document(right);
    let start = out.len();
    key_edit::append_merged(out, key, other)?;
    match merge_tail(out, key, zeros, other, other_zeros) {
        Ok(()) => Ok(()),
        Err(error) => {
            out.truncate(start);
            Err(error)
        }
    }
}

// Appends what follows the key of both: the zeros, and their end.
fn merge_tail(
    out: &mut Vec<u8>,
    key: &[u8],
    zeros: &[u8],
    other: &[u8],
    other_zeros: &[u8],
) -> Result<(), DocumentError>
    ensures merged { OfBoth key.now zeros.now other.now other_zeros.now merge (λ v.
        AppendsZeros result out.old out.new (behind_key (zeros_at v))) }
    ensures preserves { Preserves out.old out.new }
{
    if zeros.is_empty() && other_zeros.is_empty() {
        return Ok(());
    }
    let start = out.len();
    merge_zeros(out, key, zeros, other, other_zeros)?;
    end_zeros(start, out)?;
    Ok(())
}

// Appends the zeros alone.
fn merge_zeros(
    out: &mut Vec<u8>,
    key: &[u8],
    zeros: &[u8],
    other: &[u8],
    other_zeros: &[u8],
) -> Result<(), DocumentError>
    ensures merged { OfBoth key.now zeros.now other.now other_zeros.now merge (λ v.
        AppendsZeros result out.old out.new (zeros_at v)) }
    ensures preserves { Preserves out.old out.new }
{
    match both_members(key, other) {
        Some((members, others)) => join_members(out, members, zeros, others, other_zeros),
        None => join_items(out, key, zeros, other, other_zeros),
    }
}

// Appends the zeros of an array with the items of both.
fn join_items(
    out: &mut Vec<u8>,
    key: &[u8],
    zeros: &[u8],
    other: &[u8],
    other_zeros: &[u8],
) -> Result<(), DocumentError>
    ensures joined { OfBoth key.now zeros.now other.now other_zeros.now
        (λ t u. array (joined_items (as_items t) (as_items u))) (λ v.
        AppendsZeros result out.old out.new (zeros_at v)) }
    ensures preserves { Preserves out.old out.new }
{
    let (size, ours) = items_left(key, zeros)?;
    let (other_size, theirs) = items_left(other, other_zeros)?;
    // The first byte of the array has no zeros.
    let (plain, _) = copy(1, ours, size, out)?;
    copy(plain, theirs, other_size, out)?;
    Ok(())
}

// How many bytes the items of an array have, or another value as an item, and what is left of the zeros from them on.
fn items_left<'z>(
    key: &[u8],
    zeros: &'z [u8],
) -> Result<(usize, Option<(usize, u8, &'z [u8])>), DocumentError>
    ensures found { OfKey key.now (λ t. zeros.now ≡ zeros_at t
        → MatchResult result (λ r. ItemsLeft t r.0 r.1) (λ e. ⊥)) }
{
    let edge = edge_of(key);
    let all = all_left(zeros)?;
    let left = pass(all, edge)?;
    let size = key.len().saturating_sub(edge).saturating_sub(edge);
    Ok((size, left))
}

// How many bytes are in front of the items of an array, and behind them; none where another value is an item itself.
fn edge_of(key: &[u8]) -> usize
    ensures edge { OfKey key.now (λ t. result ≡ item_edge t) }
{
    match items_of(key) {
        Some(_) => 1,
        None => 0,
    }
}

// Appends the zeros of an object with the members of both.
fn join_members(
    out: &mut Vec<u8>,
    left: &[u8],
    zeros: &[u8],
    right: &[u8],
    other_zeros: &[u8],
) -> Result<(), DocumentError>
    ensures joined { (ms ns : Members) → HaveReadable ms → HaveReadable ns → left.now ≡ members_key ms
        → right.now ≡ members_key ns → zeros.now ≡ zeros_at (object ms) → other_zeros.now ≡ zeros_at (object ns)
        → 1 + length left.now < 2 ^ 63 → 1 + length right.now < 2 ^ 63
        → 1 + length (counts_at_members (merged_members ms ns)) < 2 ^ 63
        → AppendsZeros result out.old out.new (zeros_at (object (merged_members ms ns))) }
    ensures preserves { Preserves out.old out.new }
{
    let all = all_left(zeros)?;
    let ours = pass(all, 1)?;
    let other_all = all_left(other_zeros)?;
    let theirs = pass(other_all, 1)?;
    // The first byte of the object has no zeros.
    let mut merging = Merging {
        plain: 1,
        ours,
        theirs,
    };
    let mut members = left;
    let mut others = right;
    'members: loop {
        let Ok(step) = merge_step(members, others) else {
            return Err(DocumentError::NoDocument);
        };
        let replaced = replaced_by(&step, members);
        merging = copy_step(&merging, &step, replaced, out)?;
        if step.over {
            return Ok(());
        }
        members = step.members;
        others = step.others;
    }
}

// How many bytes of these members on the left side are replaced by the step.
fn replaced_by(step: &Step, members: &[u8]) -> usize
    ensures { result ≡ length members.now - length step.now.run.now - length step.now.members.now }
{
    let behind = members.len().saturating_sub(step.run.len());
    behind.saturating_sub(step.members.len())
}

/// Two objects that are merged: how many bytes without zeros are at the end of what was appended, and what is left of
/// the zeros on both sides.
#[derive(Clone, Copy)]
struct Merging<'z> {
    plain: usize,
    ours: Option<(usize, u8, &'z [u8])>,
    theirs: Option<(usize, u8, &'z [u8])>,
}

// Appends the zeros of the bytes of a step. On the left side so many bytes are replaced.
fn copy_step<'z>(
    merging: &Merging<'z>,
    step: &Step,
    replaced: usize,
    out: &mut Vec<u8>,
) -> Result<Merging<'z>, DocumentError>
    ensures copied { (xs ys : List ℕ) → Pends xs merging.now.ours → Pends ys merging.now.theirs
        → length step.now.run.now + replaced ≤ length xs → length step.now.part.now ≤ length ys
        → length xs < 2 ^ 63 → length ys < 2 ^ 63
        → merging.now.plain + length step.now.run.now + length step.now.part.now < 2 ^ 63
        → CopiesStep (length step.now.run.now) replaced (length step.now.part.now) merging.now.plain xs ys result
        out.old out.new }
    ensures preserves { Preserves out.old out.new }
{
    let (mid, rest) = copy(merging.plain, merging.ours, step.run.len(), out)?;
    let ours = pass(rest, replaced)?;
    let (plain, theirs) = copy(mid, merging.theirs, step.part.len(), out)?;
    Ok(Merging {
        plain,
        ours,
        theirs,
    })
}
