//! Members that an object names, and items that are one of its names, left out.

ghost use Rattle.std.specs.Prelude.{◌≡◌, ◌<◌, ◌≤◌, ◌++◌, List, ℕ, length, MatchBool, Some};
ghost use Rattle.std.specs.BTreeSet.{IsEmpty, contains_by};
ghost use Rattle.jsonb_spec.specs.Order.{bytes_cmp};
ghost use Rattle.jsonb_spec.specs.SortKey.Readable.{IsReadable};
ghost use Rattle.jsonb_spec.specs.SortKey.{items_key, key_of, members_key, text_key};
ghost use Rattle.jsonb_spec.specs.SortKey.Kind as kind;
ghost use Rattle.jsonb_spec.specs.Tree.{Members, Tree, Trees, array, object};
ghost use Rattle.jsonb_spec.specs.SortKey.AtKeys.{OfKey};
ghost use Rattle.jsonb_spec.specs.SortKey.Checked.{AreReadable, HaveReadable};
ghost use Rattle.key_document.specs.Changes.{Answers, AnswersOfBoth};
ghost use Rattle.jsonb_spec.specs.Document.PartAt.{PreservesOnError};
ghost use Rattle.jsonb_spec.specs.Document.{behind_key, zeros_at};
ghost use Rattle.jsonb_spec.specs.Edit.LeftOut.{beside_names, has_name, is_named, without_names};
ghost use Rattle.key_document.specs.Retaining.{AreAhead, Finishes, IsBegun, Retains, WritesAnswer};
ghost use Rattle.key_document.specs.Gathered.{AreGathered};
ghost use Rattle.key_document.specs.Splices.{AppendsZeros};
ghost use Rattle.key_document.specs.declared.retain.Output.{Output};
ghost use Rattle.jsonb_spec.specs.Document.Counts.{counts_at, counts_at_items, counts_at_members};
ghost use Rattle.jsonb_spec.specs.SortKey.Text.{Preserves};

use crate::document::{end_zeros, split_document};
use crate::error::DocumentError;
use crate::retain::{Output, Retaining, pass_bytes, write_rest};
use crate::zeros::all_left;
use jsonb_core::sort_key::kind;
use key_edit::merge::{Step, merge_step};
use key_walk::walk::{items_of, members_of, next_item, next_member};
use std::collections::BTreeSet;

// How many bytes the names and the items have at least that are looked for in a set.
const MANY: usize = 256;

/// Appends the document of the value without what an object names, of which the document or the key is passed, and
/// returns true: of an object without the members that have one of its names, of an array without the items that are
/// strings equal to one of them. Where that is nothing, of any other value, and where what names isn't an object,
/// nothing is appended, and it returns false. Each number that stays holds all its digits.
///
/// Members and names are passed side by side, so that the time is linear in both; the items that are strings are looked
/// for in a set of the names, where there are many of both. Nothing is allocated but for `out` and that set: for what
/// memory lacks of it, each item is compared with all names. Where the document has zeros, it is walked a second time.
///
/// # Errors
///
/// `NoDocument` only where the bytes are no document or those of the names are none, and `OutOfMemory` only where the
/// buffer lacks the capacity for the whole document. After an error the buffer is as before.
pub fn append_without_names(
    out: &mut Vec<u8>,
    document: &[u8],
    names: &[u8],
) -> Result<bool, DocumentError>
    ensures answers { AnswersOfBoth without_names document.now names.now result out.old out.new }
    ensures preserves { PreservesOnError result out.old out.new }
{
    let (key, zeros) = split_document(document);
    let (names_key, _) = split_document(names);
    let Some(members) = members_of(names_key) else {
        return Ok(false);
    };
    let start = out.len();
    match write_document(out, key, zeros, members) {
        Ok(changed) => Ok(changed),
        Err(error) => {
            out.truncate(start);
            Err(error)
        }
    }
}

// Appends the key of what stays, and what follows it.
fn write_document(
    out: &mut Vec<u8>,
    key: &[u8],
    zeros: &[u8],
    names: &[u8],
) -> Result<bool, DocumentError>
    ensures answers { (ns : Members) → HaveReadable ns → names.now ≡ members_key ns → OfKey key.now (λ t.
        zeros.now ≡ zeros_at t → Answers (beside_names ns t) result out.old out.new) }
    ensures preserves { Preserves out.old out.new }
{
    if !write_answer(key, names, Output::Bytes, out)? {
        return Ok(false);
    }
    write_tail(out, key, zeros, names)?;
    Ok(true)
}

// Appends what follows the key: the zeros, and their end.
fn write_tail(
    out: &mut Vec<u8>,
    key: &[u8],
    zeros: &[u8],
    names: &[u8],
) -> Result<(), DocumentError>
    ensures written { (ns : Members) → HaveReadable ns → names.now ≡ members_key ns → OfKey key.now (λ t.
        zeros.now ≡ zeros_at t → (u : Tree) → beside_names ns t ≡ Some u
        → AppendsZeros result out.old out.new (behind_key (zeros_at u))) }
    ensures preserves { Preserves out.old out.new }
{
    if zeros.is_empty() {
        return Ok(());
    }
    let start = out.len();
    let all = all_left(zeros)?;
    write_answer(key, names, Output::Zeros(0, all), out)?;
    end_zeros(start, out)?;
    Ok(())
}

// Writes what stays of the value of this key; where all of it stays, nothing is written.
fn write_answer(
    key: &[u8],
    names: &[u8],
    output: Output<'_>,
    out: &mut Vec<u8>,
) -> Result<bool, DocumentError>
    ensures written { (ns : Members) → HaveReadable ns → names.now ≡ members_key ns → OfKey key.now (λ t.
        AreAhead output.entry (counts_at t) → WritesAnswer output.entry (beside_names ns t) result out.old out.new) }
    ensures preserves { Preserves out.old out.new }
{
    let retaining = Retaining {
        output,
        pending: key,
        found: false,
    };
    if let Some(members) = members_of(key) {
        return write_members(members, names, &retaining, out);
    }
    match items_of(key) {
        Some(items) => write_items(items, names, &retaining, out),
        None => Ok(false),
    }
}

// Writes the members of an object that have none of the names.
fn write_members(
    key: &[u8],
    names: &[u8],
    begun: &Retaining<'_, '_>,
    out: &mut Vec<u8>,
) -> Result<bool, DocumentError>
    ensures written { (ms ns : Members) → HaveReadable ms → HaveReadable ns → key.now ≡ members_key ms
        → names.now ≡ members_key ns → IsBegun kind.object begun.now key.now (counts_at_members ms)
        → WritesAnswer begun.now.output (beside_names ns (object ms)) result out.old out.new }
    ensures preserves { Preserves out.old out.new }
{
    let mut retaining = *begun;
    let mut members = key;
    let mut others = names;
    'members: loop {
        let Ok(step) = merge_step(members, others) else {
            return Err(DocumentError::NoDocument);
        };
        if step.over {
            return finish(&retaining, out);
        }
        let rest = behind_run(&step, members);
        let goes = is_longer(rest, step.members);
        retaining = pass_bytes(&retaining, goes, rest, step.members, out)?;
        members = step.members;
        others = step.others;
    }
}

// Writes the items of an array that are none of the names.
fn write_items(
    key: &[u8],
    names: &[u8],
    begun: &Retaining<'_, '_>,
    out: &mut Vec<u8>,
) -> Result<bool, DocumentError>
    ensures written { (ts : Trees) → AreReadable ts → (ns : Members) → HaveReadable ns → key.now ≡ items_key ts
        → names.now ≡ members_key ns → IsBegun kind.array begun.now key.now (counts_at_items ts)
        → WritesAnswer begun.now.output (beside_names ns (array ts)) result out.old out.new }
    ensures preserves { Preserves out.old out.new }
{
    let mut set = BTreeSet::new(*out.allocator());
    let others = gather(key, names, &mut set);
    let mut retaining = *begun;
    let mut items = key;
    'items: while let Some((item, rest)) = next_item(items) {
        retaining = pass_bytes(&retaining, is_name(item, &set, others), items, rest, out)?;
        items = rest;
    }
    finish(&retaining, out)
}

// Writes all that is left, where anything was left out.
fn finish(retaining: &Retaining<'_, '_>, out: &mut Vec<u8>) -> Result<bool, DocumentError>
    ensures finished { (first : Output) → (t : Tree) → (last last_counts old : List ℕ)
        → length last_counts ≡ length last
        → Retains first (key_of t) (counts_at t) last last_counts last last_counts retaining.now old out.old.items
        → Finishes first t retaining.now.found old result out.old out.new }
    ensures preserves { Preserves out.old out.new }
{
    if !retaining.found {
        return Ok(false);
    }
    write_rest(retaining, out)?;
    Ok(true)
}

// What is behind the first bytes of a step.
fn behind_run<'k>(step: &Step, members: &'k [u8]) -> &'k [u8]
    ensures { (rest : List ℕ) → members.now ≡ step.now.run.now ++ rest → result.now ≡ rest }
{
    if step.run.len() > members.len() {
        return members;
    }
    let (_, rest) = members.split_at(step.run.len());
    rest
}

// Whether these are more bytes than the others.
fn is_longer(bytes: &[u8], others: &[u8]) -> bool
    ensures { MatchBool result (length others.now < length bytes.now) (length bytes.now ≤ length others.now) }
{
    bytes.len() > others.len()
}

// Puts the names into the empty set, where there are many of them and of the items, and returns those that aren't in
// it: all, or where memory ran out those from one on.
fn gather<'k>(items: &[u8], names: &'k [u8], set: &mut BTreeSet<&'k [u8]>) -> &'k [u8]
    requires { IsEmpty set.old }
    ensures { (ns : Members) → HaveReadable ns → names.now ≡ members_key ns → AreGathered ns set.new result.now }
{
    let mut rest = names;
    if names.len() < MANY || items.len() < MANY {
        return rest;
    }
    'names: while let Some((name, _, others)) = next_member(rest) {
        let Ok(_) = set.insert(name) else {
            return rest;
        };
        rest = others;
    }
    rest
}

// Whether the item is a string that is one of the names, of which some are in the set.
fn is_name(item: &[u8], set: &BTreeSet<&[u8]>, names: &[u8]) -> bool
    ensures { (ns : Members) → AreGathered ns set.now names.now → OfKey item.now (λ t. result ≡ is_named ns t) }
{
    let Some((first, text)) = item.split_first() else {
        return false;
    };
    if *first != kind::STRING {
        return false;
    }
    is_among(text, set, names)
}

// Whether one of the names has this key.
fn is_among(text: &[u8], set: &BTreeSet<&[u8]>, names: &[u8]) -> bool
    ensures { (bytes : List ℕ) → text.now ≡ text_key bytes → (ns : Members) → AreGathered ns set.now names.now
        → result ≡ has_name bytes ns }
{
    if is_in(text, set) {
        return true;
    }
    let mut rest = names;
    'names: while let Some((name, _, others)) = next_member(rest) {
        if name == text {
            return true;
        }
        rest = others;
    }
    false
}

// Whether the text is in the set, which is mostly empty.
#[inline(always)]
fn is_in(text: &[u8], set: &BTreeSet<&[u8]>) -> bool
    ensures { result ≡ contains_by (λ key. bytes_cmp text.now key.now) set.now }
{
    if set.is_empty() {
        return false;
    }
    set.contains(text)
}
