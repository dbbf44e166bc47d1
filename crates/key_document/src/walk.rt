//! A walk over all that is in a document, one event after the other, in the order of its key. Each byte is looked at
//! once.

ghost use Rattle.std.specs.Prelude.{◌≡◌, ◌<◌, ◌≤◌, ◌+◌, ◌^◌, ◌∷◌, ◌++◌, ℕ, Bool, List, IfErr, IfOk, IfSome, MatchResult, None, Ok, Some, drop, false, get_or, length};
ghost use Rattle.jsonb_spec.specs.SortKey.{key_of};
ghost use Rattle.jsonb_spec.specs.Tree.{Tree};
ghost use Rattle.key_document.specs.Cursor.{IsLeftBehind};
ghost use Rattle.jsonb_spec.specs.Document.{OfDocument};
ghost use Rattle.jsonb_spec.specs.Document.Walk.{events_left, kind_mark, value_zeros};
ghost use Rattle.key_document.specs.Walk.{EndsWithin, IsWalkAt, MeetsFirst, MeetsNext, MovesToMember, SkipsFirst};
ghost use Rattle.jsonb_spec.specs.Document.Counts.{counts_at};
ghost use Rattle.jsonb_spec.specs.SortKey.Events.{events_of};
ghost use Rattle.key_walk.specs.NextPart.{BeginsWithOpening, BeginsWithScalar};
ghost use Rattle.jsonb_spec.specs.SortKey.Open.{Open, is_object, IsScalar};
ghost use Rattle.key_walk.specs.Parts.{kind_of_tree};
ghost use Rattle.jsonb_spec.specs.SortKey.Parts.{opened_tree};

use crate::cursor::{ZerosLeft, zeros_from, zeros_of_number};
use crate::document::split_document;
use crate::error::DocumentError;
use key_walk::find::members_from;
use key_walk::part::{Opened, Part, ScalarPart, read_part};
use key_walk::skip::{MAX_DEPTH, after_parts};
use key_walk::{Kind, NoKey, kind_of};

/// Where a walk over a document is. It is the caller's, and may be copied.
#[repr(C)]
#[derive(Clone, Copy)]
pub struct Walk {
    /// How many bytes of the key are passed.
    pub offset: usize,
    /// How many arrays and objects are open.
    pub depth: usize,
    /// What is left of the zeros.
    pub left: ZerosLeft,
    /// Which of those that are open are objects, outermost first: 1 for an object, and 0 for an array.
    pub objects: [u8; MAX_DEPTH],
}

/// What a walk meets: a value that begins, or the end of the innermost array or object.
#[derive(Clone, Copy)]
pub struct Met {
    /// The kind of the value; `None` for an end.
    pub kind: Option<Kind>,
    /// Where in the key the name of a member is, as a text.
    pub name_offset: usize,
    /// How many bytes that has; 0 for an item.
    pub name_size: usize,
    /// Where in the key the value begins, or what is behind an end.
    pub offset: usize,
    /// How many bytes of the key a value has that is neither an array nor an object; 0 for these.
    pub size: usize,
    /// How many zeros end a number.
    pub zeros: u8,
}

/// Begins a walk, and returns what it meets first: the value itself.
///
/// # Errors
///
/// `NoDocument` only where the bytes are no document. The walk is over then.
pub fn begin_walk(document: &[u8], walk: &mut Walk) -> Result<Met, DocumentError>
    ensures met { OfDocument document.now (λ t. MeetsFirst t (events_of None t) result walk.new) }
    ensures over { IfErr result (λ _. walk.new.depth ≡ 0) }
    ensures within { IfOk result (EndsWithin (length document.now)) }
{
    walk.depth = 0;
    let (key, _) = split_document(document);
    let Some(kind) = kind_of(key) else {
        return Err(DocumentError::NoDocument);
    };
    walk.left = zeros_from(document, 0)?;
    if let Some(object) = opens(kind) {
        walk.objects[0] = mark_of(object);
        walk.depth = 1;
        walk.offset = 1;
        return Ok(Met {
            kind: Some(kind),
            name_offset: 0,
            name_size: 0,
            offset: 0,
            size: 0,
            zeros: 0,
        });
    }
    let zeros = zeros_of(document, kind, &mut walk.left, 0)?;
    walk.offset = key.len();
    Ok(Met {
        kind: Some(kind),
        name_offset: 0,
        name_size: 0,
        offset: 0,
        size: key.len(),
        zeros,
    })
}

// Whether a value of this kind is an object, where it is one or an array.
fn opens(kind: Kind) -> Option<bool>
    ensures opens { (o : Open) → (Some kind ≡ kind_of_tree (opened_tree o)) → result ≡ Some (is_object o) }
    ensures scalar { (t : Tree) → IsScalar t → (Some kind ≡ kind_of_tree t) → result ≡ None }
{
    match kind {
        Kind::Object => Some(true),
        Kind::Array => Some(false),
        _ => None,
    }
}

// The mark of an object, or of an array.
fn mark_of(object: bool) -> u8
    ensures { result ≡ kind_mark object }
{
    if object { 1 } else { 0 }
}

/// Returns what the walk meets next; `None` behind all.
///
/// # Errors
///
/// `NoDocument` only where the bytes are no document, or the walk isn't one over it. The walk stays as it is then.
#[inline(always)]
pub fn next_event(document: &[u8], walk: &mut Walk) -> Result<Option<Met>, DocumentError>
    ensures met { OfDocument document.now (λ t. (opens : List Open) → IsWalkAt t opens walk.old
        → MeetsNext t (events_left opens) result walk.new) }
    ensures still { IfErr result (λ _. walk.new ≡ walk.old) }
    ensures over { result ≡ Ok None → walk.new ≡ walk.old }
    ensures within { IfOk result (λ answer. IfSome answer (EndsWithin (length document.now))) }
    ensures further { IfOk result (λ answer. IfSome answer (λ _. walk.old.offset < walk.new.offset)) }
{
    let Some(top) = walk.depth.checked_sub(1) else {
        return Ok(None);
    };
    if top >= MAX_DEPTH || walk.offset > document.len() {
        return Err(DocumentError::NoDocument);
    }
    // What is left of the key, and the zeros, which no part reaches.
    let (_, bytes) = document.split_at(walk.offset);
    match read_part(is_object_at(&walk.objects, top), bytes) {
        Ok(Part::End(after)) => Ok(Some(leave(walk, top, bytes.len() - after.len()))),
        Ok(Part::Opening(opened)) => Ok(Some(enter(walk, bytes, opened)?)),
        Ok(Part::Scalar(passed)) => Ok(Some(pass_scalar(document, walk, bytes, passed)?)),
        Err(NoKey) => Err(DocumentError::NoDocument),
    }
}

// Whether the open one at this index is an object.
fn is_object_at(objects: &[u8; MAX_DEPTH], index: usize) -> bool
    requires { index < 512 }
    ensures { (object : Bool) → get_or objects.now index 0 ≡ kind_mark object → result ≡ object }
{
    objects[index] != 0
}

// Passes the end of the innermost, which has so many bytes.
fn leave(walk: &mut Walk, top: usize, size: usize) -> Met
    requires { walk.old.offset + size < 2 ^ 63 }
    ensures left { walk.new ≡ record {
      offset = walk.old.offset + size;
      depth = top;
      left = walk.old.left;
      objects = walk.old.objects;
    } }
    ensures met { result.kind ≡ None }
    ensures within { EndsWithin (walk.old.offset + size) result }
{
    walk.offset += size;
    walk.depth = top;
    Met {
        kind: None,
        name_offset: 0,
        name_size: 0,
        offset: walk.offset,
        size: 0,
        zeros: 0,
    }
}

// Goes into the array or the object that begins in these bytes.
fn enter(walk: &mut Walk, bytes: &[u8], opened: Opened<'_>) -> Result<Met, DocumentError>
    requires fits { walk.old.offset + length bytes.now < 2 ^ 63 }
    requires within { (length opened.parts.now < length opened.value.now)
        × (length opened.value.now ≤ length bytes.now) }
    ensures entered { (t : Tree) → (o : Open) → (under : List Open) → (at : IsWalkAt t (o ∷ under) walk.old)
        → (more : List ℕ) → BeginsWithOpening o at.levels more bytes.now opened.entry
        → MeetsFirst t (events_left (o ∷ under)) result walk.new }
    ensures still { IfErr result (λ _. walk.new ≡ walk.old) }
    ensures within { IfOk result (EndsWithin (walk.old.offset + length bytes.now)) }
    ensures further { IfOk result (λ _. walk.old.offset < walk.new.offset) }
{
    if walk.depth >= MAX_DEPTH {
        return Err(DocumentError::NoDocument);
    }
    let name_offset = walk.offset;
    let name_size = bytes.len() - opened.value.len();
    let offset = name_offset + name_size;
    walk.objects[walk.depth] = mark_of(opened.object);
    walk.depth += 1;
    walk.offset = offset + 1;
    Ok(Met {
        kind: Some(kind_opened(opened.object)),
        name_offset,
        name_size,
        offset,
        size: 0,
        zeros: 0,
    })
}

// The kind of an object, or of an array.
fn kind_opened(object: bool) -> Kind
    ensures { (o : Open) → object ≡ is_object o → Some result ≡ kind_of_tree (opened_tree o) }
{
    if object { Kind::Object } else { Kind::Array }
}

// Passes the value that is first in these bytes, and neither an array nor an object.
#[inline(always)]
fn pass_scalar(
    document: &[u8],
    walk: &mut Walk,
    bytes: &[u8],
    passed: ScalarPart<'_>,
) -> Result<Met, DocumentError>
    requires fits { walk.old.offset + length bytes.now < 2 ^ 63 }
    requires within { (length passed.after.now < length passed.value.now)
        × (length passed.value.now ≤ length bytes.now) }
    ensures passed { OfDocument document.now (λ t. (o : Open) → (under : List Open)
        → (at : IsWalkAt t (o ∷ under) walk.old) → (more : List ℕ)
        → BeginsWithScalar o at.levels more bytes.now passed.entry → MeetsFirst t (events_left (o ∷ under)) result walk.new) }
    ensures still { IfErr result (λ _. walk.new ≡ walk.old) }
    ensures within { IfOk result (EndsWithin (walk.old.offset + length bytes.now)) }
    ensures further { IfOk result (λ _. walk.old.offset < walk.new.offset) }
{
    let name_offset = walk.offset;
    let name_size = bytes.len() - passed.value.len();
    let offset = name_offset + name_size;
    let size = passed.value.len() - passed.after.len();
    let zeros = zeros_of(document, passed.kind, &mut walk.left, offset)?;
    walk.offset = offset + size;
    Ok(Met {
        kind: Some(passed.kind),
        name_offset,
        name_size,
        offset,
        size,
        zeros,
    })
}

// The zeros that end the value at this offset, which is of this kind. What is left is then that behind it.
#[inline(always)]
fn zeros_of(
    document: &[u8],
    kind: Kind,
    left: &mut ZerosLeft,
    offset: usize,
) -> Result<u8, DocumentError>
    ensures zeros { OfDocument document.now (λ t. IsLeftBehind t left.old → left.old.passed ≤ offset
        → offset < length (key_of t) → (value : Tree) → Some kind ≡ kind_of_tree value → (behind : List ℕ)
        → drop offset (counts_at t) ≡ counts_at value ++ behind
        → MatchResult result (λ count. (count ≡ value_zeros value) × IsLeftBehind t left.new
        × (left.new.passed ≤ offset + 1)) (λ e. ⊥)) }
    ensures still { IfErr result (λ _. left.new ≡ left.old) }
{
    if kind != Kind::Number {
        return Ok(0);
    }
    zeros_of_number(document, left, offset)
}

/// Passes what is left of the innermost array or object that is open, and its end, and returns true; false where none
/// is open.
///
/// # Errors
///
/// `NoDocument` only where the bytes are no document, or the walk isn't one over it. The walk stays as it is then.
pub fn skip_open(document: &[u8], walk: &mut Walk) -> Result<bool, DocumentError>
    ensures skipped { OfDocument document.now (λ t. (opens : List Open) → IsWalkAt t opens walk.old
        → SkipsFirst t opens result walk.new) }
    ensures still { IfErr result (λ _. walk.new ≡ walk.old) }
    ensures none { result ≡ Ok false → walk.new ≡ walk.old }
{
    let Some(top) = walk.depth.checked_sub(1) else {
        return Ok(false);
    };
    let (key, _) = split_document(document);
    if top >= MAX_DEPTH || walk.offset > key.len() {
        return Err(DocumentError::NoDocument);
    }
    let (_, bytes) = key.split_at(walk.offset);
    let Some(after) = after_parts(is_object_at(&walk.objects, top), bytes) else {
        return Err(DocumentError::NoDocument);
    };
    walk.depth = top;
    walk.offset += bytes.len() - after.len();
    Ok(true)
}

/// Moves the walk before the first member whose name isn't below this one, of those that are left of the innermost that
/// is open, or before the end, and returns whether that member has the name; false where the innermost is an array, or
/// none is open, and the walk stays then.
///
/// # Errors
///
/// `NoDocument` only where the bytes are no document, or the walk isn't one over it. The walk stays as it is then.
pub fn move_to_member(document: &[u8], walk: &mut Walk, name: &[u8]) -> Result<bool, DocumentError>
    ensures moved { OfDocument document.now (λ t. (opens : List Open) → IsWalkAt t opens walk.old
        → MovesToMember t name.now opens result walk.old walk.new) }
    ensures still { IfErr result (λ _. walk.new ≡ walk.old) }
{
    let Some(top) = walk.depth.checked_sub(1) else {
        return Ok(false);
    };
    if top >= MAX_DEPTH || walk.offset > document.len() {
        return Err(DocumentError::NoDocument);
    }
    if !is_object_at(&walk.objects, top) {
        return Ok(false);
    }
    let (_, bytes) = document.split_at(walk.offset);
    let Ok(passed) = members_from::<false>(bytes, name) else {
        return Err(DocumentError::NoDocument);
    };
    walk.offset += bytes.len() - passed.rest.len();
    Ok(passed.same.is_some())
}
