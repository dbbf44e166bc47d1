//! Sort keys as documents: the kind of a value, how many parts it has, and where in the key they are.
//!
//! Any bytes are safe to pass. What a call answers is promised for the key of a value of JSON's kinds with at most 512
//! nested arrays and objects; of other bytes it may be `NO_KEY` or any answer within them.

ghost use Rattle.std.specs.Prelude.{◌≡◌, ◌≢◌, ◌↔◌, ◌⊎◌, ◌<◌, ◌≤◌, ◌+◌, ◌∷◌, ℕ, List, length, Option, None, MatchResult, MatchOption, IfOk, IfSome, if◌then◌else◌};
ghost use Rattle.jsonb_spec.specs.Interface.{PreservesBuffer, ReportsPath};
ghost use Rattle.jsonb_c.specs.KeyParts.{kind_number, IsBegun, IsNextPart, LiesWithin, OccursBefore};
ghost use Rattle.jsonb_spec.specs.Interface.KeyParts.{text_of_tree, FindsRange, IsCounted, IsFound, IsPartStatus, IsTreeKey, IsWithinKey, IsWritten, WritesText};
ghost use Rattle.jsonb_spec.specs.Path.{IsPath, IsPlainPath, StartsKey};
ghost use Rattle.jsonb_spec.specs.SortKey.Checked.{IsSortKey};
ghost use Rattle.jsonb_spec.specs.SortKey.Found.{count_of, item_from, IsRange};
ghost use Rattle.key_walk.specs.Found.{Finds};
ghost use Rattle.jsonb_spec.specs.SortKey.Open.{Open};
ghost use Rattle.key_walk.specs.Parts.{BeginsNoKey, kind_of_tree};
ghost use Rattle.jsonb_spec.specs.Accessors.{get_by_name};
ghost use Rattle.jsonb_spec.specs.SortKey.{key_of, text_key};
ghost use Rattle.jsonb_spec.specs.SortKey.Kind as kind;
ghost use Rattle.jsonb_spec.specs.Tree.{Tree};
ghost use Rattle.jsonb_spec.specs.PartAt.{part_at};

use crate::{ACCEPTED, NO_KEY, NO_PART, NO_PATH, OUT_OF_MEMORY, TOO_SHORT, put};
use jsonb_path::read_keys;
use key_walk::{
    Kind, NoKey, count_parts, find_item, find_member, find_part, find_plain_part, is_sort_key,
    kind_of, next_part, open_key, plain_text, put_text, range_of, text_of_string, text_size,
};
use std::alloc::Global;

/// No kind: the bytes aren't a sort key of a value of JSON's kinds.
pub const NO_KIND: u32 = 0;

/// The first of the kinds of values, which are numbered in the order of `Kind`.
pub const NULL: u32 = 1;

pub const STRING: u32 = 4;

pub const ARRAY: u32 = 5;

pub const OBJECT: u32 = 6;

/// Whether bytes are the sort key of a value in range: of JSON's kinds, with at most 512 nested arrays and objects, and
/// numbers of at most 38 digits, before and behind the point. Then their text is an extended document with that key.
#[unsafe(no_mangle)]
pub extern "C" fn vizhoniku_key_check(key: &[u8]) -> u32
    ensures accepted { result ≡ ACCEPTED ↔ IsSortKey key.now }
    ensures status { (result ≡ ACCEPTED) ⊎ (result ≡ NO_KEY) }
{
    if is_sort_key(key) { ACCEPTED } else { NO_KEY }
}

/// The kind of the value of a sort key, from its first byte alone, or `NO_KIND`, where no key begins so.
#[unsafe(no_mangle)]
pub extern "C" fn vizhoniku_key_kind(key: &[u8]) -> u32
    ensures kind { (t : Tree) → IsTreeKey key.now t → result ≡ kind_number (kind_of_tree t) }
    ensures no_kind { (result ≡ NO_KIND) ↔ BeginsNoKey key.now }
    ensures known { result ≤ OBJECT }
{
    kind_number(kind_of(key))
}

/// The number of a kind.
pub(crate) fn kind_number(kind: Option<Kind>) -> u32
    ensures { result ≡ kind_number kind }
{
    match kind {
        None => NO_KIND,
        Some(kind) => u32::from(kind as u8) + NULL,
    }
}

/// How many items the array of a sort key has, or members its object.
#[unsafe(no_mangle)]
pub extern "C" fn vizhoniku_key_count(key: &[u8], count: &mut usize) -> u32
    ensures status { IsPartStatus result }

    // The number is that of the value's parts, and a scalar has none.
    ensures counted { (t : Tree) → IsTreeKey key.now t → IsCounted (count_of t) result count.new }
    ensures no_count { result ≢ ACCEPTED → count.new ≡ 0 }
{
    match count_parts(key) {
        Ok(Some(parts)) => {
            *count = parts;
            ACCEPTED
        }
        Ok(None) => {
            *count = 0;
            NO_PART
        }
        Err(NoKey) => {
            *count = 0;
            NO_KEY
        }
    }
}

/// Where in a sort key the member of that name is: the range of its value, which is the key of that.
#[unsafe(no_mangle)]
pub extern "C" fn vizhoniku_key_member(
    key: &[u8],
    name: &[u8],
    offset: &mut usize,
    size: &mut usize,
) -> u32
    // The range is that of the member of the name, and there is none where the value has none.
    ensures finds { FindsRange key.now (get_by_name name.now) result offset.new size.new }
{
    report_range(key, find_member(key, name), offset, size)
}

/// Where in a sort key the item of that index is: its range, which is the key of it. A negative index counts from
/// the end, where -1 is the last item.
#[unsafe(no_mangle)]
pub extern "C" fn vizhoniku_key_item(
    key: &[u8],
    index: i64,
    offset: &mut usize,
    size: &mut usize,
) -> u32
    // The range is that of the item of the index, and there is none where the value has none.
    ensures finds { FindsRange key.now (item_from index) result offset.new size.new }
{
    report_range(key, find_item(key, index), offset, size)
}

/// Where in a sort key the part at the path is, a JSON Pointer (RFC 6901): its range, which is the key of it.
#[unsafe(no_mangle)]
pub extern "C" fn vizhoniku_key_part(
    alloc: Global,
    key: &[u8],
    path: &[u8],
    offset: &mut usize,
    size: &mut usize,
) -> u32
    ensures status { (result ≡ ACCEPTED) ⊎ (result ≡ OUT_OF_MEMORY) ⊎ (result ≡ NO_PART) ⊎ (result ≡ NO_PATH)
        ⊎ (result ≡ NO_KEY) }

    // The range is that of the part at the path, and there is none where the value has none.
    ensures found { (t : Tree) → IsTreeKey key.now t → (names : List (List ℕ)) → IsPath path.now names
        → (result ≡ OUT_OF_MEMORY) ⊎ IsFound key.now (part_at names t) result offset.new size.new }

    // What is wrong with a path is reported, unless memory ran out.
    ensures path { ReportsPath path.now result }
    ensures memory { result ≡ OUT_OF_MEMORY → StartsKey path.now }

    // A path in which nothing is escaped takes no memory.
    ensures plain { (names : List (List ℕ)) → IsPlainPath path.now names → result ≢ OUT_OF_MEMORY }
    ensures within { IsWithinKey key.now result offset.new size.new }
{
    if let Some(found) = find_plain_part(key, path) {
        return report_range(key, found, offset, size);
    }
    escaped_part(alloc, key, path, offset, size)
}

// The same of a path in which something is escaped, or of bytes that are no path.
#[inline(never)]
fn escaped_part(alloc: Global, key: &[u8], path: &[u8], offset: &mut usize, size: &mut usize) -> u32
    ensures status { (result ≡ ACCEPTED) ⊎ (result ≡ OUT_OF_MEMORY) ⊎ (result ≡ NO_PART) ⊎ (result ≡ NO_PATH)
        ⊎ (result ≡ NO_KEY) }
    ensures found { (t : Tree) → IsTreeKey key.now t → (names : List (List ℕ)) → IsPath path.now names
        → (result ≡ OUT_OF_MEMORY) ⊎ IsFound key.now (part_at names t) result offset.new size.new }
    ensures path { ReportsPath path.now result }
    ensures memory { result ≡ OUT_OF_MEMORY → StartsKey path.now }
    ensures within { IsWithinKey key.now result offset.new size.new }
{
    match read_keys(alloc, path) {
        Ok(Some(names)) => report_range(key, find_part(key, &names), offset, size),
        Ok(None) => {
            *offset = 0;
            *size = 0;
            NO_PATH
        }
        Err(_) => {
            *offset = 0;
            *size = 0;
            OUT_OF_MEMORY
        }
    }
}

// Says where in the key a part is, and gives the status of that.
#[inline(always)]
fn report_range(
    key: &[u8],
    found: Result<Option<&[u8]>, NoKey>,
    offset: &mut usize,
    size: &mut usize,
) -> u32
    ensures status { IsPartStatus result }
    ensures found { (part : Option Tree) → Finds key.now part found.entry
        → IsFound key.now part result offset.new size.new }
    ensures within { IsWithinKey key.now result offset.new size.new }
{
    match locate(key, found) {
        Ok(Some((at, len))) => {
            *offset = at;
            *size = len;
            ACCEPTED
        }
        Ok(None) => {
            *offset = 0;
            *size = 0;
            NO_PART
        }
        Err(NoKey) => {
            *offset = 0;
            *size = 0;
            NO_KEY
        }
    }
}

// The range of a part that was found.
#[inline(always)]
fn locate(key: &[u8], found: Result<Option<&[u8]>, NoKey>) -> Result<Option<(usize, usize)>, NoKey>
    ensures found { (part : Option Tree) → Finds key.now part found.entry
        → MatchResult result (λ answer. MatchOption answer (part ≡ None)
        (λ r. (t : Tree) × (part ≡ Some t) × IsRange key.now r.0 r.1 (key_of t))) (λ e. ⊥) }
    ensures within { IfOk result (λ answer. IfSome answer (λ r. r.0 + r.1 ≤ length key.now)) }
{
    let Some(part) = found? else {
        return Ok(None);
    };
    let range = range_of(key, part)?;
    Ok(Some(range))
}

/// Where the next item or member begins in a sort key, and which of the two: `ARRAY` or `OBJECT`.
#[repr(C)]
#[derive(Clone, Copy)]
pub struct Cursor {
    pub kind: u32,
    pub offset: usize,
}

/// Where in a sort key the name of a member is, as a text, and where its value is, or an item. An item has no
/// name, and the size of that is 0.
#[repr(C)]
#[derive(Clone, Copy)]
pub struct Entry {
    pub name_offset: usize,
    pub name_size: usize,
    pub offset: usize,
    pub size: usize,
}

pub(crate) const NO_CURSOR: Cursor = Cursor { kind: 0, offset: 0 };

pub(crate) const NO_ENTRY: Entry = Entry {
    name_offset: 0,
    name_size: 0,
    offset: 0,
    size: 0,
};

/// Puts the cursor before all items or members of a sort key.
#[unsafe(no_mangle)]
pub extern "C" fn vizhoniku_key_begin(key: &[u8], cursor: &mut Cursor) -> u32
    ensures status { IsPartStatus result }

    // The cursor is before all parts of the value, and a scalar has none.
    ensures begun { (t : Tree) → IsTreeKey key.now t → IsBegun key.now t result cursor.new }
    ensures no_cursor { result ≢ ACCEPTED → cursor.new ≡ NO_CURSOR }
{
    match open_key(key) {
        Ok(Some(parts)) => {
            *cursor = Cursor {
                kind: kind_of_parts(parts.0),
                offset: 1,
            };
            ACCEPTED
        }
        Ok(None) => {
            *cursor = NO_CURSOR;
            NO_PART
        }
        Err(NoKey) => {
            *cursor = NO_CURSOR;
            NO_KEY
        }
    }
}

/// The number of the kind that has these parts.
pub(crate) fn kind_of_parts(object: bool) -> u32
    ensures { result ≡ (if object then OBJECT else ARRAY) }
{
    if object { OBJECT } else { ARRAY }
}

/// Says where the item or the member is at the cursor, and moves the cursor behind it.
#[unsafe(no_mangle)]
pub extern "C" fn vizhoniku_key_next(key: &[u8], cursor: &mut Cursor, entry: &mut Entry) -> u32
    ensures status { IsPartStatus result }

    // The first part that is left is reported, and the cursor is before the others; or none is left.
    ensures next { (left : Open) → OccursBefore key.now cursor.old left
        → IsNextPart key.now left result entry.new cursor.new }

    // Of any bytes and any cursor the ranges lie within the bytes, and the cursor moves only where a part is reported.
    ensures within { LiesWithin key.now entry.new }
    ensures still { result ≢ ACCEPTED → (cursor.new ≡ cursor.old) × (entry.new ≡ NO_ENTRY) }
    ensures further { result ≡ ACCEPTED → cursor.old.offset < cursor.new.offset }
{
    match next_entry(key, *cursor) {
        Ok(Some(reported)) => {
            *entry = reported.0;
            *cursor = reported.1;
            ACCEPTED
        }
        Ok(None) => {
            *entry = NO_ENTRY;
            NO_PART
        }
        Err(NoKey) => {
            *entry = NO_ENTRY;
            NO_KEY
        }
    }
}

/// Where the item or the member is at the cursor, and the cursor behind it.
pub(crate) fn next_entry(key: &[u8], cursor: Cursor) -> Result<Option<(Entry, Cursor)>, NoKey>
    ensures next { (left : Open) → OccursBefore key.now cursor left
        → MatchResult result (λ answer. MatchOption answer
        ((entry : Entry) → (behind : Cursor) → IsNextPart key.now left NO_PART entry behind)
        (λ reported. IsNextPart key.now left ACCEPTED reported.0 reported.1)) (λ e. ⊥) }
    ensures within { IfOk result (λ answer. IfSome answer (λ reported. LiesWithin key.now reported.0)) }
    ensures further { IfOk result (λ answer. IfSome answer (λ reported. cursor.offset < reported.1.offset)) }
    ensures joined { IfOk result (λ answer. IfSome answer (λ reported.
        reported.0.offset + reported.0.size ≡ reported.1.offset)) }
{
    if cursor.kind != ARRAY && cursor.kind != OBJECT {
        return Err(NoKey);
    }
    if cursor.offset > key.len() {
        return Err(NoKey);
    }
    let (_, left) = key.split_at(cursor.offset);
    let Some((value, others)) = next_part(cursor.kind == OBJECT, left)? else {
        return Ok(None);
    };
    let entry = Entry {
        name_offset: cursor.offset,
        name_size: left.len() - value.len(),
        offset: key.len() - value.len(),
        size: value.len() - others.len(),
    };
    let behind = Cursor {
        kind: cursor.kind,
        offset: key.len() - others.len(),
    };
    Ok(Some((entry, behind)))
}

/// Writes the text of a string's sort key to the start of `out`, and its size to `size`. Where `out` is too short, it
/// stays as it is, and `size` is what is needed.
#[unsafe(no_mangle)]
pub extern "C" fn vizhoniku_key_string(key: &[u8], out: &mut [u8], size: &mut usize) -> u32
    ensures status { (result ≡ ACCEPTED) ⊎ (result ≡ TOO_SHORT) ⊎ (result ≡ NO_PART) ⊎ (result ≡ NO_KEY) }

    // What is written is the text of the string, and a value of another kind has none.
    ensures written { (t : Tree) → IsTreeKey key.now t
        → IsWritten (text_of_tree t) result size.new out.old out.new }
    ensures preserves { PreservesBuffer result size.new out.old out.new }
{
    let kind = kind_number(kind_of(key));
    if kind == STRING {
        return write_string(key, out, size);
    }
    *size = 0;
    if kind == NO_KIND {
        return NO_KEY;
    }
    NO_PART
}

// Writes the text of a string's key.
fn write_string(key: &[u8], out: &mut [u8], size: &mut usize) -> u32
    ensures writes { WritesText (λ text. key.now ≡ kind.string ∷ text_key text) result size.new out.old out.new }
{
    match text_of_string(key) {
        Some(text) => write_text(text, out, size),
        None => {
            *size = 0;
            NO_KEY
        }
    }
}

/// Writes the text of a member's name, as it is in a sort key, to the start of `out`, and its size to `size`. Where
/// `out` is too short, it stays as it is, and `size` is what is needed.
#[unsafe(no_mangle)]
pub extern "C" fn vizhoniku_key_name(name: &[u8], out: &mut [u8], size: &mut usize) -> u32
    ensures writes { WritesText (λ text. name.now ≡ text_key text) result size.new out.old out.new }
{
    write_text(name, out, size)
}

// Writes the text whose key this is. One without zeros is in the key as it is.
fn write_text(key: &[u8], out: &mut [u8], size: &mut usize) -> u32
    ensures writes { WritesText (λ text. key.now ≡ text_key text) result size.new out.old out.new }
{
    if let Some(text) = plain_text(key) {
        *size = text.len();
        return put(text, out);
    }
    let Some(needed) = text_size(key) else {
        *size = 0;
        return NO_KEY;
    };
    *size = needed;
    if out.len() < needed {
        return TOO_SHORT;
    }
    put_text(key, out);
    ACCEPTED
}
