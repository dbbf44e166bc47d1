//! Whether bytes are a sort key.

ghost use Rattle.std.specs.Prelude.{◌≡◌, ◌<◌, ◌≤◌, ◌++◌, ◌↔◌, List, ℕ, length, get_or, true, IsTrue, IfOk, IfErr, IfSome, Option};
ghost use Rattle.key_walk.specs.AtKeys.{Checks};
ghost use Rattle.jsonb_spec.specs.SortKey.AtKeys.{Leaves};
ghost use Rattle.jsonb_spec.specs.SortKey.Checked.{IsSortKey};
ghost use Rattle.key_walk.specs.Frames.{KeyFirst, ScalarFirst, TextFirst, PartsFirst, Frame, in_object, is_object_frame, new_frame, IsAbove, NameFirst, frame_behind, IsFrame};
ghost use Rattle.jsonb_spec.specs.SortKey.{text_key};

use crate::ascii::utf8_run;
use crate::digits::checked_number;
use crate::skip::{MAX_DEPTH, after_end, after_text, is_word, opening};
use crate::walk::front;
use jsonb_core::sort_key::kind;

// What is held of each open array and object: that it is an array, that it is an object with no name passed, or else
// how many bytes there are from the last name on.
const ARRAY: usize = 0;

const NO_NAME: usize = 1;

// For how many open arrays and objects there is space at first: space for all takes longer to fill than most keys take
// to check.
const FEW: usize = 8;

/// Whether the bytes are the sort key of a value in range: of JSON's kinds, with at most 512 nested arrays and objects,
/// and with numbers of at most 38 digits, before and behind the point. So each such key is that of an extended text.
/// Nothing is allocated, and no function calls itself.
pub fn is_sort_key(bytes: &[u8]) -> bool
    ensures { IsTrue result ↔ IsSortKey bytes.now }
{
    match checked_key(bytes) {
        Some(rest) => rest.is_empty(),
        None => false,
    }
}

// The bytes after the key that they begin with, if it is one.
fn checked_key(bytes: &[u8]) -> Option<&[u8]>
    ensures { (more : List ℕ) → Leaves result more ↔ KeyFirst bytes.now more }
{
    let Some((first, rest)) = bytes.split_first() else {
        return None;
    };
    match opening(*first) {
        Some(object) => checked_parts(object, rest),
        None => checked_scalar(bytes),
    }
}

// The bytes after the key of a scalar that they begin with, if it is one.
fn checked_scalar(bytes: &[u8]) -> Option<&[u8]>
    ensures checks { Checks (ScalarFirst bytes.now) bytes.now result }
{
    let Some((first, rest)) = bytes.split_first() else {
        return None;
    };
    if *first == kind::STRING {
        return checked_text(rest);
    }
    if is_word(*first) {
        return Some(rest);
    }
    checked_number(bytes)
}

// The bytes after the key of a text that they begin with, if it is one, from what is behind its first byte.
fn checked_text(bytes: &[u8]) -> Option<&[u8]>
    ensures checks { Checks (TextFirst bytes.now) bytes.now result }
{
    let mut rest = bytes;
    'zeros: while let Some(zero) = utf8_run(rest) {
        let (_, tail) = rest.split_at(zero + 1);
        let Some((mark, others)) = tail.split_first() else {
            return None;
        };
        if *mark == kind::TEXT_END {
            return Some(others);
        }
        if *mark != kind::ESCAPED {
            return None;
        }
        rest = others;
    }
    None
}

// The bytes after the parts of an object or an array and after its end, if they are in order.
fn checked_parts(object: bool, bytes: &[u8]) -> Option<&[u8]>
    ensures { (more : List ℕ) → Leaves result more ↔ PartsFirst object bytes.now more }
{
    let mut frames = [ARRAY; FEW];
    match checked_within(object, bytes, &mut frames) {
        Ok(rest) => rest,
        Err(NoCapacity) => checked_deep(object, bytes),
    }
}

// The bytes after such parts, with space for as many open arrays and objects as there may be.
#[inline(never)]
fn checked_deep(object: bool, bytes: &[u8]) -> Option<&[u8]>
    ensures { (more : List ℕ) → Leaves result more ↔ PartsFirst object bytes.now more }
{
    let mut frames = [ARRAY; MAX_DEPTH];
    match checked_within(object, bytes, &mut frames) {
        Ok(rest) => rest,
        Err(NoCapacity) => None,
    }
}

// More arrays and objects are open at once than there is space for.
#[derive(Drop)]
struct NoCapacity;

// The bytes after such parts, with this space for the open arrays and objects.
#[inline(never)]
fn checked_within<'k>(
    object: bool,
    bytes: &'k [u8],
    frames: &mut [usize],
) -> Result<Option<&'k [u8]>, NoCapacity>
    requires some { 0 < length frames.old }
    requires few { length frames.old ≤ 512 }
    ensures checked { IfOk result (λ rest. (more : List ℕ) → Leaves rest more ↔ PartsFirst object bytes.now more) }
    ensures no_capacity { IfErr result (λ e. length frames.old < 512) }
{
    frames[0] = new_frame(object);
    let mut depth: usize = 1;
    let mut rest = bytes;
    'parts: loop {
        let Some(top) = depth.checked_sub(1) else {
            return Ok(Some(rest));
        };
        let last = frame_at(frames, top);
        if let Some(others) = after_end(is_object(last), rest) {
            depth = top;
            rest = others;
            continue;
        }
        let Some(value) = checked_name(bytes, last, rest) else {
            return Ok(None);
        };
        frames[top] = with_name(last, rest);
        let Some((first, others)) = value.split_first() else {
            return Ok(None);
        };
        match opening(*first) {
            Some(inner) => {
                if depth == MAX_DEPTH {
                    return Ok(None);
                }
                if depth == frames.len() {
                    return Err(NoCapacity);
                }
                frames[depth] = new_frame(inner);
                depth += 1;
                rest = others;
            }
            None => {
                let Some(others) = checked_scalar(value) else {
                    return Ok(None);
                };
                rest = others;
            }
        }
    }
}

// The frame of an array or an object of which nothing was passed.
fn new_frame(object: bool) -> usize
    ensures { (bytes : List ℕ) → IsFrame bytes (new_frame object) result }
{
    if object { NO_NAME } else { ARRAY }
}

fn frame_at(frames: &[usize], index: usize) -> usize
    requires { index < length frames.now }
    ensures { result ≡ get_or frames.now index 0 }
{
    frames[index]
}

// Whether the frame is of an object.
fn is_object(last: usize) -> bool
    ensures { (bytes : List ℕ) → (f : Frame) → IsFrame bytes f last → result ≡ is_object_frame f }
{
    last != ARRAY
}

// The frame with the name that is first.
fn with_name(last: usize, rest: &[u8]) -> usize
    ensures { (bytes front name more : List ℕ) → (f : Frame) → IsFrame bytes f last → NameFirst f name rest.now more
        → bytes ≡ front ++ rest.now → IsFrame bytes (frame_behind f name) result }
{
    if last == ARRAY { ARRAY } else { rest.len() }
}

// The bytes after the next member's name, if it is in order. An item has no name.
fn checked_name<'k>(bytes: &'k [u8], last: usize, rest: &'k [u8]) -> Option<&'k [u8]>
    ensures found { (f : Frame) → IsFrame bytes.now f last → (more : List ℕ)
        → Leaves result more ↔ ((name : List ℕ) × NameFirst f name rest.now more) }
    ensures within { IfSome result (λ value. length value.now ≤ length rest.now) }
{
    if last == ARRAY {
        return Some(rest);
    }
    let Some(value) = checked_text(rest) else {
        return None;
    };
    if !is_above(bytes, last, front(rest, value)) {
        return None;
    }
    Some(value)
}

// Whether the name with this key is above the last one.
fn is_above(bytes: &[u8], last: usize, key: &[u8]) -> bool
    ensures { (before : Option (List ℕ)) → IsFrame bytes.now (in_object before) last → (name : List ℕ)
        → key.now ≡ text_key name → IsTrue result ↔ IsAbove before name }
{
    if last == NO_NAME {
        return true;
    }
    let Some(start) = bytes.len().checked_sub(last) else {
        return false;
    };
    let (_, earlier) = bytes.split_at(start);
    let Some(rest) = after_text(earlier) else {
        return false;
    };
    front(earlier, rest).cmp(key).is_lt()
}
