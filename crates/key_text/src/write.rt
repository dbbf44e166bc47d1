//! The text of a value from its key.

ghost use Rattle.std.specs.Prelude.{◌≡◌, ◌<◌, ◌≤◌, ◌++◌, ◌∷◌, [], List, ℕ, length, true, IsTrue, IsFalse, IfOk, IfErr, OnErr, OnOk};
ghost use Rattle.std.specs.Vec.{vec_capacity};
ghost use Rattle.jsonb_spec.specs.SortKey.Readable.{IsReadableAt};
ghost use Rattle.jsonb_spec.specs.SortKey.AtKeys.{AtKey, AtParts, OfKey};
ghost use Rattle.jsonb_spec.specs.SortKey.Checked.{IsSortKey};
ghost use Rattle.jsonb_spec.specs.SortKey.Open.{name_key, IsScalar};
ghost use Rattle.jsonb_spec.specs.Ascii as ascii;
ghost use Rattle.jsonb_spec.specs.SortKey.{key_of};
ghost use Rattle.jsonb_spec.specs.Text.Appending.{Appends, comma_before};
ghost use Rattle.jsonb_spec.specs.Text.{tree_text};
ghost use Rattle.jsonb_spec.specs.Tree.{Tree};
ghost use Rattle.jsonb_spec.specs.Document.Counts.{counts_at, counts_open};
ghost use Rattle.key_text.specs.Counts.{IsDue, WhereDue};
ghost use Rattle.jsonb_spec.specs.SortKey.FewestDigits.{AppendsTextOf, AppendsDocumentWithKey};
ghost use Rattle.key_text.specs.NextParts.{BeginsNext, NextIsWithin};
ghost use Rattle.key_text.specs.Writes.{AppendsWord, AppendsLeaving, name_text, opening_text, open_text, closing_text};
ghost use Rattle.jsonb_spec.specs.SortKey.Text.{Preserves, LacksCapacity, value_text};

use crate::append::{append_one, append_within};
use crate::number::{append_number, append_positive};
use crate::string::{append_long_name, append_long_string, append_short_name, append_short_string};
use crate::zeros::{NoZeros, Zeros};
use jsonb_core::plain::plain_len;
use jsonb_core::sort_key::kind;
use key_value::KeyError;
use key_walk::skip::{MAX_DEPTH, after_end, kind_at, opening, outermost};
use std::alloc::AllocError;

/// Appends the serialized form of the value whose sort key the bytes are. A number has the fewest digits: for the key
/// of `1.50` it is `1.5`. After an error `buf` has the same bytes as before.
///
/// The time is linear in the text. The only allocations are those of `buf`, no function calls itself, and the machine
/// stack that is taken is the same for each key.
///
/// Of bytes that aren't a key it may be any text, also one that isn't JSON: a key from outside is checked first, by
/// `is_sort_key` of the crate `key_walk`. The text of a key that it accepts is an extended document with that key.
///
/// # Errors
///
/// `Invalid` only where the bytes aren't the key of a value of JSON's kinds with at most 512 nested arrays and objects.
/// `OutOfMemory` where `buf` could not grow; of such a key only where it lacks the capacity for the whole text.
pub fn write_text_of_key(key: &[u8], buf: &mut Vec<u8>) -> Result<(), KeyError>
    ensures ok { IfOk result (λ _. OfKey key.now (λ t. AppendsTextOf t buf.old.items buf.new.items)) }
    // The text of a checked key is parsed again, and gives the same key.
    ensures document { IfOk result (λ _. IsSortKey key.now → AppendsDocumentWithKey key.now buf.old.items buf.new.items) }
    ensures err { OnErr result (buf.new.items ≡ buf.old.items) }
    // A key fails only where the capacity for the whole text is missing.
    ensures invalid { IfErr result (λ e. e ≡ KeyError.Invalid → OfKey key.now (λ t. ⊥)) }
    ensures full { OnErr result (OfKey key.now (λ t. LacksCapacity buf.old (value_text t))) }
    ensures capacity { vec_capacity buf.old ≤ vec_capacity buf.new }
{
    write_text_with(key, &mut NoZeros, buf)
}

/// Appends the serialized form of the value whose sort key the bytes are, and whose numbers end in these zeros. After an
/// error `buf` has the same bytes as before.
///
/// The time is linear in the text, but for that of the zeros. The only allocations are those of `buf`.
///
/// Of bytes that aren't a key, and of zeros that aren't those of a value with this key, it may be any text.
///
/// # Errors
///
/// `Invalid` only where there is no value of JSON's kinds, with at most 512 nested arrays and objects, that has this key
/// and these zeros. `OutOfMemory` where `buf` could not grow; of such a value only where it lacks the capacity for the
/// whole text.
pub fn write_text_with<Z: Zeros>(
    key: &[u8],
    zeros: &mut Z,
    buf: &mut Vec<u8>,
) -> Result<(), KeyError>
    ensures ok { IfOk result (λ _. OfKey key.now (λ t. Z.due zeros.old (counts_at t)
        → buf.new.items ≡ buf.old.items ++ tree_text t)) }
    ensures err { OnErr result (buf.new.items ≡ buf.old.items) }
    ensures invalid { IfErr result (λ e. e ≡ KeyError.Invalid → OfKey key.now (λ t. Z.due zeros.old (counts_at t) → ⊥)) }
    ensures full { OnErr result (OfKey key.now (λ t. Z.due zeros.old (counts_at t)
        → LacksCapacity buf.old (tree_text t))) }
    ensures capacity { vec_capacity buf.old ≤ vec_capacity buf.new }
{
    let old_len = buf.len();
    // Mostly the text is no longer. Where there is no such space, each append asks for its own.
    let space = key.len().saturating_add(key.len() / 2);
    let _reserved = buf.try_reserve(space.saturating_add(48));
    match append_value(key, zeros, buf) {
        Ok(rest) => {
            if rest.is_empty() {
                return Ok(());
            }
            buf.truncate(old_len);
            Err(KeyError::Invalid)
        }
        Err(error) => {
            buf.truncate(old_len);
            Err(error)
        }
    }
}

// Appends the text of the value whose key the bytes begin with.
fn append_value<'k, Z: Zeros>(
    bytes: &'k [u8],
    zeros: &mut Z,
    buf: &mut Vec<u8>,
) -> Result<&'k [u8], KeyError>
    ensures found { AtKey bytes.now (λ t more. WhereDue (Z.due zeros.old) (counts_at t) more (λ later.
        AppendsLeaving result buf.old buf.new more (tree_text t))) }
    ensures preserves { Preserves buf.old buf.new }
{
    let Some((first, rest)) = bytes.split_first() else {
        return Err(KeyError::Invalid);
    };
    match opening(*first) {
        Some(object) => append_parts(object, rest, zeros, buf),
        None => append_scalar(*first, rest, zeros, buf),
    }
}

// Appends the text of a value that is no array and no object, whose key begins with this byte and the rest. It isn't
// given both as one, which would have to be held in the loop over parts.
#[inline(never)]
fn append_scalar<'k, Z: Zeros>(
    first: u8,
    rest: &'k [u8],
    zeros: &mut Z,
    buf: &mut Vec<u8>,
) -> Result<&'k [u8], KeyError>
    ensures found { (depth : ℕ) → (t : Tree) → IsReadableAt depth t → IsScalar t → (more : List ℕ)
        → first ∷ rest.now ≡ key_of t ++ more → WhereDue (Z.due zeros.old) (counts_at t) more (λ later.
        AppendsLeaving result buf.old buf.new more (tree_text t) × OnOk result (IsDue (Z.due zeros.new) later)) }
    ensures within { IfOk result (λ left. length left.now ≤ length rest.now) }
    ensures preserves { Preserves buf.old buf.new }
{
    if first == kind::STRING {
        return append_long_string(plain_len(rest), rest, buf);
    }
    if first == kind::NULL {
        buf.extend_from_slice(b"null")?;
        return Ok(rest);
    }
    if first == kind::FALSE {
        buf.extend_from_slice(b"false")?;
        return Ok(rest);
    }
    if first == kind::TRUE {
        buf.extend_from_slice(b"true")?;
        return Ok(rest);
    }
    let start = buf.len();
    let left = append_number(first, rest, buf)?;
    zeros.append_next(rest.len() + 1, start, buf)?;
    Ok(left)
}

// Appends what is before a value: a comma, but for the first, and a member's name and a colon.
#[inline(always)]
fn begin_part<'k>(
    object: bool,
    is_first: bool,
    bytes: &'k [u8],
    buf: &mut Vec<u8>,
) -> Result<&'k [u8], KeyError>
    ensures found { (name more : List ℕ) → bytes.now ≡ name_key object name ++ more
        → AppendsLeaving result buf.old buf.new more (comma_before is_first ++ name_text object name) }
    ensures within { IfOk result (λ rest. length rest.now ≤ length bytes.now) }
    ensures preserves { Preserves buf.old buf.new }
{
    if !object {
        append_comma(is_first, buf)?;
        return Ok(bytes);
    }
    append_long_name(is_first, bytes, buf)
}

#[inline(always)]
fn append_comma(is_first: bool, buf: &mut Vec<u8>) -> Result<(), AllocError>
    ensures { Appends result buf.old buf.new (comma_before is_first) }
{
    if is_first {
        return Ok(());
    }
    append_one(b',', buf)
}

// What comes next of an array or an object: its end, and the bytes behind it; or the bytes from a value on.
#[derive(Clone, Copy)]
enum Next<'k> {
    End(&'k [u8]),
    Value(&'k [u8]),
}

// Appends what is before the value that comes next, if one does. Short names are tried first.
#[inline(always)]
fn begin_next<'k>(
    object: bool,
    is_first: bool,
    bytes: &'k [u8],
    buf: &mut Vec<u8>,
) -> Result<Next<'k>, KeyError>
    ensures begins { BeginsNext object is_first bytes.now result buf.old buf.new }
    ensures within { IfOk result (NextIsWithin bytes.now) }
    ensures preserves { Preserves buf.old buf.new }
{
    let named = append_short_name(object, is_first, bytes, buf);
    if named > 0 {
        return Ok(Next::Value(&bytes[named..]));
    }
    if let Some(others) = after_end(object, bytes) {
        return Ok(Next::End(others));
    }
    match begin_part(object, is_first, bytes, buf) {
        Ok(value) => Ok(Next::Value(value)),
        Err(error) => Err(error),
    }
}

#[inline(always)]
fn append_opening(object: bool, buf: &mut Vec<u8>) -> Result<(), AllocError>
    ensures { Appends result buf.old buf.new (opening_text object ∷ []) }
{
    append_one(if object { b'{' } else { b'[' }, buf)
}

#[inline(always)]
fn append_closing(object: bool, buf: &mut Vec<u8>) -> Result<(), AllocError>
    ensures { Appends result buf.old buf.new (closing_text object ∷ []) }
{
    append_one(if object { b'}' } else { b']' }, buf)
}

// Appends an object or an array, from the parts that the bytes begin with. Which of the open ones are objects is in
// an array, outermost first. Short names and scalars are tried first, by functions that return a number of bytes, as
// results with a slice would be in memory.
fn append_parts<'k, Z: Zeros>(
    object: bool,
    bytes: &'k [u8],
    zeros: &mut Z,
    buf: &mut Vec<u8>,
) -> Result<&'k [u8], KeyError>
    ensures found { AtParts object bytes.now (λ o more. WhereDue (Z.due zeros.old) (counts_open o) more (λ later.
        AppendsLeaving result buf.old buf.new more (opening_text object ∷ open_text true o))) }
    ensures preserves { Preserves buf.old buf.new }
{
    append_opening(object, buf)?;
    let mut objects = outermost(object);
    let mut depth: usize = 1;
    let mut inside = object;
    let mut is_first = true;
    let mut rest = bytes;
    'parts: loop {
        let next = begin_next(inside, is_first, rest, buf)?;
        let value = match next {
            Next::End(others) => {
                append_closing(inside, buf)?;
                depth -= 1;
                if depth == 0 {
                    return Ok(others);
                }
                inside = kind_at(&objects, depth - 1);
                is_first = false;
                rest = others;
                continue;
            }
            Next::Value(value) => value,
        };
        let Some((first, others)) = value.split_first() else {
            return Err(KeyError::Invalid);
        };
        let start = buf.len();
        let digits = append_positive(*first, others, buf);
        if digits > 0 {
            zeros.append_next(others.len() + 1, start, buf)?;
            is_first = false;
            rest = &others[digits..];
            continue;
        }
        if *first == kind::STRING {
            let run = plain_len(others);
            let short = append_short_string(run, others, buf);
            is_first = false;
            if short > 0 {
                rest = &others[short..];
                continue;
            }
            rest = append_long_string(run, others, buf)?;
            continue;
        }
        if *first < kind::OBJECT || *first > kind::ARRAY {
            is_first = false;
            if append_word(*first, buf) {
                rest = others;
                continue;
            }
            rest = append_scalar(*first, others, zeros, buf)?;
            continue;
        }
        let Some(inner) = opening(*first) else {
            return Err(KeyError::Invalid);
        };
        if depth == MAX_DEPTH {
            return Err(KeyError::Invalid);
        }
        append_opening(inner, buf)?;
        objects[depth] = inner;
        depth += 1;
        inside = inner;
        is_first = true;
        rest = others;
    }
}

// Appends the word whose key is this byte, if it is one and there is space, and returns whether it is done.
#[inline(always)]
fn append_word(first: u8, buf: &mut Vec<u8>) -> bool
    ensures appended { IsTrue result → AppendsWord first buf.old.items buf.new.items }
    ensures unchanged { IsFalse result → buf.new.items ≡ buf.old.items }
    ensures preserves { Preserves buf.old buf.new }
{
    let (row, count) = match first {
        kind::NULL => (*b"null ", 4),
        kind::FALSE => (*b"false", 5),
        kind::TRUE => (*b"true ", 4),
        _ => return false,
    };
    append_within(&row, count, buf)
}
