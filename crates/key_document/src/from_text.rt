//! Documents straight from serialized forms.
mod digits;
mod item;
mod string;

ghost use Rattle.std.specs.Prelude.{◌≡◌, ◌<◌, ◌+◌, ◌-◌, ◌^◌, ◌++◌, MatchResult, List, ℕ, length, unsigned_abs, vec_len};
ghost use Rattle.jsonb_spec.specs.Proper.{IsProperNumber};
ghost use Rattle.jsonb_spec.specs.SortKey.{key_of, number_key};
ghost use Rattle.jsonb_spec.specs.Text.Appending.{Appends};
ghost use Rattle.jsonb_spec.specs.Text.NumberText.{number_text};
ghost use Rattle.jsonb_spec.specs.Tree.{Num, Tree};
ghost use Rattle.key_document.specs.FromText.{EndsNumber, WritesPart, mark_behind, mark_key};
ghost use Rattle.jsonb_spec.specs.SortKey.AtKeys.{OfText};
ghost use Rattle.key_document.specs.Tokens.{AreTokens, FindsZeros, Token, ZerosFrom, tokens_counts, tokens_key, tokens_text};
ghost use Rattle.key_document.specs.Splices.{AppendsZeros};
ghost use Rattle.key_document.specs.Changes.{AppendsDocument};
ghost use Rattle.jsonb_spec.specs.Document.PartAt.{PreservesOnError};
ghost use Rattle.jsonb_spec.specs.Document.{behind_key, document_of, zeros_at};
ghost use Rattle.key_document.specs.declared.error.DocumentError.TheVariants as DocumentError;
ghost use Rattle.jsonb_spec.specs.Document.Zeros.{entry_of, plain_behind, zeros_of};
ghost use Rattle.std.specs.Vec.{vec_capacity};
ghost use Rattle.jsonb_spec.specs.SortKey.FewestDigits.{spare_zeros};
ghost use Rattle.jsonb_spec.specs.SortKey.Text.{Preserves};

use crate::document::end_zeros;
use crate::error::DocumentError;
use digits::{number_of, read_digits};
use jsonb_core::parts::append_number_key;
use jsonb_core::sort_key::kind;
use key_walk::skip::after_scalar;
use key_zeros::entry::append_entry;
use key_zeros::scan::{ending_of, is_number_byte};
use std::alloc::AllocError;
use string::{append_string, string_size};

/// Appends the document of the value whose serialized form the text is.
///
/// The text is looked at once, and once more from the first number on that zeros end behind its point. Nothing is
/// allocated but for `out`, and no function calls itself. Of other bytes it may append any bytes.
///
/// # Errors
///
/// `NoDocument` only where the bytes aren't the serialized form of a value of JSON's kinds with at most 512 nested
/// arrays and objects, and `OutOfMemory` only where the buffer lacks the capacity for the whole document. After an
/// error the buffer is as before.
pub fn append_document_of_text(out: &mut Vec<u8>, text: &[u8]) -> Result<(), DocumentError>
    ensures document { OfText text.now (λ t. AppendsDocument t result out.old out.new) }
    ensures preserves { PreservesOnError result out.old out.new }
{
    let start = out.len();
    // Mostly the document is no longer. Where there is no such space, each append asks for its own.
    let _reserved = out.try_reserve(text.len().saturating_add(24));
    match append_whole(text, out) {
        Ok(()) => Ok(()),
        Err(error) => {
            out.truncate(start);
            Err(error)
        }
    }
}

// Appends the document of the value whose serialized form the text is.
fn append_whole(text: &[u8], out: &mut Vec<u8>) -> Result<(), DocumentError>
    ensures appended { OfText text.now (λ t. AppendsZeros result out.old out.new (document_of t)) }
    ensures preserves { Preserves out.old out.new }
{
    let start = out.len();
    let zeros = append_key(text, out)?;
    if zeros.left == 0 {
        return Ok(());
    }
    append_tail(text, start, &zeros, out)
}

// Appends what follows the key, which begins at this offset in the buffer: the zeros, and their end.
#[inline(never)]
fn append_tail(
    text: &[u8],
    start: usize,
    first: &FirstZeros,
    out: &mut Vec<u8>,
) -> Result<(), DocumentError>
    ensures appended { (t : Tree) → ZerosFrom t text.now start first.now → (before : List ℕ)
        → out.old.items ≡ before ++ key_of t → length before ≡ start
        → AppendsZeros result out.old out.new (behind_key (zeros_at t)) }
    ensures preserves { Preserves out.old out.new }
{
    let Some(passed) = text.len().checked_sub(first.left) else {
        return Err(DocumentError::NoDocument);
    };
    let (_, rest) = text.split_at(passed);
    let end = out.len();
    append_zeros(rest, first.at, first.at.saturating_sub(start), out)?;
    end_zeros(end, out)?;
    Ok(())
}

/// Where zeros come first: at the first number that they end behind its point.
#[derive(Clone, Copy)]
pub(crate) struct FirstZeros {
    /// How many bytes of the text are left from that number on; 0 where there is none.
    pub(crate) left: usize,
    /// How many bytes the buffer has before its key.
    pub(crate) at: usize,
}

/// Appends the key of the value whose serialized form the text is, and says where zeros come first.
pub(crate) fn append_key(text: &[u8], out: &mut Vec<u8>) -> Result<FirstZeros, DocumentError>
    ensures found { OfText text.now (λ t. WritesPart (FindsZeros t text.now (vec_len out.old))
        result out.old out.new (key_of t)) }
    ensures preserves { Preserves out.old out.new }
{
    let mut zeros = FirstZeros { left: 0, at: 0 };
    let mut rest = text;
    'parts: while let Some((first, others)) = rest.split_first() {
        if *first == b'"' {
            rest = append_string(others, out)?;
            continue;
        }
        if is_number_byte(*first) {
            let at = out.len();
            let (count, behind) = append_number(rest, out)?;
            if behind.len() >= rest.len() {
                return Err(DocumentError::NoDocument);
            }
            zeros = first_zeros(&zeros, count, rest.len(), at);
            rest = behind;
            continue;
        }
        append_mark(*first, out)?;
        let size = mark_behind(*first);
        if size > others.len() {
            return Err(DocumentError::NoDocument);
        }
        let (_, behind) = others.split_at(size);
        rest = behind;
    }
    Ok(zeros)
}

// Where zeros come first, with one number more, which so many end.
#[inline(always)]
fn first_zeros(before: &FirstZeros, count: usize, left: usize, at: usize) -> FirstZeros
    ensures kept { 0 < before.now.left → result ≡ before.now }
    ensures none { count ≡ 0 → result ≡ before.now }
    ensures found { before.now.left ≡ 0 → 0 < count → (result.left ≡ left) × (result.at ≡ at) }
{
    if count == 0 || before.left > 0 {
        return *before;
    }
    FirstZeros { left, at }
}

// Appends the key of the number that the bytes begin with, and says how many zeros end it behind the point.
#[inline(always)]
fn append_number<'t>(bytes: &'t [u8], out: &mut Vec<u8>) -> Result<(usize, &'t [u8]), DocumentError>
    ensures found { (n : Num) → IsProperNumber n → (more : List ℕ) → EndsNumber more
        → bytes.now ≡ number_text n ++ more
        → WritesPart (λ r. (r.0 ≡ spare_zeros n.scale (unsigned_abs n.whole)) × (r.1.now ≡ more))
        result out.old out.new (number_key n) }
    ensures preserves { Preserves out.old out.new }
{
    let Some(digits) = read_digits(bytes) else {
        return Err(DocumentError::NoDocument);
    };
    let Some(number) = number_of(bytes, &digits) else {
        return Err(DocumentError::NoDocument);
    };
    append_number_key(&number, out)?;
    Ok((digits.zeros, digits.rest))
}

/// Appends the zeros of what the text is the parts of. Their keys begin at this offset in the buffer, and so many bytes
/// without zeros come before them.
pub(crate) fn append_zeros(
    text: &[u8],
    at: usize,
    plain: usize,
    out: &mut Vec<u8>,
) -> Result<(), DocumentError>
    ensures appended { (tokens : List Token) → AreTokens tokens → text.now ≡ tokens_text tokens
        → (front : List ℕ) → out.old.items ≡ front ++ tokens_key tokens → at ≡ length front
        → plain + length (tokens_key tokens) < 2 ^ 63
        → AppendsZeros result out.old out.new (zeros_of plain (tokens_counts tokens)) }
    ensures preserves { Preserves out.old out.new }
{
    let mut at = at;
    let mut plain = plain;
    let mut rest = text;
    'parts: while let Some((first, others)) = rest.split_first() {
        if *first == b'"' {
            let Some((size, behind)) = string_size(others) else {
                return Err(DocumentError::NoDocument);
            };
            at = at.saturating_add(size);
            plain = plain.saturating_add(size);
            rest = behind;
            continue;
        }
        if is_number_byte(*first) {
            let (count, behind) = count_zeros(rest)?;
            if behind.len() >= rest.len() {
                return Err(DocumentError::NoDocument);
            }
            let size = number_size(out, at)?;
            plain = pass_number(plain, count, size, out)?;
            at = at.saturating_add(size);
            rest = behind;
            continue;
        }
        let size = mark_size(*first);
        at = at.saturating_add(size);
        plain = plain.saturating_add(size);
        let more = mark_behind(*first);
        if more > others.len() {
            return Err(DocumentError::NoDocument);
        }
        let (_, behind) = others.split_at(more);
        rest = behind;
    }
    Ok(())
}

// How many zeros end the number that the bytes begin with, and the bytes behind it.
#[inline(always)]
fn count_zeros(bytes: &[u8]) -> Result<(u8, &[u8]), DocumentError>
    ensures found { (n : Num) → IsProperNumber n → (more : List ℕ) → EndsNumber more
        → bytes.now ≡ number_text n ++ more
        → MatchResult result (λ r. (r.0 ≡ spare_zeros n.scale (unsigned_abs n.whole)) × (r.1.now ≡ more)) (λ e. ⊥) }
{
    let ending = ending_of(bytes);
    if ending.zeros > 255 {
        return Err(DocumentError::NoDocument);
    }
    Ok((ending.zeros as u8, ending.rest))
}

// How many bytes the key of a number has that begins at this offset.
#[inline(always)]
fn number_size(bytes: &[u8], at: usize) -> Result<usize, DocumentError>
    ensures found { (n : Num) → IsProperNumber n → (front more : List ℕ) → bytes.now ≡ front ++ (number_key n ++ more)
        → at ≡ length front → MatchResult result (λ size. size ≡ length (number_key n)) (λ e. ⊥) }
{
    if at > bytes.len() {
        return Err(DocumentError::NoDocument);
    }
    let (_, key) = bytes.split_at(at);
    match after_scalar(key) {
        Some(behind) => Ok(key.len() - behind.len()),
        None => Err(DocumentError::NoDocument),
    }
}

// Appends what is stored of a number with so many zeros, before whose key so many bytes without any come. The answer is
// how many do behind its key, which has this size.
#[inline(always)]
fn pass_number(
    plain: usize,
    count: u8,
    size: usize,
    out: &mut Vec<u8>,
) -> Result<usize, DocumentError>
    ensures found { plain + size < 2 ^ 63 → 0 < size → MatchResult result
        (λ more. (more ≡ plain_behind plain count + (size - 1))
        × (out.new.items ≡ out.old.items ++ entry_of plain count))
        (λ e. (e ≡ DocumentError.OutOfMemory)
        × (vec_capacity out.old < vec_len out.old + length (entry_of plain count))) }
    ensures preserves { Preserves out.old out.new }
{
    let more = append_entry(plain, count, out)?;
    Ok(more.saturating_add(size.saturating_sub(1)))
}

// Appends the key of what begins with this byte, and is neither a string nor a number.
#[inline(always)]
fn append_mark(first: u8, out: &mut Vec<u8>) -> Result<(), AllocError>
    ensures { Appends result out.old out.new (mark_key first) }
{
    match first {
        b'{' => out.extend_from_slice(&[kind::OBJECT]),
        b'[' => out.extend_from_slice(&[kind::ARRAY]),
        b'}' => out.extend_from_slice(&[kind::TERMINATOR, kind::TERMINATOR]),
        b']' => out.extend_from_slice(&[kind::TERMINATOR]),
        b'n' => out.extend_from_slice(&[kind::NULL]),
        b't' => out.extend_from_slice(&[kind::TRUE]),
        b'f' => out.extend_from_slice(&[kind::FALSE]),
        _ => Ok(()),
    }
}

// How many bytes that key has.
#[inline(always)]
fn mark_size(first: u8) -> usize
    ensures { result ≡ length (mark_key first) }
{
    match first {
        b'}' => 2,
        b'{' | b'[' | b']' | b'n' | b't' | b'f' => 1,
        _ => 0,
    }
}

// How many bytes of it come behind the first.
#[inline(always)]
fn mark_behind(first: u8) -> usize
    ensures { result ≡ mark_behind first }
{
    match first {
        b'n' | b't' => 3,
        b'f' => 4,
        _ => 0,
    }
}
