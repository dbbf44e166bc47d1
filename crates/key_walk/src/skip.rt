//! Where the key of a value ends.

ghost use Rattle.std.specs.Prelude.{◌≡◌, ◌<◌, ◌≤◌, ◌^◌, ◌++◌, ◌∷◌, ◌≢◌, List, ℕ, length, drop, map, true, nat_lt, IfErr, IfOk, IfSome, IsTrue, IsFalse, MatchOption, get_or, false, Some};
ghost use Rattle.jsonb_spec.specs.SortKey.Readable.{IsReadableAt};
ghost use Rattle.jsonb_spec.specs.SortKey.Reading.{exponent_of};
ghost use Rattle.jsonb_spec.specs.SortKey.AtKeys.{AtKey, AtParts, Leaves, NoMembersEnd};
ghost use Rattle.key_walk.specs.AtKeys.{IsNoWord, IsWord};
ghost use Rattle.jsonb_spec.specs.SortKey.Open.{end_key, name_key, opening_byte, IsScalar};
ghost use Rattle.jsonb_spec.specs.Proper.{IsProperNumber};
ghost use Rattle.jsonb_spec.specs.SortKey.{key_of, number_key, digits_key, text_key, invert_if};
ghost use Rattle.jsonb_spec.specs.SortKey.Kind as kind;
ghost use Rattle.jsonb_spec.specs.Tree.{Tree, Num};

use crate::ascii::run_before_zero;
use jsonb_core::sort_key::kind;
use key_value::number::invert_if;
use key_value::text::skip_pair;
use memchr::memchr;

/// How many arrays and objects may be open at once.
pub const MAX_DEPTH: usize = 512;

// For how many open arrays and objects there is space at first: all take longer to set than most keys to pass.
const FEW: usize = 16;

/// The bytes after the sort key that they begin with, of a value of JSON's kinds with at most 512 nested arrays and
/// objects. Nothing is allocated, and no function calls itself. Of other bytes it may be any rest of them, or `None`.
#[inline(always)]
pub fn after_key(bytes: &[u8]) -> Option<&[u8]>
    ensures found { AtKey bytes.now (λ t more. Leaves result more) }
    ensures shorter { IfSome result (λ rest. length rest.now < length bytes.now) }
{
    let (first, rest) = bytes.split_first()?;
    match opening(*first) {
        Some(object) => after_size(rest, parts_size(object, rest)),
        None => after_scalar(bytes),
    }
}

// The bytes after as many; `None` after none.
#[inline(always)]
fn after_size(bytes: &[u8], size: usize) -> Option<&[u8]>
    requires { size ≤ length bytes.now }
    ensures found { 0 < size → Leaves result (drop size bytes.now) }
    ensures shorter { IfSome result (λ rest. length rest.now < length bytes.now) }
{
    if size == 0 {
        return None;
    }
    let (_, rest) = bytes.split_at(size);
    Some(rest)
}

// How many bytes there are of the parts of an object or an array and of its end; 0 where there is no end.
#[inline(never)]
fn parts_size(object: bool, bytes: &[u8]) -> usize
    ensures found { AtParts object bytes.now (λ o more. (0 < result) × (drop result bytes.now ≡ more)) }
    ensures within { result ≤ length bytes.now }
{
    match after_parts(object, bytes) {
        Some(rest) => bytes.len() - rest.len(),
        None => 0,
    }
}

/// Whether the first byte of a key is that of an object, where it is that of an object or an array.
pub fn opening(first: u8) -> Option<bool>
    ensures { MatchOption result ((first ≢ kind.object) × (first ≢ kind.array))
        (λ object. first ≡ opening_byte object) }
{
    match first {
        kind::OBJECT => Some(true),
        kind::ARRAY => Some(false),
        _ => None,
    }
}

/// The bytes after the key of a value that is no array and no object.
#[inline(always)]
pub fn after_scalar(bytes: &[u8]) -> Option<&[u8]>
    ensures found { (depth : ℕ) → (t : Tree) → IsReadableAt depth t → IsScalar t → (more : List ℕ)
        → bytes.now ≡ key_of t ++ more → Leaves result more }
    ensures shorter { IfSome result (λ rest. length rest.now < length bytes.now) }
{
    let (first, rest) = bytes.split_first()?;
    if *first == kind::STRING {
        return after_text(rest);
    }
    if is_word(*first) {
        return Some(rest);
    }
    after_number(*first < kind::ZERO, bytes)
}

// The byte is a whole key: false, true, 0 and null.
pub(crate) fn is_word(byte: u8) -> bool
    ensures yes { IsTrue result → IsWord byte }
    ensures no { IsFalse result → IsNoWord byte }
{
    byte == kind::FALSE || byte == kind::TRUE || byte == kind::ZERO || byte == kind::NULL
}

/// The bytes after the key of a text that they begin with.
#[inline(always)]
pub(crate) fn after_text(bytes: &[u8]) -> Option<&[u8]>
    ensures found { (text more : List ℕ) → bytes.now ≡ text_key text ++ more → Leaves result more }
    ensures shorter { IfSome result (λ rest. length rest.now < length bytes.now) }
{
    match split_text(bytes) {
        Some((_, rest)) => Some(rest),
        None => after_size(bytes, any_text_size(bytes)),
    }
}

// How many bytes the key of a text takes that may have zeros; 0 where there is none.
#[inline(never)]
fn any_text_size(bytes: &[u8]) -> usize
    ensures found { (text more : List ℕ) → bytes.now ≡ text_key text ++ more
        → (0 < result) × (drop result bytes.now ≡ more) }
    ensures within { result ≤ length bytes.now }
{
    match after_any_text(bytes) {
        Some(others) => bytes.len() - others.len(),
        None => 0,
    }
}

// The text whose key the bytes begin with, and the bytes after that; `None` where the text has a zero.
#[inline(always)]
pub(crate) fn split_text(bytes: &[u8]) -> Option<(&[u8], &[u8])>
    ensures split { (text more : List ℕ) → bytes.now ≡ text_key text ++ more
        → IfSome result (λ r. (r.0.now ≡ text) × (r.1.now ≡ more)) }
    ensures not_over { IfSome result (λ r. NoMembersEnd bytes.now) }
    ensures shorter { IfSome result (λ r. length r.1.now < length bytes.now) }
{
    let (text, end) = bytes.split_at(run_before_zero(bytes));
    match skip_pair(kind::TEXT_END, end) {
        Some(rest) => Some((text, rest)),
        None => None,
    }
}

// The bytes after the key of a text that may have zeros.
#[inline(never)]
fn after_any_text(bytes: &[u8]) -> Option<&[u8]>
    ensures found { (text more : List ℕ) → bytes.now ≡ text_key text ++ more → Leaves result more }
    ensures shorter { IfSome result (λ rest. length rest.now < length bytes.now) }
{
    let mut rest = bytes;
    'zeros: while let Some(zero) = memchr(0, rest) {
        let (_, end) = rest.split_at(zero + 1);
        let (mark, others) = end.split_first()?;
        if *mark == kind::TEXT_END {
            return Some(others);
        }
        if *mark != kind::ESCAPED {
            return None;
        }
        rest = others;
    }
    None
}

// The bytes after a number that isn't 0.
#[inline(always)]
fn after_number(negative: bool, bytes: &[u8]) -> Option<&[u8]>
    ensures found { (n : Num) → IsProperNumber n → (first : ℕ) → (tail : List ℕ) → bytes.now ≡ first ∷ tail
        → first ≢ kind.zero → negative ≡ nat_lt first kind.zero → (more : List ℕ) → bytes.now ≡ number_key n ++ more
        → Leaves result more }
    ensures shorter { IfSome result (λ rest. length rest.now < length bytes.now) }
{
    let digits = after_exponent(negative, bytes)?;
    after_digits(negative, digits)
}

// The bytes after the exponent of a number's first digit.
#[inline(always)]
fn after_exponent(negative: bool, bytes: &[u8]) -> Option<&[u8]>
    ensures found { (exponent : ℕ) → (more : List ℕ) → exponent_of negative bytes.now ≡ Some (exponent, more)
        → Leaves result more }
    ensures shorter { IfSome result (λ rest. length rest.now < length bytes.now) }
{
    let (first, rest) = bytes.split_first()?;
    if invert_if(negative, *first) != kind::FAR_EXPONENT {
        return Some(rest);
    }
    let (_, digits) = rest.split_first()?;
    Some(digits)
}

// The bytes after digits: behind the first even byte.
#[inline(always)]
fn after_digits(negative: bool, bytes: &[u8]) -> Option<&[u8]>
    ensures found { (count magnitude : ℕ) → magnitude < 10 ^ count → 0 < magnitude → (more : List ℕ)
        → bytes.now ≡ map (invert_if negative) (digits_key count magnitude) ++ more → Leaves result more }
    ensures shorter { IfSome result (λ rest. length rest.now < length bytes.now) }
{
    if negative {
        after_odd(bytes)
    } else {
        after_even(bytes)
    }
}

// The bytes behind the first odd one.
#[inline(always)]
fn after_odd(bytes: &[u8]) -> Option<&[u8]>
    ensures found { (count magnitude : ℕ) → magnitude < 10 ^ count → 0 < magnitude → (more : List ℕ)
        → bytes.now ≡ map (invert_if true) (digits_key count magnitude) ++ more → Leaves result more }
    ensures shorter { IfSome result (λ rest. length rest.now < length bytes.now) }
{
    let mut rest = bytes;
    'pairs: while let Some((byte, others)) = rest.split_first() {
        if *byte % 2 != 0 {
            return Some(others);
        }
        rest = others;
    }
    None
}

// The bytes behind the first even one.
#[inline(always)]
fn after_even(bytes: &[u8]) -> Option<&[u8]>
    ensures found { (count magnitude : ℕ) → magnitude < 10 ^ count → 0 < magnitude → (more : List ℕ)
        → bytes.now ≡ map (invert_if false) (digits_key count magnitude) ++ more → Leaves result more }
    ensures shorter { IfSome result (λ rest. length rest.now < length bytes.now) }
{
    let mut rest = bytes;
    'pairs: while let Some((byte, others)) = rest.split_first() {
        if *byte % 2 == 0 {
            return Some(others);
        }
        rest = others;
    }
    None
}

/// The bytes after the end of an object or an array, if it ends here.
#[inline(always)]
pub fn after_end(object: bool, bytes: &[u8]) -> Option<&[u8]>
    ensures some { IfSome result (λ rest. bytes.now ≡ end_key object ++ rest.now) }
    ensures found { (more : List ℕ) → bytes.now ≡ end_key object ++ more → Leaves result more }
    ensures shorter { IfSome result (λ rest. length rest.now < length bytes.now) }
{
    if object {
        return skip_pair(0, bytes);
    }
    let (zero, rest) = bytes.split_first()?;
    match *zero {
        0 => Some(rest),
        _ => None,
    }
}

// Whether an object or an array ends here.
pub(crate) fn is_over(object: bool, bytes: &[u8]) -> bool
    ensures yes { IsTrue result → (tail : List ℕ) × (bytes.now ≡ end_key object ++ tail) }
    ensures no { IsFalse result → (tail : List ℕ) → bytes.now ≡ end_key object ++ tail → ⊥ }
{
    match after_end(object, bytes) {
        Some(_) => true,
        None => false,
    }
}

/// The bytes after a member's name, which an item has none of.
#[inline(always)]
pub fn after_name(object: bool, bytes: &[u8]) -> Option<&[u8]>
    ensures found { (name more : List ℕ) → bytes.now ≡ name_key object name ++ more → Leaves result more }
    ensures within { IfSome result (λ rest. length rest.now ≤ length bytes.now) }
{
    if object {
        after_text(bytes)
    } else {
        Some(bytes)
    }
}

/// The bytes after the parts of an object or an array, and after its end. Of other bytes it may be any rest of them, or
/// `None`. Most have scalars alone, for which nothing is held of what is open.
#[inline(never)]
pub fn after_parts(object: bool, bytes: &[u8]) -> Option<&[u8]>
    ensures found { AtParts object bytes.now (λ o more. Leaves result more) }
    ensures shorter { IfSome result (λ rest. length rest.now < length bytes.now) }
{
    let mut rest = bytes;
    'scalars: loop {
        if let Some(others) = after_end(object, rest) {
            return Some(others);
        }
        let value = after_name(object, rest)?;
        let (first, _) = value.split_first()?;
        match opening(*first) {
            Some(_) => return after_open(object, rest),
            None => rest = after_scalar(value)?,
        }
    }
}

// The bytes after the parts of an object or an array, and after its end.
#[inline(never)]
fn after_open(object: bool, bytes: &[u8]) -> Option<&[u8]>
    ensures found { AtParts object bytes.now (λ o more. Leaves result more) }
    ensures shorter { IfSome result (λ rest. length rest.now < length bytes.now) }
{
    let mut objects = [false; FEW];
    match after_within(object, bytes, &mut objects) {
        Ok(rest) => rest,
        Err(NoSpace) => after_deep(object, bytes),
    }
}

// The same with space for as many open arrays and objects as there may be.
#[inline(never)]
fn after_deep(object: bool, bytes: &[u8]) -> Option<&[u8]>
    ensures found { AtParts object bytes.now (λ o more. Leaves result more) }
    ensures shorter { IfSome result (λ rest. length rest.now < length bytes.now) }
{
    let mut objects = [false; MAX_DEPTH];
    match after_within(object, bytes, &mut objects) {
        Ok(rest) => rest,
        Err(NoSpace) => None,
    }
}

// More arrays and objects are open at once than there is space for.
#[derive(Drop)]
struct NoSpace;

// The same with this space: it says which of the open ones are objects, outermost first.
#[inline(always)]
fn after_within<'k>(
    object: bool,
    bytes: &'k [u8],
    objects: &mut [bool],
) -> Result<Option<&'k [u8]>, NoSpace>
    requires some { 0 < length objects.old }
    requires few { length objects.old ≤ 512 }
    ensures found { IfOk result (λ rest. AtParts object bytes.now (λ o more. Leaves rest more)) }
    ensures shorter { IfOk result (λ answer. IfSome answer (λ rest. length rest.now < length bytes.now)) }
    ensures no_space { IfErr result (λ e. length objects.old < 512) }
{
    objects[0] = object;
    let mut depth: usize = 1;
    let mut rest = bytes;
    'parts: loop {
        let Some(top) = depth.checked_sub(1) else {
            return Ok(Some(rest));
        };
        let inside = is_object_at(objects, top);
        if let Some(others) = after_end(inside, rest) {
            depth = top;
            rest = others;
            continue;
        }
        let Some(value) = after_name(inside, rest) else {
            return Ok(None);
        };
        let Some((first, others)) = value.split_first() else {
            return Ok(None);
        };
        match opening(*first) {
            Some(inner) => {
                if depth == MAX_DEPTH {
                    return Ok(None);
                }
                if depth == objects.len() {
                    return Err(NoSpace);
                }
                objects[depth] = inner;
                depth += 1;
                rest = others;
            }
            None => {
                let Some(others) = after_scalar(value) else {
                    return Ok(None);
                };
                rest = others;
            }
        }
    }
}

// Whether the open one at this index is an object.
fn is_object_at(objects: &[bool], index: usize) -> bool
    requires { index < length objects.now }
    ensures { result ≡ get_or objects.now index false }
{
    objects[index]
}

/// That the one that is open is an object.
pub fn outermost(object: bool) -> [bool; MAX_DEPTH]
    ensures first { get_or result 0 false ≡ object }
    ensures size { length result ≡ 512 }
{
    let mut objects = [false; MAX_DEPTH];
    objects[0] = object;
    objects
}

/// Whether the open one at this index is an object.
pub fn kind_at(objects: &[bool; MAX_DEPTH], index: usize) -> bool
    requires { index < 512 }
    ensures { result ≡ get_or objects.now index false }
{
    objects[index]
}
