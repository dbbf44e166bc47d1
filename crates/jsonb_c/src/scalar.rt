//! Scalars from and to sort keys, a step of a path from a name, and the reason of an error without its offset.
ghost use Rattle.std.specs.Prelude.{◌≡◌, ◌≢◌, ◌⊎◌, ◌↔◌, ◌∷◌, ℕ, List, [], IsUtf8, IfOk, IfSome, MatchOption, if◌then◌else◌, pos, string_bytes};
ghost use Rattle.jsonb_spec.specs.Interface.{AcceptsDocuments, FillsBuffer, IsAccepted, IsNoDocumentOf, IsStatus};
ghost use Rattle.jsonb_c.specs.Interface.{FailsFor};
ghost use Rattle.jsonb_spec.specs.Interface.KeyParts.{IsPartStatus, IsTreeKey};
ghost use Rattle.jsonb_spec.specs.Interface.Scalars.{integer, IsBoolean, IsDecimal, IsInteger, IsReasonOf};
ghost use Rattle.jsonb_c.specs.Scalars.{is_number};
ghost use Rattle.jsonb_spec.specs.Path.{IsPath};
ghost use Rattle.jsonb_spec.specs.Parsing.Memory.{MayAllocate};
ghost use Rattle.jsonb_spec.specs.Accessors.{as_boolean};
ghost use Rattle.jsonb_spec.specs.SortKey.{key_of};
ghost use Rattle.jsonb_spec.specs.Tree.{Tree, string, escaped};
ghost use Rattle.jsonb_core.specs.Error.CodeView.{code_of};
ghost use Rattle.jsonb_spec.specs.Code.Message.{reason_text};

use crate::{
    ACCEPTED, Failure, NO_KEY, NO_PART, NO_PATH, OUT_OF_MEMORY, REJECTED, TOO_SHORT,
    choose_grammar, put, status,
};
use jsonb::check;
use jsonb_core::error::{Error, ParseErrorCode, Reason};
use jsonb_core::number::Number;
use jsonb_core::parts::{append_number_key, append_text_key};
use jsonb_core::sort_key::kind;
use jsonb_path::append_step;
use key_value::number::{Decimal, decimal_of, integer_of, short_decimal};
use key_walk::{Kind, boolean_of, kind_of};
use std::alloc::{AllocError, Global};

/// The boolean of a sort key: 1 for true, and 0 for false.
#[unsafe(no_mangle)]
pub extern "C" fn vizhoniku_key_boolean(key: &[u8], value: &mut u32) -> u32
    ensures status { IsPartStatus result }

    // The value is that of the boolean, and a value of another kind has none.
    ensures boolean { (t : Tree) → IsTreeKey key.now t → IsBoolean (as_boolean t) result value.new }
    ensures no_value { result ≢ ACCEPTED → value.new ≡ 0 }
{
    if let Some(boolean) = boolean_of(key) {
        *value = number_of(boolean);
        return ACCEPTED;
    }
    *value = 0;
    match kind_of(key) {
        Some(_) => NO_PART,
        None => NO_KEY,
    }
}

// The number of a boolean.
fn number_of(boolean: bool) -> u32
    ensures { result ≡ (if boolean then 1 else 0) }
{
    if boolean { 1 } else { 0 }
}

/// The integer of a sort key: a number that is whole and has at most 64 bits, with its sign.
#[unsafe(no_mangle)]
pub extern "C" fn vizhoniku_key_integer(key: &[u8], value: &mut i64) -> u32
    ensures status { IsPartStatus result }

    // The value is that of the number, and a value that is no such number has none.
    ensures integer { (t : Tree) → IsTreeKey key.now t → IsInteger t result value.new }
    ensures no_value { result ≢ ACCEPTED → value.new ≡ pos 0 }
{
    *value = 0;
    let Some(kind) = kind_of(key) else {
        return NO_KEY;
    };
    if !is_number(kind) {
        return NO_PART;
    }
    match integer_of(key) {
        Some(integer) => {
            *value = integer;
            ACCEPTED
        }
        None => NO_PART,
    }
}

// Whether a kind is that of numbers.
fn is_number(kind: Kind) -> bool
    ensures { result ≡ is_number kind }
{
    match kind {
        Kind::Number => true,
        _ => false,
    }
}

/// The decimal of a sort key: `digits / 10^scale` with the fewest digits, of which there are at most 18.
#[unsafe(no_mangle)]
pub extern "C" fn vizhoniku_key_decimal(key: &[u8], digits: &mut i64, scale: &mut u32) -> u32
    ensures status { IsPartStatus result }

    // The decimal is the number, and a value that is no number with so few digits has none.
    ensures decimal { (t : Tree) → IsTreeKey key.now t → IsDecimal t result digits.new scale.new }
    ensures no_value { result ≢ ACCEPTED → (digits.new ≡ pos 0) × (scale.new ≡ 0) }
{
    match decimal_in_few_bits(key) {
        Some(short) => {
            *digits = short.digits;
            *scale = short.scale;
            ACCEPTED
        }
        None => any_decimal(key, digits, scale),
    }
}

// The decimal of a number's key, if it is found in 64 bits.
#[inline(always)]
fn decimal_in_few_bits(key: &[u8]) -> Option<Decimal>
    ensures { (t : Tree) → IsTreeKey key.now t → IfSome result (λ d. IsDecimal t ACCEPTED d.digits d.scale) }
{
    let kind = kind_of(key)?;
    if !is_number(kind) {
        return None;
    }
    short_decimal(key)
}

// Does so for any key, in a function of its own, which is called less often.
#[inline(never)]
fn any_decimal(key: &[u8], digits: &mut i64, scale: &mut u32) -> u32
    ensures status { IsPartStatus result }
    ensures decimal { (t : Tree) → IsTreeKey key.now t → IsDecimal t result digits.new scale.new }
    ensures no_value { result ≢ ACCEPTED → (digits.new ≡ pos 0) × (scale.new ≡ 0) }
{
    *digits = 0;
    *scale = 0;
    let Some(kind) = kind_of(key) else {
        return NO_KEY;
    };
    if !is_number(kind) {
        return NO_PART;
    }
    match decimal_of(key) {
        Some(decimal) => {
            *digits = decimal.digits;
            *scale = decimal.scale;
            ACCEPTED
        }
        None => NO_PART,
    }
}

/// Writes the sort key of an integer to the start of `out`, and its size to `size`. Where `out` is too short, it stays as
/// it is, and `size` is what is needed.
#[unsafe(no_mangle)]
pub extern "C" fn vizhoniku_key_of_integer(
    alloc: Global,
    value: i64,
    out: &mut [u8],
    size: &mut usize,
) -> u32
    ensures status { (result ≡ ACCEPTED) ⊎ (result ≡ OUT_OF_MEMORY) ⊎ (result ≡ TOO_SHORT) }

    // What is written is the key of the integer.
    ensures fills { FillsBuffer (λ key. key ≡ key_of (integer value)) ACCEPTED result size.new out.old out.new }
{
    match integer_key(alloc, value) {
        Ok(key) => {
            *size = key.len();
            put(&key, out)
        }
        Err(_) => {
            *size = 0;
            OUT_OF_MEMORY
        }
    }
}

// The sort key of an integer.
fn integer_key(alloc: Global, value: i64) -> Result<Vec<u8>, AllocError>
    ensures { IfOk result (λ key. key.items ≡ key_of (integer value)) }
{
    let mut key = Vec::new(alloc);
    append_number_key(&Number::Int64(value), &mut key)?;
    Ok(key)
}

/// Writes the sort key of a string to the start of `out`, and its size to `size`. The text is UTF-8 as it is, with no
/// escapes. Where `out` is too short, it stays as it is, and `size` is what is needed.
#[unsafe(no_mangle)]
pub extern "C" fn vizhoniku_key_of_string(
    alloc: Global,
    text: &[u8],
    out: &mut [u8],
    size: &mut usize,
) -> u32
    ensures status { (result ≡ ACCEPTED) ⊎ (result ≡ OUT_OF_MEMORY) ⊎ (result ≡ TOO_SHORT) ⊎ (result ≡ NO_KEY) }

    // What is written is the key of the string, which only a text in UTF-8 is.
    ensures fills { FillsBuffer (λ key. key ≡ key_of (string escaped text.now)) ACCEPTED result size.new out.old out.new }
    ensures no_text { (result ≡ NO_KEY) ↔ (IsUtf8 text.now → ⊥) }
{
    let Ok(text) = str::from_utf8(text) else {
        *size = 0;
        return NO_KEY;
    };
    match string_key(alloc, text) {
        Ok(key) => {
            *size = key.len();
            put(&key, out)
        }
        Err(_) => {
            *size = 0;
            OUT_OF_MEMORY
        }
    }
}

// The sort key of a string.
fn string_key(alloc: Global, text: &str) -> Result<Vec<u8>, AllocError>
    ensures { IfOk result (λ key. key.items ≡ key_of (string escaped text.now)) }
{
    let mut key = Vec::new(alloc);
    key.push(kind::STRING)?;
    append_text_key(text, &mut key)?;
    Ok(key)
}

/// Writes the step of a path (RFC 6901) for a name to the start of `out`, and its size to `size`: a slash, and the name
/// with `~0` for `~` and `~1` for `/`. Where `out` is too short, it stays as it is, and `size` is what is needed.
#[unsafe(no_mangle)]
pub extern "C" fn vizhoniku_path_step(
    alloc: Global,
    name: &[u8],
    out: &mut [u8],
    size: &mut usize,
) -> u32
    ensures status { (result ≡ ACCEPTED) ⊎ (result ≡ OUT_OF_MEMORY) ⊎ (result ≡ TOO_SHORT) ⊎ (result ≡ NO_PATH) }

    // What is written is the path whose only step the name is, which only a text in UTF-8 can be.
    ensures fills { FillsBuffer (λ path. IsPath path (name.now ∷ [])) ACCEPTED result size.new out.old out.new }
    ensures no_path { (result ≡ NO_PATH) ↔ (IsUtf8 name.now → ⊥) }
{
    let Ok(name) = str::from_utf8(name) else {
        *size = 0;
        return NO_PATH;
    };
    let mut path = Vec::new(alloc);
    if append_step(name.as_bytes(), &mut path).is_err() {
        *size = 0;
        return OUT_OF_MEMORY;
    }
    *size = path.len();
    put(&path, out)
}

/// Writes what is wrong with a text that is no document to the start of `out`, without its offset, and its size to
/// `size`. Where `out` is too short, it stays as it is, and `size` is what is needed.
#[unsafe(no_mangle)]
pub extern "C" fn vizhoniku_reason(
    alloc: Global,
    mode: u32,
    text: &[u8],
    out: &mut [u8],
    size: &mut usize,
) -> u32
    ensures status { IsStatus mode TOO_SHORT result }

    // A document is accepted, and nothing else, unless memory ran out.
    ensures accepts { AcceptsDocuments mode text.now result }
    ensures memory { result ≡ OUT_OF_MEMORY → MayAllocate text.now ⊎ IsNoDocumentOf mode text.now }

    // What is written is the code of the text's error in words, and no other byte of the buffer changes.
    ensures fills { FillsBuffer (IsReasonOf mode text.now) REJECTED result size.new out.old out.new }
{
    match reason_of_text(alloc, mode, text) {
        Ok(Some(reason)) => {
            let bytes = reason.as_bytes();
            *size = bytes.len();
            match put(bytes, out) {
                ACCEPTED => REJECTED,
                short => short,
            }
        }
        Ok(None) => {
            *size = 0;
            ACCEPTED
        }
        Err(rejected) => {
            *size = 0;
            status(rejected)
        }
    }
}

// What is wrong with a text in words, without its offset, or `None` where it is a document.
fn reason_of_text(alloc: Global, mode: u32, text: &[u8]) -> Result<Option<String>, Failure>
    ensures reason { IfOk result (λ answer. MatchOption answer (IsAccepted mode text.now)
        (λ reason. IsReasonOf mode text.now (string_bytes reason))) }
    ensures fails { FailsFor mode (λ _. ⊥) (MayAllocate text.now ⊎ IsNoDocumentOf mode text.now) result }
{
    let Some(grammar) = choose_grammar(mode) else {
        return Err(Failure::UnknownMode);
    };
    let error = match check(alloc, text, grammar) {
        Ok(()) => return Ok(None),
        Err(error) => error,
    };
    let Error::Syntax(code, _) = error else {
        return Err(Failure::OutOfMemory);
    };
    match words_of_code(alloc, &code) {
        Some(words) => Ok(Some(words)),
        None => Err(Failure::OutOfMemory),
    }
}

// A code in words, or `None` where memory ran out.
fn words_of_code(alloc: Global, code: &ParseErrorCode) -> Option<String>
    ensures words { IfSome result (λ words. string_bytes words ≡ reason_text (code_of code.now)) }
{
    let reason = Reason { code };
    format!(in alloc; "{reason}").ok()
}
