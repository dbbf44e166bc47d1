//! The library for C: it checks a text, writes its value or a part of it, compares two texts, and reports errors.
//! `include/vizhoniku.h` declares it.
//!
//! From C, `alloc` is passed as nothing, and a slice as a pointer and a length. No pointer may be null: the code in
//! `packaging/empty.c` calls these functions, with another pointer for an empty slice. What a `&mut` points to doesn't
//! overlap any other argument. Each call writes to each `&mut` but the buffer.
#![tactic(auto)]

ghost use Rattle.std.specs.Prelude.{◌≡◌, ◌≢◌, ◌⊎◌, ℕ, List, [], ◌<◌, ◌≤◌, ◌++◌, min, length, drop, map, pos, string_bytes, MatchOption, MatchResult, IfOk, IfNone, IfSome, OnOk};
ghost use Rattle.jsonb_spec.specs.Code.{Code};
ghost use Rattle.jsonb_core.specs.Error.CodeView.{code_of};
ghost use Rattle.jsonb_core.specs.Error.ErrorText.{error_text};
ghost use Rattle.jsonb_spec.specs.Order.{bytes_cmp};
ghost use Rattle.jsonb_value.specs.View.{view};
ghost use Rattle.jsonb_spec.specs.Line.{column_at, fault_index, line_at};
ghost use Rattle.text_scan.specs.Answer.{grammar_of, IsTextError};
ghost use Rattle.jsonb_spec.specs.Parsing.Memory.{MayAllocate};
ghost use Rattle.jsonb_spec.specs.Path.{IsPath};
ghost use Rattle.jsonb_spec.specs.Interface.{NumberChooses, code_number, sign, AcceptsDocuments, EitherMayAllocate, FillsBuffer, FormMayAllocate, HasNoPartAt, HasPartAt, IsAccepted, IsNoDocumentOf, IsNoPath, IsOrdered, IsDocumentOf, IsKeyOf, IsPartOf, IsStatus, IsStatusOfForm, IsTextOf, NeedsCapacityForBoth, PartMayAllocate, Writes};
ghost use Rattle.jsonb_c.specs.Interface.{nothing, status_of, rejection_of, FailsFor, IsOneRejected, IsMessageOf, IsPartAnswer, IsRejected, OrdersTexts, SaysError, Reports};

use jsonb::{
    Error, Grammar, ParseErrorCode, Value, append_part, append_sort_key, append_text, check,
    fault_index, line_and_column, may_allocate, parse_value_in,
};
use jsonb_path::read_keys;
use std::alloc::Global;
use std::cmp::Ordering;

pub mod document;
pub mod document_cursor;
pub mod document_edit;
pub mod document_insert;
pub mod document_walk;
pub mod document_without;
pub mod key;
pub mod key_contains;
pub mod lines;
pub mod rejected;
pub mod scalar;
pub mod table;
pub mod text_of_key;
pub mod zeros;

/// Success.
pub const ACCEPTED: u32 = 0;

/// A text is no document of the mode.
pub const REJECTED: u32 = 1;

/// Memory ran out.
pub const OUT_OF_MEMORY: u32 = 2;

/// The number that was passed as mode chooses none.
pub const UNKNOWN_MODE: u32 = 3;

/// The buffer is shorter than the text.
pub const TOO_SHORT: u32 = 4;

/// The document has no part at the path.
pub const NO_PART: u32 = 5;

/// The path isn't a JSON Pointer (RFC 6901).
pub const NO_PATH: u32 = 6;

/// The bytes aren't the sort key of a value of JSON's kinds.
pub const NO_KEY: u32 = 7;

/// The value would have more than 512 nested arrays and objects.
pub const TOO_DEEP: u32 = 8;

/// The bytes aren't a serialized form of a value, or not the zeros of one.
pub const NO_ZEROS: u32 = 9;

/// The bytes aren't the document of a value of JSON's kinds.
pub const NO_DOCUMENT: u32 = 10;

/// A member that is to be inserted is there.
pub const PRESENT: u32 = 11;

/// What is reported of a rejected text: the number of the code, which of the texts it is, from 1 on, and the number of
/// the error. All are 0 where no text is rejected.
#[repr(C)]
#[derive(Clone, Copy)]
pub struct Rejection {
    pub code: u32,
    pub which: u32,
    pub position: usize,
}

/// The byte to show of an error: its offset, or the text's length, and the line and the column of that, both counted
/// from 1, the column in bytes.
#[repr(C)]
#[derive(Clone, Copy)]
pub struct Location {
    pub index: usize,
    pub line: usize,
    pub column: usize,
}

const NOTHING: Rejection = Rejection {
    code: 0,
    which: 0,
    position: 0,
};

// Why a call has no answer.
#[derive(Clone, Copy)]
enum Failure {
    Text(Rejection),
    OutOfMemory,
    UnknownMode,
}

/// Checks whether the text is a document of the mode: 0 for standard, 1 for extended, 2 for JSON, 3 for extended JSON. What is wrong with a text that
/// is none is in `rejection`.
#[unsafe(no_mangle)]
pub extern "C" fn vizhoniku_check(
    alloc: Global,
    mode: u32,
    text: &[u8],
    rejection: &mut Rejection,
) -> u32
    ensures status { IsStatus mode UNKNOWN_MODE result }

    // A document is accepted, and nothing else, unless memory ran out.
    ensures accepts { AcceptsDocuments mode text.now result }
    ensures memory { result ≡ OUT_OF_MEMORY → MayAllocate text.now }

    // Which fault it is, and where.
    ensures reports { Reports (IsRejected mode text.now 1) result rejection.new }
{
    match check_text(alloc, mode, text) {
        Ok(()) => {
            *rejection = NOTHING;
            ACCEPTED
        }
        Err(rejected) => report(rejected, rejection),
    }
}

/// Writes the text's value as text to the start of `out`, and its size to `size`. Where `out` is too short, it stays as
/// it is, and `size` is what is needed.
#[unsafe(no_mangle)]
pub extern "C" fn vizhoniku_text(
    alloc: Global,
    mode: u32,
    text: &[u8],
    out: &mut [u8],
    size: &mut usize,
    rejection: &mut Rejection,
) -> u32
    // A document is accepted, unless memory ran out.
    ensures status { IsStatusOfForm mode text.now result }

    // What is written is the text of the document's tree, and no other byte of the buffer changes.
    ensures fills { FillsBuffer (IsTextOf mode text.now) ACCEPTED result size.new out.old out.new }

    // Which fault it is, and where.
    ensures reports { Reports (IsRejected mode text.now 1) result rejection.new }
{
    match text_of(alloc, mode, text) {
        Ok(bytes) => {
            *rejection = NOTHING;
            *size = bytes.len();
            put(&bytes, out)
        }
        Err(rejected) => {
            *size = 0;
            report(rejected, rejection)
        }
    }
}

/// Writes the sort key of the text's value to the start of `out`, and its size to `size`. Where `out` is too short, it
/// stays as it is, and `size` is what is needed.
#[unsafe(no_mangle)]
pub extern "C" fn vizhoniku_sort_key(
    alloc: Global,
    mode: u32,
    text: &[u8],
    out: &mut [u8],
    size: &mut usize,
    rejection: &mut Rejection,
) -> u32
    // A document is accepted, unless memory ran out.
    ensures status { IsStatusOfForm mode text.now result }

    // What is written is the key of the document's tree, which compares with each other document's key as the trees
    // do, and no other byte of the buffer changes.
    ensures fills { FillsBuffer (IsKeyOf mode text.now) ACCEPTED result size.new out.old out.new }

    // Which fault it is, and where.
    ensures reports { Reports (IsRejected mode text.now 1) result rejection.new }
{
    match sort_key_of(alloc, mode, text, 1) {
        Ok(bytes) => {
            *rejection = NOTHING;
            *size = bytes.len();
            put(&bytes, out)
        }
        Err(rejected) => {
            *size = 0;
            report(rejected, rejection)
        }
    }
}

/// Writes the text's value as text and as sort key, each to the start of a buffer of its own, with its size. Where one
/// of the buffers is too short, both stay as they are, and the sizes are what is needed.
#[unsafe(no_mangle)]
pub extern "C" fn vizhoniku_text_and_key(
    alloc: Global,
    mode: u32,
    text: &[u8],
    out: &mut [u8],
    size: &mut usize,
    key_out: &mut [u8],
    key_size: &mut usize,
    rejection: &mut Rejection,
) -> u32
    // A document is accepted, unless memory ran out.
    ensures status { IsStatusOfForm mode text.now result }

    // What is written is what `vizhoniku_text` and `vizhoniku_sort_key` write, and no other byte changes.
    ensures written { result ≡ ACCEPTED → Writes (IsTextOf mode text.now) size.new out.old out.new }
    ensures key_written { result ≡ ACCEPTED → Writes (IsKeyOf mode text.now) key_size.new key_out.old key_out.new }
    ensures short { result ≡ TOO_SHORT
        → NeedsCapacityForBoth mode text.now size.new key_size.new out.old key_out.old }
    ensures untouched { result ≢ ACCEPTED → (out.new ≡ out.old) × (key_out.new ≡ key_out.old) }
    ensures no_size { result ≢ ACCEPTED → result ≢ TOO_SHORT → (size.new ≡ 0) × (key_size.new ≡ 0) }

    // Which fault it is, and where.
    ensures reports { Reports (IsRejected mode text.now 1) result rejection.new }
{
    match text_and_key_of(alloc, mode, text) {
        Ok(both) => {
            *rejection = NOTHING;
            *size = both.text.len();
            *key_size = both.key.len();
            put_both(&both.text, &both.key, out, key_out)
        }
        Err(rejected) => {
            *size = 0;
            *key_size = 0;
            report(rejected, rejection)
        }
    }
}

/// Compares the values of two texts of one mode. The order is -1 where the first is below the second, 0 where they are
/// the same, and 1 where it is above.
#[unsafe(no_mangle)]
pub extern "C" fn vizhoniku_compare(
    alloc: Global,
    mode: u32,
    left: &[u8],
    right: &[u8],
    order: &mut i32,
    rejection: &mut Rejection,
) -> u32
    ensures status { IsStatus mode UNKNOWN_MODE result }

    // The order is that of the trees of two documents.
    ensures ordered { result ≡ ACCEPTED → IsOrdered mode left.now right.now order.new }
    ensures no_order { result ≢ ACCEPTED → order.new ≡ pos 0 }

    // It is also that of the bytes of the sort keys that `vizhoniku_sort_key` writes of the texts.
    ensures keys { result ≡ ACCEPTED → (key other : List ℕ) → IsKeyOf mode left.now key → IsKeyOf mode right.now other
        → order.new ≡ sign (bytes_cmp key other) }

    // Two documents are accepted, unless memory ran out.
    ensures accepted { IsAccepted mode left.now → IsAccepted mode right.now
        → (result ≡ ACCEPTED) ⊎ (result ≡ OUT_OF_MEMORY) }
    ensures memory { result ≡ OUT_OF_MEMORY → EitherMayAllocate mode left.now right.now }

    // Which of the two it is that is rejected, which fault, and where.
    ensures reports { Reports (IsOneRejected mode left.now right.now) result rejection.new }
{
    match order_of(alloc, mode, left, right) {
        Ok(is) => {
            *rejection = NOTHING;
            *order = sign(is);
            ACCEPTED
        }
        Err(rejected) => {
            *order = 0;
            report(rejected, rejection)
        }
    }
}

/// Writes the part of the text's value at the path, a JSON Pointer (RFC 6901), to the start of `out`, and its size to
/// `size`. Where `out` is too short, it stays as it is, and `size` is what is needed.
#[unsafe(no_mangle)]
pub extern "C" fn vizhoniku_part(
    alloc: Global,
    mode: u32,
    path: &[u8],
    text: &[u8],
    out: &mut [u8],
    size: &mut usize,
    rejection: &mut Rejection,
) -> u32
    ensures status { IsStatus mode NO_PATH result }

    // What is written is the text of the part of the document's tree, and no other byte of the buffer changes.
    ensures fills { FillsBuffer (IsPartOf mode path.now text.now) ACCEPTED result size.new out.old out.new }

    // The document has no such part, or the path is none.
    ensures no_part { result ≡ NO_PART → HasNoPartAt mode path.now text.now }
    ensures no_path { result ≡ NO_PATH → IsAccepted mode text.now × IsNoPath path.now }

    // A part of a document is accepted, and what is wrong with the path of one is reported, unless memory ran out.
    ensures accepted { HasPartAt mode path.now text.now
        → (result ≡ ACCEPTED) ⊎ (result ≡ TOO_SHORT) ⊎ (result ≡ OUT_OF_MEMORY) }
    ensures nothing_there { HasNoPartAt mode path.now text.now → (result ≡ NO_PART) ⊎ (result ≡ OUT_OF_MEMORY) }
    ensures wrong_path { IsAccepted mode text.now → IsNoPath path.now → (result ≡ NO_PATH) ⊎ (result ≡ OUT_OF_MEMORY) }
    ensures memory { result ≡ OUT_OF_MEMORY → PartMayAllocate mode path.now text.now }

    // Which fault it is, and where.
    ensures reports { Reports (IsRejected mode text.now 1) result rejection.new }
{
    match part_of(alloc, mode, path, text) {
        Ok(Part::Text(bytes)) => {
            *rejection = NOTHING;
            *size = bytes.len();
            put(&bytes, out)
        }
        Ok(Part::Nothing) => {
            *rejection = NOTHING;
            *size = 0;
            NO_PART
        }
        Ok(Part::NoPath) => {
            *rejection = NOTHING;
            *size = 0;
            NO_PATH
        }
        Err(rejected) => {
            *size = 0;
            report(rejected, rejection)
        }
    }
}

// What is at a path.
#[derive(Drop)]
enum Part {
    Text(Vec<u8>),
    Nothing,
    NoPath,
}

// What is at the path in the value of a text.
fn part_of(alloc: Global, mode: u32, path: &[u8], text: &[u8]) -> Result<Part, Failure>
    ensures part { IfOk result (IsPartAnswer mode path.now text.now) }
    ensures known { IfOk result (λ _. mode ≤ 3) }
    ensures fails { FailsFor mode (IsRejected mode text.now 1) (PartMayAllocate mode path.now text.now) result }
{
    match read_keys(alloc, path) {
        Ok(Some(keys)) => part_at_keys(alloc, mode, &keys, text),
        Ok(None) => {
            check_text(alloc, mode, text)?;
            Ok(Part::NoPath)
        }
        Err(_) => {
            check_text(alloc, mode, text)?;
            Err(Failure::OutOfMemory)
        }
    }
}

// What is at the path of these keys in the value of a text, of which no value is made.
fn part_at_keys(alloc: Global, mode: u32, keys: &[String], text: &[u8]) -> Result<Part, Failure>
    ensures part { IfOk result (λ part. (path : List ℕ) → IsPath path (map string_bytes keys.now)
        → IsPartAnswer mode path text.now part) }
    ensures known { IfOk result (λ _. mode ≤ 3) }
    ensures fails { FailsFor mode (IsRejected mode text.now 1) (FormMayAllocate mode text.now) result }
{
    let Some(grammar) = choose_grammar(mode) else {
        return Err(Failure::UnknownMode);
    };
    let mut bytes = Vec::new(alloc);
    match append_part(alloc, text, grammar, keys, &mut bytes) {
        Ok(true) => Ok(Part::Text(bytes)),
        Ok(false) => Ok(Part::Nothing),
        Err(error) => Err(reason_of(&error, 1)),
    }
}

/// The version of this interface. It grows by one when a function, a status or a code is added.
pub const VERSION: u32 = 10;

/// The version of this interface.
#[unsafe(no_mangle)]
pub extern "C" fn vizhoniku_version() -> u32
    ensures { result ≡ VERSION }
{
    VERSION
}

/// Returns the byte to show of an error of this text.
#[unsafe(no_mangle)]
pub extern "C" fn vizhoniku_locate(
    alloc: Global,
    text: &[u8],
    rejection: &Rejection,
    offset: &mut Location,
)
    // The index is that of the code with the number, and where there is none the position, within the text.
    ensures index { (code : Code) → rejection.now.code ≡ code_number code
        → offset.new.index ≡ fault_index text.now code rejection.now.position }
    ensures no_code { ((code : Code) → rejection.now.code ≢ code_number code)
        → offset.new.index ≡ min rejection.now.position (length text.now) }

    ensures line { offset.new.line ≡ line_at text.now offset.new.index }
    ensures column { offset.new.column ≡ column_at text.now offset.new.index }
{
    let index = match code_numbered(alloc, rejection.code) {
        Some(code) => fault_index(text, &code, rejection.position),
        None => rejection.position.min(text.len()),
    };
    let (line, column) = line_and_column(text, index);
    *offset = Location {
        index,
        line,
        column,
    };
}

// The code with this number, of a byte, a unit or a key that means nothing.
fn code_numbered(alloc: Global, number: u32) -> Option<ParseErrorCode>
    ensures some { IfSome result (λ code. number ≡ code_number (code_of code)) }
    ensures none { IfNone result ((code : Code) → number ≢ code_number code) }
{
    let code = match number {
        1 => ParseErrorCode::InvalidEOF,
        2 => ParseErrorCode::InvalidNumberValue,
        3 => ParseErrorCode::InvalidStringValue,
        4 => ParseErrorCode::ExpectedSomeIdent,
        5 => ParseErrorCode::ExpectedSomeValue,
        6 => ParseErrorCode::ExpectedColon,
        7 => ParseErrorCode::ExpectedArrayCommaOrEnd,
        8 => ParseErrorCode::ExpectedObjectCommaOrEnd,
        9 => ParseErrorCode::UnexpectedTrailingCharacters,
        10 => ParseErrorCode::KeyMustBeAString,
        11 => ParseErrorCode::ControlCharacterWhileParsingString,
        12 => ParseErrorCode::InvalidEscaped(0),
        13 => ParseErrorCode::InvalidHex(0),
        14 => ParseErrorCode::InvalidLoneLeadingSurrogateInHexEscape(0),
        15 => ParseErrorCode::InvalidSurrogateInHexEscape(0),
        16 => ParseErrorCode::UnexpectedEndOfHexEscape,
        17 => ParseErrorCode::ObjectDuplicateKey(String::new(alloc)),
        18 => ParseErrorCode::ObjectKeyInvalidNumber,
        19 => ParseErrorCode::ObjectKeyInvalidCharacter,
        20 => ParseErrorCode::NumberNotCarried,
        21 => ParseErrorCode::DepthLimitExceeded,
        _ => return None,
    };
    Some(code)
}

/// Writes the error message of a text that is no document to the start of `out`, and its size to `size`: what the
/// program prints. Where `out` is too short, it stays as it is, and `size` is what is needed.
#[unsafe(no_mangle)]
pub extern "C" fn vizhoniku_message(
    alloc: Global,
    mode: u32,
    text: &[u8],
    out: &mut [u8],
    size: &mut usize,
) -> u32
    ensures status { IsStatus mode TOO_SHORT result }

    // A document is accepted, and nothing else, unless memory ran out.
    ensures accepts { AcceptsDocuments mode text.now result }
    ensures memory { result ≡ OUT_OF_MEMORY → MayAllocate text.now ⊎ IsNoDocumentOf mode text.now }

    // What is written is the message of the fault that reading meets, and no other byte of the buffer changes.
    ensures fills { FillsBuffer (IsMessageOf mode text.now) REJECTED result size.new out.old out.new }
{
    match message_of(alloc, mode, text) {
        Ok(Some(message)) => {
            let bytes = message.as_bytes();
            *size = bytes.len();
            match put(bytes, out) {
                ACCEPTED => REJECTED,
                short => short,
            }
        }
        Ok(None) => {
            *size = 0;
            ACCEPTED
        }
        Err(rejected) => {
            *size = 0;
            status(rejected)
        }
    }
}

// What is wrong with a text in words, or `None` where it is a document.
fn message_of(alloc: Global, mode: u32, text: &[u8]) -> Result<Option<String>, Failure>
    ensures message { IfOk result (λ answer. MatchOption answer (IsAccepted mode text.now)
        (λ message. IsMessageOf mode text.now (string_bytes message))) }
    ensures fails { FailsFor mode (λ _. ⊥) (MayAllocate text.now ⊎ IsNoDocumentOf mode text.now) result }
{
    let Some(grammar) = choose_grammar(mode) else {
        return Err(Failure::UnknownMode);
    };
    let error = match check(alloc, text, grammar) {
        Ok(()) => return Ok(None),
        Err(error) => error,
    };
    match words_of(alloc, &error) {
        Some(message) => Ok(Some(message)),
        None => Err(Failure::OutOfMemory),
    }
}

// The words of a fault of a text, or `None` where memory ran out.
fn words_of(alloc: Global, error: &Error) -> Option<String>
    ensures words { IfSome result (λ message. (string_bytes message ≡ error_text error.now)
        × (error.now ≢ Error.OutOfMemory)) }
{
    match error {
        Error::OutOfMemory => None,
        fault => format!(in alloc; "{fault}").ok(),
    }
}

// The status of a reason.
fn status(rejected: Failure) -> u32
    ensures { result ≡ status_of rejected }
{
    match rejected {
        Failure::Text(_) => REJECTED,
        Failure::OutOfMemory => OUT_OF_MEMORY,
        Failure::UnknownMode => UNKNOWN_MODE,
    }
}

// Says why a call has no answer, and gives the status of that.
fn report(rejected: Failure, rejection: &mut Rejection) -> u32
    ensures status { result ≡ status_of rejected }
    ensures reported { rejection.new ≡ rejection_of rejected }
{
    match rejected {
        Failure::Text(reported) => {
            *rejection = reported;
            REJECTED
        }
        Failure::OutOfMemory => {
            *rejection = NOTHING;
            OUT_OF_MEMORY
        }
        Failure::UnknownMode => {
            *rejection = NOTHING;
            UNKNOWN_MODE
        }
    }
}

// The order of the values of two texts. Where neither may take memory they are scalars, whose values are compared.
fn order_of(alloc: Global, mode: u32, left: &[u8], right: &[u8]) -> Result<Ordering, Failure>
    ensures orders { OrdersTexts mode left.now right.now result }
{
    if may_allocate(left) || may_allocate(right) {
        return order_of_keys(alloc, mode, left, right);
    }
    order_of_scalars(alloc, mode, left, right)
}

// The order of the values of two texts that take no memory.
fn order_of_scalars(
    alloc: Global,
    mode: u32,
    left: &[u8],
    right: &[u8],
) -> Result<Ordering, Failure>
    ensures orders { OrdersTexts mode left.now right.now result }
{
    let first = value_of(alloc, mode, left, 1)?;
    let second = value_of(alloc, mode, right, 2)?;
    Ok(first.value.cmp(&second.value))
}

// The order of the values of two texts by the bytes of their sort keys.
fn order_of_keys(alloc: Global, mode: u32, left: &[u8], right: &[u8]) -> Result<Ordering, Failure>
    requires { MayAllocate left.now ⊎ MayAllocate right.now }
    ensures orders { OrdersTexts mode left.now right.now result }
{
    let first = sort_key_of(alloc, mode, left, 1)?;
    let second = sort_key_of(alloc, mode, right, 2)?;
    Ok(first.as_slice().cmp(second.as_slice()))
}

// The number of an order.
fn sign(order: Ordering) -> i32
    ensures { result ≡ sign order }
{
    match order {
        Ordering::Less => -1,
        Ordering::Equal => 0,
        Ordering::Greater => 1,
    }
}

// The names of a path; or the status of bytes that are none, or for which memory ran out.
fn names_of(alloc: Global, path: &[u8]) -> Result<Vec<String>, u32>
    ensures names { MatchResult result (λ names. (others : List (List ℕ)) → IsPath path.now others
        → others ≡ map string_bytes names.items)
        (λ status. ((status ≡ NO_PATH) × IsNoPath path.now) ⊎ (status ≡ OUT_OF_MEMORY)) }
    ensures path { IfOk result (λ names. IsPath path.now (map string_bytes names.items)) }
{
    match read_keys(alloc, path) {
        Ok(Some(names)) => Ok(names),
        Ok(None) => Err(NO_PATH),
        Err(_) => Err(OUT_OF_MEMORY),
    }
}

// Puts the bytes at the front of the buffer, where it has space for all of them.
fn put(bytes: &[u8], out: &mut [u8]) -> u32
    ensures status { (result ≡ ACCEPTED) ⊎ (result ≡ TOO_SHORT) }
    ensures written { result ≡ ACCEPTED → out.new ≡ bytes.now ++ drop (length bytes.now) out.old }
    ensures short { result ≡ TOO_SHORT → (length out.old < length bytes.now) × (out.new ≡ out.old) }
{
    if out.len() < bytes.len() {
        return TOO_SHORT;
    }
    out[..bytes.len()].copy_from_slice(bytes);
    ACCEPTED
}

// Puts each of the two at the front of its buffer, where both have space.
fn put_both(text: &[u8], key: &[u8], out: &mut [u8], key_out: &mut [u8]) -> u32
    ensures status { (result ≡ ACCEPTED) ⊎ (result ≡ TOO_SHORT) }
    ensures text { result ≡ ACCEPTED → out.new ≡ text.now ++ drop (length text.now) out.old }
    ensures key { result ≡ ACCEPTED → key_out.new ≡ key.now ++ drop (length key.now) key_out.old }
    ensures short { result ≡ TOO_SHORT
        → (length out.old < length text.now) ⊎ (length key_out.old < length key.now) }
    ensures untouched { result ≡ TOO_SHORT → (out.new ≡ out.old) × (key_out.new ≡ key_out.old) }
{
    if out.len() < text.len() || key_out.len() < key.len() {
        return TOO_SHORT;
    }
    out[..text.len()].copy_from_slice(text);
    key_out[..key.len()].copy_from_slice(key);
    ACCEPTED
}

// The text and the sort key of a value.
#[derive(Drop)]
struct TextAndKey {
    text: Vec<u8>,
    key: Vec<u8>,
}

// The text and the sort key of the value of a text. The key is made of the text that was written, which has no
// whitespace and its members in order, so that this takes less time than another parse of the text.
fn text_and_key_of(alloc: Global, mode: u32, text: &[u8]) -> Result<TextAndKey, Failure>
    ensures text { IfOk result (λ both. IsTextOf mode text.now both.text.items) }
    ensures key { IfOk result (λ both. IsKeyOf mode text.now both.key.items) }
    ensures fails { FailsFor mode (IsRejected mode text.now 1) (FormMayAllocate mode text.now) result }
{
    let bytes = text_of(alloc, mode, text)?;
    let key = sort_key_of(alloc, mode, &bytes, 1)?;
    Ok(TextAndKey { text: bytes, key })
}

// The text of the value of a text.
fn text_of(alloc: Global, mode: u32, text: &[u8]) -> Result<Vec<u8>, Failure>
    ensures text { IfOk result (λ bytes. IsTextOf mode text.now bytes.items) }
    ensures fails { FailsFor mode (IsRejected mode text.now 1) (FormMayAllocate mode text.now) result }
{
    let Some(grammar) = choose_grammar(mode) else {
        return Err(Failure::UnknownMode);
    };
    let mut bytes = buffer_of(alloc, text.len());
    match append_text(alloc, text, grammar, &mut bytes) {
        Ok(()) => Ok(bytes),
        Err(error) => Err(reason_of(&error, 1)),
    }
}

// The sort key of the value of a text, which is the first or the second of those that a call is given.
fn sort_key_of(alloc: Global, mode: u32, text: &[u8], which: u32) -> Result<Vec<u8>, Failure>
    ensures key { IfOk result (λ bytes. IsKeyOf mode text.now bytes.items) }
    ensures fails { FailsFor mode (IsRejected mode text.now which) (FormMayAllocate mode text.now) result }
{
    let Some(grammar) = choose_grammar(mode) else {
        return Err(Failure::UnknownMode);
    };
    let mut bytes = buffer_of(alloc, text.len());
    match append_sort_key(alloc, text, grammar, &mut bytes) {
        Ok(()) => Ok(bytes),
        Err(error) => Err(reason_of(&error, which)),
    }
}

// Checks whether a text is a document.
fn check_text(alloc: Global, mode: u32, text: &[u8]) -> Result<(), Failure>
    ensures accepted { OnOk result (IsAccepted mode text.now) }
    ensures fails { FailsFor mode (IsRejected mode text.now 1) (MayAllocate text.now) result }
{
    let Some(grammar) = choose_grammar(mode) else {
        return Err(Failure::UnknownMode);
    };
    match check(alloc, text, grammar) {
        Ok(()) => Ok(()),
        Err(error) => Err(reason_of(&error, 1)),
    }
}

// What is appended of a text is copied 64 bytes at a time, and what is too much is taken back.
const SPARE: usize = 64;

// An empty buffer, with space for the form of a text of so many bytes, where memory allows it and the form isn't longer
// than the text. The sort key of a standard document is longer by one byte at most.
fn buffer_of(alloc: Global, text_len: usize) -> Vec<u8>
    ensures { result.items ≡ [] }
{
    let mut buffer = Vec::new(alloc);
    let _made = buffer.reserve_exact(text_len.saturating_add(SPARE));
    buffer
}

// A value that was read, which is dropped within little machine stack.
struct Held<'a> {
    value: Value<'a>,
}

impl Drop for Held<'_> {
    fn drop(self) {
        let Held { value } = self;
        value.dismantle();
    }
}

// The value of a text, which is the first or the second of those that a call is given.
fn value_of<'a>(alloc: Global, mode: u32, text: &'a [u8], which: u32) -> Result<Held<'a>, Failure>
    ensures read { IfOk result (λ held. IsDocumentOf mode text.now (view held.value)) }
    ensures fails { FailsFor mode (IsRejected mode text.now which) (MayAllocate text.now) result }
{
    let Some(grammar) = choose_grammar(mode) else {
        return Err(Failure::UnknownMode);
    };
    match parse_value_in(alloc, text, grammar) {
        Ok(value) => Ok(Held { value }),
        Err(error) => Err(reason_of(&error, which)),
    }
}

// The grammar that a number chooses.
fn choose_grammar(number: u32) -> Option<Grammar>
    ensures { MatchOption result (3 < number) (λ grammar. NumberChooses number (grammar_of grammar)) }
{
    match number {
        0 => Some(Grammar::Standard),
        1 => Some(Grammar::Extended),
        2 => Some(Grammar::Json),
        3 => Some(Grammar::ExtendedJson),
        _ => None,
    }
}

// What is reported of an error of a reader.
fn reason_of(error: &Error, which: u32) -> Failure
    requires { IsTextError error.now }
    ensures { SaysError which error.now result }
{
    match error {
        Error::Syntax(code, position) => Failure::Text(Rejection {
            code: code_number(code),
            which,
            position: *position,
        }),
        _ => Failure::OutOfMemory,
    }
}

// The number of a code: from 1 on, in the order of the codes.
fn code_number(code: &ParseErrorCode) -> u32
    ensures { result ≡ code_number (code_of code.now) }
{
    match code {
        ParseErrorCode::InvalidEOF => 1,
        ParseErrorCode::InvalidNumberValue => 2,
        ParseErrorCode::InvalidStringValue => 3,
        ParseErrorCode::ExpectedSomeIdent => 4,
        ParseErrorCode::ExpectedSomeValue => 5,
        ParseErrorCode::ExpectedColon => 6,
        ParseErrorCode::ExpectedArrayCommaOrEnd => 7,
        ParseErrorCode::ExpectedObjectCommaOrEnd => 8,
        ParseErrorCode::UnexpectedTrailingCharacters => 9,
        ParseErrorCode::KeyMustBeAString => 10,
        ParseErrorCode::ControlCharacterWhileParsingString => 11,
        ParseErrorCode::InvalidEscaped(_) => 12,
        ParseErrorCode::InvalidHex(_) => 13,
        ParseErrorCode::InvalidLoneLeadingSurrogateInHexEscape(_) => 14,
        ParseErrorCode::InvalidSurrogateInHexEscape(_) => 15,
        ParseErrorCode::UnexpectedEndOfHexEscape => 16,
        ParseErrorCode::ObjectDuplicateKey(_) => 17,
        ParseErrorCode::ObjectKeyInvalidNumber => 18,
        ParseErrorCode::ObjectKeyInvalidCharacter => 19,
        ParseErrorCode::NumberNotCarried => 20,
        ParseErrorCode::DepthLimitExceeded => 21,
    }
}
