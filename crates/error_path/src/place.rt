//! Where a part of a text is due, and whether the text is wrong there, which documents show that are made of its front.
ghost use Rattle.std.specs.Prelude.{◌≡◌, ◌+◌, ◌<◌, ◌||◌, ◌++◌, ◌∷◌, ℕ, Bool, List, length, map, slice_index, string_bytes, IfOk, None, OnOk, MatchBool};
ghost use Rattle.std.specs.List.{AllByRecursion};
ghost use Rattle.jsonb_spec.specs.Path.ErrorPath.{IsClosing, IsErrorPath, IsWrong, NonePasses, BeginsWithDocument, completed, literal, put_before};
ghost use Rattle.error_path.specs.Placed.{AreLed, IsPut, ends_before, is_trailing, lacks, leaves_out};
ghost use Rattle.jsonb_spec.specs.Ascii as ascii;
ghost use Rattle.jsonb_spec.specs.Mode.{strictness};
ghost use Rattle.jsonb_core.specs.Error.CodeView.{code_of};
ghost use Rattle.text_scan.specs.Answer.{grammar_of};
ghost use Rattle.jsonb_spec.specs.Parsing.{begins};
ghost use Rattle.jsonb_spec.specs.Parsing.Whitespace.{opens_comment, piece_length};

use jsonb::{append_part, check};
use jsonb_core::error::{Error, ParseErrorCode};
use std::alloc::{AllocError, Global};
use text_parse::{Grammar, Mode};
use text_scan::parser::whitespace::piece_len;

// How many arrays and objects may be open at once.
const MAX_DEPTH: usize = 512;

/// Where a part of a text is due.
#[derive(Drop)]
pub(crate) struct Place {
    /// The keys of the path to it.
    pub(crate) keys: Vec<String>,
    /// Its index.
    pub(crate) front: usize,
    /// The index at which the pass was behind it, where it ended.
    pub(crate) end: usize,
    /// The comma or the colon that is lacking before it.
    pub(crate) lacking: Option<u8>,
    /// The bytes that close the arrays and objects that are open, the innermost first.
    pub(crate) closers: Vec<u8>,
}

// What was made by a value that was put where a part is due.
#[derive(Clone, Copy)]
enum Put {
    // A document, in which it is the part at the path.
    There,
    // A text that is rejected since a key comes twice.
    Repeated,
    // Anything else.
    Elsewhere,
}

/// Whether the text is wrong at this place, to which the path leads.
pub(crate) fn is_error_path(
    alloc: Global,
    text: &[u8],
    grammar: Grammar,
    place: &Place,
) -> Result<bool, AllocError>
    ensures { IfOk result (λ is_path. MatchBool is_path (IsErrorPath (grammar_of grammar) text.now
        (map string_bytes place.now.keys.items)) (Unit {0})) }
{
    if place.front > text.len() || !are_closing(&place.closers) {
        return Ok(false);
    }
    let (front, rest) = text.split_at(place.front);
    match put_each(alloc, front, grammar, place)? {
        Put::There => {
            if piece_len(rest, grammar) > 0 {
                return Ok(false);
            }
            if is_wrong(alloc, rest, grammar, place)? {
                return Ok(true);
            }
            Ok(false)
        }
        Put::Repeated => Ok(true),
        Put::Elsewhere => Ok(false),
    }
}

// Whether each byte closes an array or an object.
fn are_closing(bytes: &[u8]) -> bool
    ensures { MatchBool result (AllByRecursion IsClosing bytes.now) (Unit {0}) }
{
    let mut rest = bytes;
    'bytes: while let Some((byte, others)) = rest.split_first() {
        if !is_closing(*byte) {
            return false;
        }
        rest = others;
    }
    true
}

// Whether the byte closes an array or an object.
fn is_closing(byte: u8) -> bool
    ensures { MatchBool result (IsClosing byte) (Unit {0}) }
{
    if byte == b']' {
        return true;
    }
    if byte == b'}' {
        return true;
    }
    false
}

// Puts each of two values where the part is due.
fn put_each(alloc: Global, front: &[u8], grammar: Grammar, place: &Place) -> Result<Put, AllocError>
    ensures { IfOk result (λ put. AreLed put (grammar_of grammar) front.now place.now.lacking place.now.closers.items
        (map string_bytes place.now.keys.items)) }
{
    match put_value(alloc, front, grammar, place, true)? {
        Put::There => {}
        Put::Repeated => return Ok(Put::Repeated),
        Put::Elsewhere => return Ok(Put::Elsewhere),
    }
    match put_value(alloc, front, grammar, place, false)? {
        Put::There => Ok(Put::There),
        Put::Repeated => Ok(Put::Repeated),
        Put::Elsewhere => Ok(Put::Elsewhere),
    }
}

// Puts a value where the part is due.
fn put_value(
    alloc: Global,
    front: &[u8],
    grammar: Grammar,
    place: &Place,
    value: bool,
) -> Result<Put, AllocError>
    ensures { IfOk result (λ put. IsPut put (grammar_of grammar) (completed front.now place.now.lacking
        place.now.closers.items value) (map string_bytes place.now.keys.items) (literal value)) }
{
    let text = complete(alloc, front, place, value)?;
    let mut part = Vec::new(alloc);
    match append_part(alloc, &text, grammar, &place.keys, &mut part) {
        Ok(true) => {
            if part.as_slice() == literal(value) {
                return Ok(Put::There);
            }
            Ok(Put::Elsewhere)
        }
        Ok(false) => Ok(Put::Elsewhere),
        Err(Error::OutOfMemory) => Err(AllocError),
        Err(Error::Syntax(ParseErrorCode::ObjectDuplicateKey(_), _)) => Ok(Put::Repeated),
        Err(_) => Ok(Put::Elsewhere),
    }
}

// The front of a text with a value behind it, and what is open closed.
fn complete(alloc: Global, front: &[u8], place: &Place, value: bool) -> Result<Vec<u8>, AllocError>
    ensures { IfOk result (λ text. text.items ≡ completed front.now place.now.lacking place.now.closers.items value) }
{
    let mut text = Vec::from_slice(alloc, front)?;
    push_lacking(&mut text, place.lacking)?;
    text.extend_from_slice(literal(value))?;
    text.extend_from_slice(&place.closers)?;
    Ok(text)
}

// Appends the byte that is lacking.
fn push_lacking(text: &mut Vec<u8>, lacking: Option<u8>) -> Result<(), AllocError>
    ensures { OnOk result (text.new.items ≡ text.old.items ++ put_before lacking) }
{
    let Some(byte) = lacking else {
        return Ok(());
    };
    text.push(byte)?;
    Ok(())
}

// One of two values.
fn literal(value: bool) -> &'static [u8]
    ensures { result.now ≡ literal value }
{
    if value { b"true" } else { b"false" }
}

// Whether the text is wrong where the part is due.
fn is_wrong(alloc: Global, rest: &[u8], grammar: Grammar, place: &Place) -> Result<bool, AllocError>
    requires no_piece { piece_length (grammar_of grammar) rest.now ≡ 0 }
    ensures { IfOk result (λ wrong. MatchBool wrong (IsWrong (grammar_of grammar) place.now.closers.items
        place.now.lacking rest.now) (Unit {0})) }
{
    match place.lacking {
        Some(byte) => {
            if is_lacking(rest, grammar, byte) {
                return Ok(true);
            }
            Ok(false)
        }
        None => is_wrong_part(alloc, rest, grammar, place),
    }
}

// Whether the part is wrong, before which nothing is lacking.
fn is_wrong_part(
    alloc: Global,
    rest: &[u8],
    grammar: Grammar,
    place: &Place,
) -> Result<bool, AllocError>
    requires no_piece { piece_length (grammar_of grammar) rest.now ≡ 0 }
    ensures { IfOk result (λ wrong. MatchBool wrong (IsWrong (grammar_of grammar) place.now.closers.items None rest.now)
        (Unit {0})) }
{
    if place.closers.len() == MAX_DEPTH && opens_container(rest) {
        return Ok(true);
    }
    if !none_passes(alloc, rest, grammar, &place.closers)? {
        return Ok(false);
    }
    if has_its_end(alloc, rest, grammar, place)? {
        return Ok(true);
    }
    Ok(false)
}

// Whether the colon is missing, or the comma where a comment doesn't end.
fn is_lacking(rest: &[u8], grammar: Grammar, byte: u8) -> bool
    ensures { result ≡ lacks byte (strictness (grammar_of grammar)) rest.now }
{
    if byte == b':' {
        return !begins(rest, b':');
    }
    byte == b',' && opens_comment(rest, grammar)
}

// Whether a comment begins here, closed or not.
fn opens_comment(rest: &[u8], grammar: Grammar) -> bool
    ensures { result ≡ opens_comment (strictness (grammar_of grammar)) rest.now }
{
    match grammar.mode() {
        Mode::Standard => false,
        Mode::Extended => matches!(rest, [b'/', b'*' | b'/', ..]),
    }
}

// Whether an array or an object begins here.
fn opens_container(rest: &[u8]) -> bool
    ensures { result ≡ (begins ascii.open_bracket rest.now || begins ascii.open_brace rest.now) }
{
    begins(rest, b'[') || begins(rest, b'{')
}

// Whether this byte comes next.
fn begins(rest: &[u8], byte: u8) -> bool
    ensures { result ≡ begins byte rest.now }
{
    match rest.first() {
        Some(first) => *first == byte,
        None => false,
    }
}

// Whether no part passes here, before a comma or the closing byte.
fn none_passes(
    alloc: Global,
    rest: &[u8],
    grammar: Grammar,
    closers: &[u8],
) -> Result<bool, AllocError>
    requires no_piece { piece_length (grammar_of grammar) rest.now ≡ 0 }
    ensures { IfOk result (λ none. MatchBool none (NonePasses (grammar_of grammar) closers.now rest.now) (Unit {0})) }
{
    if leaves_out(rest, grammar, closers) {
        return Ok(false);
    }
    match check(alloc, rest, grammar) {
        Ok(()) => Ok(true),
        Err(Error::OutOfMemory) => Err(AllocError),
        Err(Error::Syntax(code, position)) => {
            if !is_trailing(&code) {
                return Ok(true);
            }
            if ends_at(rest, position, closers) {
                return Ok(false);
            }
            Ok(true)
        }
        Err(_) => Ok(false),
    }
}

// Whether an element is left out here.
fn leaves_out(rest: &[u8], grammar: Grammar, closers: &[u8]) -> bool
    ensures { result ≡ leaves_out (strictness (grammar_of grammar)) closers.now rest.now }
{
    match grammar.mode() {
        Mode::Standard => false,
        Mode::Extended => match rest.first() {
            Some(byte) => begins(closers, b']') && ends_before(*byte, closers),
            None => false,
        },
    }
}

// Whether a part ends before this byte.
fn ends_before(byte: u8, closers: &[u8]) -> bool
    ensures { result ≡ ends_before byte closers.now }
{
    match closers.first() {
        Some(close) => byte == b',' || byte == *close,
        None => false,
    }
}

// Whether the code is that of bytes after a value.
fn is_trailing(code: &ParseErrorCode) -> bool
    ensures { result ≡ is_trailing (code_of code.now) }
{
    matches!(code, ParseErrorCode::UnexpectedTrailingCharacters)
}

// Whether a part ends before the byte at a position, which counts from 1.
fn ends_at(rest: &[u8], position: usize, closers: &[u8]) -> bool
    ensures { (at : ℕ) → position ≡ at + 1 → at < length rest.now
        → result ≡ ends_before (slice_index rest.now at) closers.now }
{
    match rest.get(position.saturating_sub(1)) {
        Some(byte) => ends_before(*byte, closers),
        None => false,
    }
}

// Whether what begins here is no array, or one that ends where the pass was behind it.
fn has_its_end(
    alloc: Global,
    rest: &[u8],
    grammar: Grammar,
    place: &Place,
) -> Result<bool, AllocError>
    ensures { IfOk result (λ has. MatchBool has ((others : List ℕ) → rest.now ≡ ascii.open_bracket ∷ others
        → BeginsWithDocument (grammar_of grammar) rest.now) (Unit {0})) }
{
    if !begins(rest, b'[') {
        return Ok(true);
    }
    let len = place.end.saturating_sub(place.front);
    if len == 0 || len > rest.len() {
        return Ok(false);
    }
    let (array, _) = rest.split_at(len);
    match check(alloc, array, grammar) {
        Ok(()) => Ok(true),
        Err(Error::OutOfMemory) => Err(AllocError),
        Err(_) => Ok(false),
    }
}
