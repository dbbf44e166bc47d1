//! Checks the contents of a string for what JSON alone rejects: control characters, and the digits of a unit in braces.
ghost use Rattle.std.specs.Prelude.{◌≡◌, ◌≢◌, ℕ, List, ◌∷◌, ◌+◌, ◌^◌, ◌<◌, ◌≤◌, ◌-◌, drop, length, Err, IfErr, IfNone, IfSome, MatchBool, OnOk};
ghost use Rattle.jsonb_spec.specs.Ascii as ascii;
ghost use Rattle.jsonb_spec.specs.Mode.{json, standard};
ghost use Rattle.jsonb_core.specs.Error.CodeView.{code_of};
ghost use Rattle.jsonb_spec.specs.Parsing.String.{body_of, item_at};
ghost use Rattle.text_scan.specs.StrictString.{AreClean, ParsesItem, ParsesNoItem, RejectsContents};

use super::escaped_byte;
use super::unit::read_unit;
use crate::parser::Mode;
use crate::parser::vector::{low_bits, near_bits};
use jsonb_core::error::{Error, ParseErrorCode, Result};

// What is wrong with an item, and how many of its bytes are read then.
#[derive(Drop)]
struct ItemFault {
    code: ParseErrorCode,
    read: usize,
}

// Whether the first 16 bytes are clean.
#[inline(always)]
fn is_clean_row(bytes: &[u8]) -> bool
    requires { 17 ≤ length bytes.now }
    ensures { MatchBool result (AreClean bytes.now 16) (Unit {0}) }
{
    let low = low_bits(bytes);
    let letters = near_bits(bytes, b'u');
    let braces = near_bits(&bytes[1..], b'{');
    low | (letters & braces) == 0
}

// Whether a few bytes are clean, told byte by byte. Those with an opening brace are told not to be.
#[inline(always)]
fn is_clean_few(bytes: &[u8]) -> bool
    ensures { MatchBool result (AreClean bytes.now (length bytes.now)) (Unit {0}) }
{
    'bytes: for byte in bytes {
        if *byte < b' ' || *byte == b'{' {
            return false;
        }
    }
    true
}

// Whether the last 17 bytes are clean.
#[inline(always)]
fn is_clean_end(bytes: &[u8]) -> bool
    requires { 17 ≤ length bytes.now }
    ensures { MatchBool result (AreClean (drop (length bytes.now - 17) bytes.now) 17) (Unit {0}) }
{
    if bytes[bytes.len() - 1] < b' ' {
        return false;
    }
    is_clean_row(&bytes[bytes.len() - 17..])
}

// Whether all bytes are clean: then JSON and standard mode parse the same of them.
#[inline(always)]
fn is_clean(bytes: &[u8]) -> bool
    ensures { MatchBool result (AreClean bytes.now (length bytes.now)) (Unit {0}) }
{
    if bytes.len() < 17 {
        return is_clean_few(bytes);
    }
    let mut at = 0;
    'rows: while bytes.len() - at > 16 {
        if !is_clean_row(&bytes[at..]) {
            return false;
        }
        at += 16;
    }
    is_clean_end(bytes)
}

// What follows the `u` and the opening brace that the bytes begin with.
#[inline(always)]
fn after_brace(bytes: &[u8]) -> Option<&[u8]>
    ensures some { IfSome result (λ rest. bytes.now ≡ ascii.lower_u ∷ ascii.open_brace ∷ rest.now) }
    ensures len { IfSome result (λ rest. length rest.now + 2 ≡ length bytes.now) }
    ensures none { IfNone result ((rest : List ℕ) → bytes.now ≢ ascii.lower_u ∷ ascii.open_brace ∷ rest) }
{
    match bytes {
        [b'u', b'{', rest @ ..] => Some(rest),
        _ => None,
    }
}

// What is wrong with the item that begins with this byte, where JSON alone rejects it.
fn strict_fault(byte: u8, rest: &[u8]) -> Option<ItemFault>
    ensures some { IfSome result (λ fault. item_at json byte rest.now ≡ Err (code_of fault.code, fault.read)) }
    ensures within { IfSome result (λ fault. fault.read ≤ 1 + length rest.now) }
    ensures none { IfNone result (item_at json byte rest.now ≡ item_at standard byte rest.now) }
{
    if byte < b' ' {
        return Some(ItemFault {
            code: ParseErrorCode::ControlCharacterWhileParsingString,
            read: 1,
        });
    }
    if byte != b'\\' {
        return None;
    }
    let Some(more) = after_brace(rest) else {
        return None;
    };
    if more.len() < 3 {
        return Some(ItemFault {
            code: ParseErrorCode::UnexpectedEndOfHexEscape,
            read: 2,
        });
    }
    Some(ItemFault {
        code: ParseErrorCode::InvalidHex(b'{'),
        read: 6,
    })
}

// What follows the escape whose backslash is before the bytes. There is none where standard mode rejects it.
fn after_escape(bytes: &[u8]) -> Option<&[u8]>
    ensures some { IfSome result (λ rest. ParsesItem standard ascii.backslash bytes.now rest.now) }
    ensures none { IfNone result (ParsesNoItem standard ascii.backslash bytes.now) }
{
    let Some((letter, rest)) = bytes.split_first() else {
        return None;
    };
    if *letter == b'u' {
        let Ok(unit) = read_unit(rest) else {
            return None;
        };
        return Some(unit.rest);
    }
    let Some(_) = escaped_byte(*letter, Mode::Standard) else {
        return None;
    };
    Some(rest)
}

// What follows the item that begins with this byte. There is none where standard mode rejects it.
fn after_item(byte: u8, rest: &[u8]) -> Option<&[u8]>
    ensures some { IfSome result (λ more. ParsesItem standard byte rest.now more.now) }
    ensures none { IfNone result (ParsesNoItem standard byte rest.now) }
{
    if byte == b'\\' {
        return after_escape(rest);
    }
    Some(rest)
}

// Checks contents item by item.
#[cold]
#[inline(never)]
fn check_items(body: &[u8], idx: usize) -> Result<()>
    requires { idx + length body.now < 2 ^ 64 }
    ensures passed { OnOk result (body_of json body.now ≡ body_of standard body.now) }
    ensures rejected { IfErr result (λ e. RejectsContents idx e (body_of json body.now)) }
{
    let mut rest = body;
    'items: while !rest.is_empty() {
        let Some((byte, after)) = rest.split_first() else {
            return Ok(());
        };
        if let Some(fault) = strict_fault(*byte, after) {
            let offset = idx + (body.len() - rest.len()) + fault.read;
            return Err(Error::Syntax(fault.code, offset));
        }
        // What standard mode rejects too, its decoder reports.
        let Some(more) = after_item(*byte, after) else {
            return Ok(());
        };
        rest = more;
    }
    Ok(())
}

/// Checks the contents of a string for what JSON rejects and standard mode doesn't: control characters, and digits in
/// braces. Contents that pass are in JSON what they are in standard mode: the same text, or the same fault, which the
/// decoder then reports. `idx` is the index after the opening quote and one more, from which an error counts.
///
/// # Errors
///
/// `Syntax` with `ControlCharacterWhileParsingString`, and for digits in braces with `InvalidHex` or
/// `UnexpectedEndOfHexEscape`.
#[inline(never)]
pub fn check_strict(body: &[u8], idx: usize) -> Result<()>
    requires { idx + length body.now < 2 ^ 64 }
    ensures passed { OnOk result (body_of json body.now ≡ body_of standard body.now) }
    ensures rejected { IfErr result (λ e. RejectsContents idx e (body_of json body.now)) }
{
    if is_clean(body) {
        return Ok(());
    }
    check_items(body, idx)
}
