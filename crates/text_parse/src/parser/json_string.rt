//! Strings of JSON with escapes: where they end, and whether they are serialized as they are.
ghost use Rattle.std.specs.Prelude.{◌≡◌, IfNone, IfSome, true};
ghost use Rattle.jsonb_spec.specs.Ascii as ascii;
ghost use Rattle.text_parse.specs.Parser.{Advances, IsBehind, IsTextOf};
ghost use Rattle.text_parse.specs.JsonString.{IsJsonEnd, IsJsonFront, PassesJson};

use super::Parser;
use jsonb_core::plain::{plain_len, run_of_sixteen};
use text_common::verbatim::{Verbatim, is_verbatim_letter, short_byte};
use text_scan::util::units_len;

// How many bytes of such a string were passed, its front or all up to its closing quote, and whether these are
// serialized as they are.
#[derive(Clone, Copy)]
struct Passed {
    end: usize,
    is_same: bool,
}

// Passes the front of the string, from the byte after its opening quote on, as long as its escapes are of one letter: up
// to what else is there, or near the end of the bytes.
#[inline(always)]
fn short_front(bytes: &[u8]) -> Passed
    ensures { IsJsonFront bytes.now result.end result.is_same }
{
    let mut end = 0;
    let mut is_same = true;
    'runs: while bytes.len() - end >= 18 {
        let run = run_of_sixteen(&bytes[end..]);
        end += run;
        if run == 16 {
            continue;
        }
        if bytes[end] != b'\\' {
            return Passed { end, is_same };
        }
        let letter = bytes[end + 1];
        if is_verbatim_letter(letter) {
            end += 2;
            continue;
        }
        let Some(_short) = short_byte(letter) else {
            return Passed { end, is_same };
        };
        is_same = false;
        end += 2;
    }
    Passed { end, is_same }
}

// The end of any such string, from its front on.
#[inline(never)]
fn json_end(bytes: &[u8], front: Passed) -> Option<Passed>
    requires { IsJsonFront bytes.now front.end front.is_same }
    ensures { IfSome result (λ found. IsJsonEnd bytes.now found.end found.is_same) }
{
    let mut end = front.end;
    let mut is_same = front.is_same;
    'parts: loop {
        end += plain_len(&bytes[end..]);
        if end >= bytes.len() {
            return None;
        }
        if bytes[end] == b'"' {
            return Some(Passed { end, is_same });
        }
        if bytes[end] != b'\\' || end + 1 >= bytes.len() {
            return None;
        }
        let letter = bytes[end + 1];
        if is_verbatim_letter(letter) {
            end += 2;
            continue;
        }
        is_same = false;
        if let Some(_byte) = short_byte(letter) {
            end += 2;
            continue;
        }
        let units = units_len(&bytes[end..]);
        if units == 0 {
            return None;
        }
        end += units;
    }
}

// The end of such a string, which mostly has escapes of one letter alone.
#[inline(always)]
fn string_end(bytes: &[u8]) -> Option<Passed>
    ensures { IfSome result (λ found. IsJsonEnd bytes.now found.end found.is_same) }
{
    let front = short_front(bytes);
    if front.end < bytes.len() && bytes[front.end] == b'"' {
        return Some(front);
    }
    json_end(bytes, front)
}

impl<'a> Parser<'a> {
    // Passes such a string from the byte after its opening quote on, if that is asked and one is found.
    #[inline(always)]
    pub(super) fn json_string(&mut self, is_asked: bool, text: &'a str) -> Option<Verbatim>
        requires opened { IsBehind ascii.quote self.old }
        requires same { IsTextOf text.now self.old }
        ensures passes { IfSome result (PassesJson self.old self.new) }
        ensures asked { IfSome result (λ _. is_asked ≡ true) }
        ensures stays { IfNone result (self.new ≡ self.old) }
        ensures advances { Advances self.old self.new }
    {
        if !is_asked {
            return None;
        }
        let found = string_end(self.rest())?;
        let _body = self.cut(found.end, b'"', text)?;
        if found.is_same {
            return Some(Verbatim::Same);
        }
        Some(Verbatim::Escaped)
    }
}
