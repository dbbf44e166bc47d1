//! What a value is, by its first byte.
ghost use Rattle.std.specs.Prelude.{◌≡◌, false, MatchBool};
ghost use Rattle.jsonb_spec.specs.Ascii as ascii;
ghost use Rattle.jsonb_spec.specs.Mode.{strictness};
ghost use Rattle.text_scan.specs.Answer.{mode_of, grammar_of};
ghost use Rattle.jsonb_spec.specs.Parsing.{begins};
ghost use Rattle.jsonb_spec.specs.Parsing.Container.{is_left_out};
ghost use Rattle.text_parse.specs.Frames.{OpensContainer};
ghost use Rattle.text_parse.specs.Parser.{rest_of};
ghost use Rattle.text_parse.specs.Start.{IsStart, IsStartIn};

use super::{Mode, Parser};

// What begins with a byte.
#[derive(Clone, Copy)]
pub(super) enum Start {
    Array,
    Object,
    // A string in quotes of this kind.
    DoubleQuote,
    SingleQuote,
    // `null`, or in extended mode perhaps `nan`.
    Null,
    True,
    False,
    Number,
    NoValue,
}

// What begins with this byte.
#[inline(always)]
fn start_of(byte: u8, mode: Mode) -> Start
    ensures { IsStartIn result (strictness (mode_of mode)) byte }
{
    match byte {
        b'[' => Start::Array,
        b'{' => Start::Object,
        b'"' => Start::DoubleQuote,
        b'n' => Start::Null,
        b't' => Start::True,
        b'f' => Start::False,
        b'-' => Start::Number,
        b'0'..=b'9' => Start::Number,
        _ => match mode {
            Mode::Standard => Start::NoValue,
            Mode::Extended => match byte {
                b'\'' => Start::SingleQuote,
                b'N' => Start::Null,
                b'T' => Start::True,
                b'F' => Start::False,
                b'+' | b'.' | b'i' | b'I' => Start::Number,
                _ => Start::NoValue,
            },
        },
    }
}

impl<'a> Parser<'a> {
    // What begins here.
    #[inline(always)]
    pub(super) fn start(&self) -> Start
        ensures { IsStart result (grammar_of self.now.grammar) (rest_of self.now) }
    {
        match self.peek() {
            Some(byte) => start_of(byte, self.mode),
            None => Start::NoValue,
        }
    }

    // Whether an array or an object begins here. It is asked before each element and member, so it looks for these two
    // alone.
    #[inline(always)]
    pub(super) fn begins_container(&self) -> bool
        ensures other { MatchBool result
            (is_left_out (strictness (grammar_of self.now.grammar)) (rest_of self.now) ≡ false)
            ((begins ascii.open_bracket (rest_of self.now) ≡ false)
            × (begins ascii.open_brace (rest_of self.now) ≡ false)) }
        ensures opens { MatchBool result (OpensContainer (rest_of self.now)) (Unit {0}) }
    {
        matches!(self.peek(), Some(b'[' | b'{'))
    }
}
