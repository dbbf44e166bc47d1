//! The parser of JSON texts: from left to right, up to the first fault.

ghost use Rattle.std.specs.Prelude.{◌≡◌, ◌≢◌, ◌+◌, ◌<◌, ◌≤◌, ℕ, List, [], ◌∷◌, drop, take, ◌⊎◌, MatchOption, IfOk, IfErr, IfSome, Err, None, Ok, Some, true, length};
ghost use Rattle.jsonb_core.specs.Error.CodeView.{code_of};
ghost use Rattle.text_scan.specs.Answer.{grammar_of, mode_of, NamesFault};
ghost use Rattle.jsonb_spec.specs.Parsing.Memory.{MayAllocate};
ghost use Rattle.jsonb_spec.specs.Parsing.{begins, fault_at};
ghost use Rattle.jsonb_spec.specs.Parsing.Whitespace.{skip_closed_whitespace};
ghost use Rattle.jsonb_spec.specs.Parsing.Document.{at_end, comment_at, source_of};
ghost use Rattle.jsonb_spec.specs.Mode.{strictness};
ghost use Rattle.jsonb_spec.specs.Source.{Source, null_source};
ghost use Rattle.text_parse.specs.Handler.{BuildsAll, ElseFails, Ends, IsWritten, Misses};
ghost use Rattle.text_parse.specs.Grammars.{may_cut};

mod ascii;
mod exact_number;
mod extended_number;
mod frame;
pub mod handler;
mod json_string;
mod key;
mod number;
mod scalar;
mod slot;
mod start;
mod string;
mod text;
mod value;
mod whitespace;

use ascii::is_short_ascii;
pub use frame::{Frame, OpenObject};
use handler::{Failed, Handler};
use jsonb_core::error::{Error, ParseErrorCode};
use slot::{Given, Root};
use std::alloc::{AllocError, Global};
pub use text::{Scalar, Text};
pub use text_scan::parser::{Grammar, Mode};

/// Parses a whole text: what a handler makes of it, or what is wrong with it.
///
/// The time is linear in the text, beside that of the handler. Machine stack doesn't grow with the depth of the text.
///
/// # Errors
///
/// That of the first fault of the text, or `OutOfMemory`; or `None`, which only a handler that is silent returns.
pub fn parse_text<'a, V: Handler<'a>>(
    sink: &mut V::Sink,
    alloc: Global,
    buf: &'a [u8],
    grammar: Grammar,
) -> std::result::Result<V, Option<Error>>
    ensures parses { V.holds buf.now sink.old true [] []
        → BuildsAll V.silent (λ v s. V.filled buf.now sink.new v s [] []) result
        (source_of (grammar_of grammar) buf.now) }
    ensures memory { IfErr result (λ reported. reported ≡ Some Error.OutOfMemory
        → MayAllocate buf.now ⊎ IsWritten V.writes (source_of (grammar_of grammar) buf.now)) }
    ensures base { V.base sink.new ≡ V.base sink.old }
{
    // Strings without escapes are cut out of the text, which is tested once. Where a comment isn't UTF-8, each string
    // is tested alone, as none can be cut out.
    let text = text_to_cut(buf, grammar, V::wants().plain);
    let mut parser = Parser {
        alloc,
        grammar,
        mode: grammar.mode(),
        buf,
        offset: 0,
        reported: None,
    };
    match parser.parse_document::<V>(sink, text) {
        Ok(value) => Ok(value),
        Err(Failed) => Err(parser.reported),
    }
}

// The text that strings are cut out of, or none. In JSON each string that a handler doesn't want to be distinguished is
// looked at alone, for control characters.
#[inline(always)]
fn text_to_cut(buf: &[u8], grammar: Grammar, reports_plain: bool) -> &str
    ensures same { result.now ≡ take (length result.now) buf.now }
    ensures cuts { may_cut reports_plain result.now (grammar_of grammar) ≡ true }
{
    if !reports_plain && matches!(grammar, Grammar::Json) {
        return "";
    }
    whole_text(buf).unwrap_or("")
}

// The bytes as text, where they are UTF-8. The call for long texts looks at 64 bytes at once, and short ones are mostly
// ASCII.
#[inline(always)]
fn whole_text(bytes: &[u8]) -> Option<&str>
    ensures { IfSome result (λ text. text.now ≡ bytes.now) }
{
    if bytes.len() >= 64 {
        return simdutf8::basic::from_utf8(bytes).ok();
    }
    if bytes.len() >= 16 && is_short_ascii(bytes) {
        return Some(unsafe { std::str::from_utf8_unchecked(bytes) });
    }
    std::str::from_utf8(bytes).ok()
}

// A parser that is at the index `offset` of its text.
#[derive(Drop)]
struct Parser<'a> {
    alloc: Global,
    grammar: Grammar,
    // Which words, quotes and keys the grammar has, of which more is asked than of the grammar.
    mode: Mode,
    buf: &'a [u8],
    offset: usize,
    // What is wrong, once a call failed.
    reported: Option<Error>,
    ghost inside: { offset ≤ length buf.now },
    ghost agree: { strictness (mode_of mode) ≡ strictness (grammar_of grammar) },
}

impl<'a> Parser<'a> {
    ghost use Rattle.text_parse.specs.Parser.{Advances, IsTextOf, TakesByte, Reports, rest_of, size_of, source_at, source_here};
    ghost use Rattle.text_parse.specs.Steps.{IsRoot, MakesScalar, NoneOpens};
    ghost use Rattle.jsonb_spec.specs.Parsing.Scalar.{scalar_at};

    // The next byte.
    fn peek(&self) -> Option<u8>
        ensures next { MatchOption result (rest_of self.now ≡ [])
            (λ b. rest_of self.now ≡ b ∷ drop (self.now.offset + 1) self.now.buf.now) }
        ensures within { MatchOption result (size_of self.now ≤ self.now.offset)
            (λ b. self.now.offset < size_of self.now) }
    {
        if self.offset < self.buf.len() {
            Some(self.buf[self.offset])
        } else {
            None
        }
    }

    // Whether this byte comes next.
    fn next_is(&self, byte: u8) -> bool
        ensures { result ≡ begins byte (rest_of self.now) }
    {
        matches!(self.peek(), Some(next) if next == byte)
    }

    // Passes this byte, where it comes next.
    fn take_byte(&mut self, byte: u8) -> bool
        ensures { TakesByte byte (begins byte (rest_of self.old)) result self.old self.new }
    {
        if !self.next_is(byte) {
            return false;
        }
        self.offset += 1;
        true
    }

    // The bytes that are still to be parsed.
    fn rest(&self) -> &'a [u8]
        ensures { result.now ≡ rest_of self.now }
    {
        &self.buf[self.offset..]
    }

    // The fault at the next byte, named by its index and a step, or at the end of the text.
    fn fault_at_next(&self, code: ParseErrorCode, step: usize) -> Error
        requires { step ≤ 1 }
        ensures { NamesFault result (fault_at (size_of self.now) (code_of code) step (rest_of self.now)) }
    {
        if self.offset < self.buf.len() {
            Error::Syntax(code, self.offset + step)
        } else {
            Error::Syntax(ParseErrorCode::InvalidEOF, self.buf.len())
        }
    }

    // Fails, and says why.
    #[cold]
    #[inline(never)]
    fn fail(&mut self, error: Error) -> Failed
        ensures { Reports (Some error) self.old self.new }
    {
        self.reported = Some(error);
        Failed
    }

    // Fails for want of memory.
    #[cold]
    #[inline(never)]
    fn out_of_memory(&mut self) -> Failed
        ensures { Reports (Some Error.OutOfMemory) self.old self.new }
    {
        self.reported = Some(Error::OutOfMemory);
        Failed
    }

    // Fails, and says nothing.
    #[cold]
    #[inline(never)]
    fn fail_silently(&mut self) -> Failed
        ensures { Reports None self.old self.new }
    {
        self.reported = None;
        Failed
    }

    // What a call returns that takes memory.
    #[inline(always)]
    fn or_out_of_memory<T>(
        &mut self,
        made: std::result::Result<T, AllocError>,
    ) -> std::result::Result<T, Failed>
        ensures same { IfOk result (λ x. (made ≡ Ok x) × (self.new ≡ self.old)) }
        ensures memory { IfErr result (λ _. self.new.reported ≡ Some Error.OutOfMemory) }
        ensures advances { Advances self.old self.new }
    {
        match made {
            Ok(made) => Ok(made),
            Err(_) => Err(self.out_of_memory()),
        }
    }

    // A value with whitespace round it, up to the end of the text.
    fn parse_document<V: Handler<'a>>(
        &mut self,
        sink: &mut V::Sink,
        text: &'a str,
    ) -> std::result::Result<V, Failed>
        requires same { IsTextOf text.now self.old }
        requires cuts { may_cut V.reports_plain text.now (grammar_of self.old.grammar) ≡ true }
        ensures parses { V.holds self.old.buf.now sink.old true [] []
            → ElseFails V.silent self.new.reported result (source_at self.old) (λ v. (s : Source)
            × V.filled self.old.buf.now sink.new v s [] [] × (source_at self.old ≡ Ok s)) }
        ensures memory { IfErr result (λ _. self.new.reported ≡ Some Error.OutOfMemory → MayAllocate self.old.buf.now
            ⊎ IsWritten V.writes (source_at self.old)) }
        ensures base { V.base sink.new ≡ V.base sink.old }
    {
        self.skip_closed_whitespace();
        if self.begins_container() {
            let value = self.parse_container::<V>(sink, text)?;
            if let Err(failed) = self.end_document() {
                value.dismantle();
                return Err(failed);
            }
            return Ok(value);
        }
        let mut root = Given {
            value: V::scalar(Scalar::Null),
            from: 0,
            to: 0,
        };
        self.parse_root::<V>(sink, &mut root, text)?;
        let Ok(()) = V::root(sink, &root.value, root.from, root.to) else {
            return Err(self.out_of_memory());
        };
        Ok(root.value)
    }

    // The rest of a text whose value holds no others. Where there is no value, what was given stays.
    #[inline(always)]
    fn parse_root<V: Handler<'a>>(
        &mut self,
        sink: &mut V::Sink,
        root: &mut Given<V>,
        text: &'a str,
    ) -> std::result::Result<(), Failed>
        requires same { IsTextOf text.now self.old }
        requires cuts { may_cut V.reports_plain text.now (grammar_of self.old.grammar) ≡ true }
        requires other { NoneOpens self.old }
        requires null { IsRoot V.Handler root.old self.old.buf.now null_source }
        ensures parses { ElseFails V.silent self.new.reported result (source_here self.old) (λ _. (s : Source)
            × ((sink.new ≡ sink.old) × IsRoot V.Handler root.new self.old.buf.now s) × (source_here self.old ≡ Ok s)) }
        ensures memory { IfErr result (λ _. self.new.reported ≡ Some Error.OutOfMemory → MayAllocate self.old.buf.now) }
        ensures base { V.base sink.new ≡ V.base sink.old }
    {
        if self.offset >= self.buf.len() {
            return match self.mode {
                Mode::Standard => {
                    Err(self.fail(Error::Syntax(ParseErrorCode::InvalidEOF, self.buf.len())))
                }
                Mode::Extended => Ok(()),
            };
        }
        if self.opens_comment() {
            return self.end_in_comment();
        }
        if self.take_byte(b'"') {
            self.put_later_quoted::<V, Root>(sink, root, Root, text)?;
            return self.end_document();
        }
        let value = self.parse_root_scalar::<V>(text)?;
        *root = Given {
            value,
            from: 0,
            to: 0,
        };
        self.end_document()
    }

    // A scalar that is a text's value and no string in double quotes. It is a call of its own: inlined, it would
    // prevent the loop over parts from being so.
    #[inline(never)]
    fn parse_root_scalar<V: Handler<'a>>(&mut self, text: &'a str) -> std::result::Result<V, Failed>
        requires same { IsTextOf text.now self.old }
        ensures { MakesScalar V.Handler scalar_at result self.old self.new }
    {
        self.parse_scalar(text)
    }

    // The end of a text, after its value.
    #[inline(always)]
    fn end_document(&mut self) -> std::result::Result<(), Failed>
        ensures parses { (s : Source) → Ends s self.new.reported result (at_end (size_of self.old)
            (grammar_of self.old.grammar) s (skip_closed_whitespace (grammar_of self.old.grammar) (rest_of self.old))) }
        ensures takes_no_memory { IfErr result (λ _. self.new.reported ≢ Some Error.OutOfMemory) }
    {
        self.skip_closed_whitespace();
        if self.offset >= self.buf.len() {
            return Ok(());
        }
        if self.opens_comment() {
            return self.end_in_comment();
        }
        let after = self.offset + 1;
        Err(self.fail(Error::Syntax(ParseErrorCode::UnexpectedTrailingCharacters, after)))
    }

    // A text may end in a line comment without its end, and in no other comment.
    fn end_in_comment(&mut self) -> std::result::Result<(), Failed>
        requires { self.old.offset < size_of self.old }
        ensures parses { (s : Source) → Ends s self.new.reported result (comment_at (size_of self.old) s
            (drop 1 (rest_of self.old))) }
        ensures takes_no_memory { IfErr result (λ _. self.new.reported ≢ Some Error.OutOfMemory) }
    {
        let next = self.offset + 1;
        if next < self.buf.len() && self.buf[next] == b'/' {
            Ok(())
        } else {
            Err(self.fail(Error::Syntax(ParseErrorCode::InvalidEOF, self.buf.len())))
        }
    }
}
