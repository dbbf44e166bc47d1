//! Texts whose lines are texts of their own, which are parsed one after the other for their serialized forms.
ghost use Rattle.std.specs.Prelude.{◌≡◌, ◌⊎◌, ◌+◌, ◌<◌, ◌≤◌, ℕ, [], ◌∷◌, length, Contains, Err, IfErr, OnErr, OnOk, vec_capacity, vec_len};
ghost use Rattle.jsonb_spec.specs.Text.Appending.{Extends};
ghost use Rattle.text_scan.specs.Answer.{grammar_of};
ghost use Rattle.jsonb_spec.specs.Parsing.Memory.{MayAllocate};
ghost use Rattle.jsonb_spec.specs.Parsing.Appends.{AppendsTextOf, LacksCapacityForText};
ghost use Rattle.jsonb.specs.Follows.{FailsAsSpecified};
ghost use Rattle.jsonb_spec.specs.Parsing.Lines.{AppendsTextOfLine, AppendsTextOfLines, LacksCapacityForLine, LacksCapacityForLines, lines_of};
ghost use Rattle.jsonb.specs.Lines.{RejectsLine};
ghost use Rattle.jsonb.specs.Parses.{AppendsParsed, Rejects};

use super::Grammar;
use super::straight::{may_allocate, write_form, write_form_of_value};
use jsonb_core::error::{Error, Result};
use memchr::memchr;
use std::alloc::Global;
use std::mem;
use text_write::text::TextSink;

/// A line that is rejected: the index in the text at which it begins, and what is wrong with it. The offset of an error
/// counts from there.
#[derive(Debug, Drop)]
pub struct RejectedLine {
    pub start: usize,
    pub error: Error,
}

/// Parses each line of a text, which is a whole text, and appends its value's serialized form and a line feed to a
/// buffer. The last line may lack its line feed. After an error `buf` has the same bytes as before.
///
/// It is as if [`append_text`] were called for each line, but what that allocates beside the growth of `buf` is held
/// from line to line. So short lines take less time. Lines without `[`, `{` and backslashes take no memory but the
/// space that `buf` lacks.
///
/// ```
/// let mut buf = Vec::new(rt.alloc());
/// jsonb::append_text_lines(rt.alloc(), b"{b: .5, a: null}\n[ ]", Grammar::Extended, &mut buf)?;
/// // appends {"a":null,"b":0.5} and [], each with a line feed
/// ```
///
/// # Errors
///
/// Those of [`append_text`], of the first line that has one.
///
/// [`append_text`]: crate::append_text
pub fn append_text_lines(
    alloc: Global,
    text: &[u8],
    grammar: Grammar,
    buf: &mut Vec<u8>,
) -> std::result::Result<(), RejectedLine>
    // Each line is a document, whose text is appended. After an error the buffer has its old bytes.
    ensures appends { OnOk result (AppendsTextOfLines (grammar_of grammar) (lines_of text.now) buf.old.items buf.new.items) }
    ensures preserves { OnErr result (buf.new.items ≡ buf.old.items) }

    // Memory runs out only where the text may allocate, or where the space for the lines is missing. A buffer that has
    // space holds it, where the text doesn't allocate.
    ensures memory { IfErr result (λ e. e.error ≡ Error.OutOfMemory → MayAllocate text.now
        ⊎ LacksCapacityForLines (grammar_of grammar) (lines_of text.now) (vec_capacity buf.old) (vec_len buf.old)) }
    ensures capacity { MayAllocate text.now ⊎ (vec_capacity buf.old ≤ vec_capacity buf.new) }

    // An error is that of the parsers, of the first line that has one.
    ensures rejects { IfErr result (λ e. RejectsLine (grammar_of grammar) e.error (lines_of text.now) e.start) }
{
    let before = buf.len();
    let out = mem::replace(buf, Vec::new(alloc));
    let mut sink = TextSink::new(alloc, text, out);
    let written = write_lines(&mut sink, alloc, text, grammar);
    *buf = sink.into_buffer();
    if written.is_err() {
        buf.truncate(before);
    }
    written
}

// Writes the lines, one after the other.
fn write_lines<'a>(
    sink: &mut TextSink<'a>,
    alloc: Global,
    text: &'a [u8],
    grammar: Grammar,
) -> std::result::Result<(), RejectedLine>
    ensures appends { OnOk result (AppendsTextOfLines (grammar_of grammar) (lines_of text.now) sink.old.written.out.items
        sink.new.written.out.items) }
    ensures retained { Extends sink.old.written.out.items sink.new.written.out.items }
    ensures memory { IfErr result (λ e. e.error ≡ Error.OutOfMemory → MayAllocate text.now
        ⊎ LacksCapacityForLines (grammar_of grammar) (lines_of text.now) (vec_capacity sink.old.written.out)
        (vec_len sink.old.written.out)) }
    ensures capacity { MayAllocate text.now
        ⊎ (vec_capacity sink.old.written.out ≤ vec_capacity sink.new.written.out) }
    ensures rejects { IfErr result (λ e. RejectsLine (grammar_of grammar) e.error (lines_of text.now) e.start) }
{
    let mut rest = text;
    'lines: while !rest.is_empty() {
        let (line, others) = split_line(rest);
        if let Err(error) = write_line(sink, alloc, line, grammar) {
            let start = text.len() - rest.len();
            return Err(RejectedLine { start, error });
        }
        rest = others;
    }
    Ok(())
}

// The first line of bytes, and what is behind its line feed.
fn split_line(bytes: &[u8]) -> (&[u8], &[u8])
    requires { 0 < length bytes.now }
    ensures lines { lines_of bytes.now ≡ result.0.now ∷ lines_of result.1.now }
    ensures length { (result.1.now ≡ []) ⊎ (length bytes.now ≡ length result.0.now + 1 + length result.1.now) }
    ensures shorter { length result.1.now < length bytes.now }
    ensures parts { (byte : ℕ) → Contains result.0.now byte ⊎ Contains result.1.now byte → Contains bytes.now byte }
{
    match memchr(b'\n', bytes) {
        Some(end) => (&bytes[..end], &bytes[end + 1..]),
        None => bytes.split_at(bytes.len()),
    }
}

// Writes the serialized form of a line's value, and a line feed, behind what is in the sink's buffer.
#[inline(always)]
fn write_line<'a>(
    sink: &mut TextSink<'a>,
    alloc: Global,
    line: &'a [u8],
    grammar: Grammar,
) -> Result<()>
    ensures appends { OnOk result (AppendsTextOfLine (grammar_of grammar) line.now sink.old.written.out.items
        sink.new.written.out.items) }
    ensures retained { Extends sink.old.written.out.items sink.new.written.out.items }
    ensures memory { result ≡ Err Error.OutOfMemory → MayAllocate line.now ⊎ LacksCapacityForLine (grammar_of grammar) line.now
        (vec_capacity sink.old.written.out) (vec_len sink.old.written.out) }
    ensures capacity { MayAllocate line.now
        ⊎ (vec_capacity sink.old.written.out ≤ vec_capacity sink.new.written.out) }
    ensures rejects { Rejects (grammar_of grammar) line.now result }
    ensures follows { FailsAsSpecified (grammar_of grammar) line.now result }
{
    write_line_form(sink, alloc, line, grammar)?;
    let written = &mut sink.written;
    match written.out.push(b'\n') {
        Ok(()) => Ok(()),
        Err(_) => Err(Error::OutOfMemory),
    }
}

// Writes the serialized form of a line's value. A line that takes no memory goes by its value, as such a text does.
#[inline(always)]
fn write_line_form<'a>(
    sink: &mut TextSink<'a>,
    alloc: Global,
    line: &'a [u8],
    grammar: Grammar,
) -> Result<()>
    ensures appends { AppendsParsed (AppendsTextOf (grammar_of grammar) line.now)
        (LacksCapacityForText (grammar_of grammar) line.now) line.now result sink.old.written.out sink.new.written.out }
    ensures rejects { Rejects (grammar_of grammar) line.now result }
    ensures follows { FailsAsSpecified (grammar_of grammar) line.now result }
{
    sink.restart(line);
    if may_allocate(line) {
        write_form(sink, alloc, line, grammar)
    } else {
        write_form_of_value(sink, alloc, line, grammar)
    }
}
