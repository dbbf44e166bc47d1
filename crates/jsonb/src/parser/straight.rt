//! Texts that are parsed for their serialized form or their sort key alone, or only checked.
ghost use Rattle.std.specs.Prelude.{◌≡◌, [], true, MatchBool, OnErr, OnOk, Err};
ghost use Rattle.jsonb_spec.specs.Tree.{Tree};
ghost use Rattle.jsonb_value.specs.View.{view};
ghost use Rattle.text_scan.specs.Answer.{grammar_of};
ghost use Rattle.jsonb_spec.specs.Parsing.Memory.{MayAllocate};
ghost use Rattle.text_write.specs.TextSink.{TextHolds, base_of};
ghost use Rattle.jsonb_spec.specs.Parsing.Appends.{AppendsKeyOf, AppendsTextOf, IsParsed, LacksCapacityForKey, LacksCapacityForText};
ghost use Rattle.jsonb.specs.Follows.{FailsAsSpecified};
ghost use Rattle.jsonb.specs.Parses.{AppendsParsed, Rejects};

use super::handler::{CheckedPart, SinkPart};
use super::{Grammar, parse_value_in};
use jsonb_core::error::{Error, Result};
use memchr::memchr3;
use std::alloc::Global;
use std::mem;
use text_parse::parse_text;
use text_write::check::CheckSink;
use text_write::key::KeySink;
use text_write::text::TextSink;

/// Whether a text holds `[`, `{` or a backslash. Without one it takes no memory to parse it.
///
/// ```
/// assert!(rt; jsonb::may_allocate(b"[1]"));
/// assert!(rt; !jsonb::may_allocate(b"\"abc\""));
/// ```
#[inline]
pub fn may_allocate(text: &[u8]) -> bool
    ensures { MatchBool result (MayAllocate text.now) (MayAllocate text.now → ⊥) }
{
    matches!(text.first(), Some(b'[' | b'{')) || memchr3(b'[', b'{', b'\\', text).is_some()
}

/// Parses a whole text, and makes nothing of it.
///
/// The time is linear in the text, and where the keys of an object don't ascend, its n members cost n log n comparisons
/// of keys. It allocates for the arrays and objects that are open, an entry for each member of these objects, and for
/// strings and keys with escapes. Machine stack doesn't grow with the depth of the text.
///
/// ```
/// jsonb::check(rt.alloc(), b"{b: .5, a: null}", Grammar::Extended)?;
/// assert!(rt; jsonb::check(rt.alloc(), b"[1,", Grammar::Standard).is_err());
/// ```
///
/// # Errors
///
/// Those of [`JsonAst::parse`].
///
/// [`JsonAst::parse`]: crate::JsonAst::parse
pub fn check(alloc: Global, text: &[u8], grammar: Grammar) -> Result<()>
    // What is accepted is a document, of one tree.
    ensures document { OnOk result ((t : Tree) × IsParsed (grammar_of grammar) text.now t) }
    ensures memory { result ≡ Err Error.OutOfMemory → MayAllocate text.now }

    // An error is that of the parsers.
    ensures rejects { Rejects (grammar_of grammar) text.now result }
    ensures follows { FailsAsSpecified (grammar_of grammar) text.now result }
{
    match grammar {
        Grammar::Json => check_by::<true>(alloc, text, grammar),
        Grammar::Standard | Grammar::Extended | Grammar::ExtendedJson => {
            check_by::<false>(alloc, text, grammar)
        }
    }
}

// The same by a handler that distinguishes strings without an escape, or doesn't. Where it does, the control characters
// that JSON has not are found where a string's end is.
#[inline(always)]
fn check_by<const PLAIN: bool>(alloc: Global, text: &[u8], grammar: Grammar) -> Result<()>
    ensures document { OnOk result ((t : Tree) × IsParsed (grammar_of grammar) text.now t) }
    ensures memory { result ≡ Err Error.OutOfMemory → MayAllocate text.now }
    ensures rejects { Rejects (grammar_of grammar) text.now result }
    ensures follows { FailsAsSpecified (grammar_of grammar) text.now result }
{
    let mut sink = CheckSink::new(alloc, text);
    let read = parse_text::<CheckedPart<PLAIN>>(&mut sink, alloc, text, grammar);
    match read {
        Ok(_) => Ok(()),
        Err(reported) => match reported {
            Some(error) => Err(error),
            None => unreachable!(),
        },
    }
}

/// Parses a whole text, and appends its value's serialized form to a buffer. No value is made. After an error `buf` has
/// the same bytes as before.
///
/// The time is linear in the text, and sorting the n members of an object takes n log n comparisons of keys. Besides
/// the growth of `buf` it allocates an entry for each member of the objects that are open, a copy of an object that is
/// out of order, and keys with escapes; and strings with escapes where the text isn't UTF-8. Machine stack doesn't grow
/// with the depth of the text, but where objects out of order are around most of it at more than eight levels: then a
/// value is made after all.
///
/// ```
/// let mut buf = Vec::new(rt.alloc());
/// jsonb::append_text(rt.alloc(), b"{b: .5, a: null}", Grammar::Extended, &mut buf)?; // appends {"a":null,"b":0.5}
/// ```
///
/// # Errors
///
/// Those of [`JsonAst::parse`], and `OutOfMemory` also where `buf` could not grow.
///
/// [`JsonAst::parse`]: crate::JsonAst::parse
pub fn append_text(alloc: Global, text: &[u8], grammar: Grammar, buf: &mut Vec<u8>) -> Result<()>
    // What is appended is of the one tree of the document. After an error the buffer has its old bytes.
    ensures appends { AppendsParsed (AppendsTextOf (grammar_of grammar) text.now)
        (LacksCapacityForText (grammar_of grammar) text.now) text.now result buf.old buf.new }

    // An error is that of the parsers.
    ensures rejects { Rejects (grammar_of grammar) text.now result }
    ensures follows { FailsAsSpecified (grammar_of grammar) text.now result }
{
    if !may_allocate(text) {
        return append_text_of_value(alloc, text, grammar, buf);
    }
    let out = mem::replace(buf, Vec::new(alloc));
    let mut sink = TextSink::new(alloc, text, out);
    let written = write_form(&mut sink, alloc, text, grammar);
    *buf = sink.into_buffer();
    written
}

/// Parses a whole text, and appends its value's sort key to a buffer. No value is made. After an error `buf` has the
/// same bytes as before.
///
/// The time is linear in the text, and sorting the n members of an object takes n log n comparisons of keys. Besides
/// the growth of `buf` it allocates an entry for each member of the objects that are open, a copy of an object that is
/// out of order, and keys with escapes; and strings with escapes where they mean a zero or the text isn't UTF-8.
/// Machine stack doesn't grow with the depth of the text, but where objects out of order are around most of it at
/// more than eight levels: then a value is made after all.
///
/// ```
/// let mut buf = Vec::new(rt.alloc());
/// jsonb::append_sort_key(rt.alloc(), b"[1, \"x\"]", Grammar::Standard, &mut buf)?; // below the key of [2]
/// ```
///
/// # Errors
///
/// Those of [`JsonAst::parse`], and `OutOfMemory` also where `buf` could not grow.
///
/// [`JsonAst::parse`]: crate::JsonAst::parse
pub fn append_sort_key(
    alloc: Global,
    text: &[u8],
    grammar: Grammar,
    buf: &mut Vec<u8>,
) -> Result<()>
    // What is appended is of the one tree of the document. After an error the buffer has its old bytes.
    ensures appends { AppendsParsed (AppendsKeyOf (grammar_of grammar) text.now)
        (LacksCapacityForKey (grammar_of grammar) text.now) text.now result buf.old buf.new }

    // An error is that of the parsers.
    ensures rejects { Rejects (grammar_of grammar) text.now result }
    ensures follows { FailsAsSpecified (grammar_of grammar) text.now result }
{
    if !may_allocate(text) {
        return append_sort_key_of_value(alloc, text, grammar, buf);
    }
    let out = mem::replace(buf, Vec::new(alloc));
    let mut sink = KeySink::new(alloc, text, out);
    let read = parse_text::<SinkPart<KeySink>>(&mut sink, alloc, text, grammar);
    match read {
        Ok(_) => {
            if sink.finish().is_err() {
                *buf = sink.take_back();
                return Err(Error::OutOfMemory);
            }
            *buf = sink.into_buffer();
            Ok(())
        }
        Err(reported) => {
            *buf = sink.take_back();
            match reported {
                Some(error) => Err(error),
                None => append_sort_key_of_value(alloc, text, grammar, buf),
            }
        }
    }
}

// Writes the serialized form of a text's value to a sink in which nothing is written yet. After an error its buffer is as
// before.
pub(super) fn write_form<'a>(
    sink: &mut TextSink<'a>,
    alloc: Global,
    text: &'a [u8],
    grammar: Grammar,
) -> Result<()>
    requires holds { TextHolds text.now sink.old true [] [] }
    ensures appends { OnOk result (AppendsTextOf (grammar_of grammar) text.now (base_of sink.old) sink.new.written.out.items) }
    ensures preserves { OnErr result (sink.new.written.out.items ≡ base_of sink.old) }
    ensures rejects { Rejects (grammar_of grammar) text.now result }
    ensures follows { FailsAsSpecified (grammar_of grammar) text.now result }
{
    match parse_text::<SinkPart<TextSink>>(sink, alloc, text, grammar) {
        Ok(_) => {
            if sink.finish().is_err() {
                sink.undo();
                return Err(Error::OutOfMemory);
            }
            Ok(())
        }
        Err(reported) => {
            sink.undo();
            match reported {
                Some(error) => Err(error),
                None => write_form_of_value(sink, alloc, text, grammar),
            }
        }
    }
}

// Writes it to the buffer of a sink, from a value that is made first.
#[cold]
#[inline(never)]
pub(super) fn write_form_of_value(
    sink: &mut TextSink<'_>,
    alloc: Global,
    text: &[u8],
    grammar: Grammar,
) -> Result<()>
    ensures appends { AppendsParsed (AppendsTextOf (grammar_of grammar) text.now)
        (LacksCapacityForText (grammar_of grammar) text.now) text.now result sink.old.written.out sink.new.written.out }
    ensures rejects { Rejects (grammar_of grammar) text.now result }
    ensures follows { FailsAsSpecified (grammar_of grammar) text.now result }
{
    let written = &mut sink.written;
    append_text_of_value(alloc, text, grammar, &mut written.out)
}

// Appends the serialized form of a text's value, which is made first. Scalars without escapes go this way, of which it
// takes no memory but the space that `buf` lacks. So do texts where an object holds most of the text at many levels,
// and its members are out of order at each: there it takes less time.
#[cold]
#[inline(never)]
fn append_text_of_value(
    alloc: Global,
    text: &[u8],
    grammar: Grammar,
    buf: &mut Vec<u8>,
) -> Result<()>
    ensures appends { AppendsParsed (AppendsTextOf (grammar_of grammar) text.now)
        (LacksCapacityForText (grammar_of grammar) text.now) text.now result buf.old buf.new }
    ensures rejects { Rejects (grammar_of grammar) text.now result }
    ensures follows { FailsAsSpecified (grammar_of grammar) text.now result }
{
    let value = parse_value_in(alloc, text, grammar)?;
    let written = value.write_text(buf);
    value.dismantle();
    match written {
        Ok(()) => Ok(()),
        Err(_) => Err(Error::OutOfMemory),
    }
}

// Appends the sort key of a text's value, which is made first. Scalars without escapes go this way, of which it takes
// no memory but the space that `buf` lacks. So do texts where an object holds most of the text at many levels, and its
// members are out of order at each: there it takes less time.
#[cold]
#[inline(never)]
fn append_sort_key_of_value(
    alloc: Global,
    text: &[u8],
    grammar: Grammar,
    buf: &mut Vec<u8>,
) -> Result<()>
    ensures appends { AppendsParsed (AppendsKeyOf (grammar_of grammar) text.now)
        (LacksCapacityForKey (grammar_of grammar) text.now) text.now result buf.old buf.new }
    ensures rejects { Rejects (grammar_of grammar) text.now result }
    ensures follows { FailsAsSpecified (grammar_of grammar) text.now result }
{
    let value = parse_value_in(alloc, text, grammar)?;
    let written = value.write_sort_key(buf);
    value.dismantle();
    match written {
        Ok(()) => Ok(()),
        Err(_) => Err(Error::OutOfMemory),
    }
}
