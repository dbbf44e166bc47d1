//! The text of one part of a document, with no value made of the document.
ghost use Rattle.std.specs.Prelude.{◌≡◌, ◌⊎◌, map, string_bytes, vec_len, IfOk, OnErr, Err};
ghost use Rattle.std.specs.Vec.{vec_capacity};
ghost use Rattle.text_scan.specs.Answer.{grammar_of};
ghost use Rattle.jsonb_spec.specs.Parsing.Memory.{MayAllocate};
ghost use Rattle.jsonb_spec.specs.Parsing.Appends.{AppendsPartOf, LacksCapacityForPart};
ghost use Rattle.jsonb.specs.Follows.{FailsAsSpecified};
ghost use Rattle.jsonb.specs.Parses.{Rejects};

use super::handler::SinkPart;
use super::straight::may_allocate;
use super::{Grammar, parse_value_in};
use crate::part::part_at;
use jsonb_core::error::{Error, Result};
use jsonb_value::value::Value;
use std::alloc::Global;
use std::mem;
use text_parse::parse_text;
use text_write::part::PartSink;

/// Parses a whole text, and appends the serialized form of a part of its value: the member with the first key of the
/// path, or the item whose index the key is in decimal digits, in it what the second key leads to, and so on. False
/// where nothing is there; then, and after an error, `buf` has the same bytes as before. No value is made.
///
/// The time is that of [`append_text`], and so is the memory, but for the part.
///
/// ```
/// let path = [String::from_str(rt.alloc(), "b")?, String::from_str(rt.alloc(), "1")?];
/// let mut buf = Vec::new(rt.alloc());
/// jsonb::append_part(rt.alloc(), b"{\"b\": [1, 2.50]}", Grammar::Extended, &path, &mut buf)?; // appends 2.50
/// ```
///
/// # Errors
///
/// Those of [`JsonAst::parse`], and `OutOfMemory` also where `buf` could not grow.
///
/// [`append_text`]: crate::append_text
/// [`JsonAst::parse`]: crate::JsonAst::parse
pub fn append_part(
    alloc: Global,
    text: &[u8],
    grammar: Grammar,
    path: &[String],
    buf: &mut Vec<u8>,
) -> Result<bool>
    // What is appended is the text of the part of the document's one tree.
    ensures ok { IfOk result (AppendsPartOf (grammar_of grammar) text.now (map string_bytes path.now) buf.old.items
        buf.new.items) }
    ensures err { OnErr result (buf.new.items ≡ buf.old.items) }
    // Memory runs out only where the text may take some, or where the space for all that is appended is missing.
    ensures memory { result ≡ Err Error.OutOfMemory → MayAllocate text.now
        ⊎ LacksCapacityForPart (grammar_of grammar) text.now (map string_bytes path.now) (vec_capacity buf.old)
        (vec_len buf.old) }

    // An error is that of the parsers.
    ensures rejects { Rejects (grammar_of grammar) text.now result }
    ensures follows { FailsAsSpecified (grammar_of grammar) text.now result }
{
    if !may_allocate(text) {
        return append_part_of_value(alloc, text, grammar, path, buf);
    }
    let out = mem::replace(buf, Vec::new(alloc));
    let mut sink = PartSink::new(alloc, text, path, out);
    match parse_text::<SinkPart<PartSink>>(&mut sink, alloc, text, grammar) {
        Ok(_) => {
            let found = sink.found;
            *buf = sink.into_buffer();
            Ok(found)
        }
        Err(reported) => {
            *buf = sink.take_back();
            match reported {
                Some(error) => Err(error),
                None => append_part_of_value(alloc, text, grammar, path, buf),
            }
        }
    }
}

// Appends the serialized form of a part of a text's value, which is made first. Scalars without escapes go this way, of
// which it takes no memory but the space that `buf` lacks. So do texts where an object holds most of the text at many
// levels, and its members are out of order at each: there it takes less time.
#[cold]
#[inline(never)]
fn append_part_of_value(
    alloc: Global,
    text: &[u8],
    grammar: Grammar,
    path: &[String],
    buf: &mut Vec<u8>,
) -> Result<bool>
    ensures ok { IfOk result (AppendsPartOf (grammar_of grammar) text.now (map string_bytes path.now) buf.old.items
        buf.new.items) }
    ensures err { OnErr result (buf.new.items ≡ buf.old.items) }
    ensures memory { result ≡ Err Error.OutOfMemory → MayAllocate text.now
        ⊎ LacksCapacityForPart (grammar_of grammar) text.now (map string_bytes path.now) (vec_capacity buf.old)
        (vec_len buf.old) }
    ensures rejects { Rejects (grammar_of grammar) text.now result }
    ensures follows { FailsAsSpecified (grammar_of grammar) text.now result }
{
    let value = parse_value_in(alloc, text, grammar)?;
    let Some(part) = part_at(&value, path) else {
        value.dismantle();
        return Ok(false);
    };
    let written = part.write_text(buf);
    value.dismantle();
    match written {
        Ok(()) => Ok(true),
        Err(_) => Err(Error::OutOfMemory),
    }
}
