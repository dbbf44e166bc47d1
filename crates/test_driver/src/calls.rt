//! The calls over values and trees that allocate, on a text: a letter for the mode, a space, and the text in
//! hexadecimal. Each call has a line of its own: its name, a space, and the text of its answer or what is printed of the
//! error.

use crate::answer::mode_of;
use jsonb::{Error, Grammar, JsonAst, Result, Value};
use std::alloc::Global;
use std::borrow::CowStr;
use std::io;
use std::io::Write;
use text_pretty::write_text_indented;

/// Writes a line with what a call answered.
pub fn say<W: Write>(out: &mut W, name: &str, answer: Result<Vec<u8>>) -> io::Result<()> {
    put_line(out, name, &answer)
}

fn put_line<W: Write>(out: &mut W, name: &str, answer: &Result<Vec<u8>>) -> io::Result<()> {
    write!(out, "{name} ")?;
    match answer {
        Ok(text) => out.write_all(text)?,
        Err(e) => write!(out, "{e}")?,
    }
    out.write_all(b"\n")
}

/// Writes a line for each call on the text that the line holds.
///
/// # Errors
///
/// A line of another form is `InvalidInput`, and so is one for which there is no memory.
pub fn report<W: Write>(alloc: Global, line: &str, out: &mut W) -> io::Result<()> {
    let Some((letter, text)) = line.split_once(' ') else {
        return Err(io::Error::from(io::ErrorKind::InvalidInput));
    };
    let (Some(mode), Ok(text)) = (mode_of(letter), hex::decode(alloc, text)) else {
        return Err(io::Error::from(io::ErrorKind::InvalidInput));
    };
    report_text(alloc, mode, &text, out)
}

// Writes a line for each call on the text.
fn report_text<W: Write>(alloc: Global, mode: Grammar, text: &[u8], out: &mut W) -> io::Result<()> {
    say(out, "reads", reads(alloc, mode, text))?;
    say(out, "value", value(alloc, mode, text))?;
    say(out, "tree", tree(alloc, mode, text))?;
    say(out, "clone", clone(alloc, mode, text))?;
    say(out, "owned", text_of_owned(alloc, mode, text))?;
    say(out, "tree_clone", tree_clone(alloc, mode, text))?;
    say(out, "key", key(alloc, mode, text))?;
    say(out, "indented", indented_text(alloc, mode, text))?;
    say(out, "keys", keys(alloc, mode, text))?;
    say(out, "without_room", without_capacity(alloc, mode, text))?;
    say(out, "with_room", with_capacity(alloc, mode, text))?;
    say(out, "body", body(alloc, text))
}

fn read(alloc: Global, mode: Grammar, text: &[u8]) -> Result<Value<'_>> {
    jsonb::parse_value_in(alloc, text, mode)
}

fn text_of(alloc: Global, value: &Value) -> Result<Vec<u8>> {
    let mut text = Vec::new(alloc);
    value.write_text(&mut text)?;
    Ok(text)
}

// Nothing but reading.
fn reads(alloc: Global, mode: Grammar, text: &[u8]) -> Result<Vec<u8>> {
    read(alloc, mode, text)?;
    Ok(Vec::new(alloc))
}

fn value(alloc: Global, mode: Grammar, text: &[u8]) -> Result<Vec<u8>> {
    text_of(alloc, &read(alloc, mode, text)?)
}

fn tree(alloc: Global, mode: Grammar, text: &[u8]) -> Result<Vec<u8>> {
    text_of(
        alloc,
        &JsonAst::parse_in(alloc, text, mode)?.into_value(alloc)?,
    )
}

fn clone(alloc: Global, mode: Grammar, text: &[u8]) -> Result<Vec<u8>> {
    text_of(alloc, &read(alloc, mode, text)?.clone()?)
}

fn text_of_owned(alloc: Global, mode: Grammar, text: &[u8]) -> Result<Vec<u8>> {
    text_of(alloc, &read(alloc, mode, text)?.to_owned_value(alloc)?)
}

fn tree_clone(alloc: Global, mode: Grammar, text: &[u8]) -> Result<Vec<u8>> {
    let tree = JsonAst::parse_in(alloc, text, mode)?.clone()?;
    text_of(alloc, &tree.into_value(alloc)?)
}

// The sort key, in hexadecimal.
fn key(alloc: Global, mode: Grammar, text: &[u8]) -> Result<Vec<u8>> {
    let mut key = Vec::new(alloc);
    read(alloc, mode, text)?.write_sort_key(&mut key)?;
    let key = hex::encode(alloc, &key[..])?;
    Ok(Vec::from_slice(alloc, key.as_bytes())?)
}

// The bytes, or the error. Then the buffer holds what it held.
fn bytes_or_error(alloc: Global, done: Result<()>, buffer: Vec<u8>) -> Result<Vec<u8>> {
    match done {
        Err(_) if &buffer[..] != b"x".as_slice() => Ok(Vec::from_slice(
            alloc,
            b"the buffer has changed",
        )?),
        Err(e) => Err(e),
        Ok(()) => Ok(buffer),
    }
}

// The text over lines, behind what the buffer held, in hexadecimal.
fn indented_text(alloc: Global, mode: Grammar, text: &[u8]) -> Result<Vec<u8>> {
    let value = read(alloc, mode, text)?;
    let mut buffer = Vec::from_slice(alloc, b"x")?;
    let done = write_text_indented(&value, 1, &mut buffer);
    let lines = bytes_or_error(alloc, done, buffer)?;
    let lines = hex::encode(alloc, &lines[..])?;
    Ok(Vec::from_slice(alloc, lines.as_bytes())?)
}

fn keys(alloc: Global, mode: Grammar, text: &[u8]) -> Result<Vec<u8>> {
    match read(alloc, mode, text)?.object_keys(alloc)? {
        Some(keys) => text_of(alloc, &keys),
        None => Ok(Vec::from_slice(alloc, b"no object")?),
    }
}

// The buffer holds what it held, where the text found no space.
fn without_capacity(alloc: Global, mode: Grammar, text: &[u8]) -> Result<Vec<u8>> {
    let value = read(alloc, mode, text)?;
    let mut buffer = Vec::from_slice(alloc, b"x")?;
    let done = value.write_text(&mut buffer);
    bytes_or_error(alloc, done, buffer)
}

// Where there is space, no memory is asked for.
fn with_capacity(alloc: Global, mode: Grammar, text: &[u8]) -> Result<Vec<u8>> {
    let value = read(alloc, mode, text)?;
    let length = text_of(alloc, &value)?.len();
    let mut buffer = Vec::with_capacity(alloc, length)?;
    match value.write_text(&mut buffer) {
        Ok(()) => Ok(buffer),
        Err(_) => Ok(Vec::from_slice(alloc, b"failed where there is room")?),
    }
}

// The text as the body of a string. The index is left where memory is wanting.
fn body(alloc: Global, text: &[u8]) -> Result<Vec<u8>> {
    let mut idx = 0;
    match jsonb::parse_string(alloc, text, text.len(), &mut idx) {
        Ok(decoded) => text_of(alloc, &Value::String(CowStr::Owned(decoded))),
        Err(Error::OutOfMemory) if idx != 0 => {
            Ok(Vec::from_slice(alloc, b"the index has moved")?)
        }
        Err(e) => Err(e),
    }
}
