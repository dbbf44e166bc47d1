//! The result of one line: a letter, and texts in hexadecimal or numbers, with one space before each part, also where
//! that part is empty. The letter is `s` for standard and `e` for extended mode, `j` for JSON and `x` for extended JSON,
//! `k` for a sort key, `b` for the contents of a string, and `n` for numbers.
//!
//! | line | result |
//! |---|---|
//! | one text, which is accepted | `ok`, its tree, its serialized form in hexadecimal, and `same` or `differs` |
//! | one text, which is rejected | `no` and the printed error, in hexadecimal; and `differs` where the value of the text, or a text that is checked or appended straight, is rejected otherwise, or the buffer changes |
//! | two texts, which are accepted | `less`, `equal` or `greater`; `differs` where their sort keys compare otherwise |
//! | a text for its key | `ok`, the sort key in hexadecimal, and `differs` where the text of the key has another value, or where the key that is appended straight is another; or `no` as above |
//! | contents | `ok` and their text in hexadecimal, or `no` as above; and the offset that `parse_string` leaves |
//! | one number | its text, `as_i128`, `as_i64`, `as_u64`, `to_i128`, `to_i64`, `to_u64`, `neg`, and its sort key |
//! | two numbers | their order, their sum, difference, product and remainder |
//! | any other | `unknown` |
//!
//! A cast that returns no number is `none`. An error of arithmetic is `no:` and the printed error, in hexadecimal.
//!
//! It is `same` where the parsed value is that of the tree, with the same variants of numbers and the same strings
//! borrowed, where its serialized form is parsed as an equal value with that serialized form, and where the serialized
//! form and the sort key that are appended straight from the text are those of the value. The text is checked alone,
//! too.

use crate::same::are_same;
use crate::{numbers, straight, tree};
use jsonb::{Error, Grammar, JsonAst, Value};
use key_text::write_text_of_key;
use std::alloc::{AllocError, Global};
use std::cmp::Ordering;

/// The answer, without a line feed.
pub fn answer(alloc: Global, line: &str) -> Result<String, AllocError> {
    let Some((letter, texts)) = line.split_once(' ') else {
        return unknown(alloc);
    };
    if let Some(mode) = mode_of(letter) {
        return of_texts(alloc, mode, texts);
    }
    match letter {
        "k" => of_key(alloc, texts),
        "b" => of_body(alloc, texts),
        "n" => match numbers::answer(alloc, texts)? {
            Some(answer) => Ok(answer),
            None => unknown(alloc),
        },
        _ => unknown(alloc),
    }
}

/// The mode that a letter stands for.
pub fn mode_of(letter: &str) -> Option<Grammar> {
    match letter {
        "s" => Some(Grammar::Standard),
        "e" => Some(Grammar::Extended),
        "j" => Some(Grammar::Json),
        "x" => Some(Grammar::ExtendedJson),
        _ => None,
    }
}

fn unknown(alloc: Global) -> Result<String, AllocError> {
    String::from_str(alloc, "unknown")
}

fn of_texts(alloc: Global, mode: Grammar, texts: &str) -> Result<String, AllocError> {
    match texts.split_once(' ') {
        None => one_text(alloc, mode, texts),
        Some((left, right)) => two_texts(alloc, mode, left, right),
    }
}

fn of_key(alloc: Global, text: &str) -> Result<String, AllocError> {
    let Ok(text) = hex::decode(alloc, text) else {
        return unknown(alloc);
    };
    match sort_key(alloc, &text) {
        Ok((key, agrees)) => {
            let key = hex::encode(alloc, &key[..])?;
            let difference = if agrees { "" } else { " differs" };
            format!(in alloc; "ok {key}{difference}")
        }
        Err(e) => rejection(alloc, &e),
    }
}

// The sort key of a text's value, and whether the text of the key has an equal value, and the key that is appended
// straight is the same.
fn sort_key(alloc: Global, text: &[u8]) -> jsonb::Result<(Vec<u8>, bool)> {
    let value = jsonb::parse_value(alloc, text)?;
    let key = key_of_value(alloc, &value)?;
    let agrees = has_text(alloc, &key, text)?
        && straight::gives_key(alloc, Grammar::Extended, text, &key)?;
    Ok((key, agrees))
}

fn key_of_value(alloc: Global, value: &Value<'_>) -> jsonb::Result<Vec<u8>> {
    let mut key = Vec::new(alloc);
    value.write_sort_key(&mut key)?;
    Ok(key)
}

// Whether the text of the key has a value that is equal to the one of this text.
fn has_text(alloc: Global, key: &[u8], text: &[u8]) -> jsonb::Result<bool> {
    let mut written = Vec::new(alloc);
    if write_text_of_key(key, &mut written).is_err() {
        return Ok(false);
    }
    let order = order_of_values(alloc, Grammar::Extended, &written, text)?;
    Ok(order == Ordering::Equal)
}

fn of_body(alloc: Global, body: &str) -> Result<String, AllocError> {
    let Ok(body) = hex::decode(alloc, body) else {
        return unknown(alloc);
    };
    let mut idx = 0;
    let answer = match jsonb::parse_string(alloc, &body, body.len(), &mut idx) {
        Ok(text) => {
            let text = hex::encode(alloc, text.as_bytes())?;
            format!(in alloc; "ok {text}")?
        }
        Err(e) => rejection(alloc, &e)?,
    };
    format!(in alloc; "{answer} {idx}")
}

fn rejection(alloc: Global, e: &Error) -> Result<String, AllocError> {
    let printed = format!(in alloc; "{e}")?;
    let printed = hex::encode(alloc, printed.as_bytes())?;
    format!(in alloc; "no {printed}")
}

fn one_text(alloc: Global, mode: Grammar, text: &str) -> Result<String, AllocError> {
    let Ok(text) = hex::decode(alloc, text) else {
        return unknown(alloc);
    };
    match describe(alloc, mode, &text) {
        Ok(answer) => Ok(answer),
        Err(e) => {
            let answer = rejection(alloc, &e)?;
            let rejects = value_is_rejected(alloc, mode, &text, &e)
                && straight::rejects(alloc, mode, &text, &e)?;
            let difference = if rejects { "" } else { " differs" };
            format!(in alloc; "{answer}{difference}")
        }
    }
}

// Whether the parser of values fails with this error, which that of trees had.
fn value_is_rejected(alloc: Global, mode: Grammar, text: &[u8], error: &Error) -> bool {
    match read(alloc, mode, text) {
        Ok(_) => false,
        Err(e) => e == *error,
    }
}

fn two_texts(alloc: Global, mode: Grammar, left: &str, right: &str) -> Result<String, AllocError> {
    let (Ok(left), Ok(right)) = (hex::decode(alloc, left), hex::decode(alloc, right)) else {
        return unknown(alloc);
    };
    let word = match order(alloc, mode, &left, &right) {
        Ok(Some(Ordering::Less)) => "less",
        Ok(Some(Ordering::Equal)) => "equal",
        Ok(Some(Ordering::Greater)) => "greater",
        Ok(None) => "differs",
        Err(_) => "unknown",
    };
    String::from_str(alloc, word)
}

fn read(alloc: Global, mode: Grammar, text: &[u8]) -> jsonb::Result<Value<'_>> {
    jsonb::parse_value_in(alloc, text, mode)
}

// The order of two texts' values, or `None` where that of their sort keys is another.
fn order(
    alloc: Global,
    mode: Grammar,
    left: &[u8],
    right: &[u8],
) -> jsonb::Result<Option<Ordering>> {
    let order = order_of_values(alloc, mode, left, right)?;
    let first = straight::key(alloc, mode, left)?;
    let second = straight::key(alloc, mode, right)?;
    Ok(if first[..].cmp(&second[..]) == order {
        Some(order)
    } else {
        None
    })
}

fn order_of_values(
    alloc: Global,
    mode: Grammar,
    left: &[u8],
    right: &[u8],
) -> jsonb::Result<Ordering> {
    let left = read(alloc, mode, left)?;
    let right = read(alloc, mode, right)?;
    Ok(left.cmp(&right))
}

// The answer to a text that is read.
fn describe(alloc: Global, mode: Grammar, text: &[u8]) -> jsonb::Result<String> {
    let tree = tree_of(alloc, mode, text)?;
    let form = form_of(alloc, mode, text)?;
    Ok(format!(in alloc; "ok {tree} {form}")?)
}

fn tree_of(alloc: Global, mode: Grammar, text: &[u8]) -> jsonb::Result<String> {
    let tree = JsonAst::parse_in(alloc, text, mode)?;
    Ok(tree::describe(alloc, &tree)?)
}

// The serialized form, and whether all agrees with it.
fn form_of(alloc: Global, mode: Grammar, text: &[u8]) -> jsonb::Result<String> {
    let written = text_of(alloc, mode, text)?;
    let word = if agree(alloc, mode, text, &written)? {
        "same"
    } else {
        "differs"
    };
    let digits = hex::encode(alloc, &written[..])?;
    Ok(format!(in alloc; "{digits} {word}")?)
}

fn text_of(alloc: Global, mode: Grammar, text: &[u8]) -> jsonb::Result<Vec<u8>> {
    text_of_value(alloc, &read(alloc, mode, text)?)
}

fn text_of_value(alloc: Global, value: &Value<'_>) -> jsonb::Result<Vec<u8>> {
    let mut written = Vec::new(alloc);
    value.write_text(&mut written)?;
    Ok(written)
}

// Whether the value is that of the tree, what its text reads back as is equal to it, and the text is written again.
fn agree<'a>(
    alloc: Global,
    mode: Grammar,
    text: &'a [u8],
    written: &'a [u8],
) -> jsonb::Result<bool> {
    let value = read(alloc, mode, text)?;
    Ok(
        is_of_tree(alloc, mode, text, &value)?
            && is_read_back(alloc, mode, written, &value)?
            && straight::gives_text(alloc, mode, text, written)?
            && straight_key_agrees(alloc, mode, text, &value)?,
    )
}

// Whether the value is that of the tree.
fn is_of_tree<'a>(
    alloc: Global,
    mode: Grammar,
    text: &'a [u8],
    value: &Value<'a>,
) -> jsonb::Result<bool> {
    let converted = JsonAst::parse_in(alloc, text, mode)?.into_value(alloc)?;
    Ok(are_same(&converted, value))
}

// Whether the serialized form is read as an equal value, and written again.
fn is_read_back<'a>(
    alloc: Global,
    mode: Grammar,
    written: &'a [u8],
    value: &Value<'a>,
) -> jsonb::Result<bool> {
    let again = read(alloc, mode, written)?;
    Ok(again == *value && text_of_value(alloc, &again)?.as_slice() == written)
}

// Whether the key that is appended straight is the value's.
fn straight_key_agrees(
    alloc: Global,
    mode: Grammar,
    text: &[u8],
    value: &Value<'_>,
) -> jsonb::Result<bool> {
    let key = key_of_value(alloc, value)?;
    straight::gives_key(alloc, mode, text, &key)
}
