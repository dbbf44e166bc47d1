//! The result of one number or two, each written as in a tree: `Int64(-5)`, `Decimal64(2,150)`.

use crate::tree;
use jsonb::{Decimal64, Decimal128, Error, Number, Result as NumberResult, Value};
use std::alloc::{AllocError, Global};
use std::cmp::Ordering;

/// The answer, or `None` where a word is no number.
pub fn answer(alloc: Global, words: &str) -> Result<Option<String>, AllocError> {
    match words.split_once(' ') {
        None => match number(words) {
            Some(number) => Ok(Some(of_one(alloc, number)?)),
            None => Ok(None),
        },
        Some((left, right)) => match (number(left), number(right)) {
            (Some(left), Some(right)) => Ok(Some(of_two(alloc, left, right)?)),
            _ => Ok(None),
        },
    }
}

fn number(word: &str) -> Option<Number> {
    let (variant, parts) = word.strip_suffix(')')?.split_once('(')?;
    match variant {
        "Int64" => Some(Number::Int64(parts.parse().ok()?)),
        "UInt64" => Some(Number::UInt64(parts.parse().ok()?)),
        "Decimal64" => {
            let (scale, value) = parts.split_once(',')?;
            let (scale, value) = (scale.parse().ok()?, value.parse().ok()?);
            Some(Number::Decimal64(Decimal64 { scale, value }))
        }
        "Decimal128" => {
            let (scale, value) = parts.split_once(',')?;
            let (scale, value) = (scale.parse().ok()?, value.parse().ok()?);
            Some(Number::Decimal128(Decimal128 { scale, value }))
        }
        _ => None,
    }
}

// Its text, its exact and its rounded casts, its opposite and its sort key.
fn of_one(alloc: Global, number: Number) -> Result<String, AllocError> {
    let mut out = format!(in alloc; "{number}")?;
    put_casts(&mut out, &number)?;
    put_result(alloc, &mut out, number.neg(alloc))?;
    put_key(alloc, &mut out, number)?;
    Ok(out)
}

fn put_casts(out: &mut String, number: &Number) -> Result<(), AllocError> {
    put_cast(out, number.as_i128())?;
    put_cast(out, number.as_i64().map(i128::from))?;
    put_cast(out, number.as_u64().map(i128::from))?;
    put_cast(out, number.to_i128())?;
    put_cast(out, number.to_i64().map(i128::from))?;
    put_cast(out, number.to_u64().map(i128::from))
}

// Puts the sort key in hexadecimal.
fn put_key(alloc: Global, out: &mut String, number: Number) -> Result<(), AllocError> {
    let mut key = Vec::new(alloc);
    if Value::Number(number).write_sort_key(&mut key).is_err() {
        return Err(AllocError);
    }
    let key = hex::encode(alloc, &key[..])?;
    write!(out, " {key}")
}

// Their order, and what the four operations answer.
fn of_two(alloc: Global, left: Number, right: Number) -> Result<String, AllocError> {
    let order = match left.cmp(&right) {
        Ordering::Less => "less",
        Ordering::Equal => "equal",
        Ordering::Greater => "greater",
    };
    let mut out = String::from_str(alloc, order)?;
    put_results(alloc, &mut out, left, right)?;
    Ok(out)
}

// Puts what the four operations answer.
fn put_results(
    alloc: Global,
    out: &mut String,
    left: Number,
    right: Number,
) -> Result<(), AllocError> {
    put_result(alloc, out, left.add(alloc, right.clone()?))?;
    put_result(alloc, out, left.sub(alloc, right.clone()?))?;
    put_result(alloc, out, left.mul(alloc, right.clone()?))?;
    put_result(alloc, out, left.rem(alloc, right))
}

fn put_cast(out: &mut String, cast: Option<i128>) -> Result<(), AllocError> {
    match cast {
        Some(n) => write!(out, " {n}"),
        None => out.push_str(" none"),
    }
}

// A number as in a tree, or what is printed of the error in hexadecimal.
fn put_result(
    alloc: Global,
    out: &mut String,
    answer: NumberResult<Number>,
) -> Result<(), AllocError> {
    out.push(' ')?;
    match answer {
        Ok(number) => tree::put_number(out, &number),
        Err(e) => put_error(alloc, out, &e),
    }
}

fn put_error(alloc: Global, out: &mut String, e: &Error) -> Result<(), AllocError> {
    let printed = format!(in alloc; "{e}")?;
    let printed = hex::encode(alloc, printed.as_bytes())?;
    write!(out, "no:{printed}")
}
