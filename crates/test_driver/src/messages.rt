//! The calls that return a message, clones of errors, and the texts of an interval.

use crate::calls::say;
use jsonb::{
    Decimal64, Decimal128, Error, ExtensionValue, Interval, Number, ParseErrorCode, Result, Value,
};
use std::alloc::Global;
use std::io;
use std::io::Write;

/// Writes a line for each message of arithmetic, for clones of errors, and for each text of an interval.
pub fn report<W: Write>(alloc: Global, out: &mut W) -> io::Result<()> {
    report_integers(alloc, out)?;
    report_decimals(alloc, out)?;
    say(out, "code_clone", code_clone(alloc))?;
    say(out, "message_clone", message_clone(alloc))?;
    say(out, "interval", interval_value(alloc))?;
    say(out, "interval_alone", interval_alone(alloc))
}

// The messages of arithmetic on integers.
fn report_integers<W: Write>(alloc: Global, out: &mut W) -> io::Result<()> {
    let least = Number::Int64(i64::MIN);
    let greatest = Number::UInt64(u64::MAX);
    say(
        out,
        "add",
        message_of(alloc, greatest.add(alloc, Number::UInt64(1))),
    )?;
    say(
        out,
        "sub",
        message_of(alloc, greatest.sub(alloc, Number::UInt64(0))),
    )?;
    say(
        out,
        "mul",
        message_of(alloc, least.mul(alloc, Number::Int64(2))),
    )?;
    say(
        out,
        "rem",
        message_of(alloc, least.rem(alloc, Number::Int64(-1))),
    )?;
    say(
        out,
        "rem_zero",
        message_of(alloc, greatest.rem(alloc, Number::UInt64(0))),
    )?;
    say(out, "neg", message_of(alloc, least.neg(alloc)))
}

// The messages of arithmetic on decimals.
fn report_decimals<W: Write>(alloc: Global, out: &mut W) -> io::Result<()> {
    let short = Number::Decimal64(Decimal64 {
        scale: 1,
        value: i64::MIN,
    });
    say(out, "neg_decimal64", message_of(alloc, short.neg(alloc)))?;
    let long = Number::Decimal128(Decimal128 {
        scale: 1,
        value: i128::MIN,
    });
    say(out, "neg_decimal128", message_of(alloc, long.neg(alloc)))
}

// A number as its text.
fn message_of(alloc: Global, answer: Result<Number>) -> Result<Vec<u8>> {
    let mut text = Vec::new(alloc);
    Value::Number(answer?).write_text(&mut text)?;
    Ok(text)
}

// What is printed of an error.
fn text_of(alloc: Global, error: &Error) -> Result<Vec<u8>> {
    let text = format!(in alloc; "{error}")?;
    Ok(Vec::from_slice(alloc, text.as_bytes())?)
}

fn code_clone(alloc: Global) -> Result<Vec<u8>> {
    let key = String::from_str(alloc, "key")?;
    let code = ParseErrorCode::ObjectDuplicateKey(key);
    text_of(alloc, &Error::Syntax(code.clone()?, 7))
}

fn message_clone(alloc: Global) -> Result<Vec<u8>> {
    let error = Error::Message(String::from_str(alloc, "message")?);
    text_of(alloc, &error.clone()?)
}

// An interval whose text has each part.
const INTERVAL: Interval = Interval {
    months: 14,
    days: -1,
    micros: 3_661_000_001,
};

fn interval_value(alloc: Global) -> Result<Vec<u8>> {
    let mut text = Vec::new(alloc);
    Value::Interval(INTERVAL).write_text(&mut text)?;
    Ok(text)
}

// The text of an interval with no `Value` around it, and so without quotes.
fn interval_alone(alloc: Global) -> Result<Vec<u8>> {
    let mut text = Vec::new(alloc);
    ExtensionValue::Interval(INTERVAL).write_text(&mut text)?;
    Ok(text)
}
