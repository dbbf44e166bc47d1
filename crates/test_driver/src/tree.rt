//! A parsed tree, without whitespace: `null`, `true`, `false`; a number as its variant, scale and integer, `Int64(-5)`,
//! `Decimal64(2,150)`; a string as `plain:` or `escaped:` (borrowed or owned) and its bytes in hexadecimal;
//! `[item,item]`; `{key@index=value,key@index=value}`, each key as a string, with its member's index.

use jsonb::{JsonAst, Number};
use std::alloc::{AllocError, Global};
use std::borrow::CowStr;

pub fn describe(alloc: Global, ast: &JsonAst<'_>) -> Result<String, AllocError> {
    let mut out = String::new(alloc);
    put(alloc, &mut out, ast)?;
    Ok(out)
}

#[cycle(put)]
fn put(alloc: Global, out: &mut String, ast: &JsonAst<'_>) -> Result<(), AllocError> {
    match ast {
        JsonAst::Null => out.push_str("null"),
        JsonAst::Bool(true) => out.push_str("true"),
        JsonAst::Bool(false) => out.push_str("false"),
        JsonAst::String(text) => put_text(alloc, out, text),
        JsonAst::Number(number) => put_number(out, number),
        JsonAst::Array(items) => put_items(alloc, out, items),
        JsonAst::Object(members) => put_members(alloc, out, members),
    }
}

/// Puts the number's variant, scale and integer.
pub fn put_number(out: &mut String, number: &Number) -> Result<(), AllocError> {
    match number {
        Number::Int64(n) => write!(out, "Int64({n})"),
        Number::UInt64(n) => write!(out, "UInt64({n})"),
        Number::Decimal64(d) => write!(out, "Decimal64({},{})", d.scale, d.value),
        Number::Decimal128(d) => write!(out, "Decimal128({},{})", d.scale, d.value),
    }
}

fn put_text(alloc: Global, out: &mut String, text: &CowStr<'_>) -> Result<(), AllocError> {
    let mark = match text {
        CowStr::Borrowed(_) => "plain",
        CowStr::Owned(_) => "escaped",
    };
    let digits = hex::encode(alloc, text.as_bytes())?;
    write!(out, "{mark}:{digits}")
}

#[cycle(put)]
fn put_items(alloc: Global, out: &mut String, items: &[JsonAst<'_>]) -> Result<(), AllocError> {
    out.push('[')?;
    for (i, item) in items.iter().enumerate() {
        if i > 0 {
            out.push(',')?;
        }
        put(alloc, out, item)?;
    }
    out.push(']')
}

#[cycle(put)]
fn put_members(
    alloc: Global,
    out: &mut String,
    members: &[(CowStr<'_>, JsonAst<'_>, usize)],
) -> Result<(), AllocError> {
    out.push('{')?;
    for (i, (key, value, index)) in members.iter().enumerate() {
        if i > 0 {
            out.push(',')?;
        }
        put_text(alloc, out, key)?;
        write!(out, "@{index}=")?;
        put(alloc, out, value)?;
    }
    out.push('}')
}
