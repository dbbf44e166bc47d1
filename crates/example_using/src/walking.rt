//! Taking a value apart.

use jsonb::{Object, Result, Value};
use std::alloc::Global;

/// The port in settings such as `{"port":8080}`, if there is one.
pub fn port(settings: &Value) -> Option<u16> {
    let number = settings.get_by_name("port")?.as_u64()?;
    u16::try_from(number).ok()
}

/// The name of a value's kind.
pub fn kind(value: &Value) -> &'static str {
    match value {
        Value::Null => "null",
        Value::Bool(_) => "boolean",
        Value::Number(_) => "number",
        Value::String(_) => "string",
        Value::Array(_) => "array",
        Value::Object(_) => "object",
        Value::Binary(_)
        | Value::Date(_)
        | Value::Timestamp(_)
        | Value::TimestampTz(_)
        | Value::Interval(_) => "beyond JSON",
    }
}

/// The items of all arrays in turn. A value that is no array is an item itself.
pub fn flatten<'a>(alloc: Global, values: Vec<Value<'a>>) -> Result<Vec<Value<'a>>> {
    let mut all = Vec::new(alloc);
    for value in values {
        match value.into_array() {
            Ok(items) => all.extend(items)?,
            Err(value) => all.push(value)?,
        }
    }
    Ok(all)
}

/// A line for each member, in the order of the keys: the key and the kind of its value.
pub fn list_members(alloc: Global, members: &Object) -> Result<String> {
    let mut out = String::new(alloc);
    for (key, value) in members.iter() {
        let name = kind(value);
        writeln!(out, "{key}: {name}")?;
    }
    Ok(out)
}

/// How many strings the value holds, keys not among them.
#[cycle(count_strings)]
pub fn count_strings<'a>(value: &Value<'a>) -> usize {
    match value {
        Value::String(_) => 1,
        Value::Array(items) => count_in_items(items),
        Value::Object(members) => count_in_members(members),
        _ => 0,
    }
}

#[cycle(count_strings)]
fn count_in_items<'a>(items: &Vec<Value<'a>>) -> usize {
    let mut count = 0usize;
    for item in items {
        count = count.saturating_add(count_strings(item));
    }
    count
}

#[cycle(count_strings)]
fn count_in_members<'a>(members: &Object<'a>) -> usize {
    let mut count = 0usize;
    for (_, value) in members.iter() {
        count = count.saturating_add(count_strings(value));
    }
    count
}
