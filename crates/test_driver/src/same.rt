//! Whether two values are the same, where equality alone would pass other marks and other variants of numbers.

use jsonb::{Number, Object, Value};
use std::borrow::CowStr;

// Whether the two are one JSON value, whose strings are borrowed in both or in neither.
#[cycle(are_same)]
pub fn are_same<'a>(left: &Value<'a>, right: &Value<'a>) -> bool {
    match (left, right) {
        (Value::Null, Value::Null) => true,
        (Value::Bool(a), Value::Bool(b)) => a == b,
        (Value::String(a), Value::String(b)) => are_same_strings(a, b),
        (Value::Number(a), Value::Number(b)) => are_same_numbers(a, b),
        (Value::Array(a), Value::Array(b)) => are_same_items(a, b),
        (Value::Object(a), Value::Object(b)) => are_same_members(a, b),
        _ => false,
    }
}

#[cycle(are_same)]
fn are_same_items<'a>(left: &Vec<Value<'a>>, right: &Vec<Value<'a>>) -> bool {
    let mut others = right.iter();
    for item in left {
        let Some(other) = others.next() else {
            return false;
        };
        if !are_same(item, other) {
            return false;
        }
    }
    others.next().is_none()
}

// Keys are owned in every value, and have no marks.
#[cycle(are_same)]
fn are_same_members<'a>(left: &Object<'a>, right: &Object<'a>) -> bool {
    let mut others = right.iter();
    for (key, value) in left.iter() {
        let Some((other_key, other)) = others.next() else {
            return false;
        };
        if key != other_key || !are_same(value, other) {
            return false;
        }
    }
    others.next().is_none()
}

// Whether the two are one text, borrowed in both or in neither.
fn are_same_strings(left: &CowStr, right: &CowStr) -> bool {
    match (left, right) {
        (CowStr::Borrowed(a), CowStr::Borrowed(b)) => a == b,
        (CowStr::Owned(a), CowStr::Owned(b)) => a == b,
        _ => false,
    }
}

// Whether the two are one variant, with one scale and integer.
fn are_same_numbers(left: &Number, right: &Number) -> bool {
    match left {
        Number::Int64(m) => matches!(right, Number::Int64(n) if m == n),
        Number::UInt64(m) => matches!(right, Number::UInt64(n) if m == n),
        Number::Decimal64(m) => {
            matches!(right, Number::Decimal64(n) if m.scale == n.scale && m.value == n.value)
        }
        Number::Decimal128(m) => {
            matches!(right, Number::Decimal128(n) if m.scale == n.scale && m.value == n.value)
        }
    }
}
