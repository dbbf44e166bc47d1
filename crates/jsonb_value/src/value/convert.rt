//! Values of Rust's own types, and of numbers, items and members. None allocates: what owns its memory is moved.

use super::{Object, Value};
use jsonb_core::number::Number;
use std::borrow::CowStr;

impl From<bool> for Value<'_> {
    ghost use Rattle.std.specs.Prelude.{◌≡◌};
    ghost use Rattle.jsonb_spec.specs.Tree.{boolean};
    ghost use Rattle.jsonb_value.specs.View.{view};

    ghost from_gives = { λ truth v. view v ≡ boolean truth };

    fn from(truth: bool) -> Self {
        Value::Bool(truth)
    }
}

impl From<i32> for Value<'_> {
    ghost use Rattle.std.specs.Prelude.{◌≡◌};
    ghost use Rattle.jsonb_spec.specs.Tree.{number, int64};
    ghost use Rattle.jsonb_value.specs.View.{view};

    ghost from_gives = { λ n v. view v ≡ number (record { form = int64; scale = 0; whole = n }) };

    fn from(number: i32) -> Self {
        Value::Number(Number::Int64(i64::from(number)))
    }
}

impl From<u32> for Value<'_> {
    ghost use Rattle.std.specs.Prelude.{◌≡◌, pos};
    ghost use Rattle.jsonb_spec.specs.Tree.{number, uint64};
    ghost use Rattle.jsonb_value.specs.View.{view};

    ghost from_gives = { λ n v. view v ≡ number (record { form = uint64; scale = 0; whole = pos n }) };

    fn from(number: u32) -> Self {
        Value::Number(Number::UInt64(u64::from(number)))
    }
}

impl From<i64> for Value<'_> {
    ghost use Rattle.std.specs.Prelude.{◌≡◌};
    ghost use Rattle.jsonb_spec.specs.Tree.{number, int64};
    ghost use Rattle.jsonb_value.specs.View.{view};

    ghost from_gives = { λ n v. view v ≡ number (record { form = int64; scale = 0; whole = n }) };

    fn from(number: i64) -> Self {
        Value::Number(Number::Int64(number))
    }
}

impl From<u64> for Value<'_> {
    ghost use Rattle.std.specs.Prelude.{◌≡◌, pos};
    ghost use Rattle.jsonb_spec.specs.Tree.{number, uint64};
    ghost use Rattle.jsonb_value.specs.View.{view};

    ghost from_gives = { λ n v. view v ≡ number (record { form = uint64; scale = 0; whole = pos n }) };

    fn from(number: u64) -> Self {
        Value::Number(Number::UInt64(number))
    }
}

impl<'a> From<&'a str> for Value<'a> {
    ghost use Rattle.std.specs.Prelude.{◌≡◌};
    ghost use Rattle.jsonb_spec.specs.Tree.{string, plain};
    ghost use Rattle.jsonb_value.specs.View.{view};

    ghost from_gives = { λ text v. view v ≡ string plain text.now };

    fn from(text: &'a str) -> Self {
        Value::String(CowStr::Borrowed(text))
    }
}

impl From<String> for Value<'_> {
    ghost use Rattle.std.specs.Prelude.{◌≡◌, string_bytes};
    ghost use Rattle.jsonb_spec.specs.Tree.{string, escaped};
    ghost use Rattle.jsonb_value.specs.View.{view};

    ghost from_gives = { λ text v. view v ≡ string escaped (string_bytes text) };

    fn from(text: String) -> Self {
        Value::String(CowStr::Owned(text))
    }
}

impl<'a> From<Vec<Value<'a>>> for Value<'a> {
    ghost use Rattle.std.specs.Prelude.{◌≡◌};
    ghost use Rattle.jsonb_spec.specs.Tree.{array};
    ghost use Rattle.jsonb_value.specs.View.{view, trees_view};

    ghost from_gives = { λ items v. view v ≡ array (trees_view items.items) };

    fn from(items: Vec<Value<'a>>) -> Self {
        Value::Array(items)
    }
}

impl<'a> From<Object<'a>> for Value<'a> {
    ghost use Rattle.std.specs.Prelude.{◌≡◌};
    ghost use Rattle.jsonb_spec.specs.Tree.{object};
    ghost use Rattle.jsonb_value.specs.View.{view, members_view};

    ghost from_gives = { λ members v. view v ≡ object (members_view members.entries) };

    fn from(members: Object<'a>) -> Self {
        Value::Object(members)
    }
}
