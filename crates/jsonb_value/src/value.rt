//! JSON values.
mod access;
mod clone;
mod convert;
mod dismantle;
mod into;
mod laws;
mod order;
mod owned;
pub(crate) mod sort_key;
pub(crate) mod text;

use crate::extension::{Date, Interval, Timestamp, TimestampTz};
use jsonb_core::number::Number;
pub use laws::{documents_are_in_range, value_texts_read_back};
pub use order::order_is_total;
pub use sort_key::{sort_key_sizes, sort_keys_order};
use std::borrow::CowStr;
use std::collections::BTreeMap;
pub use text::string_texts_read_back;

/// An object's members, in the order of their keys.
pub type Object<'a> = BTreeMap<String, Value<'a>>;

/// A JSON value, or a scalar beyond JSON.
///
/// It has a `Drop` impl, so no pattern moves a part out of it: [`Value::into_array`], [`Value::into_object`] and
/// [`Value::into_string`] do.
#[derive(Debug)]
pub enum Value<'a> {
    Null,
    Bool(bool),
    String(CowStr<'a>),
    Number(Number),
    Binary(&'a [u8]),
    Date(Date),
    Timestamp(Timestamp),
    TimestampTz(TimestampTz),
    Interval(Interval),
    Array(Vec<Value<'a>>),
    Object(Object<'a>),
}

// Inlined into the loops that drop values, so that only what owns memory is a call there.
impl Drop for Value<'_> {
    #[inline(always)]
    fn drop(self) {
        match self {
            Value::String(text) => drop(text),
            Value::Array(items) => drop(items),
            Value::Object(members) => drop(members),
            Value::Bool(_) | Value::Number(_) | Value::Binary(_) | Value::Null => {}
            Value::Date(_) | Value::Timestamp(_) | Value::TimestampTz(_) | Value::Interval(_) => {}
        }
    }
}

impl Default for Value<'_> {
    ghost use Rattle.std.specs.Prelude.{◌≡◌};
    ghost use Rattle.jsonb_spec.specs.Tree.{null};
    ghost use Rattle.jsonb_value.specs.View.{view};

    ghost is_default = { λ v. view v ≡ null };

    fn default() -> Self {
        Value::Null
    }
}
