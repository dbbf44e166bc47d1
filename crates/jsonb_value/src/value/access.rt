//! What a value holds.
ghost use Rattle.std.specs.Prelude.{◌≡◌, ◌↔◌, ℕ, ◌<◌, ◌^◌, ℤ, pos, FitsSigned, ◌==◌, ◌&&◌, is_some, is_none, option_map, IfOk, IfErr, IsTrue};
ghost use Rattle.std.specs.Str.{str_eq_ignore_ascii_case};
ghost use Rattle.std.specs.Cow.{cow_str_bytes};
ghost use Rattle.jsonb_spec.specs.Order.{rank};
ghost use Rattle.std.specs.Int.{w64};
ghost use Rattle.jsonb_spec.specs.Accessors.{IsWholeNumber, as_null, as_boolean, as_number, as_string, as_array, as_object, as_binary, as_date, as_timestamp, as_timestamp_tz, as_interval, trees_len, find_member, get_by_name, get_by_index, get_ignore_case, key_trees};
ghost use Rattle.jsonb_spec.specs.Tree.{array};
ghost use Rattle.jsonb_core.specs.View.{number_view, mark_view};
ghost use Rattle.jsonb_value.specs.View.{view, trees_view, members_view};

use super::order::rank;
use super::{Object, Value};
use crate::extension::{Date, Interval, Timestamp, TimestampTz};
use jsonb_core::error::{Error, Result};
use jsonb_core::number::Number;
use std::alloc::Global;
use std::borrow::CowStr;

impl<'a> Value<'a> {
    /// Whether this is neither an array nor an object.
    pub fn is_scalar(&self) -> bool
        ensures { result ≡ (is_none (as_array (view self.now)) && is_none (as_object (view self.now))) }
    {
        !matches!(self, Value::Array(_) | Value::Object(_))
    }

    /// Whether this is an object.
    pub fn is_object(&self) -> bool
        ensures { result ≡ is_some (as_object (view self.now)) }
    {
        self.as_object().is_some()
    }

    /// The members, if this is an object.
    pub fn as_object(&self) -> Option<&Object<'a>>
        ensures { option_map (λ m. members_view m.now.entries) result ≡ as_object (view self.now) }
    {
        match self {
            Value::Object(members) => Some(members),
            _ => None,
        }
    }

    /// Whether this is an array.
    pub fn is_array(&self) -> bool
        ensures { result ≡ is_some (as_array (view self.now)) }
    {
        self.as_array().is_some()
    }

    /// The items, if this is an array.
    pub fn as_array(&self) -> Option<&Vec<Value<'a>>>
        ensures { option_map (λ v. trees_view v.now.items) result ≡ as_array (view self.now) }
    {
        match self {
            Value::Array(items) => Some(items),
            _ => None,
        }
    }

    /// Whether this is a string.
    pub fn is_string(&self) -> bool
        ensures { result ≡ is_some (as_string (view self.now)) }
    {
        self.as_str().is_some()
    }

    /// The text, if this is a string.
    pub fn as_str(&self) -> Option<&CowStr<'a>>
        ensures { option_map (λ s. (mark_view s.now, cow_str_bytes s.now)) result ≡ as_string (view self.now) }
    {
        match self {
            Value::String(text) => Some(text),
            _ => None,
        }
    }

    /// Whether this is a number.
    pub fn is_number(&self) -> bool
        ensures { result ≡ is_some (as_number (view self.now)) }
    {
        self.as_number().is_some()
    }

    /// The number, if this is one.
    pub fn as_number(&self) -> Option<&Number>
        ensures { option_map (λ n. number_view n.now) result ≡ as_number (view self.now) }
    {
        match self {
            Value::Number(number) => Some(number),
            _ => None,
        }
    }

    /// Whether this is a number that is whole and within an `i64`.
    pub fn is_i64(&self) -> bool
        ensures { IsTrue result ↔ ((n : ℤ) × IsWholeNumber (view self.now) n × FitsSigned w64 n) }
    {
        self.as_i64().is_some()
    }

    /// The number as it is, if this is one that is whole and within an `i64`.
    pub fn as_i64(&self) -> Option<i64>
        ensures { (n : ℤ) → (result ≡ Some n)
            ↔ (IsWholeNumber (view self.now) n × FitsSigned w64 n) }
    {
        match self {
            Value::Number(number) => number.as_i64(),
            _ => None,
        }
    }

    /// Whether this is a number that is whole and within a `u64`.
    pub fn is_u64(&self) -> bool
        ensures { IsTrue result ↔ ((n : ℕ) × IsWholeNumber (view self.now) (pos n) × (n < 2 ^ 64)) }
    {
        self.as_u64().is_some()
    }

    /// The number as it is, if this is one that is whole and within a `u64`.
    pub fn as_u64(&self) -> Option<u64>
        ensures { (n : ℕ) → (result ≡ Some n)
            ↔ (IsWholeNumber (view self.now) (pos n) × (n < 2 ^ 64)) }
    {
        match self {
            Value::Number(number) => number.as_u64(),
            _ => None,
        }
    }

    /// Whether this is a boolean.
    pub fn is_boolean(&self) -> bool
        ensures { result ≡ is_some (as_boolean (view self.now)) }
    {
        self.as_bool().is_some()
    }

    /// The boolean, if this is one.
    pub fn as_bool(&self) -> Option<bool>
        ensures { result ≡ as_boolean (view self.now) }
    {
        match self {
            Value::Bool(b) => Some(*b),
            _ => None,
        }
    }

    /// Whether this is null.
    pub fn is_null(&self) -> bool
        ensures { result ≡ is_some (as_null (view self.now)) }
    {
        self.as_null().is_some()
    }

    /// `Some`, if this is null.
    pub fn as_null(&self) -> Option<()>
        ensures { is_some result ≡ is_some (as_null (view self.now)) }
    {
        match self {
            Value::Null => Some(()),
            _ => None,
        }
    }

    /// Whether this is binary data.
    pub fn is_binary(&self) -> bool
        ensures { result ≡ is_some (as_binary (view self.now)) }
    {
        self.as_binary().is_some()
    }

    /// The bytes, if this is binary data.
    pub fn as_binary(&self) -> Option<&[u8]>
        ensures { option_map (λ b. b.now) result ≡ as_binary (view self.now) }
    {
        match self {
            Value::Binary(bytes) => Some(*bytes),
            _ => None,
        }
    }

    /// Whether this is a date.
    pub fn is_date(&self) -> bool
        ensures { result ≡ is_some (as_date (view self.now)) }
    {
        self.as_date().is_some()
    }

    /// The date, if this is one.
    pub fn as_date(&self) -> Option<&Date>
        ensures { option_map (λ d. d.now.value) result ≡ as_date (view self.now) }
    {
        match self {
            Value::Date(date) => Some(date),
            _ => None,
        }
    }

    /// Whether this is a time without a zone.
    pub fn is_timestamp(&self) -> bool
        ensures { result ≡ is_some (as_timestamp (view self.now)) }
    {
        self.as_timestamp().is_some()
    }

    /// The time, if this is one without a zone.
    pub fn as_timestamp(&self) -> Option<&Timestamp>
        ensures { option_map (λ t. t.now.value) result ≡ as_timestamp (view self.now) }
    {
        match self {
            Value::Timestamp(time) => Some(time),
            _ => None,
        }
    }

    /// Whether this is a time with a zone.
    pub fn is_timestamp_tz(&self) -> bool
        ensures { result ≡ is_some (as_timestamp_tz (view self.now)) }
    {
        self.as_timestamp_tz().is_some()
    }

    /// The time, if this is one with a zone.
    pub fn as_timestamp_tz(&self) -> Option<&TimestampTz>
        ensures { option_map (λ t. (t.now.offset, t.now.value)) result ≡ as_timestamp_tz (view self.now) }
    {
        match self {
            Value::TimestampTz(time) => Some(time),
            _ => None,
        }
    }

    /// Whether this is an interval.
    pub fn is_interval(&self) -> bool
        ensures { result ≡ is_some (as_interval (view self.now)) }
    {
        self.as_interval().is_some()
    }

    /// The interval, if this is one.
    pub fn as_interval(&self) -> Option<&Interval>
        ensures { option_map (λ i. (i.now.months, i.now.days, i.now.micros)) result ≡ as_interval (view self.now) }
    {
        match self {
            Value::Interval(interval) => Some(interval),
            _ => None,
        }
    }

    /// In an object the value of the key `name`. Any other value has none.
    ///
    /// It takes log n comparisons of keys in an object of n members, and allocates nothing.
    ///
    /// ```
    /// let value = jsonb::parse_value(rt.alloc(), b"{a: true}")?;
    /// assert_eq!(rt; value.get_by_name("a").and_then(|a| a.as_bool()), Some(true));
    /// assert!(rt; value.get_by_name("A").is_none());
    /// ```
    pub fn get_by_name(&self, name: &str) -> Option<&Value<'a>>
        ensures { option_map (λ v. view v.now) result ≡ get_by_name name.now (view self.now) }
    {
        match self {
            Value::Object(members) => members.get(name),
            _ => None,
        }
    }

    /// In an array the item at the index, counted from 0. Any other value has none.
    ///
    /// ```
    /// let value = jsonb::parse_value(rt.alloc(), b"[10, 20]")?;
    /// assert_eq!(rt; value.get_by_index(1).and_then(|item| item.as_i64()), Some(20));
    /// ```
    pub fn get_by_index(&self, index: usize) -> Option<&Value<'a>>
        ensures { option_map (λ v. view v.now) result ≡ get_by_index index (view self.now) }
    {
        match self {
            Value::Array(items) => items.get(index),
            _ => None,
        }
    }

    /// In an object the value of the key `name`, or else of the first key in the order of keys that
    /// equals it but for the case of ASCII letters.
    ///
    /// It compares all keys where none is the name itself, and allocates nothing.
    ///
    /// ```
    /// let value = jsonb::parse_value(rt.alloc(), b"{Name: true}")?;
    /// assert!(rt; value.get_by_name_ignore_case("NAME").is_some());
    /// ```
    pub fn get_by_name_ignore_case(&self, name: &str) -> Option<&Value<'a>>
        ensures { option_map (λ v. view v.now) result ≡ get_ignore_case name.now (view self.now) }
    {
        match self {
            Value::Object(members) => match members.get(name) {
                Some(value) => Some(value),
                None => find_ignore_case(members, name),
            },
            _ => None,
        }
    }

    /// How many items this has, if it is an array.
    pub fn array_length(&self) -> Option<usize>
        ensures { result ≡ option_map trees_len (as_array (view self.now)) }
    {
        match self {
            Value::Array(items) => Some(items.len()),
            _ => None,
        }
    }

    /// Whether both have the same variant.
    pub fn eq_variant(&self, other: &Value) -> bool
        ensures { result ≡ (rank (view self.now) == rank (view other.now)) }
    {
        rank(self) == rank(other)
    }

    /// Of an object an array of its keys, as strings of their own in the order of the keys. Any other value has none,
    /// and allocates nothing.
    ///
    /// ```
    /// let value = jsonb::parse_value(rt.alloc(), b"{b: 1, a: 2}")?;
    /// let keys = value.object_keys(rt.alloc())?;
    /// assert_eq!(rt; keys.and_then(|keys| keys.array_length()), Some(2));
    /// ```
    pub fn object_keys(&self, alloc: Global) -> Result<Option<Value<'a>>>
        ensures ok { IfOk result (λ keys. option_map view keys
            ≡ option_map (λ ms. array (key_trees ms)) (as_object (view self.now))) }
        ensures memory { IfErr result (λ e. (e ≡ Error.OutOfMemory)
            × IsTrue (is_some (as_object (view self.now)))) }
    {
        match self {
            Value::Object(members) => Ok(Some(Value::Array(keys_of(alloc, members)?))),
            _ => Ok(None),
        }
    }
}

fn find_ignore_case<'m, 'a>(members: &'m Object<'a>, name: &str) -> Option<&'m Value<'a>>
    ensures { option_map (λ v. view v.now) result
        ≡ find_member (str_eq_ignore_ascii_case name.now) (members_view members.now.entries) }
{
    'members: for (key, value) in members.iter() {
        if name.eq_ignore_ascii_case(key.as_str()) {
            return Some(value);
        }
    }
    None
}

fn keys_of<'a>(alloc: Global, members: &Object<'a>) -> Result<Vec<Value<'a>>>
    ensures ok { IfOk result (λ v. trees_view v.items ≡ key_trees (members_view members.now.entries)) }
    ensures memory { IfErr result (λ e. e ≡ Error.OutOfMemory) }
{
    let mut keys = Vec::with_capacity(alloc, members.len())?;
    'members: for key in members.keys() {
        keys.push(Value::String(CowStr::Owned(key.clone()?)))?;
    }
    Ok(keys)
}
