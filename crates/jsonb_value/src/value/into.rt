//! Values taken apart: what they own is moved out.
ghost use Rattle.std.specs.Prelude.{◌≡◌, IfOk, IfErr, None};
ghost use Rattle.jsonb_spec.specs.Accessors.{as_string, as_array, as_object};
ghost use Rattle.jsonb_value.specs.View.{view};

use super::{Object, Value};
use std::borrow::CowStr;

impl<'a> Value<'a> {
    /// The text, if this is a string: borrowed or owned as it was, and no byte is copied.
    ///
    /// ```
    /// let value = jsonb::parse_value_standard_mode(rt.alloc(), b"\"text\"")?;
    /// if let Ok(text) = value.into_string() {
    ///     assert_eq!(rt; text.as_str(), "text");
    /// }
    /// ```
    ///
    /// # Errors
    ///
    /// The value as it was, if it is no string.
    pub fn into_string(self) -> Result<CowStr<'a>, Value<'a>>
        ensures ok { IfOk result (λ text. self.entry ≡ Value.String text) }
        ensures retained { IfErr result (λ value. value ≡ self.entry) }
        ensures none { IfErr result (λ _. as_string (view self.entry) ≡ None) }
    {
        match self {
            Value::String(text) => Ok(text),
            value => Err(value),
        }
    }

    /// The items, if this is an array. None is copied.
    ///
    /// ```
    /// if let Ok(items) = jsonb::parse_value_standard_mode(rt.alloc(), b"[1, 2]")?.into_array() {
    ///     assert_eq!(rt; items.len(), 2);
    /// }
    /// ```
    ///
    /// # Errors
    ///
    /// The value as it was, if it is no array.
    pub fn into_array(self) -> Result<Vec<Value<'a>>, Value<'a>>
        ensures ok { IfOk result (λ items. self.entry ≡ Value.Array items) }
        ensures retained { IfErr result (λ value. value ≡ self.entry) }
        ensures none { IfErr result (λ _. as_array (view self.entry) ≡ None) }
    {
        match self {
            Value::Array(items) => Ok(items),
            value => Err(value),
        }
    }

    /// The members, if this is an object. None is copied.
    ///
    /// ```
    /// if let Ok(object) = jsonb::parse_value_standard_mode(rt.alloc(), b"{\"a\": 1}")?.into_object() {
    ///     assert!(rt; object.contains_key("a"));
    /// }
    /// ```
    ///
    /// # Errors
    ///
    /// The value as it was, if it is no object.
    pub fn into_object(self) -> Result<Object<'a>, Value<'a>>
        ensures ok { IfOk result (λ members. self.entry ≡ Value.Object members) }
        ensures retained { IfErr result (λ value. value ≡ self.entry) }
        ensures none { IfErr result (λ _. as_object (view self.entry) ≡ None) }
    {
        match self {
            Value::Object(members) => Ok(members),
            value => Err(value),
        }
    }
}
