//! A copy of a value that borrows nothing.
ghost use Rattle.std.specs.Prelude.{◌≡◌, ◌⊎◌, IfOk, IfErr, true, false};
ghost use Rattle.std.specs.Cow.{cow_str_bytes};
ghost use Rattle.std.specs.Result.{IsErrOf};
ghost use Rattle.jsonb_spec.specs.Owned.{owned_tree, owned_items, owned_members, holds_binary, items_hold_binary, members_hold_binary};
ghost use Rattle.jsonb_spec.specs.Accessors.{HoldsNoMemory};
ghost use Rattle.jsonb_spec.specs.Tree.{escaped};
ghost use Rattle.jsonb_core.specs.View.{mark_view};
ghost use Rattle.jsonb_value.specs.View.{view, trees_view, members_view};

use super::clone::build;
use super::{Object, Value};
use jsonb_core::error::{Error, Result};
use std::alloc::{AllocError, Global};
use std::borrow::CowStr;

impl<'a> Value<'a> {
    /// A copy that borrows nothing, so that it can outlive the text that this was parsed from: each string owns its
    /// bytes. It has the lifetime that the caller needs, `'static` too.
    ///
    /// Machine stack grows with the depth of the value.
    ///
    /// ```
    /// let value: Value<'static> = jsonb::parse_value(rt.alloc(), b"['held']")?.to_owned_value(rt.alloc())?;
    /// assert_eq!(rt; value.array_length(), Some(1));
    /// ```
    ///
    /// # Errors
    ///
    /// `UnexpectedType` only where the value holds binary data, which is always borrowed, at any depth. `OutOfMemory`
    /// only of a string, an array or an object.
    pub fn to_owned_value<'b>(&self, alloc: Global) -> Result<Value<'b>>
        ensures ok { IfOk result (λ v. view v ≡ owned_tree (view self.now)) }
        ensures binary { IfOk result (λ _. holds_binary (view self.now) ≡ false) }
        ensures unexpected { IsErrOf result Error.UnexpectedType → holds_binary (view self.now) ≡ true }
        ensures memory { IsErrOf result Error.OutOfMemory → ¬ (HoldsNoMemory (owned_tree (view self.now))) }
        ensures errors { IfErr result (λ e. (e ≡ Error.UnexpectedType) ⊎ (e ≡ Error.OutOfMemory)) }
    {
        own(alloc, self)
    }
}

// The copy, or an error.
#[cycle(own)]
fn own<'a, 'b>(alloc: Global, value: &Value<'a>) -> Result<Value<'b>>
    ensures ok { IfOk result (λ v. view v ≡ owned_tree (view value.now)) }
    ensures binary { IfOk result (λ _. holds_binary (view value.now) ≡ false) }
    ensures unexpected { IsErrOf result Error.UnexpectedType → holds_binary (view value.now) ≡ true }
    ensures memory { IsErrOf result Error.OutOfMemory → ¬ (HoldsNoMemory (owned_tree (view value.now))) }
    ensures errors { IfErr result (λ e. (e ≡ Error.UnexpectedType) ⊎ (e ≡ Error.OutOfMemory)) }
{
    match value {
        Value::Null => Ok(Value::Null),
        Value::Bool(b) => Ok(Value::Bool(*b)),
        Value::String(text) => Ok(Value::String(own_text(alloc, text)?)),
        Value::Number(number) => Ok(Value::Number(*number)),
        Value::Binary(_) => Err(Error::UnexpectedType),
        Value::Date(date) => Ok(Value::Date(*date)),
        Value::Timestamp(time) => Ok(Value::Timestamp(*time)),
        Value::TimestampTz(time) => Ok(Value::TimestampTz(*time)),
        Value::Interval(interval) => Ok(Value::Interval(*interval)),
        Value::Array(items) => Ok(Value::Array(own_items(alloc, items)?)),
        Value::Object(members) => Ok(Value::Object(own_members(alloc, members)?)),
    }
}

// A copy of a string's text.
fn own_text<'a, 'b>(alloc: Global, text: &CowStr<'a>) -> std::result::Result<CowStr<'b>, AllocError>
    ensures bytes { IfOk result (λ t. cow_str_bytes t ≡ cow_str_bytes text.now) }
    ensures mark { IfOk result (λ t. mark_view t ≡ escaped) }
{
    Ok(CowStr::Owned(String::from_str(alloc, text.as_str())?))
}

// The copies of an array's items.
#[cycle(own)]
fn own_items<'a, 'b>(alloc: Global, items: &Vec<Value<'a>>) -> Result<Vec<Value<'b>>>
    ensures ok { IfOk result (λ v. trees_view v.items ≡ owned_items (trees_view items.now.items)) }
    ensures binary { IfOk result (λ _. items_hold_binary (trees_view items.now.items) ≡ false) }
    ensures unexpected { IsErrOf result Error.UnexpectedType
        → items_hold_binary (trees_view items.now.items) ≡ true }
    ensures errors { IfErr result (λ e. (e ≡ Error.UnexpectedType) ⊎ (e ≡ Error.OutOfMemory)) }
{
    let mut copies = Vec::with_capacity(alloc, items.len())?;
    'items: for item in items {
        copies.push(own(alloc, item)?)?;
    }
    Ok(copies)
}

// The copies of an object's members.
#[cycle(own)]
fn own_members<'a, 'b>(alloc: Global, members: &Object<'a>) -> Result<Object<'b>>
    ensures ok { IfOk result (λ m. members_view m.entries ≡ owned_members (members_view members.now.entries)) }
    ensures binary { IfOk result (λ _. members_hold_binary (members_view members.now.entries) ≡ false) }
    ensures unexpected { IsErrOf result Error.UnexpectedType
        → members_hold_binary (members_view members.now.entries) ≡ true }
    ensures errors { IfErr result (λ e. (e ≡ Error.UnexpectedType) ⊎ (e ≡ Error.OutOfMemory)) }
{
    let mut pairs = Vec::with_capacity(alloc, members.len())?;
    'members: for (key, value) in members.iter() {
        let name = key.clone()?;
        pairs.push((name, own(alloc, value)?))?;
    }
    Ok(build(pairs)?)
}
