//! `clone` of a value, member by member. What is borrowed stays borrowed.
ghost use Rattle.std.specs.Prelude.{◌≡◌, IfOk, IfErr};
ghost use Rattle.jsonb_spec.specs.Accessors.{HoldsNoMemory};
ghost use Rattle.jsonb_spec.specs.Tree.{escaped};
ghost use Rattle.std.specs.Cow.{cow_str_bytes};
ghost use Rattle.jsonb_spec.specs.Keys.{KeysAscend};
ghost use Rattle.jsonb_core.specs.View.{mark_view};
ghost use Rattle.jsonb_value.specs.View.{view, trees_view, members_view};

use super::{Object, Value};
use jsonb_core::number::Number;
use std::alloc::{AllocError, Global};
use std::borrow::CowStr;
use std::default::Emptied;

impl<'a> Clone for Value<'a> {
    ghost is_clone = { λ v w. view w ≡ view v };

    ghost is_infallible = { λ v. HoldsNoMemory (view v) };

    fn clone(&self) -> Result<Value<'a>, AllocError> {
        copy(self)
    }
}

// Inlined into the loops, so that only containers are calls there.
#[inline(always)]
#[cycle(copy)]
fn copy<'a>(value: &Value<'a>) -> Result<Value<'a>, AllocError>
    ensures same { IfOk result (λ v. view v ≡ view value.now) }
    ensures memory { IfErr result (λ _. ¬ (HoldsNoMemory (view value.now))) }
{
    match value {
        Value::Null => Ok(Value::Null),
        Value::Bool(b) => Ok(Value::Bool(*b)),
        Value::String(text) => Ok(Value::String(copy_text(text)?)),
        Value::Number(number) => Ok(Value::Number(*number)),
        Value::Binary(bytes) => Ok(Value::Binary(*bytes)),
        Value::Date(date) => Ok(Value::Date(*date)),
        Value::Timestamp(time) => Ok(Value::Timestamp(*time)),
        Value::TimestampTz(time) => Ok(Value::TimestampTz(*time)),
        Value::Interval(interval) => Ok(Value::Interval(*interval)),
        Value::Array(items) => Ok(Value::Array(copy_items(items)?)),
        Value::Object(members) => Ok(Value::Object(copy_members(members)?)),
    }
}

// `clone` of a `CowStr` says nothing of the variant.
fn copy_text<'a>(text: &CowStr<'a>) -> Result<CowStr<'a>, AllocError>
    ensures bytes { IfOk result (λ t. cow_str_bytes t ≡ cow_str_bytes text.now) }
    ensures mark { IfOk result (λ t. mark_view t ≡ mark_view text.now) }
    ensures memory { IfErr result (λ _. mark_view text.now ≡ escaped) }
{
    match text {
        CowStr::Borrowed(bytes) => Ok(CowStr::Borrowed(*bytes)),
        CowStr::Owned(bytes) => Ok(CowStr::Owned(bytes.clone()?)),
    }
}

// Scalars have arms of their own, so that each is written into its slot and nowhere before.
#[cycle(copy)]
fn copy_items<'a>(items: &Vec<Value<'a>>) -> Result<Vec<Value<'a>>, AllocError>
    ensures { IfOk result (λ v. trees_view v.items ≡ trees_view items.now.items) }
{
    let mut copies = Vec::with_capacity(*items.allocator(), items.len())?;
    'items: for item in items {
        match item {
            Value::Null => copies.push_reserved(Value::Null),
            Value::Bool(b) => copies.push_reserved(Value::Bool(*b)),
            Value::String(CowStr::Borrowed(text)) => {
                copies.push_reserved(Value::String(CowStr::Borrowed(*text)));
            }
            Value::String(CowStr::Owned(text)) => {
                copies.push_reserved(Value::String(CowStr::Owned(text.clone()?)));
            }
            Value::Number(Number::Int64(n)) => {
                copies.push_reserved(Value::Number(Number::Int64(*n)));
            }
            Value::Number(Number::UInt64(n)) => {
                copies.push_reserved(Value::Number(Number::UInt64(*n)));
            }
            _ => copies.push_reserved(copy(item)?),
        }
    }
    Ok(copies)
}

// Up to so many members are inserted one by one. More are built into a map at once.
const FEW: usize = 5;

#[cycle(copy)]
fn copy_members<'a>(members: &Object<'a>) -> Result<Object<'a>, AllocError>
    ensures { IfOk result (λ m. members_view m.entries ≡ members_view members.now.entries) }
{
    if members.len() > FEW {
        if let Some((first, _)) = members.first_key_value() {
            return build(copy_pairs(*first.allocator(), members)?);
        }
    }
    insert_copies(members)
}

#[cycle(copy)]
fn copy_pairs<'a>(
    alloc: Global,
    members: &Object<'a>,
) -> Result<Vec<(String, Value<'a>)>, AllocError>
    ensures same { IfOk result (λ pairs. members_view pairs.items ≡ members_view members.now.entries) }
    ensures ascend { IfOk result (λ pairs. KeysAscend (members_view pairs.items)) }
{
    let mut pairs = Vec::with_capacity(alloc, members.len())?;
    'pairs: for (key, value) in members.iter() {
        let name = key.clone()?;
        pairs.push((name, copy(value)?))?;
    }
    Ok(pairs)
}

#[cycle(copy)]
fn insert_copies<'a>(members: &Object<'a>) -> Result<Object<'a>, AllocError>
    ensures { IfOk result (λ m. members_view m.entries ≡ members_view members.now.entries) }
{
    let mut copies = Object::emptied(members)?;
    'members: for (key, value) in members.iter() {
        let name = key.clone()?;
        drop(copies.insert(name, copy(value)?)?);
    }
    Ok(copies)
}

// The object of pairs whose keys ascend.
pub(super) fn build<'a>(pairs: Vec<(String, Value<'a>)>) -> Result<Object<'a>, AllocError>
    ensures { KeysAscend (members_view pairs.entry.items)
        → IfOk result (λ m. members_view m.entries ≡ members_view pairs.entry.items) }
{
    let alloc = *pairs.allocator();
    pairs.into_iter().collect(alloc)
}
