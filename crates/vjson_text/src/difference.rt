//! Where two values differ.

ghost use Rattle.std.specs.Prelude.{◌≡◌, ◌++◌, [], Some, OnOk, option_map};
ghost use Rattle.jsonb_spec.specs.Program.Differences.{added_items, added_members, addition, change, difference, differences, item_differences, item_pointer, member_differences, member_pointer, part_text};
ghost use Rattle.jsonb_value.specs.View.{members_view, trees_view, view};

use crate::cell::append_cell;
use itoa::Buffer;
use jsonb::{Object, Value};
use jsonb_path::append_step;
use std::alloc::{AllocError, Global};

/// Appends the lines on where two values differ: for each part that differs, or that only one of them has, its pointer
/// (RFC 6901), and behind a tab each its serialized forms in the first and in the second value, of which one may be
/// absent. Arrays and objects that both have aren't parts that differ, but their items and members are. Nothing is
/// appended of equal values.
///
/// # Errors
///
/// Where memory ran out, or a value has no serialized form.
pub(crate) fn append_lines<'a>(
    alloc: Global,
    one: &Value<'a>,
    other: &Value<'a>,
    out: &mut Vec<u8>,
) -> Result<(), AllocError>
    ensures lines { OnOk result (out.new.items ≡ out.old.items ++ differences [] (view one.now) (Some (view other.now))) }
{
    let mut pointer = Vec::new(alloc);
    append_part(&mut pointer, one, Some(other), out)
}

// Appends the lines of a part that the first value has.
#[cycle(append)]
fn append_part<'a>(
    pointer: &mut Vec<u8>,
    one: &Value<'a>,
    other: Option<&Value<'a>>,
    out: &mut Vec<u8>,
) -> Result<(), AllocError>
    ensures lines { OnOk result (out.new.items ≡ out.old.items
        ++ differences pointer.old.items (view one.now) (option_map (λ v. view v.now) other.entry)) }
    ensures pointer { OnOk result (pointer.new.items ≡ pointer.old.items) }
{
    let Some(other) = other else {
        return append_line(pointer, Some(one), None, out);
    };
    match one {
        Value::Array(items) => match other.as_array() {
            Some(others) => {
                append_items(pointer, items, other, out)?;
                append_added_items(pointer, one, others, out)
            }
            None => append_change(pointer, one, other, out),
        },
        Value::Object(members) => match other.as_object() {
            Some(others) => {
                append_members(pointer, members, other, out)?;
                append_added_members(pointer, one, others, out)
            }
            None => append_change(pointer, one, other, out),
        },
        Value::Null => append_change(pointer, one, other, out),
        Value::Bool(_) => append_change(pointer, one, other, out),
        Value::String(_) => append_change(pointer, one, other, out),
        Value::Number(_) => append_change(pointer, one, other, out),
        Value::Binary(_) => append_change(pointer, one, other, out),
        Value::Date(_) => append_change(pointer, one, other, out),
        Value::Timestamp(_) => append_change(pointer, one, other, out),
        Value::TimestampTz(_) => append_change(pointer, one, other, out),
        Value::Interval(_) => append_change(pointer, one, other, out),
    }
}

// Appends the lines of the first value's items.
#[cycle(append)]
fn append_items<'a>(
    pointer: &mut Vec<u8>,
    items: &Vec<Value<'a>>,
    other: &Value<'a>,
    out: &mut Vec<u8>,
) -> Result<(), AllocError>
    ensures lines { OnOk result (out.new.items ≡ out.old.items
        ++ item_differences pointer.old.items 0 (view other.now) (trees_view items.now.items)) }
    ensures pointer { OnOk result (pointer.new.items ≡ pointer.old.items) }
{
    let len = pointer.len();
    let mut index = 0;
    'items: for item in items {
        append_index(index, pointer)?;
        append_part(pointer, item, other.get_by_index(index), out)?;
        pointer.truncate(len);
        index += 1;
    }
    Ok(())
}

// Appends the lines of the first value's members.
#[cycle(append)]
fn append_members<'a>(
    pointer: &mut Vec<u8>,
    members: &Object<'a>,
    other: &Value<'a>,
    out: &mut Vec<u8>,
) -> Result<(), AllocError>
    ensures lines { OnOk result (out.new.items ≡ out.old.items
        ++ member_differences pointer.old.items (view other.now) (members_view members.now.entries)) }
    ensures pointer { OnOk result (pointer.new.items ≡ pointer.old.items) }
{
    let len = pointer.len();
    'members: for (name, value) in members.iter() {
        append_step(name.as_bytes(), pointer)?;
        append_part(pointer, value, other.get_by_name(name.as_str()), out)?;
        pointer.truncate(len);
    }
    Ok(())
}

// Appends the lines of the items that only the second value has.
fn append_added_items(
    pointer: &mut Vec<u8>,
    one: &Value<'_>,
    others: &Vec<Value<'_>>,
    out: &mut Vec<u8>,
) -> Result<(), AllocError>
    ensures lines { OnOk result (out.new.items ≡ out.old.items
        ++ added_items pointer.old.items 0 (view one.now) (trees_view others.now.items)) }
    ensures pointer { OnOk result (pointer.new.items ≡ pointer.old.items) }
{
    let len = pointer.len();
    let mut index = 0;
    'items: for item in others {
        append_index(index, pointer)?;
        append_addition(pointer, one.get_by_index(index), item, out)?;
        pointer.truncate(len);
        index += 1;
    }
    Ok(())
}

// Appends the lines of the members that only the second value has.
fn append_added_members(
    pointer: &mut Vec<u8>,
    one: &Value<'_>,
    others: &Object<'_>,
    out: &mut Vec<u8>,
) -> Result<(), AllocError>
    ensures lines { OnOk result (out.new.items ≡ out.old.items
        ++ added_members pointer.old.items (view one.now) (members_view others.now.entries)) }
    ensures pointer { OnOk result (pointer.new.items ≡ pointer.old.items) }
{
    let len = pointer.len();
    'members: for (name, value) in others.iter() {
        append_step(name.as_bytes(), pointer)?;
        append_addition(pointer, one.get_by_name(name.as_str()), value, out)?;
        pointer.truncate(len);
    }
    Ok(())
}

// Appends the step of an item.
fn append_index(index: usize, pointer: &mut Vec<u8>) -> Result<(), AllocError>
    ensures { OnOk result (pointer.new.items ≡ item_pointer pointer.old.items index) }
{
    let mut buffer = Buffer::new();
    append_step(buffer.format(index).as_bytes(), pointer)
}

// Appends the line of a part that both values have, where they differ.
fn append_change<'a>(
    pointer: &[u8],
    one: &Value<'a>,
    other: &Value<'a>,
    out: &mut Vec<u8>,
) -> Result<(), AllocError>
    ensures { OnOk result (out.new.items ≡ out.old.items ++ change pointer.now (view one.now) (view other.now)) }
{
    if one == other {
        return Ok(());
    }
    append_line(pointer, Some(one), Some(other), out)
}

// Appends the line of a part of the second value, unless the first one has it too.
fn append_addition(
    pointer: &[u8],
    one: Option<&Value<'_>>,
    other: &Value<'_>,
    out: &mut Vec<u8>,
) -> Result<(), AllocError>
    ensures { OnOk result (out.new.items ≡ out.old.items
        ++ addition pointer.now (option_map (λ v. view v.now) one.entry) (view other.now)) }
{
    match one {
        Some(_) => Ok(()),
        None => append_line(pointer, None, Some(other), out),
    }
}

// Appends the line of a part.
fn append_line(
    pointer: &[u8],
    one: Option<&Value<'_>>,
    other: Option<&Value<'_>>,
    out: &mut Vec<u8>,
) -> Result<(), AllocError>
    ensures { OnOk result (out.new.items ≡ out.old.items
        ++ difference pointer.now (option_map (λ v. view v.now) one.entry) (option_map (λ v. view v.now) other.entry)) }
{
    append_cell(pointer, out)?;
    out.push(b'\t')?;
    append_text(one, out)?;
    out.push(b'\t')?;
    append_text(other, out)?;
    out.push(b'\n')?;
    Ok(())
}

// Appends the serialized form of a part that may be absent.
fn append_text(part: Option<&Value<'_>>, out: &mut Vec<u8>) -> Result<(), AllocError>
    ensures { OnOk result (out.new.items ≡ out.old.items ++ part_text (option_map (λ v. view v.now) part.entry)) }
{
    let Some(part) = part else {
        return Ok(());
    };
    match part.write_text(out) {
        Ok(()) => Ok(()),
        Err(_) => Err(AllocError),
    }
}
