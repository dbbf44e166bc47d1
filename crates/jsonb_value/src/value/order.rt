//! The order of values: by kind, and then by what they hold.
ghost use Rattle.std.specs.Prelude.{◌≡◌, ◌∷◌, ◌++◌, [], List, String, refl, IfSome, MatchOption};
ghost use Rattle.std.specs.Bound.{bound_map};
ghost use Rattle.std.specs.declared.alloc.Global.{Global};
ghost use Rattle.std.specs.Cmp.{on_equiv, on_per, on_po, on_total, partial_equiv_from_equiv, eq_by_cmp_equiv, po};
ghost use Rattle.std.specs.Ordering.{on, eq_by_cmp, as_partial_cmp};
ghost use Rattle.jsonb_spec.specs.Order.{rank, tree_cmp, trees_cmp, members_cmp, Below, Same, IsOneOrder};
ghost use Rattle.jsonb_spec.specs.Order.ByContent.{IsByContent};
ghost use Rattle.std.specs.declared.ops.Bound.TheVariants.{Excluded};
ghost use Rattle.jsonb_value.specs.Order.Bounds.{from_bound};
ghost use Rattle.jsonb_core.specs.Order.Laws.{tree_cmp_total};
ghost use Rattle.jsonb_value.specs.View.{view, trees_view, members_view};

use super::{Object, Value};
use std::cmp::Ordering;
use std::ops::Bound;

impl PartialEq for Value<'_> {
    ghost eq = { on view (eq_by_cmp tree_cmp) };

    ghost laws = { on_per view (partial_equiv_from_equiv (eq_by_cmp_equiv tree_cmp_total)) };

    fn eq(&self, other: &Self) -> bool {
        compare(self, other, MANY_OBJECTS).is_eq()
    }
}

impl Eq for Value<'_> {
    ghost laws = { on_equiv view (eq_by_cmp_equiv tree_cmp_total) };
}

impl PartialOrd for Value<'_> {
    ghost partial_cmp = { on view (as_partial_cmp tree_cmp) };

    ghost laws = { on_po view (po tree_cmp_total (λ t u. refl)) };

    fn partial_cmp(&self, other: &Self) -> Option<Ordering> {
        Some(compare(self, other, MANY_OBJECTS))
    }
}

impl Ord for Value<'_> {
    ghost cmp = { on view tree_cmp };

    ghost total = { on_total view tree_cmp_total };

    ghost matches_partial_cmp = { λ v w. refl };

    ghost matches_eq = { λ v w. refl };

    /// By kind, upwards: binary data, dates, times without and with a zone, intervals, booleans, numbers, strings,
    /// objects, arrays, null. In a kind by exact content: numbers by value, strings by bytes, arrays by their items,
    /// and objects by their members in the order of their keys.
    fn cmp(&self, other: &Self) -> Ordering {
        compare(self, other, MANY_OBJECTS)
    }
}

/// The order of values is one total order, by kind and then by exact content.
pub fn order_is_total()
    ensures total { IsOneOrder Below Same }
    ensures by_content { IsByContent Below Same }
{}

// Where the value's kind is among the kinds.
pub(super) fn rank(value: &Value) -> u8
    ensures { result ≡ rank (view value.now) }
{
    match value {
        Value::Binary(_) => 0,
        Value::Date(_) => 1,
        Value::Timestamp(_) => 2,
        Value::TimestampTz(_) => 3,
        Value::Interval(_) => 4,
        Value::Bool(_) => 5,
        Value::Number(_) => 6,
        Value::String(_) => 7,
        Value::Object(_) => 8,
        Value::Array(_) => 9,
        Value::Null => 10,
    }
}

// Objects that are in so many others are compared key by key, which takes less machine stack.
const MANY_OBJECTS: u32 = 128;

// Inlined into the loops, so that only containers are calls there. So many objects may still be open round others that
// are compared with an iterator over each.
#[inline(always)]
#[cycle(compare)]
fn compare<'a>(left: &Value<'a>, right: &Value<'a>, levels: u32) -> Ordering
    ensures { result ≡ tree_cmp (view left.now) (view right.now) }
{
    match (left, right) {
        (Value::Binary(a), Value::Binary(b)) => a.cmp(b),
        (Value::Date(a), Value::Date(b)) => a.cmp(b),
        (Value::Timestamp(a), Value::Timestamp(b)) => a.cmp(b),
        (Value::TimestampTz(a), Value::TimestampTz(b)) => a.cmp(b),
        (Value::Interval(a), Value::Interval(b)) => a.cmp(b),
        (Value::Bool(a), Value::Bool(b)) => a.cmp(b),
        (Value::Number(a), Value::Number(b)) => a.cmp(b),
        (Value::String(a), Value::String(b)) => a.cmp(b),
        (Value::Object(a), Value::Object(b)) => compare_members(a, b, levels),
        (Value::Array(a), Value::Array(b)) => compare_items(a, b, levels),
        _ => rank(left).cmp(&rank(right)),
    }
}

// The first two items that differ decide, and a front is below what goes on.
#[cycle(compare)]
fn compare_items<'a>(left: &Vec<Value<'a>>, right: &Vec<Value<'a>>, levels: u32) -> Ordering
    ensures { result ≡ trees_cmp (trees_view left.now.items) (trees_view right.now.items) }
{
    'items: for (i, item) in left.iter().enumerate() {
        if i >= right.len() {
            return Ordering::Greater;
        }
        let order = compare(item, &right[i], levels);
        if order.is_ne() {
            return order;
        }
    }
    if left.len() < right.len() {
        Ordering::Less
    } else {
        Ordering::Equal
    }
}

// Lexicographic over members, each by its key and then by its value; a proper prefix is less.
#[cycle(compare)]
fn compare_members<'a>(left: &Object<'a>, right: &Object<'a>, levels: u32) -> Ordering
    ensures { result ≡ members_cmp (members_view left.now.entries) (members_view right.now.entries) }
{
    if levels == 0 {
        return compare_deep(left, right);
    }
    let mut others = right.iter();
    'members: for (key, value) in left.iter() {
        let Some((other_key, other_value)) = others.next() else {
            return Ordering::Greater;
        };
        let order = key.cmp(other_key);
        if order.is_ne() {
            return order;
        }
        let order = compare(value, other_value, levels - 1);
        if order.is_ne() {
            return order;
        }
    }
    if others.next().is_some() {
        Ordering::Less
    } else {
        Ordering::Equal
    }
}

// The order of the members of two objects that are deep, where most objects have one member.
#[inline(never)]
#[cycle(compare)]
fn compare_deep<'a>(left: &Object<'a>, right: &Object<'a>) -> Ordering
    ensures { result ≡ members_cmp (members_view left.now.entries) (members_view right.now.entries) }
{
    let Some((key, value)) = only_member(left) else {
        return compare_by_key(left, right);
    };
    let Some((other_key, other_value)) = only_member(right) else {
        return compare_by_key(left, right);
    };
    let order = key.cmp(other_key);
    if order.is_ne() {
        return order;
    }
    compare(value, other_value, 0)
}

// The order of members key by key, with no iterator while a value is compared: two of them take much machine stack.
#[inline(never)]
#[cycle(compare)]
fn compare_by_key<'a>(left: &Object<'a>, right: &Object<'a>) -> Ordering
    ensures { result ≡ members_cmp (members_view left.now.entries) (members_view right.now.entries) }
{
    let mut past = Bound::Unbounded;
    let mut other_past = Bound::Unbounded;
    'members: while let Some((key, value)) = next_member(left, past) {
        let Some((other_key, other_value)) = next_member(right, other_past) else {
            return Ordering::Greater;
        };
        let order = key.cmp(other_key);
        if order.is_ne() {
            return order;
        }
        let order = compare(value, other_value, 0);
        if order.is_ne() {
            return order;
        }
        past = Bound::Excluded(key);
        other_past = Bound::Excluded(other_key);
    }
    if next_member(right, other_past).is_some() {
        Ordering::Less
    } else {
        Ordering::Equal
    }
}

// The member of an object that has no other.
#[inline(always)]
fn only_member<'v, 'a>(members: &'v Object<'a>) -> Option<(&'v String, &'v Value<'a>)>
    ensures { IfSome result (λ m. members.now.entries ≡ (m.0.now, m.1.now) ∷ []) }
{
    if members.len() != 1 {
        return None;
    }
    members.first_key_value()
}

// The first member within a bound.
#[inline(never)]
fn next_member<'v, 'a>(
    members: &'v Object<'a>,
    past: Bound<&'v String>,
) -> Option<(&'v String, &'v Value<'a>)>
    ensures next { MatchOption result (from_bound (bound_map (λ k. k.now) past.entry) members.now.entries ≡ [])
        (λ m. from_bound (bound_map (λ k. k.now) past.entry) members.now.entries
        ≡ (m.0.now, m.1.now) ∷ from_bound (Excluded m.0.now) members.now.entries) }
    ensures ends { (taken : List (String Global × Value))
        × (members.now.entries ≡ taken ++ from_bound (bound_map (λ k. k.now) past.entry) members.now.entries) }
{
    members.range((past, Bound::Unbounded)).next()
}
