//! Values beyond JSON: binary data, dates and intervals.
mod laws;
pub(crate) mod text;

ghost use Rattle.std.specs.Prelude.{◌≡◌, refl};
ghost use Rattle.std.specs.Cmp.{on_equiv, on_per, on_po, partial_equiv_from_equiv, eq_by_cmp_equiv, po};
ghost use Rattle.std.specs.Ordering.{on, eq_by_cmp, as_partial_cmp};
ghost use Rattle.jsonb_spec.specs.Order.{rank, tree_cmp};
ghost use Rattle.jsonb_core.specs.Order.Laws.{tree_cmp_total};
ghost use Rattle.jsonb_value.specs.View.{extension_view};

pub use laws::{
    dates_compare_by_fields, extension_clones_are_the_same, intervals_compare_by_fields,
    timestamps_compare_by_fields, zoned_timestamps_compare_by_fields,
};
use std::cmp::Ordering;

/// Days since the epoch.
#[derive(Clone, Copy, Debug, PartialEq, Eq, PartialOrd, Ord)]
pub struct Date {
    pub value: i32,
}

/// Microseconds since the epoch.
#[derive(Clone, Copy, Debug, PartialEq, Eq, PartialOrd, Ord)]
pub struct Timestamp {
    pub value: i64,
}

/// Microseconds since the epoch, beside the zone's offset in seconds.
#[derive(Clone, Copy, Debug, PartialEq, Eq, PartialOrd, Ord)]
pub struct TimestampTz {
    pub offset: i32,
    pub value: i64,
}

/// A span of calendar time.
#[derive(Clone, Copy, Debug, PartialEq, Eq, PartialOrd, Ord)]
pub struct Interval {
    pub months: i32,
    pub days: i32,
    pub micros: i64,
}

/// A scalar beyond JSON.
#[derive(Clone, Copy, Debug)]
pub enum ExtensionValue<'a> {
    Binary(&'a [u8]),
    Date(Date),
    Timestamp(Timestamp),
    TimestampTz(TimestampTz),
    Interval(Interval),
}

impl<'a> PartialEq for ExtensionValue<'a> {
    ghost eq = { on extension_view (eq_by_cmp tree_cmp) };

    ghost laws = { on_per extension_view (partial_equiv_from_equiv (eq_by_cmp_equiv tree_cmp_total)) };

    fn eq(&self, other: &ExtensionValue<'a>) -> bool {
        compare(self, other).is_eq()
    }
}

impl<'a> Eq for ExtensionValue<'a> {
    ghost laws = { on_equiv extension_view (eq_by_cmp_equiv tree_cmp_total) };
}

impl<'a> PartialOrd for ExtensionValue<'a> {
    ghost partial_cmp = { on extension_view (as_partial_cmp tree_cmp) };

    ghost laws = { on_po extension_view (po tree_cmp_total (λ t u. refl)) };

    fn partial_cmp(&self, other: &ExtensionValue<'a>) -> Option<Ordering> {
        Some(compare(self, other))
    }
}

fn compare<'a>(left: &ExtensionValue<'a>, right: &ExtensionValue<'a>) -> Ordering
    ensures { result ≡ tree_cmp (extension_view left.now) (extension_view right.now) }
{
    match (left, right) {
        (ExtensionValue::Binary(a), ExtensionValue::Binary(b)) => a.cmp(b),
        (ExtensionValue::Date(a), ExtensionValue::Date(b)) => a.cmp(b),
        (ExtensionValue::Timestamp(a), ExtensionValue::Timestamp(b)) => a.cmp(b),
        (ExtensionValue::TimestampTz(a), ExtensionValue::TimestampTz(b)) => a.cmp(b),
        (ExtensionValue::Interval(a), ExtensionValue::Interval(b)) => a.cmp(b),
        _ => rank(left).cmp(&rank(right)),
    }
}

// Where the value's kind is among the kinds.
fn rank(value: &ExtensionValue) -> u8
    ensures { result ≡ rank (extension_view value.now) }
{
    match value {
        ExtensionValue::Binary(_) => 0,
        ExtensionValue::Date(_) => 1,
        ExtensionValue::Timestamp(_) => 2,
        ExtensionValue::TimestampTz(_) => 3,
        ExtensionValue::Interval(_) => 4,
    }
}
