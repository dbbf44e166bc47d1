//! Laws of values beyond JSON. Each is the contract of a function that does nothing.

ghost use Rattle.std.specs.Prelude.{◌≡◌, ◌↔◌, IsTrue, Some};
ghost use Rattle.std.specs.Ordering.{int_cmp, ordering_then};
ghost use Rattle.jsonb_value.specs.declared.extension.Date.{Date};
ghost use Rattle.jsonb_value.specs.declared.extension.ExtensionValue.{ExtensionValue};
ghost use Rattle.jsonb_value.specs.declared.extension.Interval.{Interval};
ghost use Rattle.jsonb_value.specs.declared.extension.Timestamp.{Timestamp};
ghost use Rattle.jsonb_value.specs.declared.extension.TimestampTz.{TimestampTz};

use super::{Date, ExtensionValue, Interval, Timestamp, TimestampTz};

/// A clone never fails, and it is the same value.
pub fn extension_clones_are_the_same<'a>()
    ensures date { (a b : Date) → ⟦<Date as Clone>⟧.is_infallible a × (⟦<Date as Clone>⟧.is_clone a b → b ≡ a) }
    ensures timestamp { (a b : Timestamp) → ⟦<Timestamp as Clone>⟧.is_infallible a
        × (⟦<Timestamp as Clone>⟧.is_clone a b → b ≡ a) }
    ensures timestamp_tz { (a b : TimestampTz) → ⟦<TimestampTz as Clone>⟧.is_infallible a
        × (⟦<TimestampTz as Clone>⟧.is_clone a b → b ≡ a) }
    ensures interval { (a b : Interval) → ⟦<Interval as Clone>⟧.is_infallible a
        × (⟦<Interval as Clone>⟧.is_clone a b → b ≡ a) }
    ensures extension { (a b : ExtensionValue) → ⟦<ExtensionValue<'a> as Clone>⟧.is_infallible a
        × (⟦<ExtensionValue<'a> as Clone>⟧.is_clone a b → b ≡ a) }
{}

/// Dates compare by their days.
pub fn dates_compare_by_fields(left: &Date, right: &Date)
    ensures order { ⟦<Date as Ord>⟧.cmp left.now right.now ≡ int_cmp left.now.value right.now.value }
    ensures partial_order { ⟦<Date as PartialOrd>⟧.partial_cmp left.now right.now
        ≡ Some (int_cmp left.now.value right.now.value) }
    ensures equal { IsTrue (⟦<Date as PartialEq>⟧.eq left.now right.now) ↔ (left.now ≡ right.now) }
{}

/// Timestamps compare by their microseconds.
pub fn timestamps_compare_by_fields(left: &Timestamp, right: &Timestamp)
    ensures order { ⟦<Timestamp as Ord>⟧.cmp left.now right.now ≡ int_cmp left.now.value right.now.value }
    ensures partial_order { ⟦<Timestamp as PartialOrd>⟧.partial_cmp left.now right.now
        ≡ Some (int_cmp left.now.value right.now.value) }
    ensures equal { IsTrue (⟦<Timestamp as PartialEq>⟧.eq left.now right.now) ↔ (left.now ≡ right.now) }
{}

/// Timestamps with a zone compare by their offsets, and then by their microseconds.
pub fn zoned_timestamps_compare_by_fields(left: &TimestampTz, right: &TimestampTz)
    ensures order { ⟦<TimestampTz as Ord>⟧.cmp left.now right.now
        ≡ ordering_then (int_cmp left.now.offset right.now.offset) (int_cmp left.now.value right.now.value) }
    ensures partial_order { ⟦<TimestampTz as PartialOrd>⟧.partial_cmp left.now right.now
        ≡ Some (ordering_then (int_cmp left.now.offset right.now.offset) (int_cmp left.now.value right.now.value)) }
    ensures equal { IsTrue (⟦<TimestampTz as PartialEq>⟧.eq left.now right.now) ↔ (left.now ≡ right.now) }
{}

/// Intervals compare by their months, then by their days, and then by their microseconds.
pub fn intervals_compare_by_fields(left: &Interval, right: &Interval)
    ensures order { ⟦<Interval as Ord>⟧.cmp left.now right.now ≡ ordering_then
        (int_cmp left.now.months right.now.months)
        (ordering_then (int_cmp left.now.days right.now.days) (int_cmp left.now.micros right.now.micros)) }
    ensures partial_order { ⟦<Interval as PartialOrd>⟧.partial_cmp left.now right.now
        ≡ Some (ordering_then (int_cmp left.now.months right.now.months)
        (ordering_then (int_cmp left.now.days right.now.days) (int_cmp left.now.micros right.now.micros))) }
    ensures equal { IsTrue (⟦<Interval as PartialEq>⟧.eq left.now right.now) ↔ (left.now ≡ right.now) }
{}
