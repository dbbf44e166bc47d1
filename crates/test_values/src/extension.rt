// Values beyond JSON: their texts and their sort keys.
use jsonb_core::error::{Error, Result as Answer};
use jsonb_value::extension::{Date, ExtensionValue, Interval, Timestamp, TimestampTz};
use jsonb_value::value::Value;
use std::alloc::Global;
use std::test::Fail;

pub(crate) fn interval(months: i32, days: i32, micros: i64) -> Interval {
    Interval {
        months,
        days,
        micros,
    }
}

// Whether this is written.
fn is_written(alloc: Global, value: &Value, text: &str) -> bool {
    let mut buf = Vec::new(alloc);
    value.write_text(&mut buf).is_ok() && buf.as_slice() == text.as_bytes()
}

#[test]
fn values_beyond_json_are_written_in_quotes(rt: HostRuntime) {
    let binary = Value::Binary(b"\x00\xaf");
    assert!(rt; is_written(rt.alloc(), &binary, r#""00AF""#));
    let none = Value::Interval(interval(0, 0, 0));
    assert!(rt; is_written(rt.alloc(), &none, r#""00:00:00""#));
}

// Appends the value's text, and says whether the buffer holds this then.
fn is_appended(buf: &mut Vec<u8>, value: ExtensionValue, wanted: &[u8]) -> bool {
    value.write_text(buf).is_ok() && buf.as_slice() == wanted
}

#[test]
fn texts_are_appended(rt: HostRuntime) {
    let mut buf = Vec::new(rt.alloc());
    let binary = ExtensionValue::Binary(b"\x00\xaf");
    assert!(rt; is_appended(&mut buf, binary, b"00AF"));
    let days = ExtensionValue::Interval(interval(0, 2, 0));
    assert!(rt; is_appended(&mut buf, days, b"00AF2 days"));
}

fn has_sort_key(alloc: Global, value: &Value, wanted: &[u8]) -> bool {
    let mut key = Vec::new(alloc);
    value.write_sort_key(&mut key).is_ok() && key.as_slice() == wanted
}

// Values with their sort keys.
#[test]
fn keys_beyond_json(rt: HostRuntime) {
    for (name, value, key) in [
        (
            "binary data",
            Value::Binary(b"\x00\xff"),
            b"\x10\x00\xff\xff\x00\x01" as &[u8],
        ),
        (
            "a date",
            Value::Date(Date { value: -1 }),
            b"\x11\x7f\xff\xff\xff",
        ),
        (
            "a time",
            Value::Timestamp(Timestamp { value: 1 }),
            b"\x12\x80\x00\x00\x00\x00\x00\x00\x01",
        ),
        (
            "a time with a zone",
            Value::TimestampTz(TimestampTz {
                offset: -1,
                value: 1,
            }),
            b"\x13\x7f\xff\xff\xff\x80\x00\x00\x00\x00\x00\x00\x01",
        ),
        (
            "an interval",
            Value::Interval(interval(1, -1, 0)),
            b"\x14\x80\x00\x00\x01\x7f\xff\xff\xff\x80\x00\x00\x00\x00\x00\x00\x00",
        ),
    ] {
        assert!(rt; has_sort_key(rt.alloc(), &value, key), "{name}");
    }
}

// Whether the call fails since a value of this type has no such answer.
fn is_unexpected(answer: Answer<Value>) -> bool {
    matches!(answer, Err(Error::UnexpectedType))
}

#[test]
fn binary_data_is_not_owned(rt: HostRuntime) -> Result<(), Fail> {
    let items = Value::Array(vec![in rt.alloc(); Value::Null, Value::Binary(b"a")]?);
    assert!(rt; is_unexpected(items.to_owned_value(rt.alloc())));
    Ok(())
}
