//! Sort keys: bytes that compare as the values do.
ghost use Rattle.std.specs.Prelude.{ℕ, List, ◌≡◌, ◌↔◌, ◌+◌, ◌/◌, ◌^◌, ◌<◌, ◌≤◌, ◌++◌, ◌∷◌, [], length, take, unsigned_abs, IfErr, OnOk, string_bytes, IsTrue};
ghost use Rattle.std.specs.List.{sum_by};
ghost use Rattle.std.specs.Ordering.{ordering_then};
ghost use Rattle.std.specs.Str.{IsUtf8};
ghost use Rattle.jsonb_spec.specs.Order.{bytes_cmp, tree_cmp, Same};
ghost use Rattle.jsonb_spec.specs.Order.ByContent.{items_of, pairs_of};
ghost use Rattle.jsonb_spec.specs.Keys.{KeysAscend};
ghost use Rattle.jsonb_spec.specs.Proper.{IsProperNumber, IsProper, AreProper, HaveProperParts};
ghost use Rattle.jsonb_spec.specs.SortKey.{text_key, key_of_32_bits, key_of_64_bits, key_of, items_key, members_key};
ghost use Rattle.jsonb_spec.specs.SortKey.Kind as kind;
ghost use Rattle.jsonb_spec.specs.SortKey.Size.{exponent_len, member_len, most_pairs, zero_count};
ghost use Rattle.jsonb_spec.specs.Text.Appending.{Appends, AppendsAllOrNothing};
ghost use Rattle.jsonb_spec.specs.Tree.{Mark, Num, Tree, Trees, Members, number, string, array, object};
ghost use Rattle.jsonb_value.specs.View.{view, trees_view, members_view};

use super::{Object, Value};
use jsonb_core::error::{Error, Result};
use jsonb_core::parts::{append_bytes_key, append_number_key, append_text_key};
use jsonb_core::sort_key::kind;
use std::alloc::AllocError;

/// Keys compare as the values do, byte by byte; they are equal exactly where the values are; none is a prefix of
/// another; and so concatenated keys compare as tuples of the values.
pub fn sort_keys_order()
    ensures order { (t u : Tree) → IsProper t → IsProper u
        → bytes_cmp (key_of t) (key_of u) ≡ tree_cmp t u }
    ensures same { (t u : Tree) → IsProper t → IsProper u → (key_of t ≡ key_of u) ↔ Same t u }
    ensures no_front { (t u : Tree) → IsProper t → IsProper u → (more : List ℕ)
        → key_of u ≡ key_of t ++ more → more ≡ [] }
    ensures joined { (t u : Tree) → IsProper t → IsProper u → (x y : List ℕ)
        → bytes_cmp (key_of t ++ x) (key_of u ++ y) ≡ ordering_then (tree_cmp t u) (bytes_cmp x y) }
{}

/// How many bytes keys have. A number has a byte for each two digits, and one for its exponent, or two below 10^-31. So
/// it has at most 11 bytes where it has 64 bits, 21 where it has 128, and one more below 10^-31.
pub fn sort_key_sizes()
    ensures zero { (n : Num) → unsigned_abs n.whole ≡ 0 → length (key_of (number n)) ≡ 1 }
    ensures digits { (n : Num) → IsProperNumber n → (count : ℕ) → unsigned_abs n.whole < 10 ^ count
        → length (key_of (number n)) ≤ exponent_len n + (count + 1) / 2 }
    ensures number { (n : Num) → IsProperNumber n
        → length (key_of (number n)) ≤ exponent_len n + most_pairs n.form }
    ensures string { (mark : Mark) → (bytes : List ℕ)
        → length (key_of (string mark bytes)) ≡ length bytes + zero_count bytes + 3 }
    ensures array { (ts : Trees) → length (key_of (array ts)) ≡ sum_by (λ t. length (key_of t)) (items_of ts) + 2 }
    ensures object { (ms : Members) → length (key_of (object ms)) ≡ sum_by member_len (pairs_of ms) + 3 }
{}

// The result of a function that appends. After an error the buffer may hold a part of the key.
type Appended = std::result::Result<(), AllocError>;

impl Value<'_> {
    /// Appends the value's sort key: bytes whose order is the order of values. After an error `buf` has the same bytes
    /// as before.
    ///
    /// The time is linear in the key, and the only allocations are those of `buf`.
    ///
    /// ```
    /// let (mut one, mut two) = (Vec::new(rt.alloc()), Vec::new(rt.alloc()));
    /// jsonb::parse_value(rt.alloc(), b"[1, 2]")?.write_sort_key(&mut one)?;
    /// jsonb::parse_value(rt.alloc(), b"[1, 10]")?.write_sort_key(&mut two)?;
    /// assert!(rt; one.as_slice() < two.as_slice());
    /// ```
    ///
    /// # Errors
    ///
    /// `OutOfMemory` only where `buf` lacks the capacity for the whole key.
    pub fn write_sort_key(&self, buf: &mut Vec<u8>) -> Result<()>
        ensures appends { AppendsAllOrNothing result buf.old buf.new (key_of (view self.now)) }
        ensures errors { IfErr result (λ e. e ≡ Error.OutOfMemory) }
        ensures proper { OnOk result (IsProper (view self.now)) }
        // The key compares with that of any other value as the values do.
        ensures order { OnOk result ((u : Tree) → IsProper u
            → bytes_cmp (key_of (view self.now)) (key_of u) ≡ tree_cmp (view self.now) u) }
    {
        let old_len = buf.len();
        if append(self, buf).is_err() {
            buf.truncate(old_len);
            return Err(Error::OutOfMemory);
        }
        Ok(())
    }
}

// Inlined into the loops, so that only containers are calls there.
#[inline(always)]
#[cycle(append)]
fn append<'a>(value: &Value<'a>, buf: &mut Vec<u8>) -> Appended
    ensures appends { Appends result buf.old buf.new (key_of (view value.now)) }
    ensures proper { OnOk result (IsProper (view value.now)) }
{
    match value {
        Value::Binary(bytes) => append_text(kind::BINARY, *bytes, buf),
        Value::Date(date) => append_32_bits(kind::DATE, date.value, buf),
        Value::Timestamp(time) => append_64_bits(kind::TIMESTAMP, time.value, buf),
        Value::TimestampTz(time) => append_zoned(time.offset, time.value, buf),
        Value::Interval(interval) => append_interval(
            interval.months,
            interval.days,
            interval.micros,
            buf,
        ),
        Value::Bool(false) => buf.extend_from_slice(&[kind::FALSE]),
        Value::Bool(true) => buf.extend_from_slice(&[kind::TRUE]),
        Value::Number(number) => append_number_key(number, buf),
        Value::String(text) => append_text(kind::STRING, text.as_bytes(), buf),
        Value::Object(members) => append_members(members, buf),
        Value::Array(items) => append_items(items, buf),
        Value::Null => buf.extend_from_slice(&[kind::NULL]),
    }
}

#[cycle(append)]
fn append_items<'a>(items: &Vec<Value<'a>>, buf: &mut Vec<u8>) -> Appended
    ensures appends { Appends result buf.old buf.new (kind.array ∷ items_key (trees_view items.now.items)) }
    ensures proper { OnOk result (AreProper (trees_view items.now.items)) }
{
    buf.extend_from_slice(&[kind::ARRAY])?;
    'items: for item in items {
        append(item, buf)?;
    }
    buf.extend_from_slice(&[kind::TERMINATOR])
}

#[cycle(append)]
fn append_members<'a>(members: &Object<'a>, buf: &mut Vec<u8>) -> Appended
    ensures appends { Appends result buf.old buf.new (kind.object ∷ members_key (members_view members.now.entries)) }
    ensures proper { OnOk result (KeysAscend (members_view members.now.entries)
        × HaveProperParts (members_view members.now.entries)) }
{
    buf.extend_from_slice(&[kind::OBJECT])?;
    'members: for (key, value) in members.iter() {
        append_key(key, buf)?;
        append(value, buf)?;
    }
    buf.extend_from_slice(&[kind::TERMINATOR, kind::TERMINATOR])
}

// Appends the kind and a text.
fn append_text(kind: u8, bytes: &[u8], buf: &mut Vec<u8>) -> Appended
    ensures appends { Appends result buf.old buf.new (kind ∷ text_key bytes.now) }
{
    buf.extend_from_slice(&[kind])?;
    append_bytes_key(bytes, buf)
}

// Appends a member's key.
#[inline(always)]
fn append_key(key: &String, buf: &mut Vec<u8>) -> Appended
    ensures appends { Appends result buf.old buf.new (text_key (string_bytes key.now)) }
    ensures utf8 { IsUtf8 (string_bytes key.now) }
{
    append_text_key(key.as_str(), buf)
}

// The bytes of an integer of 32 bits.
fn key_of_32_bits(value: i32) -> [u8; 4]
    ensures { result ≡ key_of_32_bits value }
{
    let moved = (i64::from(value) + 0x8000_0000).unsigned_abs() as u32;
    moved.to_be_bytes()
}

// The bytes of an integer of 64 bits.
fn key_of_64_bits(value: i64) -> [u8; 8]
    ensures { result ≡ key_of_64_bits value }
{
    let moved = (i128::from(value) + 0x8000_0000_0000_0000).unsigned_abs() as u64;
    moved.to_be_bytes()
}

// Appends the kind and an integer.
fn append_32_bits(kind: u8, value: i32, buf: &mut Vec<u8>) -> Appended
    ensures appends { Appends result buf.old buf.new (kind ∷ key_of_32_bits value) }
{
    buf.extend_from_slice(&[kind])?;
    buf.extend_from_slice(&key_of_32_bits(value))
}

fn append_64_bits(kind: u8, value: i64, buf: &mut Vec<u8>) -> Appended
    ensures appends { Appends result buf.old buf.new (kind ∷ key_of_64_bits value) }
{
    buf.extend_from_slice(&[kind])?;
    buf.extend_from_slice(&key_of_64_bits(value))
}

fn append_zoned(offset: i32, micros: i64, buf: &mut Vec<u8>) -> Appended
    ensures appends { Appends result buf.old buf.new (kind.timestamp_tz ∷ key_of_32_bits offset
        ++ key_of_64_bits micros) }
{
    append_32_bits(kind::TIMESTAMP_TZ, offset, buf)?;
    buf.extend_from_slice(&key_of_64_bits(micros))
}

fn append_interval(months: i32, days: i32, micros: i64, buf: &mut Vec<u8>) -> Appended
    ensures appends { Appends result buf.old buf.new
        (kind.interval ∷ key_of_32_bits months ++ (key_of_32_bits days ++ key_of_64_bits micros)) }
{
    append_32_bits(kind::INTERVAL, months, buf)?;
    buf.extend_from_slice(&key_of_32_bits(days))?;
    buf.extend_from_slice(&key_of_64_bits(micros))
}
