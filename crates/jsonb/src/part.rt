//! The part of a value at the keys of a path.
ghost use Rattle.std.specs.Prelude.{◌≡◌, map, string_bytes, IfNone, IfSome};
ghost use Rattle.std.specs.Option.{option_map};
ghost use Rattle.jsonb_spec.specs.Tree.{Tree};
ghost use Rattle.jsonb_value.specs.View.{view};
ghost use Rattle.jsonb_spec.specs.PartAt.{IsAt, IsChild, child_at, part_at};

use jsonb_path::index_of;
use jsonb_value::value::Value;

/// The part of the value at the path of these keys: the member with the first key, or the item whose index the key is
/// in decimal digits, in it what the second key leads to, and so on. None where there is none.
///
/// ```
/// let value = jsonb::parse_value(rt.alloc(), b"{\"b\": [1, 2.50]}")?;
/// let path = [String::from_str(rt.alloc(), "b")?, String::from_str(rt.alloc(), "1")?];
/// assert!(rt; jsonb::part_at(&value, &path).is_some_and(|part| part.is_number()));
/// ```
pub fn part_at<'v, 'a>(value: &'v Value<'a>, path: &[String]) -> Option<&'v Value<'a>>
    ensures some { IfSome result (λ part. IsAt (view value.now) (map string_bytes path.now) (view part.now)) }
    ensures only { IfSome result (λ part. (t : Tree) → IsAt (view value.now) (map string_bytes path.now) t
        → t ≡ view part.now) }
    ensures none { IfNone result ((t : Tree) → IsAt (view value.now) (map string_bytes path.now) t → ⊥) }
    ensures computed { option_map (λ part. view part.now) result
        ≡ part_at (map string_bytes path.now) (view value.now) }
{
    let Some((key, others)) = path.split_first() else {
        return Some(value);
    };
    let Some(child) = child(value, key.as_str()) else {
        return None;
    };
    part_at(child, others)
}

// The member of that key, or the item of that index.
fn child<'v, 'a>(value: &'v Value<'a>, key: &str) -> Option<&'v Value<'a>>
    ensures some { IfSome result (λ part. IsChild (view value.now) key.now (view part.now)) }
    ensures none { IfNone result ((t : Tree) → IsChild (view value.now) key.now t → ⊥) }
    ensures computed { option_map (λ part. view part.now) result ≡ child_at key.now (view value.now) }
{
    let Some(_) = value.array_length() else {
        return value.get_by_name(key);
    };
    let Some(index) = index_of(key) else {
        return None;
    };
    value.get_by_index(index)
}
