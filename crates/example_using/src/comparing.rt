//! Comparing values, and sorting them.

ghost use Rattle.std.specs.Prelude.{◌≡◌, ◌↔◌, ◌++◌, IfOk, IsTrue};
ghost use Rattle.std.specs.Ordering.{ordering_then};
ghost use Rattle.jsonb_spec.specs.Grammar.{IsDocument};
ghost use Rattle.jsonb_spec.specs.Mode.{extended};
ghost use Rattle.jsonb_spec.specs.Order.{bytes_cmp, tree_cmp, Same};
ghost use Rattle.jsonb_spec.specs.SortKey.{key_of};
ghost use Rattle.jsonb_spec.specs.Tree.{Tree};
ghost use Rattle.jsonb_value.specs.View.{view};
ghost use Rattle.jsonb_spec.specs.Proper.{IsProper};

use jsonb::value::sort_keys_order;
use jsonb::{Result, Value};
use std::alloc::Global;

/// Whether two texts are documents of equal values.
pub fn are_equal(alloc: Global, left: &[u8], right: &[u8]) -> Result<bool>
    ensures { IfOk result (λ b. (t u : Tree) → IsDocument extended left.now t → IsDocument extended right.now u
        → IsTrue b ↔ Same t u) }
{
    let left = jsonb::parse_value(alloc, left)?;
    let right = jsonb::parse_value(alloc, right)?;
    Ok(left == right)
}

/// The values of the texts, the least first.
pub fn sort_documents<'a>(alloc: Global, texts: &[&'a [u8]]) -> Result<Vec<Value<'a>>> {
    let mut values = Vec::with_capacity(alloc, texts.len())?;
    for text in texts {
        values.push(jsonb::parse_value(alloc, text)?)?;
    }
    values.sort()?;
    Ok(values)
}

/// The sort key of a pair of values. It compares with that of another pair as the pairs do: by the first values, and
/// where these are equal by the second.
pub fn pair_key<'a>(alloc: Global, first: &Value<'a>, second: &Value<'a>) -> Result<Vec<u8>>
    ensures key { IfOk result (λ key. key.items ≡ key_of (view first.now) ++ key_of (view second.now)) }
    ensures order { IfOk result (λ key. (t u : Tree) → IsProper t → IsProper u
        → bytes_cmp key.items (key_of t ++ key_of u)
        ≡ ordering_then (tree_cmp (view first.now) t) (tree_cmp (view second.now) u)) }
{
    // The law's clauses serve the proof. It does nothing.
    sort_keys_order();
    let mut key = Vec::new(alloc);
    first.write_sort_key(&mut key)?;
    second.write_sort_key(&mut key)?;
    Ok(key)
}
