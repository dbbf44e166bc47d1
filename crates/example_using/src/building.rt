//! Making a value.

ghost use Rattle.std.specs.Prelude.{◌≡◌, pos, [], ◌∷◌, IfOk};
ghost use Rattle.jsonb_spec.specs.Tree.{array, number, uint64, trees_of};
ghost use Rattle.jsonb_value.specs.View.{view};

use jsonb::{Decimal64, Number, Object, Result, Value};
use std::alloc::Global;

/// The array of two numbers.
pub fn pair<'a>(alloc: Global, left: u64, right: u64) -> Result<Value<'a>>
    ensures { IfOk result (λ v. view v ≡ array (trees_of (
        number (record { form = uint64; scale = 0; whole = pos left })
        ∷ number (record { form = uint64; scale = 0; whole = pos right }) ∷ []))) }
{
    let mut items = Vec::with_capacity(alloc, 2)?;
    items.push(Value::from(left))?;
    items.push(Value::from(right))?;
    Ok(Value::Array(items))
}

/// An object with a name, which is borrowed, and a price in cents, which becomes a decimal.
pub fn item<'a>(alloc: Global, name: &'a str, cents: i64) -> Result<Value<'a>> {
    let price = Number::Decimal64(Decimal64 {
        scale: 2,
        value: cents,
    });
    let mut members = Object::new(alloc);
    let price_key = String::from_str(alloc, "price")?;
    drop(members.insert(price_key, Value::Number(price))?);
    let name_key = String::from_str(alloc, "name")?;
    drop(members.insert(name_key, Value::from(name))?);
    Ok(Value::Object(members))
}
