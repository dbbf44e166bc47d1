//! Laws of numbers. Each is the contract of a function that does nothing.

ghost use Rattle.std.specs.Prelude.{ℕ, ℤ, ◌≡◌, ◌<◌, ◌^◌, FitsSigned};
ghost use Rattle.std.specs.Int.{w64};
ghost use Rattle.jsonb_spec.specs.Number.Cast.{HasValue, HasNearest};
ghost use Rattle.jsonb_spec.specs.Text.ReadsBack.{ReadsBack, ReadsBackAsDecimal};
ghost use Rattle.jsonb_spec.specs.Tree.{Num};
ghost use Rattle.jsonb_core.specs.View.{number_view};
ghost use Rattle.jsonb_core.specs.declared.number.Decimal64.{Decimal64};
ghost use Rattle.jsonb_core.specs.declared.number.Decimal128.{Decimal128};
ghost use Rattle.jsonb_core.specs.declared.number.Number.{Number};
ghost use Rattle.jsonb_core.specs.declared.number.Number.TheVariants.{Int64, UInt64};
ghost use Rattle.jsonb_spec.specs.Text.Range.{HasFewDigits};

use super::{Decimal64, Decimal128, Number};

/// An integer is the integer nearest to itself.
pub fn exact_casts_are_nearest()
    ensures { (x : Num) → (n : ℤ) → HasValue x n → HasNearest x n }
{}

/// What `{}` writes of an integer is a standard number text, and its number has the same value.
pub fn integer_texts_read_back()
    ensures signed { (z : ℤ) → FitsSigned w64 z → ReadsBack (number_view (Int64 z)) }
    ensures unsigned { (n : ℕ) → n < 2 ^ 64 → ReadsBack (number_view (UInt64 n)) }
{}

/// What `{}` writes of a number with at most 38 digits is an extended decimal text of the same scale and integer.
pub fn decimal_texts_read_back()
    ensures { (x : Num) → HasFewDigits x → ReadsBackAsDecimal x }
{}

/// A clone never fails, and it is the same number in the same form.
pub fn number_clones_are_the_same()
    ensures decimal64 { (a b : Decimal64) → ⟦<Decimal64 as Clone>⟧.is_infallible a
        × (⟦<Decimal64 as Clone>⟧.is_clone a b → b ≡ a) }
    ensures decimal128 { (a b : Decimal128) → ⟦<Decimal128 as Clone>⟧.is_infallible a
        × (⟦<Decimal128 as Clone>⟧.is_clone a b → b ≡ a) }
    ensures number { (a b : Number) → ⟦<Number as Clone>⟧.is_infallible a × (⟦<Number as Clone>⟧.is_clone a b → b ≡ a) }
{}
