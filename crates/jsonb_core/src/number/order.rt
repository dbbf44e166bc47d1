//! The order of numbers, exact for every scale.
ghost use Rattle.std.specs.Prelude.{◌≡◌, ℤ, pos, ◌*ℤ◌, ◌^◌, SomeIff, FitsSigned, refl};
ghost use Rattle.std.specs.Cmp.{on_equiv, on_per, on_po, on_total, partial_equiv_from_equiv, eq_by_cmp_equiv, po};
ghost use Rattle.std.specs.Int.{w128};
ghost use Rattle.std.specs.Ordering.{int_cmp, on, eq_by_cmp, as_partial_cmp};
ghost use Rattle.jsonb_core.specs.Order.NumberLaws.{num_cmp_total};
ghost use Rattle.jsonb_spec.specs.Order.{num_cmp};
ghost use Rattle.jsonb_core.specs.View.{number_view};

use super::Number;
use std::cmp::Ordering;

impl Number {
    // The number is the first part over ten to the power of the second.
    fn parts(&self) -> (i128, u8)
        ensures whole { result.0 ≡ (number_view self.now).whole }
        ensures scale { result.1 ≡ (number_view self.now).scale }
    {
        match self {
            Number::Int64(value) => (i128::from(*value), 0),
            Number::UInt64(value) => (i128::from(*value), 0),
            Number::Decimal64(decimal) => (i128::from(decimal.value), decimal.scale),
            Number::Decimal128(decimal) => (decimal.value, decimal.scale),
        }
    }

    // The order, by the parts of both.
    #[inline(never)]
    fn cmp_parts(&self, other: &Number) -> Ordering
        ensures { result ≡ num_cmp (number_view self.now) (number_view other.now) }
    {
        let (a, a_scale) = self.parts();
        let (b, b_scale) = other.parts();
        if a_scale <= b_scale {
            cmp_scaled(a, b_scale - a_scale, b)
        } else {
            cmp_scaled(b, a_scale - b_scale, a).reverse()
        }
    }
}

// `value * 10^digits`, where 128 bits hold it.
fn scaled_up(value: i128, digits: u8) -> Option<i128>
    ensures { SomeIff result (FitsSigned w128 (value *ℤ pos (10 ^ digits)))
        (value *ℤ pos (10 ^ digits)) }
{
    let mut scaled = value;
    'digits: for _ in 0..digits {
        scaled = scaled.checked_mul(10)?;
    }
    Some(scaled)
}

// `a * 10^digits` beside `b`. Where the product leaves 128 bits, its sign decides.
fn cmp_scaled(a: i128, digits: u8, b: i128) -> Ordering
    ensures { result ≡ int_cmp (a *ℤ pos (10 ^ digits)) b }
{
    match scaled_up(a, digits) {
        Some(scaled) => scaled.cmp(&b),
        None => a.cmp(&0),
    }
}

impl PartialEq for Number {
    ghost eq = { on number_view (eq_by_cmp num_cmp) };

    ghost laws = { on_per number_view (partial_equiv_from_equiv (eq_by_cmp_equiv num_cmp_total)) };

    fn eq(&self, other: &Number) -> bool {
        self.cmp(other).is_eq()
    }
}

impl Eq for Number {
    ghost laws = { on_equiv number_view (eq_by_cmp_equiv num_cmp_total) };
}

impl PartialOrd for Number {
    ghost partial_cmp = { on number_view (as_partial_cmp num_cmp) };

    ghost laws = { on_po number_view (po num_cmp_total (λ m n. refl)) };

    fn partial_cmp(&self, other: &Number) -> Option<Ordering> {
        Some(self.cmp(other))
    }
}

impl Ord for Number {
    ghost cmp = { on number_view num_cmp };

    ghost total = { on_total number_view num_cmp_total };

    ghost matches_partial_cmp = { λ m n. refl };

    ghost matches_eq = { λ m n. refl };

    /// By value, exactly, whatever the variants and the scales are.
    #[inline(always)]
    fn cmp(&self, other: &Number) -> Ordering {
        // Two integers of one type, which most are, are compared as such.
        match (self, other) {
            (Number::UInt64(a), Number::UInt64(b)) => a.cmp(b),
            (Number::Int64(a), Number::Int64(b)) => a.cmp(b),
            _ => self.cmp_parts(other),
        }
    }
}
