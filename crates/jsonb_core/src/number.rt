//! Numbers: 64-bit integers, and decimals of 64 and 128 bits.
mod arithmetic;
mod cast;
mod laws;
mod order;
mod powers;
mod sort_key;
mod text;

pub use laws::{
    decimal_texts_read_back, exact_casts_are_nearest, integer_texts_read_back,
    number_clones_are_the_same,
};
pub use powers::power_of_ten;

/// The number `value / 10^scale`, for every scale and value.
#[derive(Clone, Copy, Debug)]
pub struct Decimal64 {
    pub scale: u8,
    pub value: i64,
}

/// The number `value / 10^scale`, for every scale and value.
#[derive(Clone, Copy, Debug)]
pub struct Decimal128 {
    pub scale: u8,
    pub value: i128,
}

/// A JSON number.
#[derive(Clone, Copy, Debug)]
pub enum Number {
    Int64(i64),
    UInt64(u64),
    Decimal64(Decimal64),
    Decimal128(Decimal128),
}

impl Number {
    ghost use Rattle.std.specs.Prelude.{◌≡◌, ◌<◌, ◌≤◌, ◌^◌, false, unsigned_abs};
    ghost use Rattle.std.specs.Int.{is_negative};
    ghost use Rattle.jsonb_spec.specs.Proper.{FitsWhole};
    ghost use Rattle.jsonb_core.specs.View.{number_view};

    pub(crate) fn scale(&self) -> u8
        ensures { result ≡ (number_view self.now).scale }
    {
        match self {
            Number::Int64(_) | Number::UInt64(_) => 0,
            Number::Decimal64(d) => d.scale,
            Number::Decimal128(d) => d.scale,
        }
    }

    // Whether the integer is negative, and its digits' value.
    pub(crate) fn sign_and_magnitude(&self) -> (bool, u128)
        ensures sign { result.0 ≡ is_negative (number_view self.now).whole }
        ensures magnitude { result.1 ≡ unsigned_abs (number_view self.now).whole }
        ensures bound { result.1 ≤ 2 ^ 127 }
        ensures positive_bound { result.0 ≡ false → result.1 < 2 ^ 127 }
        ensures fits { FitsWhole (number_view self.now).form (number_view self.now).whole }
    {
        match self {
            Number::Int64(n) => (*n < 0, u128::from(n.unsigned_abs())),
            Number::UInt64(n) => (false, u128::from(*n)),
            Number::Decimal64(d) => (d.value < 0, u128::from(d.value.unsigned_abs())),
            Number::Decimal128(d) => (d.value < 0, d.value.unsigned_abs()),
        }
    }
}

impl Default for Number {
    ghost use Rattle.std.specs.Prelude.{◌≡◌};
    ghost use Rattle.jsonb_core.specs.declared.number.Number.TheVariants.{UInt64};

    ghost is_default = { λ n. n ≡ UInt64 0 };

    fn default() -> Number {
        Number::UInt64(0)
    }
}
