//! Arithmetic of 64-bit integers, exact or an error.
ghost use Rattle.std.specs.Prelude.{◌≡◌, ℤ, Some, None, IfSome, IfNone, FitsSigned};
ghost use Rattle.std.specs.Int.{w128};
ghost use Rattle.std.specs.Option.{SomeIff};
ghost use Rattle.jsonb_core.specs.Number.Arithmetic.{whole_of, IsMessage, AnswersInt64, AnswersUInt64, AnswersAs, common_kind, kind_by_sign, IsWithin65Bits, difference_overflow, AnswersRemainder, IsSum, IsProduct, IsDifference, IsRest, IsNegation};

use crate::error::{Error, Result};
use crate::number::{Decimal64, Decimal128, Number};
use std::alloc::Global;

// The integer variant of an answer.
#[derive(Clone, Copy)]
enum Kind {
    Signed,
    Unsigned,
}

#[derive(Clone, Copy)]
struct Operands {
    kind: Kind,
    left: i128,
    right: i128,
}

fn message(alloc: Global, text: &str) -> Error
    ensures { IsMessage text.now result }
{
    match String::from_str(alloc, text) {
        Ok(text) => Error::Message(text),
        Err(_) => Error::OutOfMemory,
    }
}

fn int64_or(alloc: Global, value: Option<i128>, overflow: &str) -> Result<Number>
    ensures { (z : ℤ) → SomeIff value (FitsSigned w128 z) z
        → AnswersInt64 overflow.now z result }
{
    if let Some(value) = value
        && let Ok(n) = i64::try_from(value)
    {
        return Ok(Number::Int64(n));
    }
    Err(message(alloc, overflow))
}

fn uint64_or(alloc: Global, value: Option<i128>, overflow: &str) -> Result<Number>
    ensures { (z : ℤ) → SomeIff value (FitsSigned w128 z) z
        → AnswersUInt64 overflow.now z result }
{
    if let Some(value) = value
        && let Ok(n) = u64::try_from(value)
    {
        return Ok(Number::UInt64(n));
    }
    Err(message(alloc, overflow))
}

// The value in the variant of this kind. It is `None` where it is past 128 bits.
fn number_of_kind(alloc: Global, kind: Kind, value: Option<i128>) -> Result<Number>
    ensures { (z : ℤ) → SomeIff value (FitsSigned w128 z) z → AnswersAs kind z result }
{
    match kind {
        Kind::Signed => int64_or(alloc, value, "Int64 overflow"),
        Kind::Unsigned => uint64_or(alloc, value, "UInt64 overflow"),
    }
}

fn kind_by_sign(a: i64) -> Kind
    ensures { result ≡ kind_by_sign a }
{
    if a < 0 { Kind::Signed } else { Kind::Unsigned }
}

// Two integers with the kind of their sum; `None` where one is a decimal.
fn integer_operands(x: &Number, y: &Number) -> Option<Operands>
    ensures none { IfNone result (common_kind x.now y.now ≡ None) }
    ensures kind { IfSome result (λ o. common_kind x.now y.now ≡ Some o.kind) }
    ensures left { IfSome result (λ o. o.left ≡ whole_of x.now) }
    ensures right { IfSome result (λ o. o.right ≡ whole_of y.now) }
    ensures small { IfSome result
        (λ o. IsWithin65Bits o.left × IsWithin65Bits o.right) }
{
    let (kind, left, right) = match (x, y) {
        (Number::Int64(a), Number::Int64(b)) => (Kind::Signed, i128::from(*a), i128::from(*b)),
        (Number::UInt64(a), Number::UInt64(b)) => (Kind::Unsigned, i128::from(*a), i128::from(*b)),
        (Number::Int64(a), Number::UInt64(b)) => (kind_by_sign(*a), i128::from(*a), i128::from(*b)),
        (Number::UInt64(a), Number::Int64(b)) => (kind_by_sign(*b), i128::from(*a), i128::from(*b)),
        _ => return None,
    };
    Some(Operands { kind, left, right })
}

fn difference_overflow(x: &Number, y: &Number) -> &'static str
    ensures { result.now ≡ difference_overflow x.now y.now }
{
    match (x, y) {
        (Number::UInt64(_), Number::UInt64(_)) => "UInt64 overflow",
        _ => "Int64 overflow",
    }
}

fn remainder(alloc: Global, kind: Kind, left: i128, right: i128) -> Result<Number>
    requires { IsWithin65Bits left }
    ensures { AnswersRemainder kind left right result }
{
    if right == 0 {
        return Err(message(alloc, "Division by zero"));
    }
    if left == i128::from(i64::MIN) && right == -1 {
        return Err(message(alloc, "Int64 overflow"));
    }
    number_of_kind(alloc, kind, Some(left % right))
}

impl Number {
    /// The exact sum of two integers: an `Int64` of two `Int64`s or where the `Int64` is negative,
    /// and else a `UInt64`.
    ///
    /// ```
    /// let sum = Number::Int64(-1).add(rt.alloc(), Number::UInt64(3))?;
    /// assert_eq!(rt; sum.as_i64(), Some(2));
    /// ```
    ///
    /// # Errors
    /// `UnexpectedType` for a decimal; the message `Int64 overflow` or `UInt64 overflow`, by the
    /// type of the sum; `OutOfMemory` where a message finds no memory.
    pub fn add(&self, alloc: Global, other: Number) -> Result<Number>
        ensures { IsSum self.now other result }
    {
        let Some(Operands { kind, left, right }) = integer_operands(self, &other) else {
            return Err(Error::UnexpectedType);
        };
        number_of_kind(alloc, kind, Some(left + right))
    }

    /// The exact difference of two integers, an `Int64`.
    ///
    /// # Errors
    /// `UnexpectedType` for a decimal; the message `UInt64 overflow` for two `UInt64`s, and
    /// `Int64 overflow` for others; `OutOfMemory` where a message finds no memory.
    pub fn sub(&self, alloc: Global, other: Number) -> Result<Number>
        ensures { IsDifference self.now other result }
    {
        let Some(Operands { left, right, .. }) = integer_operands(self, &other) else {
            return Err(Error::UnexpectedType);
        };
        int64_or(alloc, Some(left - right), difference_overflow(self, &other))
    }

    /// The exact product of two integers, of the type of their sum.
    ///
    /// # Errors
    /// As for the sum, `OutOfMemory` among them.
    pub fn mul(&self, alloc: Global, other: Number) -> Result<Number>
        ensures { IsProduct self.now other result }
    {
        let Some(Operands { kind, left, right }) = integer_operands(self, &other) else {
            return Err(Error::UnexpectedType);
        };
        number_of_kind(alloc, kind, left.checked_mul(right))
    }

    /// The remainder of two integers, with the sign of the first, of the type of their sum.
    ///
    /// # Errors
    /// `UnexpectedType` for a decimal; the message `Division by zero`; `Int64 overflow` for the
    /// least `Int64` by -1; `OutOfMemory` where a message finds no memory.
    pub fn rem(&self, alloc: Global, other: Number) -> Result<Number>
        ensures { IsRest self.now other result }
    {
        let Some(Operands { kind, left, right }) = integer_operands(self, &other) else {
            return Err(Error::UnexpectedType);
        };
        remainder(alloc, kind, left, right)
    }

    /// The opposite number: an `Int64` of an integer, and of a decimal the same type and scale.
    ///
    /// # Errors
    /// The message `Int64 overflow`, `Decimal64 overflow` or `Decimal128 overflow`; `OutOfMemory` where a message finds
    /// no memory.
    pub fn neg(&self, alloc: Global) -> Result<Number>
        ensures { IsNegation self.now result }
    {
        match self {
            Number::Int64(a) => match a.checked_neg() {
                Some(value) => Ok(Number::Int64(value)),
                None => Err(message(alloc, "Int64 overflow")),
            },
            Number::UInt64(a) => match i64::try_from(*a) {
                Ok(value) => Ok(Number::Int64(-value)),
                Err(_) => Err(message(alloc, "Int64 overflow")),
            },
            Number::Decimal64(d) => match d.value.checked_neg() {
                Some(value) => Ok(Number::Decimal64(Decimal64 { value, ..*d })),
                None => Err(message(alloc, "Decimal64 overflow")),
            },
            Number::Decimal128(d) => match d.value.checked_neg() {
                Some(value) => Ok(Number::Decimal128(Decimal128 { value, ..*d })),
                None => Err(message(alloc, "Decimal128 overflow")),
            },
        }
    }
}
