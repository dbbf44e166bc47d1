//! The text of a number.
ghost use Rattle.std.specs.Prelude.{◌≡◌, ◌+◌, ◌-◌, ◌≤◌, ◌<◌, ◌++◌, ◌^◌, drop, length, replicate, pos, Some, IsAscii, IsOk, vec_len};
ghost use Rattle.std.specs.Vec.{vec_capacity};
ghost use Rattle.std.specs.Fmt.{decimal, sign_text, WritesOnOk};
ghost use Rattle.jsonb_spec.specs.Ascii as ascii;
ghost use Rattle.jsonb_spec.specs.Text.Appending.{AppendsAllOrNothing};
ghost use Rattle.jsonb_spec.specs.Text.NumberText.{number_text, text_of_parts, with_point, zero_padded};
ghost use Rattle.jsonb_spec.specs.Proper.{IsProperNumber};
ghost use Rattle.jsonb_core.specs.TextParts.{bytes_of_parts};
ghost use Rattle.jsonb_core.specs.View.{number_view};

use crate::number::Number;
use crate::parts::sign_of;
use itoa::{Buffer, write_digits};
use std::alloc::AllocError;
use std::fmt;

// The pieces of the text, in their order.
#[derive(Clone, Copy)]
struct TextParts<'a> {
    sign: &'a str,
    front: &'a str,
    point: &'a str,
    zeros: usize,
    back: &'a str,
}

impl<'a> TextParts<'a> {
    // The text of an integer, which has no point.
    fn whole(digits: &'a str) -> TextParts<'a>
        ensures { bytes_of_parts result ≡ digits.now }
    {
        TextParts {
            sign: "",
            front: digits,
            point: "",
            zeros: 0,
            back: "",
        }
    }

    fn len(&self) -> usize
        requires { length (bytes_of_parts self.now) < 2 ^ 64 }
        ensures { result ≡ length (bytes_of_parts self.now) }
    {
        self.sign.len() + self.front.len() + self.point.len() + self.zeros + self.back.len()
    }

    fn append_to(&self, buf: &mut Vec<u8>) -> Result<(), AllocError>
        requires { vec_len buf.old + length (bytes_of_parts self.now) ≤ vec_capacity buf.old }
        ensures succeeds { IsOk result }
        ensures items { buf.new.items ≡ buf.old.items ++ bytes_of_parts self.now }
        ensures capacity { vec_capacity buf.old ≤ vec_capacity buf.new }
    {
        buf.extend_from_slice(self.sign.as_bytes())?;
        buf.extend_from_slice(self.front.as_bytes())?;
        buf.extend_from_slice(self.point.as_bytes())?;
        buf.resize(buf.len() + self.zeros, b'0')?;
        buf.extend_from_slice(self.back.as_bytes())
    }
}

fn signed_text(n: i64, buffer: &mut Buffer) -> &str
    ensures text { result.now ≡ text_of_parts 0 n }
    ensures short { length result.now ≤ 40 }
{
    buffer.format(n)
}

fn unsigned_text(n: u64, buffer: &mut Buffer) -> &str
    ensures text { result.now ≡ text_of_parts 0 (pos n) }
    ensures short { length result.now ≤ 40 }
{
    buffer.format(n)
}

// The pieces of a decimal, from its sign and the digits of its integer.
fn decimal_parts(scale: u8, negative: bool, digits: &str) -> TextParts<'_>
    requires ascii { IsAscii digits.now }
    requires some_digit { 0 < length digits.now }
    requires few_digits { length digits.now ≤ 40 }
    ensures text { bytes_of_parts result
        ≡ sign_text negative ++ with_point scale (zero_padded (scale + 1) digits.now) }
    ensures short { length (bytes_of_parts result) ≤ 258 }
{
    let sign = sign_of(negative);
    let exponents = scale as usize;
    if exponents == 0 {
        return TextParts {
            sign,
            front: digits,
            point: "",
            zeros: 0,
            back: "",
        };
    }
    if exponents < digits.len() {
        let (front, back) = digits.split_at(digits.len() - exponents);
        return TextParts {
            sign,
            front,
            point: ".",
            zeros: 0,
            back,
        };
    }
    TextParts {
        sign,
        front: "0",
        point: ".",
        zeros: exponents - digits.len(),
        back: digits,
    }
}

// Writes the digits to the end of a row of zeros, and returns where they begin with a digit before the point.
#[inline(always)]
fn write_padded(scale: usize, magnitude: u64, row: &mut [u8; 64]) -> usize
    requires zeros { row.old ≡ replicate 64 ascii.digit_zero }
    requires few { scale ≤ 38 }
    ensures digits { drop result row.new ≡ zero_padded (scale + 1) (decimal magnitude) }
    ensures space { 2 ≤ result }
    ensures before { result + scale < 64 }
{
    let start = write_digits(magnitude, row, 64);
    if start + scale < 64 {
        return start;
    }
    63 - scale
}

// Puts a point into the digits from an index on, and moves those before it by one. Returns where the first is.
#[inline(always)]
fn put_point(scale: usize, start: usize, row: &mut [u8; 64]) -> usize
    requires some { 0 < scale }
    requires space { 2 ≤ start }
    requires before { start + scale < 64 }
    ensures text { drop result row.new ≡ with_point scale (drop start row.old) }
    ensures space { (1 ≤ result) × (result ≤ 64) }
{
    let point = 64 - scale;
    row.copy_within(start..point, start - 1);
    row[point - 1] = b'.';
    start - 1
}

// Puts a minus before an index where the number is negative, and returns where the text begins.
#[inline(always)]
fn put_sign(negative: bool, start: usize, row: &mut [u8; 64]) -> usize
    requires space { (1 ≤ start) × (start ≤ 64) }
    ensures text { drop result row.new ≡ sign_text negative ++ drop start row.old }
    ensures within { result ≤ 64 }
{
    if !negative {
        return start;
    }
    row[start - 1] = b'-';
    start - 1
}

// Appends what is in a row from an index on.
#[inline(always)]
fn append_row(row: &[u8; 64], start: usize, buf: &mut Vec<u8>) -> Result<(), AllocError>
    requires { start ≤ 64 }
    ensures appends { AppendsAllOrNothing result buf.old buf.new (drop start row.now) }
{
    buf.extend_from_slice(&row[start..])
}

// Appends the text of a decimal of few digits, which is made in a row.
#[inline(always)]
fn append_short(
    negative: bool,
    scale: usize,
    magnitude: u64,
    buf: &mut Vec<u8>,
) -> Result<(), AllocError>
    requires { (0 < scale) × (scale ≤ 38) }
    ensures appends { AppendsAllOrNothing result buf.old buf.new
        (sign_text negative ++ with_point scale (zero_padded (scale + 1) (decimal magnitude))) }
{
    let mut row = [b'0'; 64];
    let digits = write_padded(scale, magnitude, &mut row);
    let pointed = put_point(scale, digits, &mut row);
    let start = put_sign(negative, pointed, &mut row);
    append_row(&row, start, buf)
}

impl Number {
    fn text_parts<'a>(&self, buffer: &'a mut Buffer) -> TextParts<'a>
        ensures text { bytes_of_parts result ≡ number_text (number_view self.now) }
        ensures short { length (bytes_of_parts result) ≤ 258 }
        ensures proper { IsProperNumber (number_view self.now) }
    {
        match self {
            Number::Int64(n) => TextParts::whole(signed_text(*n, buffer)),
            Number::UInt64(n) => TextParts::whole(unsigned_text(*n, buffer)),
            Number::Decimal64(_) | Number::Decimal128(_) => {
                let (negative, magnitude) = self.sign_and_magnitude();
                decimal_parts(self.scale(), negative, buffer.format(magnitude))
            }
        }
    }

    // Appends the text that `{}` writes. An integer takes one copy of its digits.
    pub(crate) fn append_text(&self, buf: &mut Vec<u8>) -> Result<(), AllocError>
        ensures appends { AppendsAllOrNothing result buf.old buf.new (number_text (number_view self.now)) }
        ensures proper { IsProperNumber (number_view self.now) }
    {
        match self {
            Number::Int64(n) => {
                let mut buffer = Buffer::new();
                buf.extend_from_slice(signed_text(*n, &mut buffer).as_bytes())
            }
            Number::UInt64(n) => {
                let mut buffer = Buffer::new();
                buf.extend_from_slice(unsigned_text(*n, &mut buffer).as_bytes())
            }
            Number::Decimal64(_) | Number::Decimal128(_) => self.append_decimal(buf),
        }
    }

    // Appends the text of a number. One that has a point and few digits is made in a row.
    #[inline(never)]
    fn append_decimal(&self, buf: &mut Vec<u8>) -> Result<(), AllocError>
        ensures appends { AppendsAllOrNothing result buf.old buf.new (number_text (number_view self.now)) }
        ensures proper { IsProperNumber (number_view self.now) }
    {
        let (negative, magnitude) = self.sign_and_magnitude();
        let scale = self.scale();
        if scale == 0 || scale > 38 || magnitude > 0xFFFF_FFFF_FFFF_FFFF {
            return self.append_pieces(buf);
        }
        append_short(negative, scale as usize, magnitude as u64, buf)
    }

    // Appends the text of any number, piece by piece.
    #[inline(never)]
    fn append_pieces(&self, buf: &mut Vec<u8>) -> Result<(), AllocError>
        ensures appends { AppendsAllOrNothing result buf.old buf.new (number_text (number_view self.now)) }
        ensures proper { IsProperNumber (number_view self.now) }
    {
        let mut buffer = Buffer::new();
        let parts = self.text_parts(&mut buffer);
        buf.reserve(parts.len())?;
        parts.append_to(buf)
    }
}

fn write_zeros<W: fmt::Write>(f: &mut fmt::Formatter<W>, count: usize) -> fmt::Result
    ensures { WritesOnOk W.write_str_gives f.old result (replicate count ascii.digit_zero) f.new }
{
    'zeros: for _ in 0..count {
        f.write_str("0")?;
    }
    Ok(())
}

impl fmt::Display for Number {
    ghost output = { λ n. Some (number_text (number_view n)) };

    fn fmt<W: fmt::Write>(&self, f: &mut fmt::Formatter<W>) -> fmt::Result {
        let mut buffer = Buffer::new();
        let parts = self.text_parts(&mut buffer);
        f.write_str(parts.sign)?;
        f.write_str(parts.front)?;
        f.write_str(parts.point)?;
        write_zeros(f, parts.zeros)?;
        f.write_str(parts.back)
    }
}
