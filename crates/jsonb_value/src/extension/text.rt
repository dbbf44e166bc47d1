//! The texts of values beyond JSON, without quotes.
ghost use Rattle.std.specs.Prelude.{◌≡◌, ◌↔◌, ◌⊎◌, ◌+◌, ◌<◌, ◌≤◌, ◌++◌, length, Some, None, IfErr, IfSome, IsErrOf, OnOk, OnErr, vec_len, FitsSigned};
ghost use Rattle.std.specs.Fmt.{decimal};
ghost use Rattle.std.specs.Fmt.InlineText.{inline_text};
ghost use Rattle.std.specs.Int.{w32, w64};
ghost use Rattle.std.specs.Vec.{vec_capacity};
ghost use Rattle.jsonb_spec.specs.Text.Appending.{AppendsAllOrNothing};
ghost use Rattle.jsonb_spec.specs.Text.BinaryText.{hexadecimal_pair, binary_text};
ghost use Rattle.jsonb_spec.specs.Text.ExtensionText.{extension_text, AppendsExtensionText};
ghost use Rattle.jsonb_spec.specs.Text.IntervalText.{amount_text, microseconds_text, clock_text, time_text, with_piece, beside, interval_text};
ghost use Rattle.jsonb_spec.specs.Text.NumberText.{zero_padded};
ghost use Rattle.jsonb_value.specs.View.{extension_view};

use super::{ExtensionValue, Interval};
use itoa::Buffer;
use jsonb_core::error::{Error, Result};
use jsonb_core::parts::sign_of;
use std::alloc::AllocError;
use std::fmt;
use std::fmt::InlineText;

// More than the text of any interval takes.
const CAPACITY: usize = 160;

const MICROS_A_SECOND: u64 = 1_000_000;

const MICROS_A_MINUTE: u64 = 60 * MICROS_A_SECOND;

const MICROS_AN_HOUR: u64 = 60 * MICROS_A_MINUTE;

const HEXADECIMAL_DIGITS: &[u8; 16] = b"0123456789ABCDEF";

type IntervalText = InlineText<CAPACITY>;

// The text and the part after it.
fn and(text: IntervalText, part: &str) -> IntervalText
    requires { length (inline_text text) + length part.now ≤ 160 }
    ensures { inline_text result ≡ inline_text text ++ part.now }
{
    text.and_str(part, part.len())
}

// The text, and a space after it where it is not empty.
fn and_space(text: IntervalText) -> IntervalText
    requires { length (inline_text text) < 160 }
    ensures { inline_text result ≡ with_piece (inline_text text) }
{
    if text.as_str().is_empty() {
        text
    } else {
        and(text, " ")
    }
}

// The text and the number's digits, after zeros that make them `least` digits.
fn and_digits(text: IntervalText, number: u64, least: usize) -> IntervalText
    requires few { least ≤ 6 }
    requires space { length (inline_text text) + 20 ≤ 160 }
    ensures text { inline_text result ≡ inline_text text ++ zero_padded least (decimal number) }
    ensures length { length (inline_text result) ≤ length (inline_text text) + 20 }
{
    let mut buffer = Buffer::new();
    let digits = buffer.format(number);
    let zeros = &"000000"[..least.saturating_sub(digits.len())];
    and(and(text, zeros), digits)
}

// The text and an amount of the unit, which is left out where it is 0.
fn and_amount(text: IntervalText, amount: i32, unit: &str) -> IntervalText
    requires short { length unit.now ≤ 5 }
    requires space { length (inline_text text) + 20 ≤ 160 }
    ensures text { inline_text result ≡ beside (inline_text text) (amount_text amount unit.now) }
    ensures length { length (inline_text result) ≤ length (inline_text text) + 20 }
{
    if amount == 0 {
        return text;
    }
    let mut buffer = Buffer::new();
    let number = and(and_space(text), buffer.format(amount));
    let named = and(and(number, " "), unit);
    if amount.unsigned_abs() == 1 {
        named
    } else {
        and(named, "s")
    }
}

// The text and a point and six digits, which are left out where they are 0.
fn and_fraction(text: IntervalText, micros: u64) -> IntervalText
    requires { length (inline_text text) + 21 ≤ 160 }
    ensures { inline_text result ≡ inline_text text ++ microseconds_text micros }
{
    if micros == 0 {
        text
    } else {
        and_digits(and(text, "."), micros, 6)
    }
}

// The text and the hours, minutes and seconds.
fn and_clock(text: IntervalText, micros: u64) -> IntervalText
    requires { length (inline_text text) + 83 ≤ 160 }
    ensures { inline_text result ≡ inline_text text ++ clock_text micros }
{
    let hours = and_digits(text, micros / MICROS_AN_HOUR, 2);
    let minutes = and_digits(and(hours, ":"), micros / MICROS_A_MINUTE % 60, 2);
    let seconds = and_digits(and(minutes, ":"), micros / MICROS_A_SECOND % 60, 2);
    and_fraction(seconds, micros % MICROS_A_SECOND)
}

// The text and the time, which is left out where it is 0.
fn and_time(text: IntervalText, micros: i64) -> IntervalText
    requires { length (inline_text text) + 85 ≤ 160 }
    ensures { inline_text result ≡ beside (inline_text text) (time_text micros) }
{
    if micros == 0 {
        return text;
    }
    let signed = and(and_space(text), sign_of(micros < 0));
    and_clock(signed, micros.unsigned_abs())
}

impl Interval {
    fn text(&self) -> IntervalText
        ensures text { inline_text result ≡ interval_text self.now.months self.now.days self.now.micros }
        ensures bits { FitsSigned w32 self.now.months × FitsSigned w32 self.now.days × FitsSigned w64 self.now.micros }
    {
        if self.months == 0 && self.days == 0 && self.micros == 0 {
            return and(InlineText::new(), "00:00:00");
        }
        let years = and_amount(InlineText::new(), self.months / 12, "year");
        let months = and_amount(years, self.months % 12, "month");
        let days = and_amount(months, self.days, "day");
        and_time(days, self.micros)
    }

    // Appends the text that `{}` writes.
    pub(crate) fn append_text(&self, buf: &mut Vec<u8>) -> std::result::Result<(), AllocError>
        ensures appends { AppendsAllOrNothing result buf.old buf.new
            (interval_text self.now.months self.now.days self.now.micros) }
        ensures bits { FitsSigned w32 self.now.months × FitsSigned w32 self.now.days × FitsSigned w64 self.now.micros }
    {
        buf.extend_from_slice(self.text().as_str().as_bytes())
    }
}

impl fmt::Display for Interval {
    ghost output = { λ i. Some (interval_text i.months i.days i.micros) };

    fn fmt<W: fmt::Write>(&self, f: &mut fmt::Formatter<W>) -> fmt::Result {
        f.write_str(self.text().as_str())
    }
}

// The two digits of a byte.
fn hexadecimal_pair(byte: u8) -> [u8; 2]
    ensures { result ≡ hexadecimal_pair byte }
{
    [
        HEXADECIMAL_DIGITS[(byte / 16) as usize],
        HEXADECIMAL_DIGITS[(byte % 16) as usize],
    ]
}

// Appends two digits for each byte.
pub(crate) fn append_binary(bytes: &[u8], buf: &mut Vec<u8>) -> std::result::Result<(), AllocError>
    ensures appends { AppendsAllOrNothing result buf.old buf.new (binary_text bytes.now) }
{
    buf.reserve(bytes.len() * 2)?;
    'bytes: for byte in bytes {
        buf.extend_from_slice(&hexadecimal_pair(*byte))?;
    }
    Ok(())
}

impl ExtensionValue<'_> {
    /// Appends the text of binary data or of an interval, without quotes. After an error `buf` has the same bytes as
    /// before.
    ///
    /// # Errors
    ///
    /// `UnexpectedType` for a date or a time, which has no text. `OutOfMemory` only where `buf` lacks the capacity for
    /// the whole text.
    pub fn write_text(&self, buf: &mut Vec<u8>) -> Result<()>
        ensures ok { OnOk result
            (AppendsExtensionText (extension_view self.now) buf.old.items buf.new.items) }
        ensures err { OnErr result (buf.new.items ≡ buf.old.items) }
        ensures unexpected { IsErrOf result Error.UnexpectedType
            ↔ (extension_text (extension_view self.now) ≡ None) }
        ensures errors { IfErr result (λ e. (e ≡ Error.UnexpectedType) ⊎ (e ≡ Error.OutOfMemory)) }
        // Memory runs out only where the capacity for the whole text is missing.
        ensures full { IsErrOf result Error.OutOfMemory
            → IfSome (extension_text (extension_view self.now))
            (λ bytes. vec_capacity buf.old < vec_len buf.old + length bytes) }
        ensures capacity { vec_capacity buf.old ≤ vec_capacity buf.new }
    {
        match self {
            ExtensionValue::Binary(bytes) => append_binary(bytes, buf)?,
            ExtensionValue::Interval(interval) => interval.append_text(buf)?,
            ExtensionValue::Date(_)
            | ExtensionValue::Timestamp(_)
            | ExtensionValue::TimestampTz(_) => return Err(Error::UnexpectedType),
        }
        Ok(())
    }
}
