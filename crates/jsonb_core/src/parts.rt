//! Appends parts of serialized forms and of sort keys: strings, numbers and the keys of members.
//!
//! A call appends to a buffer, and its only error is that the buffer couldn't grow. A part of what was to be appended
//! may be there then.
ghost use Rattle.std.specs.Prelude.{◌≡◌};
ghost use Rattle.std.specs.Fmt.{sign_text};
ghost use Rattle.std.specs.List.{flat_map};
ghost use Rattle.std.specs.Str.{IsUtf8};
ghost use Rattle.jsonb_spec.specs.Proper.{IsProperNumber};
ghost use Rattle.jsonb_spec.specs.SortKey.{number_key, text_key};
ghost use Rattle.jsonb_spec.specs.Text.Appending.{Appends, AppendsAllOrNothing};
ghost use Rattle.jsonb_spec.specs.Text.NumberText.{number_text};
ghost use Rattle.jsonb_spec.specs.Text.StringText.{byte_text, quoted_text};
ghost use Rattle.jsonb_core.specs.View.{number_view};

mod text;
mod text_key;

use crate::number::Number;
use std::alloc::AllocError;

/// Appends a string or a member's key in double quotes, with the escapes that it needs.
///
/// ```
/// let mut buf = Vec::new(rt.alloc());
/// append_string("say \"hi\"", &mut buf)?; // appends "say \"hi\""
/// ```
#[inline(always)]
pub fn append_string(text: &str, buf: &mut Vec<u8>) -> Result<(), AllocError>
    ensures appends { Appends result buf.old buf.new (quoted_text text.now) }
    ensures utf8 { IsUtf8 text.now }
{
    text::append_string(text, buf)
}

/// Appends what is between the quotes so.
#[inline(always)]
pub fn append_contents(bytes: &[u8], buf: &mut Vec<u8>) -> Result<(), AllocError>
    ensures appends { Appends result buf.old buf.new (flat_map byte_text bytes.now) }
{
    text::append_contents(bytes, buf)
}

/// Appends a number's text.
#[inline(always)]
pub fn append_number(number: &Number, buf: &mut Vec<u8>) -> Result<(), AllocError>
    ensures appends { AppendsAllOrNothing result buf.old buf.new (number_text (number_view number.now)) }
    ensures proper { IsProperNumber (number_view number.now) }
{
    number.append_text(buf)
}

/// Appends a member's key as it is in a sort key. A string has the byte `kind::STRING` before it.
#[inline(always)]
pub fn append_text_key(text: &str, buf: &mut Vec<u8>) -> Result<(), AllocError>
    ensures appends { Appends result buf.old buf.new (text_key text.now) }
{
    text_key::append_closed(text.as_bytes(), buf)
}

/// Appends binary data as it is in a sort key, after the byte `kind::BINARY`.
#[inline(always)]
pub fn append_bytes_key(bytes: &[u8], buf: &mut Vec<u8>) -> Result<(), AllocError>
    ensures appends { Appends result buf.old buf.new (text_key bytes.now) }
{
    text_key::append_closed(bytes, buf)
}

/// Appends a number's sort key.
#[inline(always)]
pub fn append_number_key(number: &Number, buf: &mut Vec<u8>) -> Result<(), AllocError>
    ensures appends { Appends result buf.old buf.new (number_key (number_view number.now)) }
    ensures proper { IsProperNumber (number_view number.now) }
{
    number.append_sort_key(buf)
}

/// The sign before the digits of a number or of an interval's time.
pub fn sign_of(negative: bool) -> &'static str
    ensures { result.now ≡ sign_text negative }
{
    if negative { "-" } else { "" }
}
