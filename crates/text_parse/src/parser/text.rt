//! Scalars and keys, as a handler is given them.

use jsonb_core::number::Number;
use std::borrow::CowStr;
use text_common::verbatim::Verbatim;

/// A string or a key.
#[derive(Drop)]
pub enum Text<'a> {
    /// It was cut out of the text, and none of its bytes is written as an escape.
    Plain(&'a str),
    /// It was cut out of the text.
    Borrowed(&'a str),
    /// Any other, which was decoded or is in no quotes.
    Decoded(CowStr<'a>),
}

/// A value that holds no others.
#[derive(Drop)]
pub enum Scalar<'a> {
    Null,
    Bool(bool),
    Number(Number),
    String(Text<'a>),
    /// It is put in from where it is in the text, where the handler wants that.
    Verbatim(Verbatim),
}
