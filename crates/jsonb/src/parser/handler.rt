//! What is made of a text while it is parsed: a `Value`, a `JsonAst`, what is written to a sink, or nothing at all.

mod ast;
mod check;
mod repeat;
mod sink;
mod value;

pub(super) use check::CheckedPart;
pub(super) use sink::SinkPart;
pub(super) use value::{ValuePart, put_member};
