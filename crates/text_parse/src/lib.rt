//! The parser of JSON texts. It sends the events of a text's value to a handler, which makes something of them.
#![tactic(auto)]

mod parser;

pub use parser::handler::{Failed, Handler, Wants};
pub use parser::{Frame, Grammar, Mode, OpenObject, Scalar, Text, parse_text};
pub use text_common::verbatim::Verbatim;
