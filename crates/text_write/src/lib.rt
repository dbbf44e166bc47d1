//! What is written while a text is parsed.
#![tactic(auto)]

pub mod check;
pub mod contents;
mod decimal_key;
mod escaped;
mod escaped_key;
mod integer_key;
mod json_string;
pub mod key;
mod key_text;
pub mod part;
mod short;
pub mod sink;
pub mod text;
mod verbatim;
pub mod written;
