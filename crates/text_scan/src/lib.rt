//! Searches in the bytes of JSON texts: where whitespace, strings, keys and numbers end, and what they mean.
#![tactic(auto)]

pub mod line;
pub mod parser;
pub mod util;
