//! What values, texts and sort keys have in common: errors, numbers, and the bytes of strings.
#![tactic(auto)]

pub mod bytes;
pub mod error;
pub mod number;
pub mod parts;
pub mod plain;
pub mod sort_key;
