//! What sort keys consist of: exponents, digits and the bytes of texts; and the integer that a number's key is of.
#![tactic(auto)]

pub mod error;
pub mod number;
pub mod text;

pub use error::KeyError;
