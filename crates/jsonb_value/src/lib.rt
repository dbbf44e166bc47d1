//! The values of JSON documents: values, their serialized form, and errors.
#![tactic(auto)]

pub mod extension;
pub mod value;

pub use jsonb_core::{error, number};
