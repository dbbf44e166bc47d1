//! The text of a value from its key.
#![tactic(auto)]

pub mod append;
pub mod number;
pub mod string;
pub mod write;
pub mod zeros;

pub use write::{write_text_of_key, write_text_with};
pub use zeros::Zeros;
