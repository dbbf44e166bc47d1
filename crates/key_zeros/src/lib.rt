//! The zeros that end the decimals of a value, which its sort key doesn't have: how they are stored, and put into its
//! text.
#![tactic(auto)]

mod count;
pub mod entry;
pub mod error;
pub mod laws;
mod restore;
pub mod scan;

pub use count::number_count;
pub use error::ZerosError;
pub use restore::{append_ending, write_text_with_zeros};
