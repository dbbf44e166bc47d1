//! Where a text is rejected: the path of the part of a document's value, and the character.
#![tactic(auto)]

mod characters;
mod handler;
mod path;
mod place;
mod steps;

pub use characters::character_at;
pub use path::{Fault, error_path};
