//! What the program `vjson` makes of one text: whether it is one, its serialized form, a part of it, its sort key.
#![tactic(auto)]

mod cell;
mod difference;
pub mod fault;
pub mod laws;
pub mod reader;

pub use cell::append_cell;
pub use fault::{Fault, Message};
pub use jsonb::Grammar;
pub use reader::{Layout, append, append_differences, append_key, append_part, append_raw, check};
