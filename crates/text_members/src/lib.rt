//! The members of objects that are open while a text is parsed: their order, a key that comes twice, and their bytes
//! put in order.
#![tactic(auto)]

mod fingerprints;
pub mod members;
pub mod object;
pub mod open_members;
mod orders;
pub mod wide;
