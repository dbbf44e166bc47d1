//! Values that are held as their sort keys, changed by splicing: the slots of parts, parts put there, values merged.
#![tactic(auto)]

pub mod edit;
pub mod error;
mod fit;
pub mod insert;
pub mod laws;
pub mod merge;
pub mod slot;
pub mod splice;
pub mod spot;
mod step;

pub use error::EditError;
pub use merge::append_merged;
