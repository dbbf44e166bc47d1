//! The commands of the program `vjson`, over any streams.
#![tactic(auto)]

pub mod answers;
pub mod colours;
pub mod input;
pub mod lines;
pub mod location;
pub mod options;
pub mod report;
pub mod session;
