//! Tables of the members of an object, which are kept behind what is stored of it: by a table a member is found in its
//! key by halves.
#![tactic(auto)]

pub mod check;
mod entry;
pub mod error;
pub mod laws;
pub mod make;
pub mod search;
pub mod split;

pub use check::is_table;
pub use error::TableError;
pub use make::append_table;
pub use search::find_by_table;
pub use split::split_table;
