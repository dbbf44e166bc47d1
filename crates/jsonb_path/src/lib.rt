//! Paths of RFC 6901 (JSON Pointer): `/a/0` is the first item of the member `a`.
#![tactic(auto)]

pub mod append;
pub mod index;
pub mod keys;

pub use append::{append_path, append_step};
pub use index::index_of;
pub use keys::{plain_key, read_keys};
