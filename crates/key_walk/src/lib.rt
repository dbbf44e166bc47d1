//! Values that are held as their sort keys: where a key ends, parts and members, straight from the bytes.
#![tactic(auto)]

mod ascii;
pub mod check;
mod containment;
mod digits;
pub mod find;
pub mod names;
pub mod part;
pub mod pass;
pub mod skip;
pub mod steps;
pub mod text;
pub mod walk;

pub use check::is_sort_key;
pub use containment::contains;
pub use find::{
    NoKey, count_parts, find_item, find_member, find_part, find_plain_part, next_part, open_key,
    range_of,
};
pub use skip::after_key;
pub use text::{plain_text, put_text, text_of_string, text_size};
pub use walk::{Kind, boolean_of, items_of, kind_of, members_of, next_item, next_member};
