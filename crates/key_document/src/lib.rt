//! Values that are held as their sort keys and the zeros that end their decimals, as one thing: a document.
#![tactic(auto)]

pub mod build;
pub mod check;
pub mod cursor;
pub mod document;
mod due;
pub mod edit;
pub mod error;
pub mod from_text;
pub mod insert;
pub mod laws;
pub mod merge;
pub mod names;
pub mod nulls;
pub mod order;
pub mod part;
mod retain;
mod splice;
pub mod text;
pub mod walk;
mod zeros;

pub use build::{append_with_item, append_with_member};
pub use check::is_document;
pub use cursor::{ZerosLeft, append_next_range, zeros_from};
pub use document::split_document;
pub use edit::{append_with_part, append_without_part};
pub use error::DocumentError;
pub use from_text::append_document_of_text;
pub use insert::{Insertion, append_with_inserted};
pub use merge::append_merged;
pub use names::append_without_names;
pub use nulls::append_without_nulls;
pub use order::compare_documents;
pub use part::{append_part, append_range};
pub use text::append_text_of_document;
pub use walk::{Met, Walk, begin_walk, move_to_member, next_event, skip_open};
