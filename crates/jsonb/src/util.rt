//! The decoder of strings.

pub use text_scan::util::parse_string;
