//! The decoding of strings.

mod decoder;

pub(crate) use decoder::{digit, unescape};
pub use decoder::{
    check_contents, check_strict, decode_behind, near_backslash, parse_string, units_len,
    write_sixteen,
};
