//! JSON texts as values: the parsers, with the values that they return.
#![tactic(auto)]

pub mod laws;
pub mod parser;
pub mod part;
pub mod util;

pub use jsonb_core::error::{Error, ParseErrorCode, Result};
pub use jsonb_core::number::{Decimal64, Decimal128, Number};
pub use jsonb_core::{error, number};
pub use jsonb_value::extension::{Date, ExtensionValue, Interval, Timestamp, TimestampTz};
pub use jsonb_value::value::{Object, Value};
pub use jsonb_value::{extension, value};
pub use laws::{
    decoding_is_unambiguous, exponents_are_exact, extended_is_extended_json,
    grammar_is_unambiguous, json_is_extended_json, json_texts_are_those_of_its_productions,
    standard_takes_integers_of_json,
};
pub use parser::{
    Grammar, JsonAst, Mode, RejectedLine, append_part, append_sort_key, append_text,
    append_text_lines, check, may_allocate, may_end_in_zeros, parse_value, parse_value_in,
    parse_value_standard_mode,
};
pub use part::part_at;
pub use text_scan::line;
pub use text_scan::line::{fault_index, line_and_column};
pub use text_scan::util::parse_string;
