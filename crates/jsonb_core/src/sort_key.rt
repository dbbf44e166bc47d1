//! The bytes of sort keys, for those who write or read them of other types than `Value`.
pub mod kind;
