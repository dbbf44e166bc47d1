//! The bytes of sort keys that say what follows: kinds, which keys begin with, and ends.

/// Binary data.
pub const BINARY: u8 = 0x10;

/// A date.
pub const DATE: u8 = 0x11;

/// A timestamp.
pub const TIMESTAMP: u8 = 0x12;

/// A timestamp with zone.
pub const TIMESTAMP_TZ: u8 = 0x13;

/// An interval.
pub const INTERVAL: u8 = 0x14;

/// The boolean `false`.
pub const FALSE: u8 = 0x15;

/// The boolean `true`.
pub const TRUE: u8 = 0x16;

/// The number 0, which has no other byte. Negative numbers begin with bytes below it, and others with bytes above.
pub const ZERO: u8 = 0x80;

/// A string.
pub const STRING: u8 = 0xD0;

/// An object.
pub const OBJECT: u8 = 0xD1;

/// An array.
pub const ARRAY: u8 = 0xD2;

/// Null.
pub const NULL: u8 = 0xD3;

/// In a number: what is before the exponent of its first digit, where that has a byte of its own. More than 30 zeros
/// follow the point then.
pub const FAR_EXPONENT: u8 = 0x81;

/// A zero, which ends the items of an array, and twice the members of an object; a text ends with it and `TEXT_END`.
pub const TERMINATOR: u8 = 0x00;

/// Behind a zero: the text ends.
pub const TEXT_END: u8 = 0x01;

/// Behind a zero: the text has this zero, and goes on.
pub const ESCAPED: u8 = 0xFF;
