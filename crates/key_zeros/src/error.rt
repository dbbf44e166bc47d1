//! Why there are no zeros, or no text with them.

use std::alloc::AllocError;
use std::fmt;

/// Why there are no zeros, or no text with them.
#[derive(Debug, Drop)]
pub enum ZerosError {
    /// The bytes are no text of a value, or not the zeros of one.
    Invalid,
    OutOfMemory,
}

impl fmt::Display for ZerosError {
    ghost use Rattle.std.specs.Prelude.{Some};
    ghost use Rattle.key_zeros.specs.ErrorText.{zeros_error_text};

    ghost output = { λ error. Some (zeros_error_text error) };

    fn fmt<W: fmt::Write>(&self, f: &mut fmt::Formatter<W>) -> fmt::Result {
        match self {
            ZerosError::Invalid => write!(f, "no text with such zeros"),
            ZerosError::OutOfMemory => write!(f, "out of memory"),
        }
    }
}

impl std::error::Error for ZerosError {}

impl From<AllocError> for ZerosError {
    ghost use Rattle.std.specs.Prelude.{◌≡◌};
    ghost use Rattle.key_zeros.specs.declared.error.ZerosError.TheVariants.{OutOfMemory};

    ghost from_gives = { λ _ e. e ≡ OutOfMemory };

    fn from(_: AllocError) -> ZerosError {
        ZerosError::OutOfMemory
    }
}
