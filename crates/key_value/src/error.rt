//! Why nothing is made of a key.

use std::alloc::AllocError;
use std::fmt;

/// Why nothing is made of a key.
#[derive(Debug, Drop)]
pub enum KeyError {
    /// The bytes are the sort key of no value of JSON's kinds.
    Invalid,
    OutOfMemory,
}

impl fmt::Display for KeyError {
    ghost use Rattle.std.specs.Prelude.{Some};
    ghost use Rattle.key_value.specs.ErrorText.{key_error_text};

    ghost output = { λ error. Some (key_error_text error) };

    fn fmt<W: fmt::Write>(&self, f: &mut fmt::Formatter<W>) -> fmt::Result {
        match self {
            KeyError::Invalid => write!(f, "no sort key"),
            KeyError::OutOfMemory => write!(f, "out of memory"),
        }
    }
}

impl std::error::Error for KeyError {}

impl From<AllocError> for KeyError {
    ghost use Rattle.std.specs.Prelude.{◌≡◌};
    ghost use Rattle.key_value.specs.declared.error.KeyError.TheVariants.{OutOfMemory};

    ghost from_gives = { λ _ e. e ≡ OutOfMemory };

    fn from(_: AllocError) -> KeyError {
        KeyError::OutOfMemory
    }
}
