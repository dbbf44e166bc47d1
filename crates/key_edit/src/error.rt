//! Errors of calls that change keys.

use key_walk::NoKey;
use std::alloc::AllocError;
use std::fmt;

/// Why no key is appended.
#[derive(Clone, Copy, Debug, PartialEq, Eq, Drop)]
pub enum EditError {
    /// The bytes aren't the sort key of a value of JSON's kinds with at most 512 nested arrays and objects.
    NoKey,
    /// The answer would have more than 512 nested arrays and objects.
    TooDeep,
    /// The buffer can't grow.
    OutOfMemory,
}

impl fmt::Display for EditError {
    ghost use Rattle.std.specs.Prelude.{Some};
    ghost use Rattle.key_edit.specs.Edit.{edit_error_text};

    ghost output = { λ error. Some (edit_error_text error) };

    fn fmt<W: fmt::Write>(&self, f: &mut fmt::Formatter<W>) -> fmt::Result {
        match self {
            EditError::NoKey => write!(f, "no sort key"),
            EditError::TooDeep => write!(f, "too many nested arrays and objects"),
            EditError::OutOfMemory => write!(f, "out of memory"),
        }
    }
}

impl std::error::Error for EditError {}

impl From<AllocError> for EditError {
    ghost use Rattle.std.specs.Prelude.{◌≡◌};
    ghost use Rattle.key_edit.specs.declared.error.EditError.TheVariants.{OutOfMemory};

    ghost from_gives = { λ _ e. e ≡ OutOfMemory };

    fn from(_: AllocError) -> EditError {
        EditError::OutOfMemory
    }
}

impl From<NoKey> for EditError {
    ghost use Rattle.std.specs.Prelude.{◌≡◌};
    ghost use Rattle.key_edit.specs.declared.error.EditError.TheVariants as errors;

    ghost from_gives = { λ _ e. e ≡ errors.NoKey };

    fn from(_: NoKey) -> EditError {
        EditError::NoKey
    }
}
