//! Why no table is appended.

use key_walk::find::NoKey;
use std::alloc::AllocError;

/// Why no table is appended.
#[derive(Clone, Copy, Debug, PartialEq, Eq, Drop)]
pub enum TableError {
    /// The bytes aren't the sort key of a value of JSON's kinds with at most 512 nested arrays and objects.
    NoKey,
    /// The buffer can't grow.
    OutOfMemory,
}

impl From<AllocError> for TableError {
    ghost use Rattle.std.specs.Prelude.{◌≡◌};
    ghost use Rattle.key_table.specs.declared.error.TableError.TheVariants.{OutOfMemory};

    ghost from_gives = { λ _ e. e ≡ OutOfMemory };

    fn from(_: AllocError) -> TableError {
        TableError::OutOfMemory
    }
}

impl From<NoKey> for TableError {
    ghost use Rattle.std.specs.Prelude.{◌≡◌};
    ghost use Rattle.key_table.specs.declared.error.TableError.TheVariants as errors;

    ghost from_gives = { λ _ e. e ≡ errors.NoKey };

    fn from(_: NoKey) -> TableError {
        TableError::NoKey
    }
}
