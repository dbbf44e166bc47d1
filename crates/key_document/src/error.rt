//! Errors of calls on documents.

use key_edit::EditError;
use key_value::KeyError;
use key_walk::find::NoKey;
use std::alloc::AllocError;

/// Why nothing is appended.
#[derive(Clone, Copy, Debug, PartialEq, Eq, Drop)]
pub enum DocumentError {
    /// The bytes aren't the document of a value of JSON's kinds with at most 512 nested arrays and objects.
    NoDocument,
    /// The answer would have more than 512 nested arrays and objects.
    TooDeep,
    /// The buffer can't grow.
    OutOfMemory,
}

impl From<AllocError> for DocumentError {
    ghost use Rattle.std.specs.Prelude.{◌≡◌};
    ghost use Rattle.key_document.specs.declared.error.DocumentError.TheVariants.{OutOfMemory};

    ghost from_gives = { λ _ e. e ≡ OutOfMemory };

    fn from(_: AllocError) -> DocumentError {
        DocumentError::OutOfMemory
    }
}

impl From<NoKey> for DocumentError {
    ghost use Rattle.std.specs.Prelude.{◌≡◌};
    ghost use Rattle.key_document.specs.declared.error.DocumentError.TheVariants.{NoDocument};

    ghost from_gives = { λ _ e. e ≡ NoDocument };

    fn from(_: NoKey) -> DocumentError {
        DocumentError::NoDocument
    }
}

impl From<EditError> for DocumentError {
    ghost use Rattle.std.specs.Prelude.{◌≡◌};
    ghost use Rattle.key_document.specs.Changes.{as_document_error};

    ghost from_gives = { λ error e. e ≡ as_document_error error };

    fn from(error: EditError) -> DocumentError {
        match error {
            EditError::NoKey => DocumentError::NoDocument,
            EditError::TooDeep => DocumentError::TooDeep,
            EditError::OutOfMemory => DocumentError::OutOfMemory,
        }
    }
}

impl From<KeyError> for DocumentError {
    ghost use Rattle.std.specs.Prelude.{◌≡◌};
    ghost use Rattle.key_document.specs.Changes.{of_key_error};

    ghost from_gives = { λ error e. e ≡ of_key_error error };

    fn from(error: KeyError) -> DocumentError {
        match error {
            KeyError::Invalid => DocumentError::NoDocument,
            KeyError::OutOfMemory => DocumentError::OutOfMemory,
        }
    }
}
