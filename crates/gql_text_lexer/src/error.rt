//! Out of memory, and what keeps a text from being a name.

ghost use Rattle.std.specs.Prelude.{◌≡◌};
ghost use Rattle.gql_text_lexer.specs.declared.error.NameError.TheVariants as name_error;

use std::alloc::{AllocError, AllocFailed};
use thiserror::Error;

/// The memory that a call wanted was refused.
#[derive(Debug, Drop)]
pub struct OutOfMemory;

impl From<AllocError> for OutOfMemory {
    fn from(_: AllocError) -> OutOfMemory {
        OutOfMemory
    }
}

impl<T: Drop> From<AllocFailed<T>> for OutOfMemory {
    fn from(_: AllocFailed<T>) -> OutOfMemory {
        OutOfMemory
    }
}

/// Why [`Name::new`](crate::Name::new) made no name.
#[derive(Debug, Drop, Error)]
pub enum NameError {
    /// The text is no name.
    #[error("not a name")]
    NotAName,
    /// The memory for the copy was refused.
    #[error("out of memory")]
    OutOfMemory,
}

impl From<AllocError> for NameError {
    ghost from_gives = { λ _ e. e ≡ name_error.OutOfMemory };

    fn from(_: AllocError) -> NameError {
        NameError::OutOfMemory
    }
}

impl<T: Drop> From<AllocFailed<T>> for NameError {
    ghost from_gives = { λ _ e. e ≡ name_error.OutOfMemory };

    fn from(_: AllocFailed<T>) -> NameError {
        NameError::OutOfMemory
    }
}
