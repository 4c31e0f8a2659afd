//! Why a builder refuses a call.

ghost use Rattle.std.specs.Prelude.{◌≡◌};
ghost use Rattle.gql_dynamic_types.specs.declared.error.BuildError.TheVariants.{OutOfMemory as out_of_memory};

use gql_registry_meta::OutOfMemory;
use std::alloc::{AllocError, AllocFailed};
use thiserror::Error;

/// A field or an interface is not added. The builder is gone then.
#[derive(Debug, Drop, Error)]
pub enum BuildError {
    /// The type has one of this name.
    #[error("`{0}` already exists")]
    AlreadyExists(String),
    #[error("out of memory")]
    OutOfMemory,
}

impl From<OutOfMemory> for BuildError {
    ghost from_gives = { λ _ e. e ≡ out_of_memory };

    fn from(_: OutOfMemory) -> BuildError {
        BuildError::OutOfMemory
    }
}

impl From<AllocError> for BuildError {
    ghost from_gives = { λ _ e. e ≡ out_of_memory };

    fn from(_: AllocError) -> BuildError {
        BuildError::OutOfMemory
    }
}

impl<T: Drop> From<AllocFailed<T>> for BuildError {
    ghost from_gives = { λ _ e. e ≡ out_of_memory };

    fn from(_: AllocFailed<T>) -> BuildError {
        BuildError::OutOfMemory
    }
}
