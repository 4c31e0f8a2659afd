//! What a registry refuses.

ghost use Rattle.gql_registry.specs.declared.registry_error.RegistryError.TheVariants as error;
ghost use Rattle.std.specs.Prelude.{◌≡◌};

use gql_registry_meta::MetaTypeId;
use gql_text_lexer::OutOfMemory;
use std::alloc::{AllocError, AllocFailed};

/// Why a type was not created.
#[derive(Debug, Drop)]
pub enum RegistryError {
    /// A type of the kind `kept` stands under the name, and one of the kind `asked` was asked for.
    KindConflict {
        name: String,
        kept: MetaTypeId,
        asked: MetaTypeId,
    },
    /// A type of the name `made` was made, and one of the name `name` was asked for.
    NameMismatch {
        name: String,
        made: String,
    },
    /// No object stands under the name of the query root.
    MissingQuery {
        name: String,
    },
    /// Memory ran out.
    OutOfMemory,
}

impl From<OutOfMemory> for RegistryError {
    ghost from_gives = { λ _ e. e ≡ error.OutOfMemory };

    fn from(_: OutOfMemory) -> RegistryError {
        RegistryError::OutOfMemory
    }
}

impl From<AllocError> for RegistryError {
    ghost from_gives = { λ _ e. e ≡ error.OutOfMemory };

    fn from(_: AllocError) -> RegistryError {
        RegistryError::OutOfMemory
    }
}

impl<T: Drop> From<AllocFailed<T>> for RegistryError {
    ghost from_gives = { λ _ e. e ≡ error.OutOfMemory };

    fn from(_: AllocFailed<T>) -> RegistryError {
        RegistryError::OutOfMemory
    }
}
