//! Why the bytes of a document are refused.

ghost use Rattle.std.specs.Prelude.{◌≡◌};
ghost use Rattle.gql_publish_load.specs.declared.error.PublishError.TheVariants.{OutOfMemory as publish_memory};
ghost use Rattle.gql_publish_load.specs.Errors.{published_as, read_as};

use gql_check::SchemaError;
use gql_text::{OutOfMemory, ReadError, Text, What};
use std::alloc::AllocError;

/// Why bytes are no valid document. A number is the place of the fault, a byte offset.
#[derive(Debug, Drop)]
pub enum PublishError {
    /// Up to this byte the input is UTF-8, and no character stands there.
    NotUtf8(usize),
    /// The tokens before this byte begin a document, and with what stands there they begin none.
    Syntax(usize),
    /// A bracket with 64 open brackets of the same type or value around it.
    TooDeep(usize),
    /// A whole number outside `i64::MIN` to `u64::MAX`.
    NumberRange(usize),
    /// A form of the specification that is not supported.
    Unsupported(What, usize),
    /// The name of an earlier one of the same owner.
    Duplicate(Text, usize),
    /// A name that begins with `__`, which the specification reserves.
    ReservedName(Text, usize),
    /// The first rule that the document breaks: section 3 of the specification. It is never `SchemaError::OutOfMemory`.
    Schema(SchemaError),
    OutOfMemory,
}

impl From<ReadError> for PublishError {
    ghost from_gives = { λ e p. p ≡ read_as e };

    fn from(error: ReadError) -> PublishError {
        match error {
            ReadError::NotUtf8(at) => PublishError::NotUtf8(at),
            ReadError::Syntax(at) => PublishError::Syntax(at),
            ReadError::TooDeep(at) => PublishError::TooDeep(at),
            ReadError::NumberRange(at) => PublishError::NumberRange(at),
            ReadError::Unsupported(what, at) => PublishError::Unsupported(what, at),
            ReadError::Duplicate(name, at) => PublishError::Duplicate(name, at),
            ReadError::ReservedName(name, at) => PublishError::ReservedName(name, at),
            ReadError::OutOfMemory => PublishError::OutOfMemory,
        }
    }
}

impl From<SchemaError> for PublishError {
    ghost from_gives = { published_as };

    fn from(error: SchemaError) -> PublishError {
        match error {
            SchemaError::OutOfMemory => PublishError::OutOfMemory,
            error => PublishError::Schema(error),
        }
    }
}

impl From<OutOfMemory> for PublishError {
    ghost from_gives = { λ _ e. e ≡ publish_memory };

    fn from(_: OutOfMemory) -> PublishError {
        PublishError::OutOfMemory
    }
}

impl From<AllocError> for PublishError {
    ghost from_gives = { λ _ e. e ≡ publish_memory };

    fn from(_: AllocError) -> PublishError {
        PublishError::OutOfMemory
    }
}
