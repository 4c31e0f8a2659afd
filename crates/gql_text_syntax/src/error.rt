//! Why a text is no schema document.

ghost use Rattle.std.specs.Prelude.{◌≡◌};
ghost use Rattle.gql_text_syntax.specs.declared.error.ReadError.TheVariants.{OutOfMemory};

use gql_text_lexer::Text;
use std::alloc::{AllocError, AllocFailed};

/// A form that the grammar of the GraphQL specification has, and that is not supported here.
#[derive(Clone, Copy, Debug, PartialEq, Eq)]
pub enum What {
    /// A float.
    Float,
    /// An `extend` where a definition may begin.
    Extend,
    /// A `schema` block after the first one.
    SecondSchema,
    /// A `schema` block without a `query` line.
    NoQuery,
    /// A description of a `schema` block, or a use of a directive on it.
    SchemaDecoration,
    /// An interface of the subscription root, or a use of a directive on it or on a field of it, other than
    /// `@deprecated`, `@specifiedBy` and `@oneOf`.
    SubscriptionDecoration,
    /// `@deprecated`, `@specifiedBy` or `@oneOf` at another place than its own, or with other arguments.
    Attribute,
}

/// Why a text is no document, with the first place where it shows, as a byte offset.
#[derive(Debug, Drop)]
pub enum ReadError {
    /// Up to this byte the input is UTF-8, and no character stands there.
    NotUtf8(usize),
    /// No token stands at this byte; or the tokens before it are the prefix of a document, and with the one there they
    /// are none; or the input ends there, and they are no document.
    Syntax(usize),
    /// A `[` or `{` that has 64 open brackets of the same type or value around it.
    TooDeep(usize),
    /// A whole number outside `i64::MIN` to `u64::MAX`.
    NumberRange(usize),
    /// A form that is not supported here.
    Unsupported(What, usize),
    /// The second thing of this name among those of one owner.
    Duplicate(Text, usize),
    /// A name that begins with `__`, where these are kept for introspection.
    ReservedName(Text, usize),
    /// Memory ran out.
    OutOfMemory,
}

impl From<AllocError> for ReadError {
    ghost from_gives = { λ _ e. e ≡ OutOfMemory };

    fn from(_e: AllocError) -> ReadError {
        ReadError::OutOfMemory
    }
}

impl<T: Drop> From<AllocFailed<T>> for ReadError {
    ghost from_gives = { λ _ e. e ≡ OutOfMemory };

    fn from(_e: AllocFailed<T>) -> ReadError {
        ReadError::OutOfMemory
    }
}

impl From<gql_text_lexer::OutOfMemory> for ReadError {
    ghost from_gives = { λ _ e. e ≡ OutOfMemory };

    fn from(_e: gql_text_lexer::OutOfMemory) -> ReadError {
        ReadError::OutOfMemory
    }
}
