//! Why the reader stopped.

ghost use Rattle.std.specs.Prelude.{◌≡◌};
ghost use Rattle.gql_text_syntax.specs.declared.stopped.Stopped.TheVariants.{OutOfMemory};

use crate::sort::Sort;
use std::alloc::{AllocError, AllocFailed};

/// Why the reader stopped, and where.
#[derive(Debug, Drop)]
pub enum Stopped {
    /// The grammar has no such token there.
    Syntax(usize),
    /// A limit refuses a token of this sort.
    Refused(Sort, usize),
    OutOfMemory,
}

impl From<AllocError> for Stopped {
    ghost from_gives = { λ _ e. e ≡ OutOfMemory };

    fn from(_e: AllocError) -> Stopped {
        Stopped::OutOfMemory
    }
}

impl<T: Drop> From<AllocFailed<T>> for Stopped {
    ghost from_gives = { λ _ e. e ≡ OutOfMemory };

    fn from(_e: AllocFailed<T>) -> Stopped {
        Stopped::OutOfMemory
    }
}

impl From<gql_text_lexer::OutOfMemory> for Stopped {
    ghost from_gives = { λ _ e. e ≡ OutOfMemory };

    fn from(_e: gql_text_lexer::OutOfMemory) -> Stopped {
        Stopped::OutOfMemory
    }
}
