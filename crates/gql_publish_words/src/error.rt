//! Why words ask for nothing.

ghost use Rattle.std.specs.Prelude.{◌≡◌};
ghost use Rattle.gql_publish_words.specs.declared.error.WordsError.TheVariants.{OutOfMemory as words_memory};

use std::alloc::AllocError;

/// Why words ask for nothing.
#[derive(Clone, Copy, Debug, PartialEq, Eq)]
pub enum WordsError {
    /// The words are not good: the program does not take them, or a number is out of its range.
    Bad,
    OutOfMemory,
}

impl From<AllocError> for WordsError {
    ghost from_gives = { λ _ e. e ≡ words_memory };

    fn from(_: AllocError) -> WordsError {
        WordsError::OutOfMemory
    }
}
