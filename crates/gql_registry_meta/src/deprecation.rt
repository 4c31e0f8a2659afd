//! Deprecation: section 3.13.3 of the GraphQL specification, October 2021.

ghost use Rattle.std.specs.Prelude.{◌≡◌, IfOk};
ghost use Rattle.std.specs.Option.{option_copied};
ghost use Rattle.gql_registry_meta.specs.Views.{deprecation_of};
ghost use Rattle.gql_registry_meta.specs.Parts.{not_deprecated, is_deprecated, reason_of};

use crate::copies::copy_optional;
use gql_text_lexer::OutOfMemory;
use std::alloc::{AllocError, Global};

/// Whether a part is deprecated, and the reason where one is given.
#[derive(Debug, Drop)]
pub enum Deprecation {
    NoDeprecated,
    Deprecated { reason: Option<String> },
}

impl Default for Deprecation {
    ghost is_default = { λ d. deprecation_of d ≡ not_deprecated };

    fn default() -> Deprecation {
        Deprecation::NoDeprecated
    }
}

impl Clone for Deprecation {
    ghost is_clone = { λ a b. deprecation_of b ≡ deprecation_of a };

    fn clone(&self) -> Result<Self, AllocError> {
        Ok(match self {
            Deprecation::NoDeprecated => Deprecation::NoDeprecated,
            Deprecation::Deprecated { reason } => Deprecation::Deprecated {
                reason: copy_optional(reason)?,
            },
        })
    }
}

impl Deprecation {
    /// True exactly for `Deprecated`.
    pub fn is_deprecated(&self) -> bool
        ensures { result ≡ is_deprecated (deprecation_of self.now) }
    {
        match self {
            Deprecation::NoDeprecated => false,
            Deprecation::Deprecated { .. } => true,
        }
    }

    /// The reason, where there is one.
    pub fn reason(&self) -> Option<&str>
        ensures { option_copied result ≡ reason_of (deprecation_of self.now) }
    {
        match self {
            Deprecation::NoDeprecated => None,
            Deprecation::Deprecated { reason: None } => None,
            Deprecation::Deprecated {
                reason: Some(reason),
            } => Some(reason.as_str()),
        }
    }

    /// A value with equal parts.
    pub fn try_clone(&self, _alloc: Global) -> Result<Deprecation, OutOfMemory>
        ensures { IfOk result (λ copy. deprecation_of copy ≡ deprecation_of self.now) }
    {
        Ok(self.clone()?)
    }
}
