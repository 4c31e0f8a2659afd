//! Deprecation of parts: section 3.13.3 of the GraphQL specification, October 2021.

ghost use Rattle.std.specs.Prelude.{◌≡◌, IfOk};
ghost use Rattle.std.specs.Option.{option_copied};
ghost use Rattle.gql_registry_meta.specs.Parts.{deprecated_for};
ghost use Rattle.gql_registry_meta.specs.Views.{deprecation_of};

use gql_registry_meta::{Deprecation, OutOfMemory, owned_text};
use std::alloc::Global;

/// Deprecated, for the reason if there is one.
pub(crate) fn deprecated(alloc: Global, reason: Option<&str>) -> Result<Deprecation, OutOfMemory>
    ensures { IfOk result (λ deprecation.
        deprecation_of deprecation ≡ deprecated_for (option_copied reason.entry)) }
{
    Ok(Deprecation::Deprecated {
        reason: owned_text(alloc, reason)?,
    })
}
