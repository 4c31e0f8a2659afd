//! Types without parts.

ghost use Rattle.std.specs.Prelude.{◌≡◌, ◌⊎◌};
ghost use Rattle.std.specs.declared.result.Result.TheVariants.{Ok, Err};
ghost use Rattle.gql_registry_meta.specs.Views.{meta_of};
ghost use Rattle.gql_registry.specs.Plain.{plain_scalar};
ghost use Rattle.gql_registry.specs.Created.{made_by, out_of_memory};
ghost use Rattle.gql_merged.specs.Plain.{empty_object};

use gql_registry::{CacheControl, MetaType, RegistryError};
use indexmap::IndexMap;
use std::alloc::Global;

/// An object without fields.
pub(crate) fn make_object(
    alloc: Global,
    name: &str,
    is_subscription: bool,
) -> Result<MetaType, RegistryError>
    ensures { (made_by meta_of result ≡ Ok (empty_object name.now is_subscription))
        ⊎ (made_by meta_of result ≡ Err out_of_memory) }
{
    let name = String::from_str(alloc, name)?;
    Ok(MetaType::Object {
        name,
        description: None,
        fields: IndexMap::new(alloc),
        cache_control: CacheControl::default(),
        extends: false,
        shareable: false,
        resolvable: true,
        keys: None,
        visible: None,
        inaccessible: false,
        interface_object: false,
        tags: Vec::new(alloc),
        is_subscription,
        directive_invocations: Vec::new(alloc),
        requires_scopes: Vec::new(alloc),
    })
}

/// A scalar that takes every value.
pub(crate) fn make_scalar(alloc: Global, name: &str) -> Result<MetaType, RegistryError>
    ensures { (made_by meta_of result ≡ Ok (plain_scalar name.now))
        ⊎ (made_by meta_of result ≡ Err out_of_memory) }
{
    let name = String::from_str(alloc, name)?;
    Ok(MetaType::Scalar {
        name,
        description: None,
        is_valid: None,
        visible: None,
        inaccessible: false,
        tags: Vec::new(alloc),
        specified_by_url: None,
        directive_invocations: Vec::new(alloc),
        requires_scopes: Vec::new(alloc),
    })
}
