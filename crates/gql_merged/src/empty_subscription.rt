//! The root of subscriptions of a schema that has none.

ghost use Rattle.std.specs.Prelude.{codes, true};
ghost use Rattle.gql_registry_meta.specs.Views.{meta_of};
ghost use Rattle.gql_registry.specs.Registry.{registry_of};
ghost use Rattle.gql_registry.specs.Created.{made_by};
ghost use Rattle.gql_merged.specs.Plain.{empty_object, MakesOnly, CreatesOnly};

use crate::plain::make_object;
use gql_registry::{
    CreatesTypes, MetaType, OutOfMemory, Registry, RegistryError, SubscriptionType,
};
use std::alloc::Global;

/// Stands for an object without fields, in the place of a root of subscriptions.
#[derive(Clone, Copy, Default)]
pub struct EmptySubscription;

impl SubscriptionType for EmptySubscription {
    ghost named = { codes "EmptySubscription" };

    ghost creates = { CreatesOnly (empty_object (codes "EmptySubscription") true) };

    fn type_name(alloc: Global) -> Result<String, OutOfMemory> {
        Ok(String::from_str(alloc, "EmptySubscription")?)
    }

    fn qualified_type_name(alloc: Global) -> Result<String, OutOfMemory> {
        Ok(String::from_str(alloc, "EmptySubscription!")?)
    }

    fn create_type_info(registry: &mut Registry) -> Result<(), RegistryError> {
        let alloc = registry.allocator();
        registry.create_subscription_type(
            "EmptySubscription",
            |registry: &mut Registry| -> Result<MetaType, RegistryError>
                ensures { MakesOnly (empty_object (codes "EmptySubscription") true)
                    (registry_of registry.old) (made_by meta_of result) (registry_of registry.new) }
            { make_object(alloc, "EmptySubscription", true) },
        )
    }

    fn is_empty() -> bool {
        true
    }
}
