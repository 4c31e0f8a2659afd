//! The end of a list of objects that are merged.

ghost use Rattle.std.specs.Prelude.{codes, false};
ghost use Rattle.gql_registry_meta.specs.Views.{meta_of};
ghost use Rattle.gql_registry.specs.Registry.{registry_of};
ghost use Rattle.gql_registry.specs.Created.{made_by};
ghost use Rattle.gql_merged.specs.Plain.{empty_object, MakesOnly, CreatesOnly};

use crate::plain::make_object;
use gql_registry::{
    ContainerType, CreatesTypes, MetaType, MetaTypeId, ObjectType, OutOfMemory, OutputType,
    Registry, RegistryError, SubscriptionType,
};
use std::alloc::Global;

/// Stands for an object without fields, by which a list of merged objects ends.
#[derive(Default, Drop)]
pub struct MergedObjectTail;

impl OutputType for MergedObjectTail {
    ghost named = { codes "MergedObjectTail" };

    ghost creates = { CreatesOnly (empty_object (codes "MergedObjectTail") false) };

    fn type_name(alloc: Global) -> Result<String, OutOfMemory> {
        Ok(String::from_str(alloc, "MergedObjectTail")?)
    }

    fn qualified_type_name(alloc: Global) -> Result<String, OutOfMemory> {
        Ok(String::from_str(alloc, "MergedObjectTail!")?)
    }

    fn create_type_info(registry: &mut Registry) -> Result<(), RegistryError> {
        let alloc = registry.allocator();
        registry.create_output_type(
            "MergedObjectTail",
            MetaTypeId::Object,
            |registry: &mut Registry| -> Result<MetaType, RegistryError>
                ensures { MakesOnly (empty_object (codes "MergedObjectTail") false)
                    (registry_of registry.old) (made_by meta_of result) (registry_of registry.new) }
            { make_object(alloc, "MergedObjectTail", false) },
        )
    }
}

impl ContainerType for MergedObjectTail {}

impl ObjectType for MergedObjectTail {}

impl SubscriptionType for MergedObjectTail {
    ghost named = { codes "MergedSubscriptionTail" };

    ghost creates = { CreatesOnly (empty_object (codes "MergedSubscriptionTail") false) };

    fn type_name(alloc: Global) -> Result<String, OutOfMemory> {
        Ok(String::from_str(alloc, "MergedSubscriptionTail")?)
    }

    fn qualified_type_name(alloc: Global) -> Result<String, OutOfMemory> {
        Ok(String::from_str(alloc, "MergedSubscriptionTail!")?)
    }

    fn create_type_info(registry: &mut Registry) -> Result<(), RegistryError> {
        let alloc = registry.allocator();
        registry.create_subscription_type(
            "MergedSubscriptionTail",
            |registry: &mut Registry| -> Result<MetaType, RegistryError>
                ensures { MakesOnly (empty_object (codes "MergedSubscriptionTail") false)
                    (registry_of registry.old) (made_by meta_of result) (registry_of registry.new) }
            { make_object(alloc, "MergedSubscriptionTail", false) },
        )
    }
}
