//! The root of mutations of a schema that has none.

ghost use Rattle.std.specs.Prelude.{codes, false};
ghost use Rattle.gql_registry_meta.specs.Views.{meta_of};
ghost use Rattle.gql_registry.specs.Registry.{registry_of};
ghost use Rattle.gql_registry.specs.Created.{made_by};
ghost use Rattle.gql_merged.specs.Plain.{empty_object, MakesOnly, CreatesOnly};

use crate::plain::make_object;
use gql_registry::{
    ContainerType, CreatesTypes, MetaType, MetaTypeId, ObjectType, OutOfMemory, OutputType,
    Registry, RegistryError,
};
use std::alloc::Global;

/// Stands for an object without fields, in the place of a root of mutations.
#[derive(Clone, Copy, Default)]
pub struct EmptyMutation;

impl OutputType for EmptyMutation {
    ghost named = { codes "EmptyMutation" };

    ghost creates = { CreatesOnly (empty_object (codes "EmptyMutation") false) };

    fn type_name(alloc: Global) -> Result<String, OutOfMemory> {
        Ok(String::from_str(alloc, "EmptyMutation")?)
    }

    fn qualified_type_name(alloc: Global) -> Result<String, OutOfMemory> {
        Ok(String::from_str(alloc, "EmptyMutation!")?)
    }

    fn create_type_info(registry: &mut Registry) -> Result<(), RegistryError> {
        let alloc = registry.allocator();
        registry.create_output_type(
            "EmptyMutation",
            MetaTypeId::Object,
            |registry: &mut Registry| -> Result<MetaType, RegistryError>
                ensures { MakesOnly (empty_object (codes "EmptyMutation") false)
                    (registry_of registry.old) (made_by meta_of result) (registry_of registry.new) }
            { make_object(alloc, "EmptyMutation", false) },
        )
    }
}

impl ContainerType for EmptyMutation {
    fn is_empty() -> bool {
        true
    }
}

impl ObjectType for EmptyMutation {}
