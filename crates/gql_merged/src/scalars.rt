//! Scalars of code: section 3.5 of the GraphQL specification, October 2021.

ghost use Rattle.std.specs.Prelude.{codes};
ghost use Rattle.gql_registry_meta.specs.Views.{meta_of};
ghost use Rattle.gql_registry.specs.Plain.{plain_scalar};
ghost use Rattle.gql_registry.specs.Registry.{registry_of};
ghost use Rattle.gql_registry.specs.Created.{made_by};
ghost use Rattle.gql_merged.specs.Plain.{MakesOnly, CreatesOnly};

use crate::plain::make_scalar;
use gql_registry::{
    CreatesTypes, InputType, MetaType, MetaTypeId, OutOfMemory, Registry, RegistryError,
};
use std::alloc::Global;

/// Stands for the scalar `Upload`, whose values are files that come with a request.
#[derive(Drop)]
pub struct Upload;

impl InputType for Upload {
    ghost named = { codes "Upload" };

    ghost creates = { CreatesOnly (plain_scalar (codes "Upload")) };

    fn type_name(alloc: Global) -> Result<String, OutOfMemory> {
        Ok(String::from_str(alloc, "Upload")?)
    }

    fn qualified_type_name(alloc: Global) -> Result<String, OutOfMemory> {
        Ok(String::from_str(alloc, "Upload!")?)
    }

    fn create_type_info(registry: &mut Registry) -> Result<(), RegistryError> {
        let alloc = registry.allocator();
        registry.create_input_type(
            "Upload",
            MetaTypeId::Scalar,
            |registry: &mut Registry| -> Result<MetaType, RegistryError>
                ensures { MakesOnly (plain_scalar (codes "Upload"))
                    (registry_of registry.old) (made_by meta_of result) (registry_of registry.new) }
            { make_scalar(alloc, "Upload") },
        )
    }
}

/// Stands for the scalar `_Any`, whose values are those of entities in a federation of schemas.
#[derive(Drop)]
pub struct Any;

impl InputType for Any {
    ghost named = { codes "_Any" };

    ghost creates = { CreatesOnly (plain_scalar (codes "_Any")) };

    fn type_name(alloc: Global) -> Result<String, OutOfMemory> {
        Ok(String::from_str(alloc, "_Any")?)
    }

    fn qualified_type_name(alloc: Global) -> Result<String, OutOfMemory> {
        Ok(String::from_str(alloc, "_Any!")?)
    }

    fn create_type_info(registry: &mut Registry) -> Result<(), RegistryError> {
        let alloc = registry.allocator();
        registry.create_input_type(
            "_Any",
            MetaTypeId::Scalar,
            |registry: &mut Registry| -> Result<MetaType, RegistryError>
                ensures { MakesOnly (plain_scalar (codes "_Any"))
                    (registry_of registry.old) (made_by meta_of result) (registry_of registry.new) }
            { make_scalar(alloc, "_Any") },
        )
    }
}
