//! The root of queries, by which a schema describes itself: section 4 of the GraphQL specification, October 2021.

ghost use Rattle.std.specs.Prelude.{IsSome};
ghost use Rattle.gql_registry_meta.specs.Parts.{at_text};
ghost use Rattle.gql_registry.specs.Registry.{registry_of, types_of};
ghost use Rattle.gql_registry.specs.Created.{answer_of};
ghost use Rattle.gql_merged.specs.QueryRoot.{Describes, CreatesRoot};

use gql_registry::{
    ContainerType, IntrospectionMode, ObjectType, OutOfMemory, OutputType, Registry, RegistryError,
};
use std::alloc::Global;

/// Stands for the same object as `T`. After that object is created, the introspection types and the fields `__schema` and
/// `__type` of the query root are added, unless the mode of the registry is `Disabled`.
#[derive(Drop)]
pub struct QueryRoot<T> {
    pub inner: T,
}

impl<T: ObjectType> OutputType for QueryRoot<T> {
    ghost named = { T.named };

    ghost creates = { CreatesRoot T.creates };

    fn type_name(alloc: Global) -> Result<String, OutOfMemory> {
        T::type_name(alloc)
    }

    fn qualified_type_name(alloc: Global) -> Result<String, OutOfMemory> {
        T::qualified_type_name(alloc)
    }

    fn create_type_info(registry: &mut Registry) -> Result<(), RegistryError> {
        match T::create_type_info(registry) {
            Ok(()) => add_introspection::<T>(registry),
            Err(e) => Err(e),
        }
    }
}

impl<T: ObjectType> ContainerType for QueryRoot<T> {}

impl<T: ObjectType> ObjectType for QueryRoot<T> {}

/// Adds what a schema has that describes itself, unless the mode is `Disabled`. The root of queries stands in it.
fn add_introspection<T: OutputType>(registry: &mut Registry) -> Result<(), RegistryError>
    requires { IsSome (at_text T.named (types_of registry.old)) }
    ensures { Describes (registry_of registry.old) (answer_of result) (registry_of registry.new) }
{
    if registry.introspection_mode() == IntrospectionMode::Disabled {
        return Ok(());
    }
    registry.create_introspection_types()?;
    Ok(())
}
