//! An object of the fields of two.

ghost use Rattle.std.specs.Prelude.{◌≡◌};
ghost use Rattle.gql_registry_meta.specs.Views.{meta_of};
ghost use Rattle.gql_registry.specs.Registry.{registry_of};
ghost use Rattle.gql_registry.specs.Created.{made_by};
ghost use Rattle.gql_merged.specs.Merged.{merged_name, Merges, CreatesMerged};

use crate::fields::{join_fields, name_of_both, object_parts};
use gql_registry::{
    CacheControl, ContainerType, CreatesTypes, MetaType, MetaTypeId, OutOfMemory, OutputType,
    Registry, RegistryError,
};
use std::alloc::Global;

/// Stands for an object of the fields of `B` in their order and then the new ones of `A`; a name of both has the field of
/// `A` at the place of that of `B`. Its name is that of `A`, a line below and that of `B`, and its hint for caches is the
/// one that says nothing, merged with that of `B` and then with that of `A`. A side that is no object adds nothing. Where
/// it is created anew, `B` is created first and then `A`, and their refusals are passed on.
#[derive(Drop)]
pub struct MergedObject<A, B>(pub A, pub B);

/// Creates the second and the first, and makes an object of the fields of both.
fn make_merged<A: OutputType, B: OutputType>(
    registry: &mut Registry,
    name: &str,
) -> Result<MetaType, RegistryError>
    requires { name.now ≡ merged_name A.named B.named }
    ensures { Merges A.named A.creates B.named B.creates (registry_of registry.old)
        (made_by meta_of result) (registry_of registry.new) }
{
    let alloc = registry.allocator();
    let second = registry.create_fake_output_type::<B>()?;
    let mut second_parts = object_parts(alloc, second);
    let first = registry.create_fake_output_type::<A>()?;
    let mut first_parts = object_parts(alloc, first);
    join_fields(&mut second_parts.fields, &mut first_parts.fields)?;
    let cache_control = CacheControl::default()
        .merge(&second_parts.cache_control)
        .merge(&first_parts.cache_control);
    let name = String::from_str(alloc, name)?;
    Ok(MetaType::Object {
        name,
        description: None,
        fields: second_parts.fields,
        cache_control,
        extends: false,
        shareable: false,
        resolvable: true,
        keys: None,
        visible: None,
        inaccessible: false,
        interface_object: false,
        tags: Vec::new(alloc),
        is_subscription: false,
        directive_invocations: Vec::new(alloc),
        requires_scopes: Vec::new(alloc),
    })
}

impl<A: OutputType, B: OutputType> OutputType for MergedObject<A, B> {
    ghost named = { merged_name A.named B.named };

    ghost creates = { CreatesMerged A.named A.creates B.named B.creates };

    fn type_name(alloc: Global) -> Result<String, OutOfMemory> {
        let first = A::type_name(alloc)?;
        let second = B::type_name(alloc)?;
        name_of_both(alloc, first.as_str(), second.as_str())
    }

    fn qualified_type_name(alloc: Global) -> Result<String, OutOfMemory> {
        let first = A::type_name(alloc)?;
        let second = B::qualified_type_name(alloc)?;
        name_of_both(alloc, first.as_str(), second.as_str())
    }

    fn create_type_info(registry: &mut Registry) -> Result<(), RegistryError> {
        let alloc = registry.allocator();
        let name = <Self as OutputType>::type_name(alloc)?;
        let own = name.as_str();
        registry.create_output_type(
            own,
            MetaTypeId::Object,
            |registry: &mut Registry| -> Result<MetaType, RegistryError>
                requires { own.now ≡ merged_name A.named B.named }
                ensures { Merges A.named A.creates B.named B.creates (registry_of registry.old)
                    (made_by meta_of result) (registry_of registry.new) }
            { make_merged::<A, B>(registry, own) },
        )
    }
}

impl<A: ContainerType, B: ContainerType> ContainerType for MergedObject<A, B> {}
