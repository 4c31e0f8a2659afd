//! The parts that two objects are merged of.

ghost use Rattle.std.specs.Prelude.{◌≡◌, IfOk, OnOk};
ghost use Rattle.gql_registry_meta.specs.Views.{text_of, fields_in, meta_of};
ghost use Rattle.gql_merged.specs.Merged.{merged_name, joined, own_fields, own_hint};

use gql_registry::{CacheControl, MetaField, MetaType, OutOfMemory};
use indexmap::IndexMap;
use std::alloc::Global;

/// The names with a line below between them.
pub(crate) fn name_of_both(alloc: Global, first: &str, second: &str) -> Result<String, OutOfMemory>
    ensures { IfOk result (λ name. text_of name ≡ merged_name first.now second.now) }
{
    let mut name = String::from_str(alloc, first)?;
    name.push_str("_")?;
    name.push_str(second)?;
    Ok(name)
}

/// What a type gives to a merged object.
#[derive(Drop)]
pub(crate) struct ObjectParts {
    pub(crate) fields: IndexMap<String, MetaField>,
    pub(crate) cache_control: CacheControl,
}

/// The fields and the hint of an object; another type gives nothing.
pub(crate) fn object_parts(alloc: Global, ty: MetaType) -> ObjectParts
    ensures fields { fields_in result.fields ≡ own_fields (meta_of ty) }
    ensures hint { result.cache_control ≡ own_hint (meta_of ty) }
{
    match ty {
        MetaType::Object {
            fields,
            cache_control,
            ..
        } => ObjectParts {
            fields,
            cache_control,
        },
        _ => ObjectParts {
            fields: IndexMap::new(alloc),
            cache_control: CacheControl::default(),
        },
    }
}

/// Adds the others: one of a name that is among the fields takes its place, and a new one goes last.
pub(crate) fn join_fields(
    fields: &mut IndexMap<String, MetaField>,
    others: &mut IndexMap<String, MetaField>,
) -> Result<(), OutOfMemory>
    ensures { OnOk result (fields_in fields.new ≡ joined (fields_in fields.old) (fields_in others.old)) }
{
    fields.reserve(others.len())?;
    fields.append(others)?;
    Ok(())
}
