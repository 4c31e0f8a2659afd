//! Members of types, each under its name.

ghost use Rattle.std.specs.Prelude.{◌≡◌, ◌++◌, ◌∷◌, [], false, IfOk, IfErr, OnOk, map};
ghost use Rattle.std.specs.Map.{keys_of};
ghost use Rattle.gql_registry_meta.specs.Views.{text_of, field_of, enum_value_of, names_of, fields_in, enum_values_in};
ghost use Rattle.gql_parts.specs.Builders.{field_meta, subscription_field_meta, enum_item_meta};
ghost use Rattle.gql_parts.specs.BuilderViews.{fields_built, items_built, subscription_fields_built};
ghost use Rattle.gql_registry_meta.specs.Parts.{is_among, with_entry_in_place};
ghost use Rattle.gql_dynamic_types.specs.Types.{each_meta};
ghost use Rattle.gql_dynamic_types.specs.TypeViews.{ReportsRepeated};

use crate::error::BuildError;
use gql_parts::{EnumItem, FieldBuilder, SubscriptionField};
use gql_registry_meta::{MetaEnumValue, MetaField, OutOfMemory};
use indexmap::{IndexMap, IndexSet};
use std::alloc::Global;

/// Adds an entry, unless one of its name is there.
pub(crate) fn put_new<V: Drop>(
    entries: &mut IndexMap<String, V>,
    name: String,
    value: V,
) -> Result<(), BuildError>
    ensures put { OnOk result (entries.new.entries ≡ entries.old.entries ++ (name, value) ∷ []) }
    ensures new { OnOk result (is_among (text_of name) (map text_of (keys_of entries.old.entries))
        ≡ false) }
    ensures repeated { IfErr result (
        ReportsRepeated (text_of name) (map text_of (keys_of entries.old.entries))) }
{
    if entries.contains_key(&name) {
        return Err(BuildError::AlreadyExists(name));
    }
    entries.insert(name, value)?;
    Ok(())
}

/// Adds a name, unless it is there.
pub(crate) fn put_new_name(names: &mut IndexSet<String>, name: String) -> Result<(), BuildError>
    ensures put { OnOk result (names_of names.new ≡ names_of names.old ++ text_of name ∷ []) }
    ensures new { OnOk result (is_among (text_of name) (names_of names.old) ≡ false) }
    ensures repeated { IfErr result (ReportsRepeated (text_of name) (names_of names.old)) }
{
    if names.contains(&name) {
        return Err(BuildError::AlreadyExists(name));
    }
    names.insert(name)?;
    Ok(())
}

/// Puts a field under a name.
#[tactic(auto, using(gql_registry_meta::proofs::Entries::entries_with_insertion))]
fn put_field(
    alloc: Global,
    made: &mut IndexMap<String, MetaField>,
    name: &str,
    value: MetaField,
) -> Result<(), OutOfMemory>
    ensures { OnOk result (fields_in made.new
        ≡ with_entry_in_place (fields_in made.old) name.now (field_of value)) }
{
    let key = String::from_str(alloc, name)?;
    made.insert(key, value)?;
    Ok(())
}

/// Puts a value of an enum under a name.
#[tactic(auto, using(gql_registry_meta::proofs::Entries::entries_with_insertion))]
fn put_enum_value(
    alloc: Global,
    made: &mut IndexMap<String, MetaEnumValue>,
    name: &str,
    value: MetaEnumValue,
) -> Result<(), OutOfMemory>
    ensures { OnOk result (enum_values_in made.new
        ≡ with_entry_in_place (enum_values_in made.old) name.now (enum_value_of value)) }
{
    let key = String::from_str(alloc, name)?;
    made.insert(key, value)?;
    Ok(())
}

/// The fields that are registered, each under its name and in their order.
pub(crate) fn fields_meta<Owner: Drop>(
    alloc: Global,
    fields: &IndexMap<String, FieldBuilder<Owner>>,
) -> Result<IndexMap<String, MetaField>, OutOfMemory>
    ensures { IfOk result (λ made. fields_in made
        ≡ each_meta field_meta (fields_built fields.now)) }
{
    let mut made = IndexMap::new(alloc);
    for (name, field) in fields.iter() {
        put_field(alloc, &mut made, name.as_str(), field.meta(alloc)?)?;
    }
    // it is whole, and small maps have room for several entries more
    made.shrink_to_fit();
    Ok(made)
}

/// The same of a subscription.
pub(crate) fn subscription_fields_meta(
    alloc: Global,
    fields: &IndexMap<String, SubscriptionField>,
) -> Result<IndexMap<String, MetaField>, OutOfMemory>
    ensures { IfOk result (λ made. fields_in made
        ≡ each_meta subscription_field_meta (subscription_fields_built fields.now)) }
{
    let mut made = IndexMap::new(alloc);
    for (name, field) in fields.iter() {
        put_field(alloc, &mut made, name.as_str(), field.meta(alloc)?)?;
    }
    // it is whole, and small maps have room for several entries more
    made.shrink_to_fit();
    Ok(made)
}

/// The values of an enum that are registered, each under its name and in their order.
pub(crate) fn enum_values_meta(
    alloc: Global,
    items: &IndexMap<String, EnumItem>,
) -> Result<IndexMap<String, MetaEnumValue>, OutOfMemory>
    ensures { IfOk result (λ made. enum_values_in made
        ≡ each_meta enum_item_meta (items_built items.now)) }
{
    let mut made = IndexMap::new(alloc);
    for (name, item) in items.iter() {
        put_enum_value(alloc, &mut made, name.as_str(), item.meta(alloc)?)?;
    }
    // it is whole, and small maps have room for several entries more
    made.shrink_to_fit();
    Ok(made)
}
