//! Names that are taken, and names that must exist.

ghost use Rattle.std.specs.Prelude.{map};
ghost use Rattle.std.specs.Option.{option_map};
ghost use Rattle.gql_registry_meta.specs.Views.{text_of};
ghost use Rattle.gql_check_rules.specs.Rules.{name_fault, name_missing, input_missing, field_missing, type_missing, root_missing, existence_fault};
ghost use Rattle.gql_dynamic.specs.Errors.{Tells};
ghost use Rattle.gql_check_code.specs.CheckedViews.{schema_of, definition_of, checked_inputs, checked_field, checked_fields, checked_subscription_field, checked_subscription_fields, checked_types, TellsFirst};

use crate::names::{exists, is_system_scalar};
use crate::types::SchemaTypes;
use gql_dynamic::{FieldBuilder, InputValue, SchemaError, SchemaType, SubscriptionField};
use indexmap::{IndexMap, IndexSet};
use std::alloc::Global;

fn check_name(alloc: Global, name: &str, ty: &SchemaType) -> Result<(), SchemaError>
    ensures { Tells result (name_fault (name.now, definition_of ty.now)) }
{
    if is_system_scalar(name) {
        return Err(SchemaError::AlreadyExists {
            name: String::from_str(alloc, name)?,
        });
    }
    Ok(())
}

/// No type has the name of a system scalar.
pub(crate) fn check_type_names(alloc: Global, types: &SchemaTypes) -> Result<(), SchemaError>
    ensures { TellsFirst result name_fault (checked_types types.now) }
{
    for (name, ty) in &types.types {
        check_name(alloc, name, ty)?;
    }
    Ok(())
}

fn check_exists(alloc: Global, types: &SchemaTypes, name: &str) -> Result<(), SchemaError>
    ensures { Tells result (name_missing (schema_of types.now) name.now) }
{
    if exists(types, name) {
        return Ok(());
    }
    Err(SchemaError::NotFound {
        name: String::from_str(alloc, name)?,
    })
}

fn check_names(
    alloc: Global,
    types: &SchemaTypes,
    names: &IndexSet<String>,
) -> Result<(), SchemaError>
    ensures { TellsFirst result (name_missing (schema_of types.now)) (map text_of names.now.keys) }
{
    for name in names {
        check_exists(alloc, types, name)?;
    }
    Ok(())
}

fn check_inputs(
    alloc: Global,
    types: &SchemaTypes,
    inputs: &IndexMap<String, InputValue>,
) -> Result<(), SchemaError>
    ensures { TellsFirst result (input_missing (schema_of types.now))
        (checked_inputs inputs.now.entries) }
{
    for (_, input) in inputs {
        check_exists(alloc, types, input.ty().type_name())?;
    }
    Ok(())
}

fn check_field<Owner: Drop>(
    alloc: Global,
    types: &SchemaTypes,
    name: &str,
    field: &FieldBuilder<Owner>,
) -> Result<(), SchemaError>
    ensures { Tells result
        (field_missing (schema_of types.now) (name.now, checked_field field.now)) }
{
    check_exists(alloc, types, field.ty().type_name())?;
    check_inputs(alloc, types, field.arguments())
}

fn check_fields<Owner: Drop>(
    alloc: Global,
    types: &SchemaTypes,
    fields: &IndexMap<String, FieldBuilder<Owner>>,
) -> Result<(), SchemaError>
    ensures { TellsFirst result (field_missing (schema_of types.now))
        (checked_fields fields.now.entries) }
{
    for (name, field) in fields {
        check_field(alloc, types, name, field)?;
    }
    Ok(())
}

fn check_subscription_field(
    alloc: Global,
    types: &SchemaTypes,
    name: &str,
    field: &SubscriptionField,
) -> Result<(), SchemaError>
    ensures { Tells result
        (field_missing (schema_of types.now) (name.now, checked_subscription_field field.now)) }
{
    check_exists(alloc, types, field.ty().type_name())?;
    check_inputs(alloc, types, field.arguments())
}

fn check_subscription_fields(
    alloc: Global,
    types: &SchemaTypes,
    fields: &IndexMap<String, SubscriptionField>,
) -> Result<(), SchemaError>
    ensures { TellsFirst result (field_missing (schema_of types.now))
        (checked_subscription_fields fields.now.entries) }
{
    for (name, field) in fields {
        check_subscription_field(alloc, types, name, field)?;
    }
    Ok(())
}

fn check_type(
    alloc: Global,
    types: &SchemaTypes,
    name: &str,
    ty: &SchemaType,
) -> Result<(), SchemaError>
    ensures { Tells result (type_missing (schema_of types.now) (name.now, definition_of ty.now)) }
{
    match ty {
        SchemaType::Object(object) => {
            check_fields(alloc, types, object.fields())?;
            check_names(alloc, types, object.implements())
        }
        SchemaType::Interface(interface) => check_fields(alloc, types, interface.fields()),
        SchemaType::Subscription(own) => check_subscription_fields(alloc, types, own.fields()),
        SchemaType::InputObject(object) => check_inputs(alloc, types, object.fields()),
        SchemaType::Union(own) => check_names(alloc, types, own.possible_types()),
        _ => Ok(()),
    }
}

fn check_types(alloc: Global, types: &SchemaTypes) -> Result<(), SchemaError>
    ensures { TellsFirst result (type_missing (schema_of types.now)) (checked_types types.now) }
{
    for (name, ty) in &types.types {
        check_type(alloc, types, name, ty)?;
    }
    Ok(())
}

fn check_root(alloc: Global, types: &SchemaTypes, name: &Option<String>) -> Result<(), SchemaError>
    ensures { Tells result (root_missing (schema_of types.now) (option_map text_of name.now)) }
{
    match name {
        None => Ok(()),
        Some(name) => check_exists(alloc, types, name.as_str()),
    }
}

/// Each name that the roots for queries and mutations and the types tell is that of a type or of a system scalar.
pub(crate) fn check_existence(alloc: Global, types: &SchemaTypes) -> Result<(), SchemaError>
    ensures { Tells result (existence_fault (schema_of types.now)) }
{
    check_exists(alloc, types, types.query.as_str())?;
    check_root(alloc, types, &types.mutation)?;
    check_types(alloc, types)
}
