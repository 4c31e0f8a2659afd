//! The rules of objects.

ghost use Rattle.std.specs.Prelude.{◌≡◌, ◌&&◌, not, map};
ghost use Rattle.gql_registry_meta.specs.Parts.{is_empty};
ghost use Rattle.gql_registry_meta.specs.Views.{text_of};
ghost use Rattle.gql_registry_meta.specs.declared.type_id.MetaTypeId.TheVariants as kind;
ghost use Rattle.gql_check_rules.specs.Tests.{first_of};
ghost use Rattle.gql_check_rules.specs.Faults.{empty_object};
ghost use Rattle.gql_check_rules.specs.Rules.{object_fault, object_tests, implements_fault, has_entity, may_be_empty};
ghost use Rattle.gql_dynamic.specs.Errors.{Tells};
ghost use Rattle.gql_check_code.specs.CheckedViews.{schema_of, definition_of, checked_fields, checked_types, TellsIf, TellsFirst};

use crate::fields::check_fields;
use crate::implementation::check_implements;
use crate::kinds::is_entity;
use crate::types::SchemaTypes;
use gql_dynamic::{Field, SchemaError, SchemaType};
use gql_registry_meta::MetaTypeId;
use indexmap::{IndexMap, IndexSet};
use std::alloc::Global;

fn check_implementations(
    alloc: Global,
    types: &SchemaTypes,
    ty: &str,
    fields: &IndexMap<String, Field>,
    names: &IndexSet<String>,
) -> Result<(), SchemaError>
    ensures { TellsFirst result
        (implements_fault (schema_of types.now) kind.Object ty.now
        (checked_fields fields.now.entries))
        (map text_of names.now.keys) }
{
    for name in names {
        check_implements(alloc, types, MetaTypeId::Object, ty, fields, name)?;
    }
    Ok(())
}

fn has_entity(types: &SchemaTypes) -> bool
    ensures { result ≡ has_entity (schema_of types.now) }
{
    for (_, ty) in &types.types {
        if is_entity(ty) {
            return true;
        }
    }
    false
}

/// The query root may be without fields where some object has a key.
fn may_be_empty(types: &SchemaTypes, ty: &str) -> bool
    ensures { result ≡ may_be_empty (schema_of types.now) ty.now }
{
    ty == types.query.as_str() && has_entity(types)
}

fn check_not_empty(
    alloc: Global,
    types: &SchemaTypes,
    ty: &str,
    fields: &IndexMap<String, Field>,
) -> Result<(), SchemaError>
    ensures { TellsIf result
        (is_empty (checked_fields fields.now.entries) && not
        (may_be_empty (schema_of types.now) ty.now))
        (empty_object ty.now) }
{
    if !fields.is_empty() || may_be_empty(types, ty) {
        return Ok(());
    }
    Err(SchemaError::EmptyObject {
        ty: String::from_str(alloc, ty)?,
    })
}

fn check_object(
    alloc: Global,
    types: &SchemaTypes,
    ty: &str,
    fields: &IndexMap<String, Field>,
    implements: &IndexSet<String>,
) -> Result<(), SchemaError>
    ensures { Tells result (first_of (object_tests (schema_of types.now) ty.now
        (checked_fields fields.now.entries) (map text_of implements.now.keys))) }
{
    check_not_empty(alloc, types, ty, fields)?;
    check_fields(alloc, types, ty, fields)?;
    check_implementations(alloc, types, ty, fields, implements)
}

fn check_type(
    alloc: Global,
    types: &SchemaTypes,
    name: &str,
    ty: &SchemaType,
) -> Result<(), SchemaError>
    ensures { Tells result (object_fault (schema_of types.now) (name.now, definition_of ty.now)) }
{
    match ty {
        SchemaType::Object(object) => {
            check_object(alloc, types, name, object.fields(), object.implements())
        }
        _ => Ok(()),
    }
}

pub(crate) fn check_objects(alloc: Global, types: &SchemaTypes) -> Result<(), SchemaError>
    ensures { TellsFirst result (object_fault (schema_of types.now)) (checked_types types.now) }
{
    for (name, ty) in &types.types {
        check_type(alloc, types, name, ty)?;
    }
    Ok(())
}
