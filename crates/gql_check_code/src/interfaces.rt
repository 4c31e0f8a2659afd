//! The rules of interfaces.

ghost use Rattle.std.specs.Prelude.{map, cond, None};
ghost use Rattle.gql_registry_meta.specs.Views.{text_of};
ghost use Rattle.gql_registry_meta.specs.Parts.{is_among};
ghost use Rattle.gql_check_rules.specs.Faults.{implements_itself};
ghost use Rattle.gql_check_rules.specs.Rules.{declared_fault, interface_fault, interface_implements_fault, field_fault};
ghost use Rattle.gql_dynamic.specs.Errors.{Tells};
ghost use Rattle.gql_check_code.specs.CheckedViews.{schema_of, definition_of, checked_field, checked_fields, checked_interface, checked_types, declared_fault_of, TellsIf, TellsFirst};
ghost use Rattle.gql_check_rules.specs.Tests.{or_else};

use crate::fields;
use crate::implementation::check_implements;
use crate::names::{exists, is_among};
use crate::types::SchemaTypes;
use gql_dynamic::{Interface, InterfaceField, SchemaError, SchemaType};
use gql_registry_meta::MetaTypeId;
use indexmap::{IndexMap, IndexSet};
use std::alloc::Global;

fn check_itself(alloc: Global, ty: &str, implements: &IndexSet<String>) -> Result<(), SchemaError>
    ensures { TellsIf result (is_among ty.now (map text_of implements.now.keys))
        (implements_itself ty.now) }
{
    if is_among(ty, implements) {
        return Err(SchemaError::ImplementsItself {
            ty: String::from_str(alloc, ty)?,
        });
    }
    Ok(())
}

fn check_implementation(
    alloc: Global,
    types: &SchemaTypes,
    ty: &str,
    fields: &IndexMap<String, InterfaceField>,
    name: &str,
) -> Result<(), SchemaError>
    ensures { Tells result
        (interface_implements_fault (schema_of types.now) ty.now (checked_fields fields.now.entries)
        name.now) }
{
    if !exists(types, name) {
        return Ok(());
    }
    check_implements(alloc, types, MetaTypeId::Interface, ty, fields, name)
}

fn check_implementations(
    alloc: Global,
    types: &SchemaTypes,
    ty: &str,
    fields: &IndexMap<String, InterfaceField>,
    names: &IndexSet<String>,
) -> Result<(), SchemaError>
    ensures { TellsFirst result
        (interface_implements_fault (schema_of types.now) ty.now
        (checked_fields fields.now.entries))
        (map text_of names.now.keys) }
{
    for name in names {
        check_implementation(alloc, types, ty, fields, name)?;
    }
    Ok(())
}

/// The rules on the interfaces that it declares.
fn check_declared(
    alloc: Global,
    types: &SchemaTypes,
    ty: &str,
    fields: &IndexMap<String, InterfaceField>,
    implements: &IndexSet<String>,
) -> Result<(), SchemaError>
    ensures { Tells result
        (declared_fault (schema_of types.now) ty.now (checked_fields fields.now.entries)
        (map text_of implements.now.keys)) }
{
    check_itself(alloc, ty, implements)?;
    check_implementations(alloc, types, ty, fields, implements)
}

/// The rules of a field, and after those of the first field the rules on the interfaces that are declared.
fn check_field(
    alloc: Global,
    types: &SchemaTypes,
    ty: &str,
    own: &Interface,
    name: &str,
    field: &InterfaceField,
    is_first: bool,
) -> Result<(), SchemaError>
    ensures { Tells result (or_else
        (field_fault (schema_of types.now) ty.now (name.now, checked_field field.now))
        (cond is_first (declared_fault_of types.now ty.now own.now) None)) }
{
    fields::check_field(alloc, types, ty, name, field)?;
    if is_first {
        check_declared(alloc, types, ty, own.fields(), own.implements())?;
    }
    Ok(())
}

fn check_interface(
    alloc: Global,
    types: &SchemaTypes,
    ty: &str,
    own: &Interface,
) -> Result<(), SchemaError>
    ensures { Tells result
        (interface_fault (schema_of types.now) (ty.now, checked_interface own.now)) }
{
    let mut is_first = true;
    for (name, field) in own.fields() {
        check_field(alloc, types, ty, own, name, field, is_first)?;
        is_first = false;
    }
    Ok(())
}

fn check_type(
    alloc: Global,
    types: &SchemaTypes,
    name: &str,
    ty: &SchemaType,
) -> Result<(), SchemaError>
    ensures { Tells result
        (interface_fault (schema_of types.now) (name.now, definition_of ty.now)) }
{
    match ty {
        SchemaType::Interface(own) => check_interface(alloc, types, name, own),
        _ => Ok(()),
    }
}

pub(crate) fn check_interfaces(alloc: Global, types: &SchemaTypes) -> Result<(), SchemaError>
    ensures { TellsFirst result (interface_fault (schema_of types.now)) (checked_types types.now) }
{
    for (name, ty) in &types.types {
        check_type(alloc, types, name, ty)?;
    }
    Ok(())
}
