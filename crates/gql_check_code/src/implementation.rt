//! That a type has what an interface demands that it implements.

ghost use Rattle.std.specs.Prelude.{◌≡◌, not, Some, option_and_then};
ghost use Rattle.std.specs.Option.{option_map, option_copied};
ghost use Rattle.gql_text_values.specs.TypeRefs.{is_nullable, is_subtype};
ghost use Rattle.gql_registry_meta.specs.Parts.{at_text};
ghost use Rattle.gql_check_rules.specs.Schema.{interface_fields};
ghost use Rattle.gql_check_rules.specs.Faults as fault;
ghost use Rattle.gql_check_rules.specs.Rules.{argument_implemented, own_field_implemented, field_implemented, implements_fault, fits};
ghost use Rattle.gql_dynamic.specs.Errors.{Tells};
ghost use Rattle.gql_check_code.specs.CheckedViews.{schema_of, implementation_of, checked_input, checked_inputs, checked_field, checked_fields, checked_interface_fields, checked_types, TellsIf, TellsFirst};

use crate::fits::fits;
use crate::kinds;
use crate::names::{field_named, input_named};
use crate::types::SchemaTypes;
use gql_dynamic::{FieldBuilder, InputValue, Interface, InterfaceField, SchemaError};
use gql_registry_meta::MetaTypeId;
use indexmap::IndexMap;
use std::alloc::Global;

/// That a type implements an interface, by their names.
#[derive(Clone, Copy)]
pub(crate) struct Implementation<'a> {
    kind: MetaTypeId,
    ty: &'a str,
    interface: &'a str,
}

/// An argument of the interface may be missing where it is nullable.
fn check_missing_argument(
    alloc: Global,
    implementation: &Implementation<'_>,
    field: &str,
    name: &str,
    wanted: &InputValue,
) -> Result<(), SchemaError>
    ensures { TellsIf result (not (is_nullable (checked_input wanted.now).ty))
        (fault.missing_argument implementation.now.ty.now field.now name.now
        implementation.now.interface.now) }
{
    if wanted.ty().is_nullable() {
        return Ok(());
    }
    Err(SchemaError::MissingArgument {
        ty: String::from_str(alloc, implementation.ty)?,
        field: String::from_str(alloc, field)?,
        arg: String::from_str(alloc, name)?,
        interface: String::from_str(alloc, implementation.interface)?,
    })
}

fn check_argument_type(
    alloc: Global,
    implementation: &Implementation<'_>,
    field: &str,
    name: &str,
    own: &InputValue,
    wanted: &InputValue,
) -> Result<(), SchemaError>
    ensures { TellsIf result
        (not (is_subtype (checked_input own.now).ty (checked_input wanted.now).ty))
        (fault.arg_type implementation.now.ty.now field.now name.now
        implementation.now.interface.now) }
{
    if own.ty().is_subtype(wanted.ty()) {
        return Ok(());
    }
    Err(SchemaError::ArgType {
        ty: String::from_str(alloc, implementation.ty)?,
        field: String::from_str(alloc, field)?,
        arg: String::from_str(alloc, name)?,
        interface: String::from_str(alloc, implementation.interface)?,
    })
}

fn check_argument<Owner: Drop>(
    alloc: Global,
    implementation: &Implementation<'_>,
    field: &str,
    own: &FieldBuilder<Owner>,
    name: &str,
    wanted: &InputValue,
) -> Result<(), SchemaError>
    ensures { Tells result
        (argument_implemented (implementation_of implementation.now) field.now
        (checked_field own.now)
        (name.now, checked_input wanted.now)) }
{
    match input_named(own.arguments(), name) {
        None => check_missing_argument(alloc, implementation, field, name, wanted),
        Some(found) => check_argument_type(alloc, implementation, field, name, found, wanted),
    }
}

fn check_arguments<Owner: Drop>(
    alloc: Global,
    implementation: &Implementation<'_>,
    field: &str,
    own: &FieldBuilder<Owner>,
    wanted: &IndexMap<String, InputValue>,
) -> Result<(), SchemaError>
    ensures { TellsFirst result
        (argument_implemented (implementation_of implementation.now) field.now
        (checked_field own.now))
        (checked_inputs wanted.now.entries) }
{
    for (name, argument) in wanted {
        check_argument(alloc, implementation, field, own, name, argument)?;
    }
    Ok(())
}

fn check_field_type<Owner: Drop>(
    alloc: Global,
    types: &SchemaTypes,
    implementation: &Implementation<'_>,
    name: &str,
    own: &FieldBuilder<Owner>,
    wanted: &InterfaceField,
) -> Result<(), SchemaError>
    ensures { TellsIf result
        (not (fits (schema_of types.now) (checked_field own.now).ty (checked_field wanted.now).ty))
        (fault.field_type implementation.now.ty.now name.now implementation.now.interface.now) }
{
    if fits(types, own.ty(), wanted.ty()) {
        return Ok(());
    }
    Err(SchemaError::FieldType {
        ty: String::from_str(alloc, implementation.ty)?,
        field: String::from_str(alloc, name)?,
        interface: String::from_str(alloc, implementation.interface)?,
    })
}

fn check_own_field<Owner: Drop>(
    alloc: Global,
    types: &SchemaTypes,
    implementation: &Implementation<'_>,
    name: &str,
    own: &FieldBuilder<Owner>,
    wanted: &InterfaceField,
) -> Result<(), SchemaError>
    ensures { Tells result
        (own_field_implemented (schema_of types.now) (implementation_of implementation.now) name.now
        (checked_field own.now) (checked_field wanted.now)) }
{
    check_arguments(alloc, implementation, name, own, wanted.arguments())?;
    check_field_type(alloc, types, implementation, name, own, wanted)
}

fn missing_field(
    alloc: Global,
    implementation: &Implementation<'_>,
    name: &str,
) -> Result<(), SchemaError>
    ensures { Tells result (Some (fault.missing_field implementation.now.kind
        implementation.now.ty.now name.now implementation.now.interface.now)) }
{
    Err(SchemaError::MissingField {
        kind: implementation.kind,
        ty: String::from_str(alloc, implementation.ty)?,
        field: String::from_str(alloc, name)?,
        interface: String::from_str(alloc, implementation.interface)?,
    })
}

fn check_field<Owner: Drop>(
    alloc: Global,
    types: &SchemaTypes,
    implementation: &Implementation<'_>,
    fields: &IndexMap<String, FieldBuilder<Owner>>,
    name: &str,
    wanted: &InterfaceField,
) -> Result<(), SchemaError>
    ensures { Tells result
        (field_implemented (schema_of types.now) (implementation_of implementation.now)
        (checked_fields fields.now.entries) (name.now, checked_field wanted.now)) }
{
    match field_named(fields, name) {
        None => missing_field(alloc, implementation, name),
        Some(own) => check_own_field(alloc, types, implementation, name, own, wanted),
    }
}

fn check_fields<Owner: Drop>(
    alloc: Global,
    types: &SchemaTypes,
    implementation: &Implementation<'_>,
    fields: &IndexMap<String, FieldBuilder<Owner>>,
    wanted: &IndexMap<String, InterfaceField>,
) -> Result<(), SchemaError>
    ensures { TellsFirst result
        (field_implemented (schema_of types.now) (implementation_of implementation.now)
        (checked_fields fields.now.entries))
        (checked_fields wanted.now.entries) }
{
    for (name, field) in wanted {
        check_field(alloc, types, implementation, fields, name, field)?;
    }
    Ok(())
}

fn not_interface(alloc: Global, name: &str) -> Result<(), SchemaError>
    ensures { Tells result (Some (fault.not_interface name.now)) }
{
    Err(SchemaError::NotInterface {
        name: String::from_str(alloc, name)?,
    })
}

/// The interface of the name, where there is one.
fn interface_named<'a>(types: &'a SchemaTypes, name: &str) -> Option<&'a Interface>
    ensures { option_map checked_interface_fields (option_copied result)
        ≡ option_and_then interface_fields (at_text name.now (checked_types types.now)) }
{
    match types.type_named(name) {
        None => None,
        Some(ty) => kinds::as_interface(ty),
    }
}

/// A type with these fields implements the interface of the name.
pub(crate) fn check_implements<Owner: Drop>(
    alloc: Global,
    types: &SchemaTypes,
    kind: MetaTypeId,
    ty: &str,
    fields: &IndexMap<String, FieldBuilder<Owner>>,
    name: &str,
) -> Result<(), SchemaError>
    ensures { Tells result
        (implements_fault (schema_of types.now) kind ty.now (checked_fields fields.now.entries)
        name.now) }
{
    match interface_named(types, name) {
        None => not_interface(alloc, name),
        Some(interface) => {
            let implementation = Implementation {
                kind,
                ty,
                interface: name,
            };
            check_fields(alloc, types, &implementation, fields, interface.fields())
        }
    }
}
