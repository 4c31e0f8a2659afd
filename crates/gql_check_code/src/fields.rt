//! The rules of fields of objects and interfaces, and of their arguments.

ghost use Rattle.std.specs.Prelude.{not};
ghost use Rattle.gql_text_lexer.specs.Forms.{is_reserved};
ghost use Rattle.gql_text_values.specs.TypeRefs.{innermost};
ghost use Rattle.gql_check_rules.specs.Schema.{names_input, names_output};
ghost use Rattle.gql_check_rules.specs.Faults.{arg_underscores, arg_input, field_underscores, field_output};
ghost use Rattle.gql_check_rules.specs.Rules.{argument_fault, field_fault};
ghost use Rattle.gql_dynamic.specs.Errors.{Tells};
ghost use Rattle.gql_check_code.specs.CheckedViews.{schema_of, checked_input, checked_inputs, checked_field, checked_fields, TellsIf, TellsFirst};

use crate::names::{names_input, names_output};
use crate::types::SchemaTypes;
use gql_dynamic::{FieldBuilder, InputValue, SchemaError};
use gql_text_lexer::is_reserved;
use indexmap::IndexMap;
use std::alloc::Global;

fn check_argument_name(alloc: Global, ty: &str, field: &str, name: &str) -> Result<(), SchemaError>
    ensures { TellsIf result (is_reserved name.now) (arg_underscores ty.now field.now name.now) }
{
    if is_reserved(name) {
        return Err(SchemaError::ArgUnderscores {
            ty: String::from_str(alloc, ty)?,
            field: String::from_str(alloc, field)?,
            arg: String::from_str(alloc, name)?,
        });
    }
    Ok(())
}

fn check_argument_type(
    alloc: Global,
    types: &SchemaTypes,
    ty: &str,
    field: &str,
    name: &str,
    argument: &InputValue,
) -> Result<(), SchemaError>
    ensures { TellsIf result
        (not (names_input (schema_of types.now) (innermost (checked_input argument.now).ty)))
        (arg_input ty.now field.now name.now) }
{
    if names_input(types, argument.ty().type_name()) {
        return Ok(());
    }
    Err(SchemaError::ArgInput {
        ty: String::from_str(alloc, ty)?,
        field: String::from_str(alloc, field)?,
        arg: String::from_str(alloc, name)?,
    })
}

fn check_argument(
    alloc: Global,
    types: &SchemaTypes,
    ty: &str,
    field: &str,
    name: &str,
    argument: &InputValue,
) -> Result<(), SchemaError>
    ensures { Tells result
        (argument_fault (schema_of types.now) ty.now field.now
        (name.now, checked_input argument.now)) }
{
    check_argument_name(alloc, ty, field, name)?;
    check_argument_type(alloc, types, ty, field, name, argument)
}

fn check_arguments(
    alloc: Global,
    types: &SchemaTypes,
    ty: &str,
    field: &str,
    arguments: &IndexMap<String, InputValue>,
) -> Result<(), SchemaError>
    ensures { TellsFirst result (argument_fault (schema_of types.now) ty.now field.now)
        (checked_inputs arguments.now.entries) }
{
    for (name, argument) in arguments {
        check_argument(alloc, types, ty, field, name, argument)?;
    }
    Ok(())
}

/// The name of a field is not reserved.
pub(crate) fn check_field_name(alloc: Global, ty: &str, name: &str) -> Result<(), SchemaError>
    ensures { TellsIf result (is_reserved name.now) (field_underscores ty.now name.now) }
{
    if is_reserved(name) {
        return Err(SchemaError::FieldUnderscores {
            ty: String::from_str(alloc, ty)?,
            field: String::from_str(alloc, name)?,
        });
    }
    Ok(())
}

fn check_field_type<Owner: Drop>(
    alloc: Global,
    types: &SchemaTypes,
    ty: &str,
    name: &str,
    field: &FieldBuilder<Owner>,
) -> Result<(), SchemaError>
    ensures { TellsIf result
        (not (names_output (schema_of types.now) (innermost (checked_field field.now).ty)))
        (field_output ty.now name.now) }
{
    if names_output(types, field.ty().type_name()) {
        return Ok(());
    }
    Err(SchemaError::FieldOutput {
        ty: String::from_str(alloc, ty)?,
        field: String::from_str(alloc, name)?,
    })
}

pub(crate) fn check_field<Owner: Drop>(
    alloc: Global,
    types: &SchemaTypes,
    ty: &str,
    name: &str,
    field: &FieldBuilder<Owner>,
) -> Result<(), SchemaError>
    ensures { Tells result
        (field_fault (schema_of types.now) ty.now (name.now, checked_field field.now)) }
{
    check_field_name(alloc, ty, name)?;
    check_field_type(alloc, types, ty, name, field)?;
    check_arguments(alloc, types, ty, name, field.arguments())
}

pub(crate) fn check_fields<Owner: Drop>(
    alloc: Global,
    types: &SchemaTypes,
    ty: &str,
    fields: &IndexMap<String, FieldBuilder<Owner>>,
) -> Result<(), SchemaError>
    ensures { TellsFirst result (field_fault (schema_of types.now) ty.now)
        (checked_fields fields.now.entries) }
{
    for (name, field) in fields {
        check_field(alloc, types, ty, name, field)?;
    }
    Ok(())
}
