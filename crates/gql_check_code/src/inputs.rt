//! The rules of input objects.

ghost use Rattle.std.specs.Prelude.{◌≡◌, ◌<◌, ◌&&◌, not, IsTrue};
ghost use Rattle.std.specs.Option.{option_copied};
ghost use Rattle.gql_text_values.specs.TypeRefs.{innermost, is_nullable};
ghost use Rattle.gql_check_rules.specs.Schema.{names_input, is_input_object};
ghost use Rattle.gql_check_rules.specs.InputCycles.{reaches_itself};
ghost use Rattle.gql_check_rules.specs.Faults.{field_input, one_of_nullable, one_of_default, input_cycle};
ghost use Rattle.gql_check_rules.specs.Rules.{input_field_fault, input_fault, first_cycle};
ghost use Rattle.gql_dynamic.specs.Errors.{Tells};
ghost use Rattle.gql_check_code.specs.CheckedViews.{schema_of, definition_of, checked_input, checked_inputs, checked_input_object, checked_types, TellsIf, TellsFirst};
ghost use Rattle.gql_check_code.specs.Cycles.{is_found};

use crate::fields::check_field_name;
use crate::names::names_input;
use crate::search::first_input_cycle;
use crate::types::SchemaTypes;
use gql_check_cycles::Steps;
use gql_dynamic::{InputObject, InputValue, SchemaError, SchemaType};
use indexmap::IndexMap;
use std::alloc::Global;
use std::marker::Brand;
use std::sync::ledger::{Blank, Ledger};

fn check_field_type(
    alloc: Global,
    types: &SchemaTypes,
    ty: &str,
    name: &str,
    field: &InputValue,
) -> Result<(), SchemaError>
    ensures { TellsIf result
        (not (names_input (schema_of types.now) (innermost (checked_input field.now).ty)))
        (field_input ty.now name.now) }
{
    if names_input(types, field.ty().type_name()) {
        return Ok(());
    }
    Err(SchemaError::FieldInput {
        ty: String::from_str(alloc, ty)?,
        field: String::from_str(alloc, name)?,
    })
}

/// Where a value has exactly one field, each field may be null.
fn check_nullable(
    alloc: Global,
    ty: &str,
    one_of: bool,
    name: &str,
    field: &InputValue,
) -> Result<(), SchemaError>
    ensures { TellsIf result (one_of && not (is_nullable (checked_input field.now).ty))
        (one_of_nullable ty.now name.now) }
{
    if !one_of || field.ty().is_nullable() {
        return Ok(());
    }
    Err(SchemaError::OneOfNullable {
        ty: String::from_str(alloc, ty)?,
        field: String::from_str(alloc, name)?,
    })
}

/// Where a value has exactly one field, no field has a default.
fn check_default(
    alloc: Global,
    ty: &str,
    one_of: bool,
    name: &str,
    field: &InputValue,
) -> Result<(), SchemaError>
    ensures { TellsIf result (one_of && (checked_input field.now).has_default)
        (one_of_default ty.now name.now) }
{
    if one_of && field.default().is_some() {
        return Err(SchemaError::OneOfDefault {
            ty: String::from_str(alloc, ty)?,
            field: String::from_str(alloc, name)?,
        });
    }
    Ok(())
}

fn check_field(
    alloc: Global,
    types: &SchemaTypes,
    ty: &str,
    one_of: bool,
    name: &str,
    field: &InputValue,
) -> Result<(), SchemaError>
    ensures { Tells result
        (input_field_fault (schema_of types.now) ty.now one_of
        (name.now, checked_input field.now)) }
{
    check_field_name(alloc, ty, name)?;
    check_field_type(alloc, types, ty, name, field)?;
    check_nullable(alloc, ty, one_of, name, field)?;
    check_default(alloc, ty, one_of, name, field)
}

fn check_fields(
    alloc: Global,
    types: &SchemaTypes,
    ty: &str,
    one_of: bool,
    fields: &IndexMap<String, InputValue>,
) -> Result<(), SchemaError>
    ensures { TellsFirst result (input_field_fault (schema_of types.now) ty.now one_of)
        (checked_inputs fields.now.entries) }
{
    for (name, field) in fields {
        check_field(alloc, types, ty, one_of, name, field)?;
    }
    Ok(())
}

fn check_cycle(alloc: Global, ty: &str, is_cyclic: bool) -> Result<(), SchemaError>
    ensures { TellsIf result is_cyclic (input_cycle ty.now) }
{
    if is_cyclic {
        return Err(SchemaError::InputCycle {
            ty: String::from_str(alloc, ty)?,
        });
    }
    Ok(())
}

fn check_input_object(
    alloc: Global,
    types: &SchemaTypes,
    ty: &str,
    object: &InputObject,
    is_cyclic: bool,
) -> Result<(), SchemaError>
    requires { is_cyclic ≡ reaches_itself (schema_of types.now) ty.now }
    ensures { Tells result
        (input_fault (schema_of types.now) (ty.now, checked_input_object object.now)) }
{
    check_fields(alloc, types, ty, object.is_oneof(), object.fields())?;
    check_cycle(alloc, ty, is_cyclic)
}

fn check_type(
    alloc: Global,
    types: &SchemaTypes,
    name: &str,
    ty: &SchemaType,
    is_cyclic: bool,
) -> Result<(), SchemaError>
    requires { IsTrue (is_input_object (definition_of ty.now))
        → is_cyclic ≡ reaches_itself (schema_of types.now) name.now }
    ensures { Tells result (input_fault (schema_of types.now) (name.now, definition_of ty.now)) }
{
    match ty {
        SchemaType::InputObject(object) => {
            check_input_object(alloc, types, name, object, is_cyclic)
        }
        _ => Ok(()),
    }
}

fn is_found(name: &str, cycle: Option<&str>) -> bool
    ensures { result ≡ is_found name.now (option_copied cycle.entry) }
{
    match cycle {
        None => false,
        Some(found) => name == found,
    }
}

/// The rules of input objects, type by type, where the first of them that needs itself is known.
#[tactic(auto, using(crate::proofs::FirstCycle::nexts))]
fn check_types(alloc: Global, types: &SchemaTypes, cycle: Option<&str>) -> Result<(), SchemaError>
    requires { option_copied cycle ≡ first_cycle (schema_of types.now) (checked_types types.now) }
    ensures { TellsFirst result (input_fault (schema_of types.now)) (checked_types types.now) }
{
    for (name, ty) in &types.types {
        check_type(alloc, types, name, ty, is_found(name, cycle))?;
    }
    Ok(())
}

/// The rules of input objects, with a counter of steps that nobody reads.
fn check_uncounted<L: Ledger>(
    alloc: Global,
    types: &SchemaTypes,
    blank: Blank,
) -> Result<(), SchemaError>
    requires name { blank.name ≡ L.name }
    requires parts { blank.parts ≡ L.parts }
    requires some { 0 < blank.parts }
    ensures { TellsFirst result (input_fault (schema_of types.now)) (checked_types types.now) }
{
    let mut steps = Steps::<L>::new(blank);
    match first_input_cycle(alloc, types, &mut steps) {
        Err(_) => Err(SchemaError::OutOfMemory),
        Ok(cycle) => check_types(alloc, types, cycle),
    }
}

/// The rules of input objects.
pub(crate) fn check_inputs(alloc: Global, types: &SchemaTypes) -> Result<(), SchemaError>
    ensures { TellsFirst result (input_fault (schema_of types.now)) (checked_types types.now) }
{
    check_uncounted::<Brand>(alloc, types, Blank::new(1))
}
