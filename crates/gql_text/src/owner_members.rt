//! Arguments, fields and values of an enumeration.
#![tactic(auto, using(crate::proofs::First::first_after_append))]

ghost use Rattle.std.specs.Prelude.{◌≡◌, OnOk, flat_map};
ghost use Rattle.gql_text.specs.Faults.{first_after};
ghost use Rattle.gql_text.specs.Owners.{enum_value_faults, enum_values_faults, field_faults, fields_faults, input_faults, inputs_faults};

use crate::owner_fault::OwnerFault;
use crate::owner_names::check_names;
use crate::owner_uses::{Owner, check_uses};
use crate::owner_values::check_default;
use gql_text_syntax::{EnumValue, Field, InputValue};
use std::alloc::{AllocError, Global};

fn check_input(
    alloc: Global,
    input: &InputValue<'_>,
    first: &mut Option<OwnerFault>,
) -> Result<(), AllocError>
    ensures { OnOk result (first.new ≡ first_after first.old (input_faults input.now)) }
{
    check_default(alloc, &input.default, first)?;
    check_uses(alloc, Owner::Member, input.uses.as_slice(), first)
}

fn check_each_input(
    alloc: Global,
    inputs: &[InputValue<'_>],
    first: &mut Option<OwnerFault>,
) -> Result<(), AllocError>
    ensures { OnOk result (first.new ≡ first_after first.old (flat_map input_faults inputs.now)) }
{
    for input in inputs {
        check_input(alloc, input, first)?;
    }
    Ok(())
}

/// The arguments of one owner, or the fields of an input object.
pub(crate) fn check_inputs(
    alloc: Global,
    inputs: &[InputValue<'_>],
    first: &mut Option<OwnerFault>,
) -> Result<(), AllocError>
    ensures { OnOk result (first.new ≡ first_after first.old (inputs_faults inputs.now)) }
{
    check_names(alloc, inputs, first)?;
    check_each_input(alloc, inputs, first)
}

fn check_field(
    alloc: Global,
    field: &Field<'_>,
    first: &mut Option<OwnerFault>,
) -> Result<(), AllocError>
    ensures { OnOk result (first.new ≡ first_after first.old (field_faults field.now)) }
{
    check_inputs(alloc, field.arguments.as_slice(), first)?;
    check_uses(alloc, Owner::Member, field.uses.as_slice(), first)
}

fn check_each_field(
    alloc: Global,
    fields: &[Field<'_>],
    first: &mut Option<OwnerFault>,
) -> Result<(), AllocError>
    ensures { OnOk result (first.new ≡ first_after first.old (flat_map field_faults fields.now)) }
{
    for field in fields {
        check_field(alloc, field, first)?;
    }
    Ok(())
}

pub(crate) fn check_fields(
    alloc: Global,
    fields: &[Field<'_>],
    first: &mut Option<OwnerFault>,
) -> Result<(), AllocError>
    ensures { OnOk result (first.new ≡ first_after first.old (fields_faults fields.now)) }
{
    check_names(alloc, fields, first)?;
    check_each_field(alloc, fields, first)
}

fn check_enum_value(
    alloc: Global,
    value: &EnumValue<'_>,
    first: &mut Option<OwnerFault>,
) -> Result<(), AllocError>
    ensures { OnOk result (first.new ≡ first_after first.old (enum_value_faults value.now)) }
{
    check_uses(alloc, Owner::Member, value.uses.as_slice(), first)
}

fn check_each_enum_value(
    alloc: Global,
    values: &[EnumValue<'_>],
    first: &mut Option<OwnerFault>,
) -> Result<(), AllocError>
    ensures { OnOk result (first.new
        ≡ first_after first.old (flat_map enum_value_faults values.now)) }
{
    for value in values {
        check_enum_value(alloc, value, first)?;
    }
    Ok(())
}

pub(crate) fn check_enum_values(
    alloc: Global,
    values: &[EnumValue<'_>],
    first: &mut Option<OwnerFault>,
) -> Result<(), AllocError>
    ensures { OnOk result (first.new ≡ first_after first.old (enum_values_faults values.now)) }
{
    check_names(alloc, values, first)?;
    check_each_enum_value(alloc, values, first)
}
