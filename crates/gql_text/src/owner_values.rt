//! Keys that repeat in an object, at any depth of a value.
#![tactic(auto, using(crate::proofs::First::first_after_append))]

ghost use Rattle.std.specs.Prelude.{◌≡◌, OnOk, flat_map};
ghost use Rattle.gql_text.specs.Faults.{first_after};
ghost use Rattle.gql_text.specs.Owners.{value_faults, argument_faults, default_faults};

use crate::owner_fault::OwnerFault;
use crate::owner_names::check_names;
use gql_text_syntax::{Argument, Literal, PlacedName};
use std::alloc::{AllocError, Global};

#[cycle(values)]
fn check_items(
    alloc: Global,
    items: &[Literal<'_>],
    first: &mut Option<OwnerFault>,
) -> Result<(), AllocError>
    ensures { OnOk result (first.new ≡ first_after first.old (flat_map value_faults items.now)) }
{
    for item in items {
        check_value(alloc, item, first)?;
    }
    Ok(())
}

#[cycle(values)]
fn check_entries(
    alloc: Global,
    entries: &[(PlacedName<'_>, Literal<'_>)],
    first: &mut Option<OwnerFault>,
) -> Result<(), AllocError>
    ensures { OnOk result (first.new
        ≡ first_after first.old (flat_map (λ e. value_faults e.1) entries.now)) }
{
    for entry in entries {
        check_value(alloc, &entry.1, first)?;
    }
    Ok(())
}

#[cycle(values)]
pub(crate) fn check_value(
    alloc: Global,
    value: &Literal<'_>,
    first: &mut Option<OwnerFault>,
) -> Result<(), AllocError>
    ensures { OnOk result (first.new ≡ first_after first.old (value_faults value.now)) }
{
    match value {
        Literal::List(items) => check_items(alloc, items.as_slice(), first),
        Literal::Object(entries) => {
            check_names(alloc, entries.as_slice(), first)?;
            check_entries(alloc, entries.as_slice(), first)
        }
        _ => Ok(()),
    }
}

pub(crate) fn check_default(
    alloc: Global,
    default: &Option<Literal<'_>>,
    first: &mut Option<OwnerFault>,
) -> Result<(), AllocError>
    ensures { OnOk result (first.new ≡ first_after first.old (default_faults default.now)) }
{
    match default {
        None => Ok(()),
        Some(value) => check_value(alloc, value, first),
    }
}

fn check_argument_values(
    alloc: Global,
    arguments: &[Argument<'_>],
    first: &mut Option<OwnerFault>,
) -> Result<(), AllocError>
    ensures { OnOk result (first.new
        ≡ first_after first.old (flat_map (λ a. value_faults a.value) arguments.now)) }
{
    for argument in arguments {
        check_value(alloc, &argument.value, first)?;
    }
    Ok(())
}

pub(crate) fn check_arguments(
    alloc: Global,
    arguments: &[Argument<'_>],
    first: &mut Option<OwnerFault>,
) -> Result<(), AllocError>
    ensures { OnOk result (first.new ≡ first_after first.old (argument_faults arguments.now)) }
{
    check_names(alloc, arguments, first)?;
    check_argument_values(alloc, arguments, first)
}
