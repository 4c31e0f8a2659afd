//! The rules of a schema in their order.

ghost use Rattle.std.specs.Prelude.{OnOk};
ghost use Rattle.gql_check_rules.specs.InputCycles.{HasFiniteValues};
ghost use Rattle.gql_check_rules.specs.Rules.{first_fault};
ghost use Rattle.gql_dynamic.specs.Errors.{Tells};
ghost use Rattle.gql_check_code.specs.CheckedViews.{schema_of};

use crate::existence::{check_existence, check_type_names};
use crate::inputs::check_inputs;
use crate::interfaces::check_interfaces;
use crate::objects::check_objects;
use crate::roots::check_roots;
use crate::types::SchemaTypes;
use crate::unions::check_unions;
use gql_check_rules::cycle_laws;
use gql_dynamic::SchemaError;
use std::alloc::Global;

/// The first rule that the types break, with the names that it reports. Where none is broken, each input object has a finite
/// value.
pub fn check(alloc: Global, types: &SchemaTypes) -> Result<(), SchemaError>
    ensures first { Tells result (first_fault (schema_of types.now)) }
    ensures finite { OnOk result (HasFiniteValues (schema_of types.now)) }
{
    cycle_laws();
    check_groups(alloc, types)
}

/// All groups of rules, in their order.
fn check_groups(alloc: Global, types: &SchemaTypes) -> Result<(), SchemaError>
    ensures { Tells result (first_fault (schema_of types.now)) }
{
    check_type_names(alloc, types)?;
    check_existence(alloc, types)?;
    check_roots(types)?;
    check_objects(alloc, types)?;
    check_inputs(alloc, types)?;
    check_interfaces(alloc, types)?;
    check_unions(alloc, types)
}
