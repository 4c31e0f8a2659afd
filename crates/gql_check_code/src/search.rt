//! The search for an input object that needs itself: section 3.10, circular references, of the GraphQL specification,
//! October 2021.

ghost use Rattle.std.specs.Prelude.{◌≡◌, ◌↔◌, ◌+◌, ◌<◌, ◌≤◌, IfOk, None, Some, length};
ghost use Rattle.std.specs.Option.{option_copied};
ghost use Rattle.gql_check_rules.specs.InputCycles.{HasFiniteValues};
ghost use Rattle.gql_check_rules.specs.Rules.{first_cycle};
ghost use Rattle.gql_check_code.specs.CheckedViews.{schema_of, checked_types};
ghost use Rattle.gql_check_code.specs.Counts.{field_total, naming_bound};
ghost use Rattle.gql_check_code.specs.Cycles.{name_at};

use crate::table::distinct_names;
use crate::types::SchemaTypes;
use gql_check_cycles::{Steps, first_cycle};
use gql_check_rules::cycle_laws;
use gql_dynamic::OutOfMemory;
use std::alloc::Global;
use std::sync::ledger::Ledger;

/// The name of the type of a number.
fn name_of(types: &SchemaTypes, node: usize) -> Option<&str>
    requires { node < length (checked_types types.now) }
    ensures { option_copied result ≡ Some (name_at (schema_of types.now) node) }
{
    let (name, _) = types.types.get_index(node)?;
    Some(name.as_str())
}

/// The first input object, in the order of registration, that needs itself.
fn first_cyclic<'a, L: Ledger>(
    alloc: Global,
    types: &'a SchemaTypes,
    steps: &mut Steps<L>,
) -> Result<Option<&'a str>, OutOfMemory>
    ensures first { IfOk result (λ found.
        option_copied found ≡ first_cycle (schema_of types.now) (schema_of types.now).types) }
    ensures none { IfOk result (λ found. option_copied found ≡ None →
        steps.new ≤ steps.old + field_total (schema_of types.now)) }
    ensures cost { steps.new ≤ steps.old + naming_bound (schema_of types.now) }
{
    cycle_laws();
    distinct_names(types);
    match first_cycle(alloc, types, steps)? {
        None => Ok(None),
        Some(node) => Ok(name_of(types, node)),
    }
}

/// The first input object, in the order of registration, that needs itself: it is reached by one or more fields of types of
/// the form `N!`. There is none exactly where each input object has a finite value.
///
/// A step is a look at an input field, or a read of what a field needs. Of I input objects with F fields in all it takes at
/// most F steps where the answer is none, and at most F + I * F where it names one, also where memory runs out. The search
/// needs no stack.
pub fn first_input_cycle<'a, L: Ledger>(
    alloc: Global,
    types: &'a SchemaTypes,
    steps: &mut Steps<L>,
) -> Result<Option<&'a str>, OutOfMemory>
    ensures first { IfOk result (λ found.
        option_copied found ≡ first_cycle (schema_of types.now) (schema_of types.now).types) }
    ensures finite { IfOk result (λ found.
        (option_copied found ≡ None) ↔ HasFiniteValues (schema_of types.now)) }
    ensures none { IfOk result (λ found. option_copied found ≡ None →
        steps.new ≤ steps.old + field_total (schema_of types.now)) }
    ensures cost { steps.new ≤ steps.old + naming_bound (schema_of types.now) }
{
    cycle_laws();
    let found = first_cyclic(alloc, types, steps)?;
    Ok(found)
}
