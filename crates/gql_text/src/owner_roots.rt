//! The schema blocks of a document as it is written.

ghost use Rattle.std.specs.Prelude.{◌≡◌, false};
ghost use Rattle.std.specs.Option.{option_copied};
ghost use Rattle.gql_text.specs.Faults.{first_after};
ghost use Rattle.gql_text.specs.Owners.{query_faults, query_faults_of, second_schema, second_schemas, schema_place};
ghost use Rattle.gql_text.specs.WrittenRoots.{has_line};

use crate::owner_fault::{FaultKind, OwnerFault, note};
use crate::roots::{is_schema, same_operation};
use gql_text_syntax::{Kind, OperationType, Root, What, WrittenDefinition};

fn has_line(operation: OperationType, roots: &[Root<'_>]) -> bool
    ensures { result ≡ has_line operation roots.now }
{
    roots.iter().any(|r| same_operation(operation, r.kind))
}

fn check_query_of(kind: &Kind<'_>, first: &mut Option<OwnerFault>)
    ensures { first.new ≡ first_after first.old (query_faults_of kind.now) }
{
    let Kind::Schema { at, roots, .. } = kind else {
        return;
    };
    if has_line(OperationType::Query, roots.as_slice()) {
        return;
    }
    note(first, FaultKind::Unsupported(What::NoQuery), *at);
}

/// The first block without a line for queries.
pub(crate) fn check_query(schema: Option<&WrittenDefinition<'_>>, first: &mut Option<OwnerFault>)
    ensures { first.new ≡ first_after first.old (query_faults (option_copied schema.entry)) }
{
    let Some(found) = schema else { return };
    check_query_of(&found.kind, first);
}

fn check_second(before: bool, kind: &Kind<'_>, first: &mut Option<OwnerFault>)
    ensures { first.new ≡ first_after first.old (second_schema before (schema_place kind.now)) }
{
    match kind {
        Kind::Schema { at, .. } if before => {
            note(first, FaultKind::Unsupported(What::SecondSchema), *at)
        }
        _ => {}
    }
}

/// The blocks after the first one.
pub(crate) fn check_seconds(definitions: &[WrittenDefinition<'_>], first: &mut Option<OwnerFault>)
    ensures { first.new ≡ first_after first.old (second_schemas false definitions.now) }
{
    let mut before = false;
    for definition in definitions {
        check_second(before, &definition.kind, first);
        before = before || is_schema(&definition.kind);
    }
}
