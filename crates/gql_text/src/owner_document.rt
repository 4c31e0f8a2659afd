//! The first owner fault of a document.
#![tactic(auto, using(crate::proofs::First::first_after_append))]

ghost use Rattle.std.specs.Prelude.{◌≡◌, IfOk, OnOk, None, flat_map};
ghost use Rattle.std.specs.Option.{option_copied};
ghost use Rattle.gql_text.specs.Faults.{IsFirstOf, first_after};
ghost use Rattle.gql_text.specs.Owners.{definition_faults, directive_key, directive_name_faults, owner_faults, type_key, type_name_faults};
ghost use Rattle.gql_text.specs.Seen.{key_faults, names_in, with_key};

use crate::owner_fault::OwnerFault;
use crate::owner_names::check_name;
use crate::owner_roots::{check_query, check_seconds};
use crate::owner_types::check_definition;
use crate::roots::{first_schema, root_name};
use gql_text_syntax::{Kind, OperationType, PlacedName, WrittenDefinition};
use std::alloc::{AllocError, Global};
use std::collections::BTreeSet;

fn check_key<'t>(
    alloc: Global,
    key: Option<&'t PlacedName<'_>>,
    earlier: &mut BTreeSet<&'t str>,
    first: &mut Option<OwnerFault>,
) -> Result<(), AllocError>
    ensures names { OnOk result (names_in earlier.new
        ≡ with_key (option_copied key.entry) (names_in earlier.old)) }
    ensures faults { OnOk result (first.new
        ≡ first_after first.old (key_faults (option_copied key.entry) (names_in earlier.old))) }
{
    match key {
        None => Ok(()),
        Some(key) => check_name(alloc, key.name.as_str(), key.at, earlier, first),
    }
}

fn type_key<'d, 't>(kind: &'d Kind<'t>) -> Option<&'d PlacedName<'t>>
    ensures { option_copied result ≡ type_key kind.now }
{
    match kind {
        Kind::Schema { .. } => None,
        Kind::Scalar { key, .. } => Some(key),
        Kind::Object(object) => Some(&object.key),
        Kind::Interface(object) => Some(&object.key),
        Kind::Union { key, .. } => Some(key),
        Kind::Enum { key, .. } => Some(key),
        Kind::Input { key, .. } => Some(key),
        Kind::Directive { .. } => None,
    }
}

fn directive_key<'d, 't>(kind: &'d Kind<'t>) -> Option<&'d PlacedName<'t>>
    ensures { option_copied result ≡ directive_key kind.now }
{
    match kind {
        Kind::Directive { key, .. } => Some(key),
        _ => None,
    }
}

fn check_type_names(
    alloc: Global,
    definitions: &[WrittenDefinition<'_>],
    first: &mut Option<OwnerFault>,
) -> Result<(), AllocError>
    ensures { OnOk result (first.new ≡ first_after first.old (type_name_faults definitions.now)) }
{
    let mut earlier = BTreeSet::new(alloc);
    for definition in definitions {
        check_key(alloc, type_key(&definition.kind), &mut earlier, first)?;
    }
    Ok(())
}

fn check_directive_names(
    alloc: Global,
    definitions: &[WrittenDefinition<'_>],
    first: &mut Option<OwnerFault>,
) -> Result<(), AllocError>
    ensures { OnOk result (first.new
        ≡ first_after first.old (directive_name_faults definitions.now)) }
{
    let mut earlier = BTreeSet::new(alloc);
    for definition in definitions {
        check_key(alloc, directive_key(&definition.kind), &mut earlier, first)?;
    }
    Ok(())
}

fn check_each_definition(
    alloc: Global,
    root: Option<&str>,
    definitions: &[WrittenDefinition<'_>],
    first: &mut Option<OwnerFault>,
) -> Result<(), AllocError>
    ensures { OnOk result (first.new
        ≡ first_after first.old (flat_map (definition_faults (option_copied root.entry)) definitions.now)) }
{
    for definition in definitions {
        check_definition(alloc, root, definition, first)?;
    }
    Ok(())
}

fn check_document(
    alloc: Global,
    definitions: &[WrittenDefinition<'_>],
    first: &mut Option<OwnerFault>,
) -> Result<(), AllocError>
    ensures { OnOk result (first.new ≡ first_after first.old (owner_faults definitions.now)) }
{
    check_type_names(alloc, definitions, first)?;
    check_directive_names(alloc, definitions, first)?;
    check_seconds(definitions, first);
    check_query(first_schema(definitions), first);
    let root = root_name(OperationType::Subscription, definitions);
    check_each_definition(alloc, root, definitions, first)
}

/// The owner fault with the least place, or `None` where there is no owner fault. At one place a `Duplicate` comes
/// before a `ReservedName`, and that before the others, in the order of `FaultKind`.
pub(crate) fn first_owner_fault(
    alloc: Global,
    definitions: &[WrittenDefinition<'_>],
) -> Result<Option<OwnerFault>, AllocError>
    ensures { IfOk result (λ first. IsFirstOf first (owner_faults definitions.now)) }
{
    let mut first = None;
    check_document(alloc, definitions, &mut first)?;
    Ok(first)
}
