//! What a definition may not have by itself.
#![tactic(auto, using(crate::proofs::First::first_after_append))]

ghost use Rattle.std.specs.Prelude.{◌≡◌, OnOk, flat_map};
ghost use Rattle.std.specs.Option.{option_copied};
ghost use Rattle.gql_text.specs.Faults.{first_after};
ghost use Rattle.gql_text.specs.Owners.{definition_faults, description_faults, duplicates, head_faults, implements_decoration, implements_faults, no_names, object_faults, object_like_faults, reserved, schema_faults, subscription_faults, subscription_field_faults};
ghost use Rattle.gql_text.specs.WrittenRoots.{is_root};

use crate::owner_fault::{FaultKind, OwnerFault, note};
use crate::owner_members::{check_enum_values, check_fields, check_inputs};
use crate::owner_names::check_names;
use crate::owner_uses::{Owner, check_custom_uses, check_schema_uses, check_uses};
use gql_text_lexer::{Text, is_reserved};
use gql_text_syntax::{
    Description, Field, Implements, Kind, ObjectLike, PlacedName, Root, Use, What,
    WrittenDefinition,
};
use sqlite_items::Items;
use std::alloc::{AllocError, Global};

/// A reserved name, where it may not stand.
fn check_reserved(
    alloc: Global,
    key: &PlacedName<'_>,
    first: &mut Option<OwnerFault>,
) -> Result<(), AllocError>
    ensures { OnOk result (first.new ≡ first_after first.old (reserved key.now)) }
{
    let name = key.name.as_str();
    if !is_reserved(name) {
        return Ok(());
    }
    note(
        first,
        FaultKind::ReservedName(Text::new(alloc, name)?),
        key.at,
    );
    Ok(())
}

/// The members of a union, or the implemented names of one type.
fn check_listed(
    alloc: Global,
    names: &[PlacedName<'_>],
    first: &mut Option<OwnerFault>,
) -> Result<(), AllocError>
    ensures { OnOk result (first.new ≡ first_after first.old (duplicates no_names names.now)) }
{
    check_names(alloc, names, first)
}

fn check_implements(
    alloc: Global,
    implements: &Option<Implements<'_>>,
    first: &mut Option<OwnerFault>,
) -> Result<(), AllocError>
    ensures { OnOk result (first.new ≡ first_after first.old (implements_faults implements.now)) }
{
    match implements {
        None => Ok(()),
        Some(found) => check_listed(alloc, found.names.as_slice(), first),
    }
}

fn check_object_like(
    alloc: Global,
    object: &ObjectLike<'_>,
    first: &mut Option<OwnerFault>,
) -> Result<(), AllocError>
    ensures { OnOk result (first.new ≡ first_after first.old (object_like_faults object.now)) }
{
    check_reserved(alloc, &object.key, first)?;
    check_implements(alloc, &object.implements, first)?;
    check_uses(alloc, Owner::Other, object.uses.as_slice(), first)?;
    check_fields(alloc, object.fields.as_slice(), first)
}

fn check_implements_word(implements: &Option<Implements<'_>>, first: &mut Option<OwnerFault>)
    ensures { first.new ≡ first_after first.old (implements_decoration implements.now) }
{
    if let Some(found) = implements {
        note(
            first,
            FaultKind::Unsupported(What::SubscriptionDecoration),
            found.at,
        );
    }
}

fn check_subscription_field(
    alloc: Global,
    field: &Field<'_>,
    first: &mut Option<OwnerFault>,
) -> Result<(), AllocError>
    ensures { OnOk result (first.new
        ≡ first_after first.old (subscription_field_faults field.now)) }
{
    check_reserved(alloc, &field.key, first)?;
    check_custom_uses(field.uses.as_slice(), first);
    Ok(())
}

fn check_subscription_fields(
    alloc: Global,
    fields: &[Field<'_>],
    first: &mut Option<OwnerFault>,
) -> Result<(), AllocError>
    ensures { OnOk result (first.new
        ≡ first_after first.old (flat_map subscription_field_faults fields.now)) }
{
    for field in fields {
        check_subscription_field(alloc, field, first)?;
    }
    Ok(())
}

/// What the subscription root may not have.
fn check_subscription(
    alloc: Global,
    object: &ObjectLike<'_>,
    first: &mut Option<OwnerFault>,
) -> Result<(), AllocError>
    ensures { OnOk result (first.new ≡ first_after first.old (subscription_faults object.now)) }
{
    check_implements_word(&object.implements, first);
    check_custom_uses(object.uses.as_slice(), first);
    check_subscription_fields(alloc, object.fields.as_slice(), first)
}

fn is_root(root: Option<&str>, name: &str) -> bool
    ensures { result ≡ is_root (option_copied root.entry) name.now }
{
    match root {
        None => false,
        Some(root) => root == name,
    }
}

fn check_object(
    alloc: Global,
    root: Option<&str>,
    object: &ObjectLike<'_>,
    first: &mut Option<OwnerFault>,
) -> Result<(), AllocError>
    ensures { OnOk result (first.new
        ≡ first_after first.old (object_faults (option_copied root.entry) object.now)) }
{
    check_object_like(alloc, object, first)?;
    if !is_root(root, object.key.name.as_str()) {
        return Ok(());
    }
    check_subscription(alloc, object, first)
}

fn check_description(description: &Option<Description<'_>>, first: &mut Option<OwnerFault>)
    ensures { first.new ≡ first_after first.old (description_faults description.now) }
{
    if let Some(found) = description {
        note(
            first,
            FaultKind::Unsupported(What::SchemaDecoration),
            found.at,
        );
    }
}

fn check_schema(
    alloc: Global,
    description: &Option<Description<'_>>,
    uses: &[Use<'_>],
    roots: &[Root<'_>],
    first: &mut Option<OwnerFault>,
) -> Result<(), AllocError>
    ensures { OnOk result (first.new
        ≡ first_after first.old (schema_faults description.now uses.now roots.now)) }
{
    check_description(description, first);
    check_schema_uses(uses, first);
    check_uses(alloc, Owner::Other, uses, first)?;
    check_names(alloc, roots, first)
}

/// The name of a definition and its uses.
fn check_head(
    alloc: Global,
    key: &PlacedName<'_>,
    owner: Owner,
    uses: &Items<Use<'_>>,
    first: &mut Option<OwnerFault>,
) -> Result<(), AllocError>
    ensures { OnOk result (first.new
        ≡ first_after first.old (head_faults key.now owner uses.now)) }
{
    check_reserved(alloc, key, first)?;
    check_uses(alloc, owner, uses.as_slice(), first)
}

/// The faults of one definition by itself, given the name of the subscription root.
pub(crate) fn check_definition(
    alloc: Global,
    root: Option<&str>,
    definition: &WrittenDefinition<'_>,
    first: &mut Option<OwnerFault>,
) -> Result<(), AllocError>
    ensures { OnOk result (first.new
        ≡ first_after first.old (definition_faults (option_copied root.entry) definition.now)) }
{
    match &definition.kind {
        Kind::Schema { uses, roots, .. } => {
            let description = &definition.description;
            check_schema(alloc, description, uses.as_slice(), roots.as_slice(), first)
        }
        Kind::Scalar { key, uses } => check_head(alloc, key, Owner::Scalar, uses, first),
        Kind::Object(object) => check_object(alloc, root, object, first),
        Kind::Interface(object) => check_object_like(alloc, object, first),
        Kind::Union { key, uses, members } => {
            check_head(alloc, key, Owner::Other, uses, first)?;
            check_listed(alloc, members.as_slice(), first)
        }
        Kind::Enum { key, uses, values } => {
            check_head(alloc, key, Owner::Other, uses, first)?;
            check_enum_values(alloc, values.as_slice(), first)
        }
        Kind::Input { key, uses, fields } => {
            check_head(alloc, key, Owner::Input, uses, first)?;
            check_inputs(alloc, fields.as_slice(), first)
        }
        Kind::Directive { arguments, .. } => check_inputs(alloc, arguments.as_slice(), first),
    }
}
