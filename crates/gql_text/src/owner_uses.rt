//! Uses of directives, as their owners permit them.
#![tactic(auto, using(crate::proofs::First::first_after_append))]

ghost use Rattle.std.specs.Prelude.{◌≡◌, OnOk, flat_map};
ghost use Rattle.gql_text.specs.declared.owner_fault.FaultKind.TheVariants as fault;
ghost use Rattle.gql_text_syntax.specs.declared.error.What.TheVariants as what;
ghost use Rattle.gql_text.specs.Faults.{first_after};
ghost use Rattle.gql_text.specs.Owners.{attribute_faults, attribute_key, custom_use_faults, fault_where, is_attribute, has_no_arguments, is_misused, is_one_string, is_string, may_be_one_of, may_deprecate, may_specify, schema_use_faults, use_faults, uses_faults};
ghost use Rattle.gql_text.specs.Seen.{names_in, with_key, key_faults};

use crate::owner_fault::{FaultKind, OwnerFault, note};
use crate::owner_names::check_name;
use crate::owner_values::check_arguments;
use gql_text_syntax::{Argument, Literal, Use, What};
use std::alloc::{AllocError, Global};
use std::collections::BTreeSet;

/// What a directive stands on, as far as `@deprecated`, `@specifiedBy` and `@oneOf` ask.
#[derive(Clone, Copy, Debug, PartialEq, Eq)]
pub(crate) enum Owner {
    Scalar,
    Input,
    /// A field, an argument, a field of an input object or a value of an enumeration.
    Member,
    Other,
}

fn is_attribute(name: &str) -> bool
    ensures { result ≡ is_attribute name.now }
{
    name == "deprecated" || name == "specifiedBy" || name == "oneOf"
}

fn is_string(value: &Literal<'_>) -> bool
    ensures { result ≡ is_string value.now }
{
    match value {
        Literal::String(_) => true,
        _ => false,
    }
}

fn is_one_string(name: &str, arguments: &[Argument<'_>]) -> bool
    ensures { result ≡ is_one_string name.now arguments.now }
{
    match arguments {
        [only] => only.key.name.as_str() == name && is_string(&only.value),
        _ => false,
    }
}

fn has_no_arguments(arguments: &[Argument<'_>]) -> bool
    ensures { result ≡ has_no_arguments arguments.now }
{
    arguments.is_empty()
}

fn may_deprecate(owner: Owner, arguments: &[Argument<'_>]) -> bool
    ensures { result ≡ may_deprecate owner arguments.now }
{
    match owner {
        Owner::Member => has_no_arguments(arguments) || is_one_string("reason", arguments),
        _ => false,
    }
}

fn may_specify(owner: Owner, arguments: &[Argument<'_>]) -> bool
    ensures { result ≡ may_specify owner arguments.now }
{
    match owner {
        Owner::Scalar => is_one_string("url", arguments),
        _ => false,
    }
}

fn may_be_one_of(owner: Owner, arguments: &[Argument<'_>]) -> bool
    ensures { result ≡ may_be_one_of owner arguments.now }
{
    match owner {
        Owner::Input => has_no_arguments(arguments),
        _ => false,
    }
}

fn is_misused(owner: Owner, one: &Use<'_>) -> bool
    ensures { result ≡ is_misused owner one.now }
{
    let name = one.name.as_str();
    let arguments = one.arguments.as_slice();
    (name == "deprecated" && !may_deprecate(owner, arguments))
        || (name == "specifiedBy" && !may_specify(owner, arguments))
        || (name == "oneOf" && !may_be_one_of(owner, arguments))
}

fn check_misuse(owner: Owner, one: &Use<'_>, first: &mut Option<OwnerFault>)
    ensures { first.new
        ≡ first_after first.old (fault_where (is_misused owner one.now) (fault.Unsupported what.Attribute) one.now.at) }
{
    if is_misused(owner, one) {
        note(first, FaultKind::Unsupported(What::Attribute), one.at);
    }
}

fn check_use(
    alloc: Global,
    owner: Owner,
    one: &Use<'_>,
    first: &mut Option<OwnerFault>,
) -> Result<(), AllocError>
    ensures { OnOk result (first.new ≡ first_after first.old (use_faults owner one.now)) }
{
    check_misuse(owner, one, first);
    check_arguments(alloc, one.arguments.as_slice(), first)
}

fn check_attribute<'t>(
    alloc: Global,
    one: &'t Use<'_>,
    earlier: &mut BTreeSet<&'t str>,
    first: &mut Option<OwnerFault>,
) -> Result<(), AllocError>
    ensures names { OnOk result (names_in earlier.new
        ≡ with_key (attribute_key one.now) (names_in earlier.old)) }
    ensures faults { OnOk result (first.new
        ≡ first_after first.old (key_faults (attribute_key one.now) (names_in earlier.old))) }
{
    if !is_attribute(one.name.as_str()) {
        return Ok(());
    }
    check_name(alloc, one.name.as_str(), one.at, earlier, first)
}

/// `@deprecated`, `@specifiedBy` or `@oneOf` a second time on one owner.
fn check_attributes(
    alloc: Global,
    uses: &[Use<'_>],
    first: &mut Option<OwnerFault>,
) -> Result<(), AllocError>
    ensures { OnOk result (first.new ≡ first_after first.old (attribute_faults uses.now)) }
{
    if uses.len() < 2 {
        return Ok(());
    }
    let mut earlier = BTreeSet::new(alloc);
    for one in uses {
        check_attribute(alloc, one, &mut earlier, first)?;
    }
    Ok(())
}

fn check_each_use(
    alloc: Global,
    owner: Owner,
    uses: &[Use<'_>],
    first: &mut Option<OwnerFault>,
) -> Result<(), AllocError>
    ensures { OnOk result (first.new
        ≡ first_after first.old (flat_map (use_faults owner) uses.now)) }
{
    for one in uses {
        check_use(alloc, owner, one, first)?;
    }
    Ok(())
}

pub(crate) fn check_uses(
    alloc: Global,
    owner: Owner,
    uses: &[Use<'_>],
    first: &mut Option<OwnerFault>,
) -> Result<(), AllocError>
    ensures { OnOk result (first.new ≡ first_after first.old (uses_faults owner uses.now)) }
{
    check_attributes(alloc, uses, first)?;
    check_each_use(alloc, owner, uses, first)
}

fn check_custom_use(one: &Use<'_>, first: &mut Option<OwnerFault>)
    ensures { first.new ≡ first_after first.old (custom_use_faults one.now) }
{
    if !is_attribute(one.name.as_str()) {
        note(
            first,
            FaultKind::Unsupported(What::SubscriptionDecoration),
            one.at,
        );
    }
}

/// The uses that are none of `@deprecated`, `@specifiedBy` and `@oneOf`, where the subscription root may have no other.
pub(crate) fn check_custom_uses(uses: &[Use<'_>], first: &mut Option<OwnerFault>)
    ensures { first.new ≡ first_after first.old (flat_map custom_use_faults uses.now) }
{
    for one in uses {
        check_custom_use(one, first);
    }
}

/// The uses of a schema block, which may have none.
pub(crate) fn check_schema_uses(uses: &[Use<'_>], first: &mut Option<OwnerFault>)
    ensures { first.new ≡ first_after first.old (flat_map schema_use_faults uses.now) }
{
    for one in uses {
        note(
            first,
            FaultKind::Unsupported(What::SchemaDecoration),
            one.at,
        );
    }
}
