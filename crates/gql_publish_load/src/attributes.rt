//! The attributes of an owner, among the uses on it: section 3.13 of the GraphQL specification, October 2021.

ghost use Rattle.std.specs.Prelude.{◌≡◌, IfOk, map};
ghost use Rattle.std.specs.List.{find, list_any};
ghost use Rattle.std.specs.Option.{option_copied};
ghost use Rattle.std.specs.Str.{bytes_eq};
ghost use Rattle.gql_text.specs.DocumentOf.{argument_of, use_of};
ghost use Rattle.gql_text.specs.Owners.{is_attribute};
ghost use Rattle.gql_publish_document.specs.Uses.{deprecation_in, first_string, has_one_of, string_layer, url_in};
ghost use Rattle.gql_text_values.specs.declared.const_value.ConstValue.{out-ConstValue};
ghost use Rattle.gql_publish_load.specs.Attributes.{deprecated_as};

use crate::values::const_value;
use gql_text::{Argument, ConstValue, OutOfMemory, Text, Use};
use std::alloc::Global;

/// Whether a directive of this name is an attribute of what it is used on.
pub(crate) fn is_attribute(name: &str) -> bool
    ensures { result ≡ is_attribute name.now }
{
    name == "deprecated" || (name == "specifiedBy" || name == "oneOf")
}

/// The first use of the directive of this name.
fn use_named<'d, 't>(name: &str, uses: &'d [Use<'t>]) -> Option<&'d Use<'t>>
    ensures { option_copied result ≡ find (λ u. bytes_eq u.name name.now) uses.now }
{
    uses.iter().find(|u| u.name.as_str() == name)
}

/// The text of a value, where that is a string.
fn string_text(value: ConstValue) -> Option<Text>
    ensures { result ≡ string_layer (out-ConstValue value) }
{
    match value {
        ConstValue::String(text) => Some(text),
        _ => None,
    }
}

/// The text of the first argument, where that is a string.
fn first_string(alloc: Global, arguments: &[Argument<'_>]) -> Result<Option<Text>, OutOfMemory>
    ensures { IfOk result (λ text. text ≡ first_string (map argument_of arguments.now)) }
{
    match arguments {
        [] => Ok(None),
        [first, ..] => Ok(string_text(const_value(alloc, &first.value)?)),
    }
}

/// The reason for which an owner is deprecated, or none; nothing where it is not deprecated.
pub(crate) fn deprecation(
    alloc: Global,
    uses: &[Use<'_>],
) -> Result<Option<Option<Text>>, OutOfMemory>
    ensures { IfOk result (λ found. deprecated_as found ≡ deprecation_in (map use_of uses.now)) }
{
    match use_named("deprecated", uses) {
        None => Ok(None),
        Some(found) => Ok(Some(first_string(alloc, found.arguments.as_slice())?)),
    }
}

/// The URL of a scalar.
pub(crate) fn url(alloc: Global, uses: &[Use<'_>]) -> Result<Option<Text>, OutOfMemory>
    ensures { IfOk result (λ url. url ≡ url_in (map use_of uses.now)) }
{
    match use_named("specifiedBy", uses) {
        None => Ok(None),
        Some(found) => first_string(alloc, found.arguments.as_slice()),
    }
}

fn has_use(name: &str, uses: &[Use<'_>]) -> bool
    ensures { result ≡ list_any (λ u. bytes_eq u.name name.now) uses.now }
{
    uses.iter().any(|u| u.name.as_str() == name)
}

/// Whether an input object takes exactly one of its fields.
pub(crate) fn has_one_of(uses: &[Use<'_>]) -> bool
    ensures { result ≡ has_one_of (map use_of uses.now) }
{
    has_use("oneOf", uses)
}
