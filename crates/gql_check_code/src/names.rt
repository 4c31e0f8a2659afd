//! What stands under a name.

ghost use Rattle.std.specs.Prelude.{◌≡◌, map};
ghost use Rattle.std.specs.Option.{option_map, option_copied};
ghost use Rattle.gql_registry_meta.specs.Parts.{at_text, is_among};
ghost use Rattle.gql_registry_meta.specs.Views.{text_of};
ghost use Rattle.gql_check_rules.specs.Schema.{is_system_scalar, exists, passes, is_object, is_interface, is_input_object, is_subscription, names_output, names_input};
ghost use Rattle.gql_check_code.specs.CheckedViews.{schema_of, checked_input, checked_inputs, checked_field, checked_fields, checked_types};

use crate::kinds;
use crate::types::SchemaTypes;
use gql_dynamic::{FieldBuilder, InputValue};
use indexmap::{IndexMap, IndexSet};

#[tactic(auto, unfolding(gql_check_rules::specs::Schema::is_system_scalar))]
pub(crate) fn is_system_scalar(name: &str) -> bool
    ensures { result ≡ is_system_scalar name.now }
{
    name == "Int" || name == "Float" || name == "String" || name == "Boolean" || name == "ID"
}

pub(crate) fn is_among(name: &str, names: &IndexSet<String>) -> bool
    ensures { result ≡ is_among name.now (map text_of names.now.keys) }
{
    names.contains(name)
}

pub(crate) fn field_named<'a, Owner: Drop>(
    fields: &'a IndexMap<String, FieldBuilder<Owner>>,
    name: &str,
) -> Option<&'a FieldBuilder<Owner>>
    ensures { option_map (λ field. checked_field field) (option_copied result)
        ≡ at_text name.now (checked_fields fields.now.entries) }
{
    fields.get(name)
}

pub(crate) fn input_named<'a>(
    inputs: &'a IndexMap<String, InputValue>,
    name: &str,
) -> Option<&'a InputValue>
    ensures { option_map (λ input. checked_input input) (option_copied result)
        ≡ at_text name.now (checked_inputs inputs.now.entries) }
{
    inputs.get(name)
}

/// Whether a type of the name is registered, or it is the name of a system scalar.
pub(crate) fn exists(types: &SchemaTypes, name: &str) -> bool
    ensures { result ≡ exists (schema_of types.now) name.now }
{
    is_system_scalar(name) || types.type_named(name).is_some()
}

pub(crate) fn names_output(types: &SchemaTypes, name: &str) -> bool
    ensures { result ≡ names_output (schema_of types.now) name.now }
{
    if is_system_scalar(name) {
        return true;
    }
    match types.type_named(name) {
        None => false,
        Some(ty) => kinds::is_output(ty),
    }
}

pub(crate) fn names_input(types: &SchemaTypes, name: &str) -> bool
    ensures { result ≡ names_input (schema_of types.now) name.now }
{
    if is_system_scalar(name) {
        return true;
    }
    match types.type_named(name) {
        None => false,
        Some(ty) => kinds::is_input(ty),
    }
}

pub(crate) fn names_object(types: &SchemaTypes, name: &str) -> bool
    ensures { result ≡ passes is_object (at_text name.now (checked_types types.now)) }
{
    match types.type_named(name) {
        None => false,
        Some(ty) => kinds::is_object(ty),
    }
}

pub(crate) fn names_interface(types: &SchemaTypes, name: &str) -> bool
    ensures { result ≡ passes is_interface (at_text name.now (checked_types types.now)) }
{
    match types.type_named(name) {
        None => false,
        Some(ty) => kinds::is_interface(ty),
    }
}

pub(crate) fn names_input_object(types: &SchemaTypes, name: &str) -> bool
    ensures { result ≡ passes is_input_object (at_text name.now (checked_types types.now)) }
{
    match types.type_named(name) {
        None => false,
        Some(ty) => kinds::is_input_object(ty),
    }
}

pub(crate) fn names_subscription(types: &SchemaTypes, name: &str) -> bool
    ensures { result ≡ passes is_subscription (at_text name.now (checked_types types.now)) }
{
    match types.type_named(name) {
        None => false,
        Some(ty) => kinds::is_subscription(ty),
    }
}
