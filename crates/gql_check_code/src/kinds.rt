//! Kinds of types, and what the rules ask of a type.

ghost use Rattle.std.specs.Prelude.{◌≡◌};
ghost use Rattle.std.specs.Option.{option_map, option_copied};
ghost use Rattle.gql_check_rules.specs.Schema.{is_object, is_interface, is_input_object, is_subscription, is_entity, is_output, is_input, interface_fields, declares, has_member};
ghost use Rattle.gql_check_code.specs.CheckedViews.{definition_of, checked_interface_fields};

use crate::names::is_among;
use gql_dynamic::{Interface, SchemaType};

pub(crate) fn is_object(ty: &SchemaType) -> bool
    ensures { result ≡ is_object (definition_of ty.now) }
{
    matches!(ty, SchemaType::Object(_))
}

pub(crate) fn is_interface(ty: &SchemaType) -> bool
    ensures { result ≡ is_interface (definition_of ty.now) }
{
    matches!(ty, SchemaType::Interface(_))
}

pub(crate) fn is_input_object(ty: &SchemaType) -> bool
    ensures { result ≡ is_input_object (definition_of ty.now) }
{
    matches!(ty, SchemaType::InputObject(_))
}

pub(crate) fn is_subscription(ty: &SchemaType) -> bool
    ensures { result ≡ is_subscription (definition_of ty.now) }
{
    matches!(ty, SchemaType::Subscription(_))
}

/// Whether it is an object with a key.
pub(crate) fn is_entity(ty: &SchemaType) -> bool
    ensures { result ≡ is_entity (definition_of ty.now) }
{
    match ty {
        SchemaType::Object(object) => object.is_entity(),
        _ => false,
    }
}

/// Whether a field may have it.
pub(crate) fn is_output(ty: &SchemaType) -> bool
    ensures { result ≡ is_output (definition_of ty.now) }
{
    ty.is_output_type()
}

/// Whether an argument may have it.
pub(crate) fn is_input(ty: &SchemaType) -> bool
    ensures { result ≡ is_input (definition_of ty.now) }
{
    ty.is_input_type()
}

/// Whether it says that it implements the interface.
pub(crate) fn declares(ty: &SchemaType, interface: &str) -> bool
    ensures { result ≡ declares interface.now (definition_of ty.now) }
{
    match ty {
        SchemaType::Object(object) => is_among(interface, object.implements()),
        SchemaType::Interface(own) => is_among(interface, own.implements()),
        _ => false,
    }
}

/// Whether it is a union with the member.
pub(crate) fn has_member(ty: &SchemaType, name: &str) -> bool
    ensures { result ≡ has_member name.now (definition_of ty.now) }
{
    match ty {
        SchemaType::Union(own) => is_among(name, own.possible_types()),
        _ => false,
    }
}

/// It, where it is an interface.
pub(crate) fn as_interface(ty: &SchemaType) -> Option<&Interface>
    ensures { option_map checked_interface_fields (option_copied result)
        ≡ interface_fields (definition_of ty.now) }
{
    match ty {
        SchemaType::Interface(interface) => Some(interface),
        _ => None,
    }
}
