//! Which definitions of directives a view has.
#![tactic(auto, using(crate::proofs::Taken::values_of_entries))]

ghost use Rattle.std.specs.Prelude.{◌≡◌, ◌∷◌, [], List};
ghost use Rattle.std.specs.List.{list_any};
ghost use Rattle.std.specs.Map.{values_of};
ghost use Rattle.gql_registry_meta.specs.Parts.{Meta, is_deprecated};
ghost use Rattle.gql_registry_meta.specs.Views.{fields_in, enum_values_in, meta_of, directive_of};
ghost use Rattle.gql_registry.specs.Maps.{types_in};
ghost use Rattle.gql_sdl_view.specs.View.{has_deprecated, has_url, has_one_of, is_needed};
ghost use Rattle.gql_sdl.specs.Needs.{needs_of, joined};

use gql_registry::{MetaDirective, MetaEnumValue, MetaField, MetaType};
use indexmap::IndexMap;
use std::collections::BTreeMap;

/// Which of the directives `deprecated`, `specifiedBy` and `oneOf` some type needs.
#[derive(Clone, Copy)]
pub(crate) struct Needs {
    deprecated: bool,
    url: bool,
    one_of: bool,
}

/// Whether one of the fields is deprecated: section 3.13.3.
fn has_deprecated_field(fields: &IndexMap<String, MetaField>) -> bool
    ensures { result ≡ list_any (λ field. is_deprecated field.deprecation)
        (values_of (fields_in fields.now)) }
{
    for field in fields.values() {
        if field.deprecation.is_deprecated() {
            return true;
        }
    }
    false
}

/// Whether one of the values is deprecated: section 3.13.3.
fn has_deprecated_value(values: &IndexMap<String, MetaEnumValue>) -> bool
    ensures { result ≡ list_any (λ value. is_deprecated value.deprecation)
        (values_of (enum_values_in values.now)) }
{
    for value in values.values() {
        if value.deprecation.is_deprecated() {
            return true;
        }
    }
    false
}

/// Whether a field of an object, or an enum value, is deprecated.
fn has_deprecated(ty: &MetaType) -> bool
    ensures { result ≡ has_deprecated (meta_of ty.now) }
{
    match ty {
        MetaType::Object { fields, .. } => has_deprecated_field(fields),
        MetaType::Enum { enum_values, .. } => has_deprecated_value(enum_values),
        MetaType::Scalar { .. } => false,
        MetaType::Interface { .. } => false,
        MetaType::Union { .. } => false,
        MetaType::InputObject { .. } => false,
    }
}

/// Whether a scalar has a URL: section 3.13.4.
fn has_url(ty: &MetaType) -> bool
    ensures { result ≡ has_url (meta_of ty.now) }
{
    match ty {
        MetaType::Scalar {
            specified_by_url,
            ..
        } => specified_by_url.is_some(),
        MetaType::Object { .. } => false,
        MetaType::Interface { .. } => false,
        MetaType::Union { .. } => false,
        MetaType::Enum { .. } => false,
        MetaType::InputObject { .. } => false,
    }
}

/// Whether an input object takes exactly one of its fields.
fn has_one_of(ty: &MetaType) -> bool
    ensures { result ≡ has_one_of (meta_of ty.now) }
{
    match ty {
        MetaType::InputObject { oneof, .. } => *oneof,
        MetaType::Scalar { .. } => false,
        MetaType::Object { .. } => false,
        MetaType::Interface { .. } => false,
        MetaType::Union { .. } => false,
        MetaType::Enum { .. } => false,
    }
}

impl Needs {
    /// What no type needs.
    pub(crate) fn none() -> Needs
        ensures { result ≡ needs_of [] }
    {
        Needs {
            deprecated: false,
            url: false,
            one_of: false,
        }
    }

    /// What is needed when there is one type more.
    pub(crate) fn with(self, ty: &MetaType) -> Needs
        ensures { result ≡ joined self (needs_of (meta_of ty.now ∷ [])) }
    {
        Needs {
            deprecated: self.deprecated || has_deprecated(ty),
            url: self.url || has_url(ty),
            one_of: self.one_of || has_one_of(ty),
        }
    }

    /// What one of the types needs.
    pub(crate) fn of(types: &BTreeMap<String, MetaType>) -> Needs
        ensures { result ≡ needs_of (values_of (types_in types.now)) }
    {
        let mut needs = Needs::none();
        for ty in types.values() {
            needs = needs.with(ty);
        }
        needs
    }

    /// Whether a view of types with these needs has the definition of a directive.
    pub(crate) fn admits(self, directive: &MetaDirective) -> bool
        ensures { (types : List Meta) → self ≡ needs_of types
            → result ≡ is_needed types (directive_of directive.now) }
    {
        let name = directive.name.as_str();
        if name == "deprecated" {
            self.deprecated
        } else if name == "specifiedBy" {
            self.url
        } else if name == "oneOf" {
            self.one_of
        } else {
            true
        }
    }
}
