//! Whether a field's type may stand for that of an interface's field.

ghost use Rattle.std.specs.Prelude.{◌≡◌};
ghost use Rattle.gql_text_values.specs.TypeRefs.{reference};
ghost use Rattle.gql_registry_meta.specs.Parts.{at_text};
ghost use Rattle.gql_check_rules.specs.Schema.{passes, declares, has_member};
ghost use Rattle.gql_check_rules.specs.Rules.{name_fits, fits};
ghost use Rattle.gql_check_code.specs.CheckedViews.{schema_of, checked_types};

use crate::kinds;
use crate::names::{names_interface, names_object};
use crate::types::SchemaTypes;
use gql_text_values::TypeRef;

/// Whether the name is that of a union with the member.
fn names_union_with(types: &SchemaTypes, name: &str, member: &str) -> bool
    ensures { result
        ≡ passes (has_member member.now) (at_text name.now (checked_types types.now)) }
{
    match types.type_named(name) {
        None => false,
        Some(ty) => kinds::has_member(ty, member),
    }
}

/// Whether the type of the name says that it implements the interface.
fn name_declares(types: &SchemaTypes, name: &str, interface: &str) -> bool
    ensures { result ≡ passes (declares interface.now)
        (at_text name.now (checked_types types.now)) }
{
    match types.type_named(name) {
        None => false,
        Some(ty) => kinds::declares(ty, interface),
    }
}

fn name_fits(types: &SchemaTypes, own: &str, wanted: &str) -> bool
    ensures { result ≡ name_fits (schema_of types.now) own.now wanted.now }
{
    own == wanted
        || (names_object(types, own) && names_union_with(types, wanted, own))
        || (name_declares(types, own, wanted) && names_interface(types, wanted))
}

/// Whether a field of the first type may implement one of the second.
pub(crate) fn fits(types: &SchemaTypes, own: &TypeRef, wanted: &TypeRef) -> bool
    ensures { result ≡ fits (schema_of types.now) (reference own.now) (reference wanted.now) }
{
    match (own, wanted) {
        (TypeRef::NonNull(f), TypeRef::NonNull(g)) => fits(types, f.get(), g.get()),
        (TypeRef::NonNull(f), _) => fits(types, f.get(), wanted),
        (TypeRef::List(f), TypeRef::List(g)) => fits(types, f.get(), g.get()),
        (TypeRef::Named(f), TypeRef::Named(g)) => name_fits(types, f.as_str(), g.as_str()),
        _ => false,
    }
}
