//! Types to which other schemas of a federation refer.

ghost use Rattle.std.specs.Prelude.{◌≡◌};
ghost use Rattle.gql_registry_meta.specs.Views.{entries_of, meta_of};
ghost use Rattle.gql_registry_closures.specs.Entities.{is_entity, has_entities};

use crate::table::has_key;
use gql_registry_meta::MetaType;
use std::collections::BTreeMap;

/// Whether a type is an object that can be resolved, or an interface, with a key.
fn is_entity(ty: &MetaType) -> bool
    ensures { result ≡ is_entity (meta_of ty.now) }
{
    match ty {
        MetaType::Object { resolvable, .. } => *resolvable && has_key(ty),
        MetaType::Interface { .. } => has_key(ty),
        _ => false,
    }
}

/// Whether some type is an object that can be resolved, or an interface, with a key: other schemas of a federation refer to
/// such a type.
pub fn has_entities(types: &BTreeMap<String, MetaType>) -> bool
    ensures { result ≡ has_entities (entries_of meta_of types.now.entries) }
{
    for ty in types.values() {
        if is_entity(ty) {
            return true;
        }
    }
    false
}
