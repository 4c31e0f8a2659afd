//! Keys of objects and interfaces, for federation.

ghost use Rattle.std.specs.Prelude.{◌≡◌, IfOk};
ghost use Rattle.std.specs.Option.{option_map};
ghost use Rattle.gql_registry_meta.specs.Views.{texts_of};
ghost use Rattle.gql_dynamic_types.specs.Types.{keys_meta};

use gql_registry_meta::{OutOfMemory, copy_texts};

/// The keys that are registered: none at all where there are none.
pub(crate) fn copied_keys(keys: &Vec<String>) -> Result<Option<Vec<String>>, OutOfMemory>
    ensures { IfOk result (λ copies. option_map texts_of copies ≡ keys_meta (texts_of keys.now)) }
{
    if keys.is_empty() {
        return Ok(None);
    }
    Ok(Some(copy_texts(keys)?))
}
