//! The types of a schema as they are registered, and the names of its roots.

ghost use Rattle.std.specs.Prelude.{◌≡◌};
ghost use Rattle.std.specs.Option.{option_copied, option_map};
ghost use Rattle.gql_registry_meta.specs.Parts.{at_text};
ghost use Rattle.gql_registry_meta.specs.Views.{entries_of};
ghost use Rattle.gql_dynamic.specs.SchemaViews.{type_parts};
ghost use Rattle.gql_check_code.specs.CheckedViews.{schema_parts, checked_types, definition_of};

use gql_dynamic::Type;
use indexmap::IndexMap;

/// Types in the order in which they were registered, each under its name, and the names of the roots. The rules go by the
/// names under which the types stand.
#[derive(Drop)]
pub struct SchemaTypes {
    pub types: IndexMap<String, Type>,
    /// The name of the root of queries.
    pub query: String,
    /// The name of the root of mutations, where there is one.
    pub mutation: Option<String>,
    /// The name of the root of subscriptions, where there is one.
    pub subscription: Option<String>,
}

impl SchemaTypes {
    /// The types, each under its name and in the order of registration.
    pub fn types(&self) -> &IndexMap<String, Type>
        ensures { entries_of type_parts result.now.entries ≡ (schema_parts self.now).types }
    {
        &self.types
    }

    /// The name of the root of queries.
    pub fn query(&self) -> &str
        ensures { result.now ≡ (schema_parts self.now).query }
    {
        self.query.as_str()
    }

    /// The name of the root of mutations, where there is one.
    pub fn mutation(&self) -> Option<&str>
        ensures { option_copied result ≡ (schema_parts self.now).mutation }
    {
        self.mutation.as_deref()
    }

    /// The name of the root of subscriptions, where there is one.
    pub fn subscription(&self) -> Option<&str>
        ensures { option_copied result ≡ (schema_parts self.now).subscription }
    {
        self.subscription.as_deref()
    }

    /// The type that is registered under a name.
    pub(crate) fn type_named(&self, name: &str) -> Option<&Type>
        ensures { option_map definition_of (option_copied result)
            ≡ at_text name.now (checked_types self.now) }
    {
        self.types.get(name)
    }
}
