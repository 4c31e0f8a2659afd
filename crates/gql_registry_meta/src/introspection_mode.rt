//! How much of introspection a schema answers.

ghost use Rattle.std.specs.Prelude.{◌≡◌};
ghost use Rattle.gql_registry_meta.specs.declared.introspection_mode.IntrospectionMode.TheVariants as mode;

/// Whether queries for the schema itself are answered.
#[derive(Clone, Copy, Debug, PartialEq, Eq)]
pub enum IntrospectionMode {
    /// Beside all other queries.
    Enabled,
    /// Not at all.
    Disabled,
    /// And no other query.
    IntrospectionOnly,
}

impl Default for IntrospectionMode {
    ghost is_default = { λ m. m ≡ mode.Enabled };

    fn default() -> IntrospectionMode {
        IntrospectionMode::Enabled
    }
}
