//! Schemas that keep the rules: section 3.3 of the GraphQL specification, October 2021.

ghost use Rattle.std.specs.Prelude.{◌≡◌, None};
ghost use Rattle.std.specs.Coded.{codes};
ghost use Rattle.std.proofs.Props.{props};
ghost use Rattle.gql_text_values.specs.contracts.const_value.ConstValue as const_value;
ghost use Rattle.gql_registry.specs.Registry.{registry_of};
ghost use Rattle.gql_check_rules.specs.Rules.{first_fault};
ghost use Rattle.gql_check_code.specs.CheckedViews.{schema_parts, schema_of};
ghost use Rattle.gql_check.specs.Recorded.{schema_contents};
ghost use Rattle.gql_check.specs.Names.{HasOwnNames, HasDifferentNames};
ghost use Rattle.gql_check.specs.RecordedViews.{recorded_as};

use crate::builder::SchemaBuilder;
use gql_check_code::SchemaTypes;
use gql_dynamic::OutOfMemory;
use gql_registry::{MetaDirective, Registry};
use std::alloc::Global;

/// A schema: its types, the directives that were added, and its registry. It breaks no rule, and its registry is the one
/// that is made of its parts.
#[derive(Drop)]
pub struct Schema {
    pub(crate) types: SchemaTypes,
    pub(crate) directives: Vec<MetaDirective>,
    pub(crate) is_disabled: bool,
    pub(crate) registry: Registry,
    pub ghost own: { HasOwnNames (schema_parts types) },
    pub ghost different: { HasDifferentNames (schema_parts types) } by { Prim.hlevel props },
    pub ghost valid: { first_fault (schema_of types) ≡ None },
    pub ghost made: { registry_of registry ≡ schema_contents (recorded_as types directives is_disabled) } by { Prim.hlevel (codes, const_value.the_row.coded) },
}

impl Schema {
    ghost use Rattle.std.specs.Prelude.{◌≡◌, None, IfOk};
    ghost use Rattle.std.specs.Option.{option_copied};
    ghost use Rattle.gql_registry.specs.Registry.{registry_of};
    ghost use Rattle.gql_check_rules.specs.Rules.{first_fault};
    ghost use Rattle.gql_check_code.specs.CheckedViews.{schema_parts, schema_of};
    ghost use Rattle.gql_check.specs.Recorded.{begun, schema_contents};
    ghost use Rattle.gql_check.specs.Implementers.{KnowsImplementers};
    ghost use Rattle.gql_check.specs.Recordings.{recorded_of, recorded_in};

    /// A builder of a schema with roots of these names.
    pub fn build(
        alloc: Global,
        query: &str,
        mutation: Option<&str>,
        subscription: Option<&str>,
    ) -> Result<SchemaBuilder, OutOfMemory>
        ensures { IfOk result (λ builder. recorded_of builder
            ≡ begun query.now (option_copied mutation.entry) (option_copied subscription.entry)) }
    {
        SchemaBuilder::new(alloc, query, mutation, subscription)
    }

    /// The registered types, and the names of the roots. They break no rule.
    pub fn types(&self) -> &SchemaTypes
        ensures recorded { schema_parts result.now ≡ (recorded_in self.now).schema }
        ensures valid { first_fault (schema_of result.now) ≡ None }
    {
        &self.types
    }

    /// The registry that is made of the types, the added directives, and whether introspection was disabled. The possible
    /// types of an interface are the objects that implement it, in the order of registration.
    pub fn registry(&self) -> &Registry
        ensures implementers { KnowsImplementers (recorded_in self.now).schema
            (registry_of result.now) }
        ensures made { registry_of result.now ≡ schema_contents (recorded_in self.now) }
    {
        &self.registry
    }

    /// The same registry, for the caller.
    pub fn into_registry(self) -> Registry
        ensures implementers { KnowsImplementers (recorded_in self).schema (registry_of result) }
        ensures made { registry_of result ≡ schema_contents (recorded_in self) }
    {
        self.registry
    }
}
