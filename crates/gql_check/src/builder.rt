//! Building a schema: section 3.3 of the GraphQL specification, October 2021.

ghost use Rattle.std.specs.Prelude.{◌≡◌, IfOk, IfErr, OnOk};
ghost use Rattle.std.specs.Option.{option_copied, option_map};
ghost use Rattle.std.proofs.Props.{props};
ghost use Rattle.gql_registry_meta.specs.Views.{text_of};
ghost use Rattle.gql_dynamic.specs.SchemaTypes.{type_name};
ghost use Rattle.gql_dynamic.specs.SchemaViews.{type_parts};
ghost use Rattle.gql_check_code.specs.CheckedViews.{schema_parts};
ghost use Rattle.gql_check.specs.Recorded.{begun, with_last_type};
ghost use Rattle.gql_check.specs.Names.{HasOwnNames, HasDifferentNames, IsNewName, TellsTaken};

use crate::making::made_registry;
use crate::schema::Schema;
use gql_check_code::{SchemaTypes, check};
use gql_dynamic::{OutOfMemory, SchemaError, Type};
use gql_registry::MetaDirective;
use indexmap::IndexMap;
use std::alloc::Global;

/// What is recorded for a schema: types, directives, the names of the roots, and whether introspection is disabled. It can
/// be written as a literal: `Schema::build` begins with no types and no directives.
#[derive(Drop)]
pub struct SchemaBuilder {
    pub alloc: Global,
    /// The types, each under its own name, and the names of the roots.
    pub types: SchemaTypes,
    /// The directives that were added, in their order.
    pub directives: Vec<MetaDirective>,
    /// Whether introspection is disabled.
    pub is_disabled: bool,
    pub ghost own: { HasOwnNames (schema_parts types) },
    pub ghost different: { HasDifferentNames (schema_parts types) } by { Prim.hlevel props },
}

fn copied(alloc: Global, text: Option<&str>) -> Result<Option<String>, OutOfMemory>
    ensures { IfOk result (λ copy. option_map text_of copy ≡ option_copied text.entry) }
{
    match text {
        None => Ok(None),
        Some(text) => Ok(Some(String::from_str(alloc, text)?)),
    }
}

/// No types as yet, and roots of these names.
fn no_types(
    alloc: Global,
    query: &str,
    mutation: Option<&str>,
    subscription: Option<&str>,
) -> Result<SchemaTypes, OutOfMemory>
    ensures { IfOk result (λ types. schema_parts types
        ≡ (begun query.now (option_copied mutation.entry) (option_copied subscription.entry)).schema) }
{
    Ok(SchemaTypes {
        types: IndexMap::new(alloc),
        query: String::from_str(alloc, query)?,
        mutation: copied(alloc, mutation)?,
        subscription: copied(alloc, subscription)?,
    })
}

/// A copy of the name of a type, where none of the types has it.
fn new_name(alloc: Global, types: &SchemaTypes, ty: &Type) -> Result<String, SchemaError>
    ensures name { IfOk result (λ name. text_of name ≡ type_name (type_parts ty.now)) }
    ensures new { OnOk result
        (IsNewName (type_name (type_parts ty.now)) (schema_parts types.now)) }
    ensures exists { IfErr result
        (TellsTaken (type_name (type_parts ty.now)) (schema_parts types.now)) }
{
    let name = String::from_str(alloc, ty.name())?;
    if types.types.contains_key(&name) {
        return Err(SchemaError::AlreadyExists { name });
    }
    Ok(name)
}

/// Puts a type last, under its name, which is new. It keeps no memory that it does not need.
fn put_last(types: &mut SchemaTypes, name: String, mut ty: Type) -> Result<(), OutOfMemory>
    requires name { text_of name ≡ type_name (type_parts ty) }
    requires new { IsNewName (type_name (type_parts ty)) (schema_parts types.old) }
    ensures { OnOk result
        (schema_parts types.new ≡ with_last_type (type_parts ty) (schema_parts types.old)) }
{
    ty.shrink_to_fit();
    types.types.insert(name, ty)?;
    Ok(())
}

/// Puts a type last, under its name.
fn add_type(alloc: Global, types: &mut SchemaTypes, ty: Type) -> Result<(), SchemaError>
    ensures added { OnOk result
        (schema_parts types.new ≡ with_last_type (type_parts ty) (schema_parts types.old)) }
    ensures new { OnOk result (IsNewName (type_name (type_parts ty)) (schema_parts types.old)) }
    ensures exists { IfErr result
        (TellsTaken (type_name (type_parts ty)) (schema_parts types.old)) }
{
    let name = new_name(alloc, types, &ty)?;
    put_last(types, name, ty)?;
    Ok(())
}

/// The same, of types that stand under their own names.
fn put_type(alloc: Global, types: &mut SchemaTypes, ty: Type) -> Result<(), SchemaError>
    requires own { HasOwnNames (schema_parts types.old) }
    requires different { HasDifferentNames (schema_parts types.old) }
    ensures added { OnOk result
        (schema_parts types.new ≡ with_last_type (type_parts ty) (schema_parts types.old)) }
    ensures own { OnOk result (HasOwnNames (schema_parts types.new)) }
    ensures different { OnOk result (HasDifferentNames (schema_parts types.new)) }
    ensures new { OnOk result (IsNewName (type_name (type_parts ty)) (schema_parts types.old)) }
    ensures exists { IfErr result
        (TellsTaken (type_name (type_parts ty)) (schema_parts types.old)) }
{
    add_type(alloc, types, ty)
}

impl SchemaBuilder {
    ghost use Rattle.std.specs.Prelude.{◌≡◌, ◌++◌, ◌∷◌, [], true, IfOk, IfErr, OnOk};
    ghost use Rattle.std.specs.Option.{option_copied};
    ghost use Rattle.gql_registry_meta.specs.Views.{directive_of};
    ghost use Rattle.gql_dynamic.specs.SchemaTypes.{type_name};
    ghost use Rattle.gql_dynamic.specs.SchemaViews.{type_parts};
    ghost use Rattle.gql_dynamic.specs.Errors.{Tells};
    ghost use Rattle.gql_check_rules.specs.Rules.{first_fault};
    ghost use Rattle.gql_check_code.specs.Definitions.{schema};
    ghost use Rattle.gql_check_code.specs.CheckedViews.{schema_parts};
    ghost use Rattle.gql_check.specs.Recorded.{begun, with_last_type};
    ghost use Rattle.gql_check.specs.Names.{IsNewName, TellsTaken};
    ghost use Rattle.gql_check.specs.Recordings.{recorded_of, recorded_in};

    pub(crate) fn new(
        alloc: Global,
        query: &str,
        mutation: Option<&str>,
        subscription: Option<&str>,
    ) -> Result<SchemaBuilder, OutOfMemory>
        ensures { IfOk result (λ builder. recorded_of builder
            ≡ begun query.now (option_copied mutation.entry) (option_copied subscription.entry)) }
    {
        Ok(SchemaBuilder {
            alloc,
            types: no_types(alloc, query, mutation, subscription)?,
            directives: Vec::new(alloc),
            is_disabled: false,
        })
    }

    /// Registers a type, after those that are registered.
    ///
    /// Answers `AlreadyExists` exactly where a type of its name is registered.
    pub fn register(mut self, ty: Type) -> Result<SchemaBuilder, SchemaError>
        ensures added { IfOk result (λ builder. recorded_of builder ≡ record (recorded_of self) {
          schema = with_last_type (type_parts ty) (recorded_of self).schema;
        }) }
        ensures new { OnOk result
            (IsNewName (type_name (type_parts ty)) (recorded_of self).schema) }
        ensures exists { IfErr result
            (TellsTaken (type_name (type_parts ty)) (recorded_of self).schema) }
    {
        put_type(self.alloc, &mut self.types, ty)?;
        Ok(self)
    }

    /// Adds the definition of a directive: the last one of a name counts, and one of the name of a system directive takes
    /// its place.
    pub fn directive(mut self, directive: MetaDirective) -> Result<SchemaBuilder, OutOfMemory>
        ensures { IfOk result (λ builder. recorded_of builder
            ≡ record (recorded_of self) { directives = (recorded_of self).directives ++ directive_of directive ∷ [] }) }
    {
        self.directives.push(directive)?;
        Ok(self)
    }

    /// The schema answers no introspection.
    pub fn disable_introspection(mut self) -> SchemaBuilder
        ensures { recorded_of result ≡ record (recorded_of self) { is_disabled = true } }
    {
        self.is_disabled = true;
        self
    }

    /// The types that are registered, and the names of the roots.
    pub fn types(&self) -> &SchemaTypes
        ensures { schema_parts result.now ≡ (recorded_of self.now).schema }
    {
        &self.types
    }

    /// The schema, where it keeps all rules; else the first rule that it breaks.
    pub fn finish(self) -> Result<Schema, SchemaError>
        ensures rules { Tells result (first_fault (schema (recorded_of self).schema)) }
        ensures recorded { IfOk result (λ built. recorded_in built ≡ recorded_of self) }
    {
        check(self.alloc, &self.types)?;
        let registry = made_registry(&self)?;
        Ok(Schema {
            types: self.types,
            directives: self.directives,
            is_disabled: self.is_disabled,
            registry,
        })
    }
}
