//! From the bytes of a document to a schema.

ghost use Rattle.std.specs.Prelude.{◌≡◌, ◌∷◌, [], None, Ok, Err, map, IfOk, IfErr, IfSome, OnOk};
ghost use Rattle.std.specs.List.{AllByRecursion};
ghost use Rattle.std.specs.Option.{option_copied, option_map};
ghost use Rattle.gql_text.specs.DocumentOf.{definition_of, kind_of};
ghost use Rattle.gql_text_syntax.specs.declared.syntax.Kind.TheVariants as kind;
ghost use Rattle.gql_text.specs.Roots.{root_of};
ghost use Rattle.gql_text.specs.declared.document.Document.{Document};
ghost use Rattle.gql_text_syntax.specs.declared.operation.OperationType.TheVariants.{Mutation, Subscription as subscription_root};
ghost use Rattle.gql_registry_meta.specs.Views.{text_of};
ghost use Rattle.gql_dynamic.specs.SchemaTypes.{type_name};
ghost use Rattle.gql_dynamic.specs.SchemaViews.{type_parts};
ghost use Rattle.gql_check_rules.specs.Rules.{first_fault};
ghost use Rattle.gql_check.specs.Names.{IsNewName};
ghost use Rattle.gql_check.specs.Recorded.{begun};
ghost use Rattle.gql_check.specs.Recordings.{recorded_in, recorded_of};
ghost use Rattle.gql_publish_document.specs.Clean.{IsClean, IsCleanDefinition};
ghost use Rattle.gql_publish_document.specs.Document.{document_recorded, document_schema, query_root};
ghost use Rattle.gql_publish_document.specs.Types.{is_root, type_in};
ghost use Rattle.gql_publish_document.specs.Verdict.{HasVerdict, Verdict};
ghost use Rattle.gql_publish_load.specs.Errors.{Refuses};
ghost use Rattle.gql_publish_load.specs.Taking.{IsCleanObject};
ghost use Rattle.gql_publish_load.specs.Loading.{Answers, AreNewTypes, IsLoadedOf, IsRefusedFor, recorded_with, with_type};

use crate::directives::built_directive;
use crate::error::PublishError;
use crate::objects::{built_interface, built_object};
use crate::scalars::with_scalar;
use crate::types::{built_enum, built_input_object, built_subscription, built_union};
use gql_check::{Schema, SchemaBuilder, SchemaError, SchemaTypes, Type};
use gql_text::{
    Description, Kind, ObjectLike, OperationType, OutOfMemory, WrittenDefinition, WrittenDocument,
    read_document,
};
use indexmap::IndexMap;
use std::alloc::Global;

/// Records a type of a name that is new.
pub(crate) fn register(builder: SchemaBuilder, ty: Type) -> Result<SchemaBuilder, OutOfMemory>
    requires { IsNewName (type_name (type_parts ty)) (recorded_of builder).schema }
    ensures { IfOk result (λ more. recorded_of more
        ≡ with_type (recorded_of builder) (type_parts ty)) }
{
    match builder.register(ty) {
        Ok(more) => Ok(more),
        Err(SchemaError::AlreadyExists { .. }) => unreachable!(),
        Err(_) => Err(OutOfMemory),
    }
}

/// Whether this is the name of the subscription root.
fn is_root(subscription: Option<&str>, name: &str) -> bool
    ensures { result ≡ is_root (option_copied subscription.entry) name.now }
{
    match subscription {
        None => false,
        Some(root) => root == name,
    }
}

/// Records the `type` that is written: the subscription root or an object.
fn with_object(
    builder: SchemaBuilder,
    description: &Option<Description<'_>>,
    object: &ObjectLike<'_>,
    subscription: Option<&str>,
) -> Result<SchemaBuilder, OutOfMemory>
    requires new { IsNewName object.now.key.name (recorded_of builder).schema }
    requires clean { IsCleanObject object.now }
    ensures { IfOk result (λ more. recorded_of more ≡ recorded_with (option_copied subscription.entry)
        (recorded_of builder) (kind_of description.now (kind.Object object.now) ∷ [])) }
{
    let alloc = builder.alloc;
    if is_root(subscription, object.key.name.as_str()) {
        let built = built_subscription(alloc, description, object)?;
        return register(builder, Type::Subscription(built));
    }
    let built = built_object(alloc, description, object)?;
    register(builder, Type::Object(built))
}

/// Records what a definition defines.
fn with_definition(
    builder: SchemaBuilder,
    definition: &WrittenDefinition<'_>,
    subscription: Option<&str>,
) -> Result<SchemaBuilder, OutOfMemory>
    requires new { IfSome (type_in (option_copied subscription) (definition_of definition.now))
        (λ ty. IsNewName (type_name ty) (recorded_of builder).schema) }
    requires clean { IsCleanDefinition (definition_of definition.now) }
    ensures { IfOk result (λ more. recorded_of more ≡ recorded_with (option_copied subscription.entry)
        (recorded_of builder) (definition_of definition.now ∷ [])) }
{
    let alloc = builder.alloc;
    let description = &definition.description;
    match &definition.kind {
        Kind::Schema { .. } => Ok(builder),
        Kind::Scalar { key, uses } => with_scalar(
            builder,
            description,
            key,
            uses.as_slice(),
            subscription,
        ),
        Kind::Object(object) => with_object(builder, description, object, subscription),
        Kind::Interface(object) => {
            let built = built_interface(alloc, description, object)?;
            register(builder, Type::Interface(built))
        }
        Kind::Union { key, uses, members } => {
            let (uses, members) = (uses.as_slice(), members.as_slice());
            let built = built_union(alloc, description, key, uses, members)?;
            register(builder, Type::Union(built))
        }
        Kind::Enum { key, uses, values } => {
            let (uses, values) = (uses.as_slice(), values.as_slice());
            let built = built_enum(alloc, description, key, uses, values)?;
            register(builder, Type::Enum(built))
        }
        Kind::Input { key, uses, fields } => {
            let (uses, fields) = (uses.as_slice(), fields.as_slice());
            let built = built_input_object(alloc, description, key, uses, fields)?;
            register(builder, Type::InputObject(built))
        }
        Kind::Directive {
            key,
            arguments,
            repeatable,
            locations,
        } => {
            let (arguments, locations) = (arguments.as_slice(), locations.as_slice());
            let built = built_directive(
                alloc,
                description,
                key,
                arguments,
                *repeatable,
                locations,
            )?;
            builder.directive(built)
        }
    }
}

/// Records what the definitions define, one after another.
fn with_definitions(
    builder: SchemaBuilder,
    definitions: &[WrittenDefinition<'_>],
    subscription: Option<&str>,
) -> Result<SchemaBuilder, OutOfMemory>
    requires new { AreNewTypes (option_copied subscription) (recorded_of builder) (map definition_of definitions.now) }
    requires clean { AllByRecursion IsCleanDefinition (map definition_of definitions.now) }
    ensures { IfOk result (λ more. recorded_of more ≡ recorded_with (option_copied subscription.entry)
        (recorded_of builder) (map definition_of definitions.now)) }
{
    let mut full = builder;
    for definition in definitions {
        full = with_definition(full, definition, subscription)?;
    }
    Ok(full)
}

/// What is recorded of a document, where nothing but its roots is recorded yet. The document is gone then.
pub(crate) fn filled(
    builder: SchemaBuilder,
    document: WrittenDocument<'_>,
) -> Result<SchemaBuilder, OutOfMemory>
    requires begun { recorded_of builder ≡ begun (query_root document)
        (root_of Mutation document) (root_of subscription_root document) }
    requires clean { IsClean document }
    ensures { IfOk result (λ full. recorded_of full ≡ document_recorded document.entry) }
{
    let subscription = document.root(OperationType::Subscription);
    let full = with_definitions(builder, document.as_slice(), subscription)?;
    Ok(full)
}

/// The schema that is built of a document, where nothing but its roots is recorded yet.
fn finished(builder: SchemaBuilder, document: WrittenDocument<'_>) -> Result<Schema, PublishError>
    requires begun { recorded_of builder ≡ begun (query_root document)
        (root_of Mutation document) (root_of subscription_root document) }
    requires clean { IsClean document }
    ensures valid { OnOk result (first_fault (document_schema document.entry) ≡ None) }
    ensures recorded { IfOk result
        (λ schema. recorded_in schema ≡ document_recorded document.entry) }
    ensures refused { IfErr result (Refuses (IsRefusedFor document.entry)) }
{
    let full = filled(builder, document)?;
    match full.finish() {
        Ok(schema) => Ok(schema),
        Err(error) => Err(PublishError::from(error)),
    }
}

fn owned(alloc: Global, name: Option<&str>) -> Result<Option<String>, OutOfMemory>
    ensures { IfOk result (λ copy. option_map text_of copy ≡ option_copied name.entry) }
{
    match name {
        None => Ok(None),
        Some(name) => Ok(Some(String::from_str(alloc, name)?)),
    }
}

pub(crate) fn query_root<'d>(document: &'d WrittenDocument<'_>) -> &'d str
    ensures { result.now ≡ query_root document.now }
{
    document.root(OperationType::Query).unwrap_or("")
}

fn load_document(alloc: Global, document: WrittenDocument<'_>) -> Result<Schema, PublishError>
    requires { IsClean document }
    ensures valid { OnOk result (first_fault (document_schema document.entry) ≡ None) }
    ensures recorded { IfOk result
        (λ schema. recorded_in schema ≡ document_recorded document.entry) }
    ensures refused { IfErr result (Refuses (IsRefusedFor document.entry)) }
{
    let types = SchemaTypes {
        types: IndexMap::new(alloc),
        query: String::from_str(alloc, query_root(&document))?,
        mutation: owned(alloc, document.root(OperationType::Mutation))?,
        subscription: owned(alloc, document.root(OperationType::Subscription))?,
    };
    let builder = SchemaBuilder {
        alloc,
        types,
        directives: Vec::new(alloc),
        is_disabled: false,
    };
    finished(builder, document)
}

/// The schema of the document that the bytes are: section 3 of the GraphQL specification, October 2021.
///
/// A reader's fault comes exactly where the bytes are no document, with its place, and `Schema` exactly where they are
/// one that breaks a rule, with the first such rule. The types and directives of the schema are those of the document, in
/// its order, and its registry stands for the document.
pub fn load(alloc: Global, bytes: &[u8]) -> Result<Schema, PublishError>
    ensures valid { IfOk result (λ schema. (d : Document) × HasVerdict bytes.now (Ok d)
        × IsLoadedOf d schema) }
    ensures refused { IfErr result (Refuses (λ refusal. HasVerdict bytes.now (Err refusal))) }
    ensures only { (verdict : Verdict) → HasVerdict bytes.now verdict → Answers verdict result }
{
    match read_document(alloc, bytes) {
        Ok(document) => load_document(alloc, document),
        Err(error) => Err(PublishError::from(error)),
    }
}
