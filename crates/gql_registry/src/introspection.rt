//! The types and fields by which a schema describes itself: section 4.2 of the GraphQL specification, October 2021.

ghost use Rattle.std.specs.Prelude.{◌≡◌, IsTrue, IfOk, OnOk};
ghost use Rattle.gql_registry_meta.specs.Views.{field_of, fields_in, meta_of};
ghost use Rattle.gql_registry.specs.Plain.{plain_object};
ghost use Rattle.gql_registry.specs.Introspection.{described_field};
ghost use Rattle.gql_registry.specs.Tables.{are_distinct, arguments_at, field_at, with_row, all_rows, row_names};
ghost use Rattle.gql_registry.specs.Tables.{type_at, query_field_at};

use crate::plain::{Argument, enumeration, field, lone, object};
use gql_registry_meta::{MetaField, MetaType};
use gql_text_lexer::OutOfMemory;
use indexmap::IndexMap;
use std::alloc::Global;

#[derive(Clone, Copy)]
pub(crate) enum IntrospectionType {
    Schema,
    Type,
    Field,
    InputValue,
    EnumValue,
    Directive,
    TypeKind,
    DirectiveLocation,
}

/// A field of the query root.
#[derive(Clone, Copy)]
pub(crate) enum QueryField {
    Schema,
    Type,
}

/// A field of an introspection type: its name and its type.
#[derive(Clone, Copy)]
enum Row {
    Plain(&'static str, &'static str),
    /// With the argument `includeDeprecated`.
    Members(&'static str, &'static str),
}

const SCHEMA: [Row; 6] = [
    Row::Plain("description", "String!"),
    Row::Plain("types", "[__Type!]!"),
    Row::Plain("queryType", "__Type!"),
    Row::Plain("mutationType", "__Type"),
    Row::Plain("subscriptionType", "__Type"),
    Row::Plain("directives", "[__Directive!]!"),
];

const TYPE: [Row; 11] = [
    Row::Plain("kind", "__TypeKind!"),
    Row::Plain("name", "String"),
    Row::Plain("description", "String"),
    Row::Members("fields", "[__Field!]"),
    Row::Plain("interfaces", "[__Type!]"),
    Row::Plain("possibleTypes", "[__Type!]"),
    Row::Members("enumValues", "[__EnumValue!]"),
    Row::Members("inputFields", "[__InputValue!]"),
    Row::Plain("ofType", "__Type"),
    Row::Plain("specifiedByURL", "String"),
    Row::Plain("isOneOf", "Boolean"),
];

const FIELD: [Row; 6] = [
    Row::Plain("name", "String!"),
    Row::Plain("description", "String"),
    Row::Members("args", "[__InputValue!]!"),
    Row::Plain("type", "__Type!"),
    Row::Plain("isDeprecated", "Boolean!"),
    Row::Plain("deprecationReason", "String"),
];

const INPUT_VALUE: [Row; 6] = [
    Row::Plain("name", "String!"),
    Row::Plain("description", "String"),
    Row::Plain("type", "__Type!"),
    Row::Plain("defaultValue", "String"),
    Row::Plain("isDeprecated", "Boolean!"),
    Row::Plain("deprecationReason", "String"),
];

const ENUM_VALUE: [Row; 4] = [
    Row::Plain("name", "String!"),
    Row::Plain("description", "String"),
    Row::Plain("isDeprecated", "Boolean!"),
    Row::Plain("deprecationReason", "String"),
];

const DIRECTIVE: [Row; 5] = [
    Row::Plain("name", "String!"),
    Row::Plain("description", "String"),
    Row::Plain("locations", "[__DirectiveLocation!]!"),
    Row::Members("args", "[__InputValue!]!"),
    Row::Plain("isRepeatable", "Boolean!"),
];

const TYPE_KINDS: [&str; 8] = [
    "SCALAR",
    "OBJECT",
    "INTERFACE",
    "UNION",
    "ENUM",
    "INPUT_OBJECT",
    "LIST",
    "NON_NULL",
];

const DIRECTIVE_LOCATIONS: [&str; 19] = [
    "QUERY",
    "MUTATION",
    "SUBSCRIPTION",
    "FIELD",
    "FRAGMENT_DEFINITION",
    "FRAGMENT_SPREAD",
    "INLINE_FRAGMENT",
    "VARIABLE_DEFINITION",
    "SCHEMA",
    "SCALAR",
    "OBJECT",
    "FIELD_DEFINITION",
    "ARGUMENT_DEFINITION",
    "INTERFACE",
    "UNION",
    "ENUM",
    "ENUM_VALUE",
    "INPUT_OBJECT",
    "INPUT_FIELD_DEFINITION",
];

const INCLUDE_DEPRECATED: Argument = Argument {
    name: "includeDeprecated",
    ty: "Boolean!",
    description: None,
    default_value: Some("false"),
};

const NAME: Argument = Argument {
    name: "name",
    ty: "String!",
    description: None,
    default_value: None,
};

fn made_field(alloc: Global, row: Row) -> Result<MetaField, OutOfMemory>
    ensures { IfOk result (λ made. field_of made ≡ field_at row) }
{
    match row {
        Row::Plain(name, ty) => field(alloc, name, ty),
        Row::Members(name, ty) => {
            let mut made = field(alloc, name, ty)?;
            made.args = lone(alloc, Some(INCLUDE_DEPRECATED))?;
            Ok(made)
        }
    }
}

fn made_fields(alloc: Global, rows: &[Row]) -> Result<IndexMap<String, MetaField>, OutOfMemory>
    requires { IsTrue (are_distinct (row_names rows.now)) }
    ensures { IfOk result (λ made. fields_in made ≡ all_rows rows.now) }
{
    let mut made = IndexMap::new(alloc);
    for row in rows {
        add_row(alloc, &mut made, *row)?;
    }
    Ok(made)
}

#[tactic(auto, using(gql_registry_meta::proofs::Entries::entries_with_insertion))]
fn add_row(
    alloc: Global,
    fields: &mut IndexMap<String, MetaField>,
    row: Row,
) -> Result<(), OutOfMemory>
    ensures { OnOk result (fields_in fields.new ≡ with_row (fields_in fields.old) row) }
{
    let field = made_field(alloc, row)?;
    let name = field.name.clone()?;
    fields.insert(name, field)?;
    Ok(())
}

fn object_of(alloc: Global, name: &str, rows: &[Row]) -> Result<MetaType, OutOfMemory>
    requires { IsTrue (are_distinct (row_names rows.now)) }
    ensures { IfOk result (λ made. meta_of made ≡ plain_object name.now (all_rows rows.now)) }
{
    let fields = made_fields(alloc, rows)?;
    object(alloc, name, fields)
}

/// An introspection type.
pub(crate) fn introspection_type(
    alloc: Global,
    which: IntrospectionType,
) -> Result<MetaType, OutOfMemory>
    ensures { IfOk result (λ made. meta_of made ≡ type_at which) }
{
    match which {
        IntrospectionType::Schema => object_of(alloc, "__Schema", &SCHEMA),
        IntrospectionType::Type => object_of(alloc, "__Type", &TYPE),
        IntrospectionType::Field => object_of(alloc, "__Field", &FIELD),
        IntrospectionType::InputValue => object_of(alloc, "__InputValue", &INPUT_VALUE),
        IntrospectionType::EnumValue => object_of(alloc, "__EnumValue", &ENUM_VALUE),
        IntrospectionType::Directive => object_of(alloc, "__Directive", &DIRECTIVE),
        IntrospectionType::TypeKind => enumeration(alloc, "__TypeKind", &TYPE_KINDS),
        IntrospectionType::DirectiveLocation => {
            enumeration(alloc, "__DirectiveLocation", &DIRECTIVE_LOCATIONS)
        }
    }
}

/// A field with a description, and with an argument where one is given.
fn described_field(
    alloc: Global,
    name: &str,
    ty: &str,
    description: &str,
    argument: Option<Argument>,
) -> Result<MetaField, OutOfMemory>
    ensures { IfOk result (λ made. field_of made
        ≡ described_field name.now ty.now description.now (arguments_at argument)) }
{
    let mut made = field(alloc, name, ty)?;
    made.description = Some(String::from_str(alloc, description)?);
    made.args = lone(alloc, argument)?;
    Ok(made)
}

/// A field by which the query root describes the schema.
pub(crate) fn query_field(alloc: Global, which: QueryField) -> Result<MetaField, OutOfMemory>
    ensures { IfOk result (λ made. field_of made ≡ query_field_at which) }
{
    match which {
        QueryField::Schema => described_field(
            alloc,
            "__schema",
            "__Schema",
            "Access the current type schema of this server.",
            None,
        ),
        QueryField::Type => described_field(
            alloc,
            "__type",
            "__Type",
            "Request the type information of a single type.",
            Some(NAME),
        ),
    }
}
