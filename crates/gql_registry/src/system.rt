//! The directives that every schema has: section 3.13 of the GraphQL specification, October 2021.

ghost use Rattle.std.specs.Prelude.{◌≡◌, IfOk};
ghost use Rattle.gql_registry_meta.specs.Views.{directive_of};
ghost use Rattle.gql_registry.specs.Tables.{directive_at};

use crate::plain::{Argument, directive};
use gql_registry_meta::{DirectiveLocation, MetaDirective};
use gql_text_lexer::OutOfMemory;
use std::alloc::Global;

#[derive(Clone, Copy)]
pub(crate) enum SystemDirective {
    Skip,
    Include,
    Deprecated,
    SpecifiedBy,
    OneOf,
}

const SELECTIONS: [DirectiveLocation; 3] = [
    DirectiveLocation::Field,
    DirectiveLocation::FragmentSpread,
    DirectiveLocation::InlineFragment,
];

const DEPRECATED: [DirectiveLocation; 4] = [
    DirectiveLocation::FieldDefinition,
    DirectiveLocation::ArgumentDefinition,
    DirectiveLocation::InputFieldDefinition,
    DirectiveLocation::EnumValue,
];

const SKIP_IF: Argument = Argument {
    name: "if",
    ty: "Boolean!",
    description: Some("Skipped when true."),
    default_value: None,
};

const INCLUDE_IF: Argument = Argument {
    name: "if",
    ty: "Boolean!",
    description: Some("Included when true."),
    default_value: None,
};

const REASON: Argument = Argument {
    name: "reason",
    ty: "String",
    description: Some("A reason for why it is deprecated, formatted using Markdown syntax"),
    default_value: Some("\"No longer supported\""),
};

const URL: Argument = Argument {
    name: "url",
    ty: "String!",
    description: Some("URL that specifies the behavior of this scalar."),
    default_value: None,
};

/// The definition of a directive that every schema has.
pub(crate) fn system_directive(
    alloc: Global,
    which: SystemDirective,
) -> Result<MetaDirective, OutOfMemory>
    ensures { IfOk result (λ made. directive_of made ≡ directive_at which) }
{
    match which {
        SystemDirective::Skip => directive(
            alloc,
            "skip",
            "Directs the executor to skip this field or fragment when the `if` argument is true.",
            &SELECTIONS,
            Some(SKIP_IF),
        ),
        SystemDirective::Include => directive(
            alloc,
            "include",
            "Directs the executor to include this field or fragment only when the `if` argument is true.",
            &SELECTIONS,
            Some(INCLUDE_IF),
        ),
        SystemDirective::Deprecated => directive(
            alloc,
            "deprecated",
            "Marks an element of a GraphQL schema as no longer supported.",
            &DEPRECATED,
            Some(REASON),
        ),
        SystemDirective::SpecifiedBy => directive(
            alloc,
            "specifiedBy",
            "Provides a scalar specification URL for specifying the behavior of custom scalar types.",
            &[DirectiveLocation::Scalar],
            Some(URL),
        ),
        SystemDirective::OneOf => directive(
            alloc,
            "oneOf",
            "Indicates that an Input Object is a OneOf Input Object (and thus requires exactly one of its field be provided)",
            &[DirectiveLocation::InputObject],
            None,
        ),
    }
}
