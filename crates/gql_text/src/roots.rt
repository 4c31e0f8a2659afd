//! The roots of a document, looked up in the written tree: section 3.3 of the GraphQL specification, October 2021.

ghost use Rattle.std.specs.Prelude.{◌≡◌};
ghost use Rattle.std.specs.List.{list_any};
ghost use Rattle.std.specs.Option.{option_copied};
ghost use Rattle.gql_text.specs.DocumentOf.{document_of};
ghost use Rattle.gql_text.specs.Roots.{default_name, root_of, same_operation};
ghost use Rattle.gql_text.specs.WrittenRoots.{default_root_of, defines, first_schema, is_schema, root_by, roots_of, written_line};

use gql_text_syntax::{Kind, OperationType, Root, WrittenDefinition};

pub(crate) fn same_operation(a: OperationType, b: OperationType) -> bool
    ensures { result ≡ same_operation a b }
{
    match (a, b) {
        (OperationType::Query, OperationType::Query) => true,
        (OperationType::Mutation, OperationType::Mutation) => true,
        (OperationType::Subscription, OperationType::Subscription) => true,
        _ => false,
    }
}

fn default_name(kind: OperationType) -> &'static str
    ensures { result.now ≡ default_name kind }
{
    match kind {
        OperationType::Query => "Query",
        OperationType::Mutation => "Mutation",
        OperationType::Subscription => "Subscription",
    }
}

pub(crate) fn is_schema(kind: &Kind<'_>) -> bool
    ensures { result ≡ is_schema kind.now }
{
    match kind {
        Kind::Schema { .. } => true,
        _ => false,
    }
}

pub(crate) fn first_schema<'d, 't>(
    definitions: &'d [WrittenDefinition<'t>],
) -> Option<&'d WrittenDefinition<'t>>
    ensures { option_copied result ≡ first_schema definitions.now }
{
    definitions.iter().find(|d| is_schema(&d.kind))
}

fn roots_of<'d, 't>(kind: &'d Kind<'t>) -> &'d [Root<'t>]
    ensures { result.now ≡ roots_of kind.now }
{
    match kind {
        Kind::Schema { roots, .. } => roots.as_slice(),
        _ => &[],
    }
}

fn written_line<'t>(kind: OperationType, roots: &[Root<'t>]) -> Option<&'t str>
    ensures { option_copied result ≡ written_line kind roots.now }
{
    let found = roots.iter().find(|r| same_operation(kind, r.kind))?;
    Some(found.name.as_str())
}

fn defines(name: &str, kind: &Kind<'_>) -> bool
    ensures { result ≡ defines name.now kind.now }
{
    match kind {
        Kind::Object(object) => object.key.name.as_str() == name,
        _ => false,
    }
}

fn is_defined(name: &str, definitions: &[WrittenDefinition<'_>]) -> bool
    ensures { result ≡ list_any (λ d. defines name.now d.kind) definitions.now }
{
    definitions.iter().any(|d| defines(name, &d.kind))
}

fn default_root(kind: OperationType, definitions: &[WrittenDefinition<'_>]) -> Option<&'static str>
    ensures { option_copied result ≡ default_root_of kind definitions.now }
{
    let name = default_name(kind);
    match kind {
        OperationType::Query => Some(name),
        _ if is_defined(name, definitions) => Some(name),
        _ => None,
    }
}

fn root_by<'t>(
    schema: Option<&WrittenDefinition<'t>>,
    kind: OperationType,
    definitions: &[WrittenDefinition<'t>],
) -> Option<&'t str>
    ensures { option_copied result ≡ root_by (option_copied schema.entry) kind definitions.now }
{
    match schema {
        Some(found) => written_line(kind, roots_of(&found.kind)),
        None => default_root(kind, definitions),
    }
}

/// The name of a root: what the first schema block says, or else the default.
#[tactic(auto, using(crate::proofs::Rooted::root_stays))]
pub(crate) fn root_name<'t>(
    kind: OperationType,
    definitions: &[WrittenDefinition<'t>],
) -> Option<&'t str>
    ensures { option_copied result ≡ root_of kind (document_of definitions.now) }
{
    root_by(first_schema(definitions), kind, definitions)
}
