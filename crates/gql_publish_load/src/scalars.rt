//! Scalars: section 3.5 of the GraphQL specification, October 2021.

ghost use Rattle.std.specs.Prelude.{◌≡◌, ◌∷◌, ◌++◌, [], None, IfOk, map};
ghost use Rattle.std.specs.Option.{option_copied};
ghost use Rattle.gql_text.specs.DocumentOf.{description_of, head_of, kind_of, use_of};
ghost use Rattle.gql_text_syntax.specs.declared.syntax.Kind.TheVariants as kind;
ghost use Rattle.gql_dynamic_types.specs.Types.{new_scalar};
ghost use Rattle.gql_dynamic_types.specs.TypeViews.{scalar_parts};
ghost use Rattle.gql_check.specs.Names.{IsNewName};
ghost use Rattle.gql_check.specs.Recordings.{recorded_of};
ghost use Rattle.gql_publish_document.specs.Uses.{invocations_in, url_in};
ghost use Rattle.gql_publish_document.specs.Types.{is_upload, scalar_parts as document_scalar};
ghost use Rattle.gql_publish_document.specs.Clean.{AreCleanUses, IsCleanUse};
ghost use Rattle.gql_publish_load.specs.Loading.{recorded_with, with_type};

use crate::attributes::{is_attribute, url};
use crate::loading::register;
use crate::uses::built_use;
use gql_check::{Scalar, SchemaBuilder, Type};
use gql_text::{Description, OutOfMemory, PlacedName, Use};
use std::alloc::Global;

fn described(
    alloc: Global,
    scalar: Scalar,
    description: &Option<Description<'_>>,
) -> Result<Scalar, OutOfMemory>
    requires { (scalar_parts scalar).description ≡ None }
    ensures { IfOk result (λ more. scalar_parts more
        ≡ record (scalar_parts scalar) { description = description_of description.now }) }
{
    match description {
        None => Ok(scalar),
        Some(found) => scalar.description(found.text.to_text(alloc)?.as_str()),
    }
}

fn with_url(alloc: Global, scalar: Scalar, uses: &[Use<'_>]) -> Result<Scalar, OutOfMemory>
    requires { (scalar_parts scalar).specified_by_url ≡ None }
    ensures { IfOk result (λ more. scalar_parts more
        ≡ record (scalar_parts scalar) { specified_by_url = url_in (map use_of uses.now) }) }
{
    match url(alloc, uses)? {
        None => Ok(scalar),
        Some(found) => scalar.specified_by_url(found.as_str()),
    }
}

/// The scalar after this directive is used on it, unless that is an attribute.
fn with_use(alloc: Global, scalar: Scalar, use_: &Use<'_>) -> Result<Scalar, OutOfMemory>
    requires { IsCleanUse (use_of use_.now) }
    ensures { IfOk result (λ more. scalar_parts more ≡ record (scalar_parts scalar) {
      directives = (scalar_parts scalar).directives ++ invocations_in (use_of use_.now ∷ []);
    }) }
{
    if is_attribute(use_.name.as_str()) {
        return Ok(scalar);
    }
    let directive = built_use(alloc, use_)?;
    scalar.directive(directive)
}

fn with_uses(alloc: Global, scalar: Scalar, uses: &[Use<'_>]) -> Result<Scalar, OutOfMemory>
    requires none { (scalar_parts scalar).directives ≡ [] }
    requires clean { AreCleanUses (map use_of uses.now) }
    ensures { IfOk result (λ full. scalar_parts full ≡ record (scalar_parts scalar) {
      directives = invocations_in (map use_of uses.now);
    }) }
{
    let mut full = scalar;
    for use_ in uses {
        full = with_use(alloc, full, use_)?;
    }
    Ok(full)
}

/// Whether the scalar is that of uploaded files.
fn is_upload(description: &Option<Description<'_>>, key: &PlacedName<'_>, uses: &[Use<'_>]) -> bool
    ensures { result ≡ is_upload (head_of description.now key.now uses.now) }
{
    key.name.as_str() == "Upload" && (description.is_none() && uses.is_empty())
}

/// Records a scalar of which nothing but the name is said, with what is written of it.
fn with_decorated(
    builder: SchemaBuilder,
    scalar: Scalar,
    description: &Option<Description<'_>>,
    key: &PlacedName<'_>,
    uses: &[Use<'_>],
) -> Result<SchemaBuilder, OutOfMemory>
    requires bare { scalar_parts scalar ≡ new_scalar key.now.name }
    requires new { IsNewName key.now.name (recorded_of builder).schema }
    requires clean { AreCleanUses (map use_of uses.now) }
    ensures { IfOk result (λ more. recorded_of more ≡ with_type (recorded_of builder)
        (document_scalar (head_of description.now key.now uses.now))) }
{
    let alloc = builder.alloc;
    let scalar = described(alloc, scalar, description)?;
    let scalar = with_url(alloc, scalar, uses)?;
    let scalar = with_uses(alloc, scalar, uses)?;
    register(builder, Type::Scalar(scalar))
}

/// Records the scalar that is written.
pub(crate) fn with_scalar(
    builder: SchemaBuilder,
    description: &Option<Description<'_>>,
    key: &PlacedName<'_>,
    uses: &[Use<'_>],
    subscription: Option<&str>,
) -> Result<SchemaBuilder, OutOfMemory>
    requires new { IsNewName key.now.name (recorded_of builder).schema }
    requires clean { AreCleanUses (map use_of uses.now) }
    ensures { IfOk result (λ more. recorded_of more ≡ recorded_with (option_copied subscription.entry)
        (recorded_of builder) (kind_of description.now (kind.Scalar key.now uses.now) ∷ [])) }
{
    if is_upload(description, key, uses) {
        return register(builder, Type::Upload);
    }
    let alloc = builder.alloc;
    let scalar = Scalar::new(alloc, key.name.as_str())?;
    with_decorated(builder, scalar, description, key, uses)
}
