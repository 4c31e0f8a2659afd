//! Fields of objects, interfaces and the subscription root: sections 3.6 and 3.3.1 of the GraphQL specification, October
//! 2021.

ghost use Rattle.std.specs.Prelude.{◌≡◌, [], List, None, IfOk, map, refl};
ghost use Rattle.gql_text.specs.DocumentOf.{description_of, field_def_of, input_of, use_of};
ghost use Rattle.gql_registry_meta.specs.Parts.{Text, not_deprecated};
ghost use Rattle.gql_parts.specs.Builders.{InputValueParts, FieldParts, SubscriptionFieldParts};
ghost use Rattle.gql_parts.specs.BuilderViews.{field_parts as built_field_parts, subscription_field_parts as built_subscription_field_parts};
ghost use Rattle.gql_publish_document.specs.Uses.{deprecation_in};
ghost use Rattle.gql_publish_document.specs.Members.{field_parts, input_parts, inputs_parts, subscription_field_parts};
ghost use Rattle.gql_publish_document.specs.Clean.{AreCleanInputs, IsCleanField, IsCleanInput};
ghost use Rattle.gql_publish_load.specs.Taking.{is_new_entry};

use crate::attributes::deprecation;
use crate::inputs::built_input;
use crate::taking::{IsUsedOn, Takes, take_all, take_uses};
use crate::values::lent;
use gql_check::{Directive, FieldBuilder, SubscriptionField};
use gql_text::{Description, Field as WrittenField, InputValue as WrittenInput, OutOfMemory, Use};
use std::alloc::Global;

impl<Owner: Drop> IsUsedOn for FieldBuilder<Owner> {
    ghost Parts = { FieldParts };

    ghost parts = { built_field_parts };

    ghost uses = { λ p. p.directives };

    ghost with_uses = { λ p l. record p { directives = l } };

    ghost unchanged = { λ p. refl };

    ghost taken = { λ p l. refl };

    ghost last = { λ p l m. refl };

    fn with_use(self, directive: Directive) -> Result<FieldBuilder<Owner>, OutOfMemory> {
        self.directive(directive)
    }
}

impl<'t, Owner: Drop> Takes<WrittenInput<'t>> for FieldBuilder<Owner> {
    ghost Parts = { FieldParts };

    ghost Item = { Text × InputValueParts };

    ghost parts = { built_field_parts };

    ghost items = { λ p. p.arguments };

    ghost with_items = { λ p l. record p { arguments = l } };

    ghost item = { λ input. (input.key.name, input_parts (input_of input)) };

    ghost is_new = { is_new_entry };

    ghost is_clean = { λ input. IsCleanInput (input_of input) };

    ghost unchanged = { λ p. refl };

    ghost taken = { λ p l. refl };

    ghost last = { λ p l m. refl };

    fn take(
        self,
        alloc: Global,
        source: &WrittenInput<'t>,
    ) -> Result<FieldBuilder<Owner>, OutOfMemory> {
        let input = built_input(alloc, source)?;
        self.argument(input)
    }
}

fn described<Owner: Drop>(
    alloc: Global,
    field: FieldBuilder<Owner>,
    description: &Option<Description<'_>>,
) -> Result<FieldBuilder<Owner>, OutOfMemory>
    requires { (built_field_parts field).description ≡ None }
    ensures { IfOk result (λ more. built_field_parts more
        ≡ record (built_field_parts field) { description = description_of description.now }) }
{
    match description {
        None => Ok(field),
        Some(found) => field.description(found.text.to_text(alloc)?.as_str()),
    }
}

fn deprecated<Owner: Drop>(
    alloc: Global,
    field: FieldBuilder<Owner>,
    uses: &[Use<'_>],
) -> Result<FieldBuilder<Owner>, OutOfMemory>
    requires { (built_field_parts field).deprecation ≡ not_deprecated }
    ensures { IfOk result (λ more. built_field_parts more
        ≡ record (built_field_parts field) { deprecation = deprecation_in (map use_of uses.now) }) }
{
    match deprecation(alloc, uses)? {
        None => Ok(field),
        Some(reason) => field.deprecation(lent(&reason)),
    }
}

fn with_arguments<Owner: Drop>(
    alloc: Global,
    field: FieldBuilder<Owner>,
    arguments: &[WrittenInput<'_>],
) -> Result<FieldBuilder<Owner>, OutOfMemory>
    requires none { (built_field_parts field).arguments ≡ [] }
    requires clean { AreCleanInputs (map input_of arguments.now) }
    ensures { IfOk result (λ more. built_field_parts more
        ≡ record (built_field_parts field) { arguments = inputs_parts (map input_of arguments.now) }) }
{
    take_all(alloc, field, arguments)
}

/// The field of an object or of an interface that is written.
pub(crate) fn built_field<Owner: Drop>(
    alloc: Global,
    field: &WrittenField<'_>,
) -> Result<FieldBuilder<Owner>, OutOfMemory>
    requires { IsCleanField (field_def_of field.now) }
    ensures { IfOk result (λ built.
        built_field_parts built ≡ field_parts (field_def_of field.now)) }
{
    let ty = field.ty.to_type_ref(alloc)?;
    let built = FieldBuilder::new(alloc, field.key.name.as_str(), ty)?;
    let built = described(alloc, built, &field.description)?;
    let built = deprecated(alloc, built, field.uses.as_slice())?;
    let built = take_uses(alloc, built, field.uses.as_slice())?;
    with_arguments(alloc, built, field.arguments.as_slice())
}

impl<'t> Takes<WrittenInput<'t>> for SubscriptionField {
    ghost Parts = { SubscriptionFieldParts };

    ghost Item = { Text × InputValueParts };

    ghost parts = { built_subscription_field_parts };

    ghost items = { λ p. p.arguments };

    ghost with_items = { λ p l. record p { arguments = l } };

    ghost item = { λ input. (input.key.name, input_parts (input_of input)) };

    ghost is_new = { is_new_entry };

    ghost is_clean = { λ input. IsCleanInput (input_of input) };

    ghost unchanged = { λ p. refl };

    ghost taken = { λ p l. refl };

    ghost last = { λ p l m. refl };

    fn take(
        self,
        alloc: Global,
        source: &WrittenInput<'t>,
    ) -> Result<SubscriptionField, OutOfMemory> {
        let input = built_input(alloc, source)?;
        self.argument(input)
    }
}

fn described_of_root(
    alloc: Global,
    field: SubscriptionField,
    description: &Option<Description<'_>>,
) -> Result<SubscriptionField, OutOfMemory>
    requires { (built_subscription_field_parts field).description ≡ None }
    ensures { IfOk result (λ more. built_subscription_field_parts more
        ≡ record (built_subscription_field_parts field) { description = description_of description.now }) }
{
    match description {
        None => Ok(field),
        Some(found) => field.description(found.text.to_text(alloc)?.as_str()),
    }
}

fn deprecated_of_root(
    alloc: Global,
    field: SubscriptionField,
    uses: &[Use<'_>],
) -> Result<SubscriptionField, OutOfMemory>
    requires { (built_subscription_field_parts field).deprecation ≡ not_deprecated }
    ensures { IfOk result (λ more. built_subscription_field_parts more
        ≡ record (built_subscription_field_parts field) { deprecation = deprecation_in (map use_of uses.now) }) }
{
    match deprecation(alloc, uses)? {
        None => Ok(field),
        Some(reason) => field.deprecation(lent(&reason)),
    }
}

fn with_arguments_of_root(
    alloc: Global,
    field: SubscriptionField,
    arguments: &[WrittenInput<'_>],
) -> Result<SubscriptionField, OutOfMemory>
    requires none { (built_subscription_field_parts field).arguments ≡ [] }
    requires clean { AreCleanInputs (map input_of arguments.now) }
    ensures { IfOk result (λ more. built_subscription_field_parts more
        ≡ record (built_subscription_field_parts field) { arguments = inputs_parts (map input_of arguments.now) }) }
{
    take_all(alloc, field, arguments)
}

/// The field of the subscription root that is written.
pub(crate) fn built_subscription_field(
    alloc: Global,
    field: &WrittenField<'_>,
) -> Result<SubscriptionField, OutOfMemory>
    requires { IsCleanField (field_def_of field.now) }
    ensures { IfOk result (λ built. built_subscription_field_parts built
        ≡ subscription_field_parts (field_def_of field.now)) }
{
    let ty = field.ty.to_type_ref(alloc)?;
    let built = SubscriptionField::new(alloc, field.key.name.as_str(), ty)?;
    let built = described_of_root(alloc, built, &field.description)?;
    let built = deprecated_of_root(alloc, built, field.uses.as_slice())?;
    with_arguments_of_root(alloc, built, field.arguments.as_slice())
}
