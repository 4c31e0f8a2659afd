//! Arguments and input fields: sections 3.6.1 and 3.10 of the GraphQL specification, October 2021.

ghost use Rattle.std.specs.Prelude.{◌≡◌, None, IfOk, map, refl};
ghost use Rattle.std.specs.Option.{option_map};
ghost use Rattle.gql_text.specs.DocumentOf.{const_value_of, description_of, input_of, use_of};
ghost use Rattle.gql_registry_meta.specs.Parts.{not_deprecated};
ghost use Rattle.gql_parts.specs.Builders.{InputValueParts};
ghost use Rattle.gql_parts.specs.BuilderViews.{input_value_parts};
ghost use Rattle.gql_publish_document.specs.Uses.{deprecation_in};
ghost use Rattle.gql_publish_document.specs.Members.{input_parts};
ghost use Rattle.gql_publish_document.specs.Clean.{IsCleanInput};

use crate::attributes::deprecation;
use crate::taking::{IsUsedOn, take_uses};
use crate::values::{const_value, lent};
use gql_check::{Directive, InputValue};
use gql_text::{Description, InputValue as WrittenInput, Literal, OutOfMemory, Use};
use std::alloc::Global;

impl IsUsedOn for InputValue {
    ghost Parts = { InputValueParts };

    ghost parts = { input_value_parts };

    ghost uses = { λ p. p.directives };

    ghost with_uses = { λ p l. record p { directives = l } };

    ghost unchanged = { λ p. refl };

    ghost taken = { λ p l. refl };

    ghost last = { λ p l m. refl };

    fn with_use(self, directive: Directive) -> Result<InputValue, OutOfMemory> {
        self.directive(directive)
    }
}

fn described(
    alloc: Global,
    input: InputValue,
    description: &Option<Description<'_>>,
) -> Result<InputValue, OutOfMemory>
    requires { (input_value_parts input).description ≡ None }
    ensures { IfOk result (λ more. input_value_parts more
        ≡ record (input_value_parts input) { description = description_of description.now }) }
{
    match description {
        None => Ok(input),
        Some(found) => input.description(found.text.to_text(alloc)?.as_str()),
    }
}

fn deprecated(alloc: Global, input: InputValue, uses: &[Use<'_>]) -> Result<InputValue, OutOfMemory>
    requires { (input_value_parts input).deprecation ≡ not_deprecated }
    ensures { IfOk result (λ more. input_value_parts more
        ≡ record (input_value_parts input) { deprecation = deprecation_in (map use_of uses.now) }) }
{
    match deprecation(alloc, uses)? {
        None => Ok(input),
        Some(reason) => input.deprecation(lent(&reason)),
    }
}

fn with_default(
    alloc: Global,
    input: InputValue,
    default: &Option<Literal<'_>>,
) -> Result<InputValue, OutOfMemory>
    requires { (input_value_parts input).default_value ≡ None }
    ensures { IfOk result (λ more. input_value_parts more
        ≡ record (input_value_parts input) { default_value = option_map const_value_of default.now }) }
{
    match default {
        None => Ok(input),
        Some(literal) => input.default_value(const_value(alloc, literal)?),
    }
}

/// The argument or the field of an input object that is written.
pub(crate) fn built_input(
    alloc: Global,
    input: &WrittenInput<'_>,
) -> Result<InputValue, OutOfMemory>
    requires { IsCleanInput (input_of input.now) }
    ensures { IfOk result (λ built.
        input_value_parts built ≡ input_parts (input_of input.now)) }
{
    let ty = input.ty.to_type_ref(alloc)?;
    let built = InputValue::new(alloc, input.key.name.as_str(), ty)?;
    let built = with_default(alloc, built, &input.default)?;
    let built = described(alloc, built, &input.description)?;
    let built = deprecated(alloc, built, input.uses.as_slice())?;
    take_uses(alloc, built, input.uses.as_slice())
}
