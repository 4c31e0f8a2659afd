//! Values of enums: section 3.9 of the GraphQL specification, October 2021.

ghost use Rattle.std.specs.Prelude.{◌≡◌, None, IfOk, map, refl};
ghost use Rattle.gql_text.specs.DocumentOf.{description_of, enum_value_of, use_of};
ghost use Rattle.gql_registry_meta.specs.Parts.{not_deprecated};
ghost use Rattle.gql_parts.specs.Builders.{EnumItemParts};
ghost use Rattle.gql_parts.specs.BuilderViews.{enum_item_parts};
ghost use Rattle.gql_publish_document.specs.Uses.{deprecation_in};
ghost use Rattle.gql_publish_document.specs.Members.{value_parts};
ghost use Rattle.gql_publish_document.specs.Clean.{IsCleanValue};

use crate::attributes::deprecation;
use crate::taking::{IsUsedOn, take_uses};
use crate::values::lent;
use gql_check::{Directive, EnumItem};
use gql_text::{Description, EnumValue, OutOfMemory, Use};
use std::alloc::Global;

impl IsUsedOn for EnumItem {
    ghost Parts = { EnumItemParts };

    ghost parts = { enum_item_parts };

    ghost uses = { λ p. p.directives };

    ghost with_uses = { λ p l. record p { directives = l } };

    ghost unchanged = { λ p. refl };

    ghost taken = { λ p l. refl };

    ghost last = { λ p l m. refl };

    fn with_use(self, directive: Directive) -> Result<EnumItem, OutOfMemory> {
        self.directive(directive)
    }
}

fn described(
    alloc: Global,
    item: EnumItem,
    description: &Option<Description<'_>>,
) -> Result<EnumItem, OutOfMemory>
    requires { (enum_item_parts item).description ≡ None }
    ensures { IfOk result (λ more. enum_item_parts more
        ≡ record (enum_item_parts item) { description = description_of description.now }) }
{
    match description {
        None => Ok(item),
        Some(found) => item.description(found.text.to_text(alloc)?.as_str()),
    }
}

fn deprecated(alloc: Global, item: EnumItem, uses: &[Use<'_>]) -> Result<EnumItem, OutOfMemory>
    requires { (enum_item_parts item).deprecation ≡ not_deprecated }
    ensures { IfOk result (λ more. enum_item_parts more
        ≡ record (enum_item_parts item) { deprecation = deprecation_in (map use_of uses.now) }) }
{
    match deprecation(alloc, uses)? {
        None => Ok(item),
        Some(reason) => item.deprecation(lent(&reason)),
    }
}

/// The value of an enum that is written.
pub(crate) fn built_value(alloc: Global, value: &EnumValue<'_>) -> Result<EnumItem, OutOfMemory>
    requires { IsCleanValue (enum_value_of value.now) }
    ensures { IfOk result (λ built. enum_item_parts built ≡ value_parts (enum_value_of value.now)) }
{
    let built = EnumItem::new(alloc, value.key.name.as_str())?;
    let built = described(alloc, built, &value.description)?;
    let built = deprecated(alloc, built, value.uses.as_slice())?;
    take_uses(alloc, built, value.uses.as_slice())
}
