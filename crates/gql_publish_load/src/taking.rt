//! Builders that take the parts of a type, as they are written, one after another.

ghost use Rattle.std.specs.Prelude.{◌≡◌, ◌++◌, ◌∷◌, [], IsTrue, IfOk, map, Bool, List};
ghost use Rattle.std.specs.List.{AllByRecursion};
ghost use Rattle.gql_text.specs.DocumentOf.{use_of};
ghost use Rattle.gql_registry_meta.specs.Parts.{Invocation};
ghost use Rattle.gql_parts.specs.BuilderViews.{directive_use};
ghost use Rattle.gql_publish_document.specs.Uses.{invocations_in};
ghost use Rattle.gql_publish_document.specs.Clean.{IsCleanUse, AreCleanUses};
ghost use Rattle.gql_publish_load.specs.Taking.{AreNew};

use crate::attributes::is_attribute;
use crate::uses::built_use;
use gql_check::Directive;
use gql_text::{OutOfMemory, Use};
use std::alloc::Global;

/// A builder that takes parts that are written as `S`. `items` are those that it has.
pub(crate) trait Takes<S>: Sized + Drop {
    ghost Parts: { Type 0 };

    ghost Item: { Type 0 };

    ghost parts: { Self → Parts };

    ghost items: { Parts → List Item };

    ghost with_items: { Parts → List Item → Parts };

    ghost item: { S → Item };

    ghost is_new: { List Item → Item → Bool };

    ghost is_clean: { S → Type 0 };

    fn take(self, alloc: Global, source: &S) -> Result<Self, OutOfMemory>
        requires new { IsTrue (is_new (items (parts self)) (item source.now)) }
        requires clean { is_clean source.now }
        ensures { IfOk result (λ more. parts more
            ≡ with_items (parts self) (items (parts self) ++ item source.now ∷ [])) };

    ghost unchanged: { (p : Parts) → with_items p (items p) ≡ p };

    ghost taken: { (p : Parts) (l : List Item) → items (with_items p l) ≡ l };

    ghost last: { (p : Parts) (l m : List Item) → with_items (with_items p l) m ≡ with_items p m };
}

/// The builder after it took each of them.
pub(crate) fn take_all<S, B: Takes<S>>(
    alloc: Global,
    builder: B,
    sources: &[S],
) -> Result<B, OutOfMemory>
    requires new { AreNew B.is_new (B.items (B.parts builder)) (map B.item sources.now) }
    requires clean { AllByRecursion B.is_clean sources.now }
    ensures { IfOk result (λ full. B.parts full ≡ B.with_items (B.parts builder)
        (B.items (B.parts builder) ++ map B.item sources.now)) }
{
    let mut full = builder;
    for source in sources {
        full = full.take(alloc, source)?;
    }
    Ok(full)
}

/// A builder on which directives are used.
pub(crate) trait IsUsedOn: Sized + Drop {
    ghost Parts: { Type 0 };

    ghost parts: { Self → Parts };

    ghost uses: { Parts → List Invocation };

    ghost with_uses: { Parts → List Invocation → Parts };

    fn with_use(self, directive: Directive) -> Result<Self, OutOfMemory>
        ensures { IfOk result (λ more. parts more
            ≡ with_uses (parts self) (uses (parts self) ++ directive_use directive ∷ [])) };

    ghost unchanged: { (p : Parts) → with_uses p (uses p) ≡ p };

    ghost taken: { (p : Parts) (l : List Invocation) → uses (with_uses p l) ≡ l };

    ghost last: { (p : Parts) (l m : List Invocation) → with_uses (with_uses p l) m ≡ with_uses p m };
}

/// The builder after this directive is used on it, unless that is an attribute.
fn take_use<B: IsUsedOn>(alloc: Global, builder: B, use_: &Use<'_>) -> Result<B, OutOfMemory>
    requires { IsCleanUse (use_of use_.now) }
    ensures { IfOk result (λ more. B.parts more ≡ B.with_uses (B.parts builder)
        (B.uses (B.parts builder) ++ invocations_in (use_of use_.now ∷ []))) }
{
    if is_attribute(use_.name.as_str()) {
        return Ok(builder);
    }
    let directive = built_use(alloc, use_)?;
    builder.with_use(directive)
}

/// The builder after each of these directives is used on it that is no attribute.
pub(crate) fn take_uses<B: IsUsedOn>(
    alloc: Global,
    builder: B,
    uses: &[Use<'_>],
) -> Result<B, OutOfMemory>
    requires { AreCleanUses (map use_of uses.now) }
    ensures { IfOk result (λ full. B.parts full ≡ B.with_uses (B.parts builder)
        (B.uses (B.parts builder) ++ invocations_in (map use_of uses.now))) }
{
    let mut full = builder;
    for use_ in uses {
        full = take_use(alloc, full, use_)?;
    }
    Ok(full)
}
