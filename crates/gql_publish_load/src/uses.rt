//! Uses of directives: section 2.12 of the GraphQL specification, October 2021.

ghost use Rattle.std.specs.Prelude.{◌≡◌, [], IfOk, map, refl};
ghost use Rattle.gql_text.specs.DocumentOf.{argument_of, use_of};
ghost use Rattle.gql_registry_meta.specs.Parts.{Invocation, Text};
ghost use Rattle.gql_text_values.specs.declared.const_value.ConstValue.{ConstValue};
ghost use Rattle.gql_parts.specs.BuilderViews.{directive_use};
ghost use Rattle.gql_publish_document.specs.Uses.{invocation};
ghost use Rattle.gql_publish_document.specs.Clean.{AreDistinct, IsCleanUse};
ghost use Rattle.gql_publish_load.specs.Taking.{is_new_entry};

use crate::taking::{Takes, take_all};
use crate::values::const_value;
use gql_check::Directive;
use gql_text::{Argument, OutOfMemory, Use};
use std::alloc::Global;

impl<'t> Takes<Argument<'t>> for Directive {
    ghost Parts = { Invocation };

    ghost Item = { Text × ConstValue };

    ghost parts = { directive_use };

    ghost items = { λ p. p.args };

    ghost with_items = { λ p l. record p { args = l } };

    ghost item = { argument_of };

    ghost is_new = { is_new_entry };

    ghost is_clean = { λ _. Unit {0} };

    ghost unchanged = { λ p. refl };

    ghost taken = { λ p l. refl };

    ghost last = { λ p l m. refl };

    fn take(self, alloc: Global, source: &Argument<'t>) -> Result<Directive, OutOfMemory> {
        let value = const_value(alloc, &source.value)?;
        self.argument(source.key.name.as_str(), value)
    }
}

fn with_arguments(
    alloc: Global,
    directive: Directive,
    arguments: &[Argument<'_>],
) -> Result<Directive, OutOfMemory>
    requires none { (directive_use directive).args ≡ [] }
    requires clean { AreDistinct (map (λ argument. argument.0) (map argument_of arguments.now)) }
    ensures { IfOk result (λ more. directive_use more
        ≡ record (directive_use directive) { args = map argument_of arguments.now }) }
{
    take_all(alloc, directive, arguments)
}

/// The use of a directive, with its arguments in their order.
pub(crate) fn built_use(alloc: Global, use_: &Use<'_>) -> Result<Directive, OutOfMemory>
    requires { IsCleanUse (use_of use_.now) }
    ensures { IfOk result (λ directive. directive_use directive ≡ invocation (use_of use_.now)) }
{
    let directive = Directive::new(alloc, use_.name.as_str())?;
    with_arguments(alloc, directive, use_.arguments.as_slice())
}
