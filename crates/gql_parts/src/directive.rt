//! Uses of directives: section 2.12 of the GraphQL specification, October 2021.

ghost use Rattle.std.specs.Prelude.{◌≡◌, [], IfOk, map};
ghost use Rattle.gql_registry_meta.specs.Views.{invocation_of, invocations_of};
ghost use Rattle.gql_registry_meta.specs.Parts.{with_entry_in_place};
ghost use Rattle.gql_parts.specs.BuilderViews.{directive_use};

use gql_registry_meta::{ConstValue, MetaDirectiveInvocation, OutOfMemory};
use indexmap::IndexMap;
use std::alloc::Global;

/// The use of a directive on a part of a schema.
#[derive(Debug, Drop)]
pub struct Directive {
    alloc: Global,
    invocation: MetaDirectiveInvocation,
}

impl Directive {
    /// The use of the directive of that name, without arguments.
    pub fn new(alloc: Global, name: &str) -> Result<Directive, OutOfMemory>
        ensures { IfOk result (λ directive.
            directive_use directive ≡ record { name = name.now; args = [] }) }
    {
        let invocation = MetaDirectiveInvocation {
            name: String::from_str(alloc, name)?,
            args: IndexMap::new(alloc),
        };
        Ok(Directive { alloc, invocation })
    }

    /// Gives an argument. One of that name is replaced at its place, and a new one goes last.
    #[tactic(auto, using(gql_registry_meta::proofs::Entries::entries_with_insertion))]
    pub fn argument(mut self, name: &str, value: ConstValue) -> Result<Directive, OutOfMemory>
        ensures { IfOk result (λ directive. directive_use directive
            ≡ record (directive_use self) { args = with_entry_in_place (directive_use self).args name.now value }) }
    {
        let key = String::from_str(self.alloc, name)?;
        self.invocation.args.insert(key, value)?;
        Ok(self)
    }

    /// The use that is registered.
    pub fn meta(&self, alloc: Global) -> Result<MetaDirectiveInvocation, OutOfMemory>
        ensures { IfOk result (λ invocation. invocation_of invocation ≡ directive_use self.now) }
    {
        self.invocation.try_clone(alloc)
    }

    /// A value with equal parts.
    pub fn try_clone(&self, alloc: Global) -> Result<Directive, OutOfMemory>
        ensures { IfOk result (λ copy. directive_use copy ≡ directive_use self.now) }
    {
        Ok(Directive {
            alloc,
            invocation: self.invocation.try_clone(alloc)?,
        })
    }
}

impl From<Directive> for MetaDirectiveInvocation {
    ghost from_gives = { λ directive invocation. invocation_of invocation ≡ directive_use directive };

    fn from(directive: Directive) -> MetaDirectiveInvocation {
        directive.invocation
    }
}

/// The uses that are registered, in their order.
pub fn to_meta_directive_invocation(
    alloc: Global,
    directives: Vec<Directive>,
) -> Result<Vec<MetaDirectiveInvocation>, OutOfMemory>
    ensures { IfOk result (λ invocations.
        invocations_of invocations ≡ map directive_use directives.items) }
{
    let mut invocations = Vec::new(alloc);
    for directive in directives {
        invocations.push(MetaDirectiveInvocation::from(directive))?;
    }
    Ok(invocations)
}
