//! Uses of directives: section 2.12 of the GraphQL specification, October 2021.

ghost use Rattle.std.specs.Prelude.{◌≡◌, ◌++◌, IfOk, OnOk, codes, string_bytes};
ghost use Rattle.gql_registry_meta.specs.Invocations.{argument_text, arguments_text, invocation_text};
ghost use Rattle.gql_registry_meta.specs.Views.{text_of, arguments_of, invocation_of};

use crate::copies::copy_arguments;
use gql_text_lexer::OutOfMemory;
use gql_text_values::ConstValue;
use indexmap::IndexMap;
use std::alloc::{AllocError, Global};

/// The use of a directive on a part of a schema. `args` keeps the order in which the arguments came.
#[derive(Debug, Drop)]
pub struct MetaDirectiveInvocation {
    pub name: String,
    pub args: IndexMap<String, ConstValue>,
}

impl Clone for MetaDirectiveInvocation {
    ghost is_clone = { λ a b. invocation_of b ≡ invocation_of a };

    fn clone(&self) -> Result<Self, AllocError> {
        Ok(MetaDirectiveInvocation {
            name: self.name.clone()?,
            args: copy_arguments(&self.args)?,
        })
    }
}

impl MetaDirectiveInvocation {
    /// The use as it is written: `@name`, and `(a: v, b: w)` where there are arguments.
    pub fn sdl(&self, alloc: Global) -> Result<String, OutOfMemory>
        ensures { IfOk result (λ text.
            string_bytes text ≡ invocation_text (invocation_of self.now)) }
    {
        let mut out = String::new(alloc);
        out.push_str("@")?;
        out.push_str(self.name.as_str())?;
        push_arguments(alloc, &mut out, &self.args)?;
        Ok(out)
    }

    /// A value with equal parts.
    pub fn try_clone(&self, _alloc: Global) -> Result<MetaDirectiveInvocation, OutOfMemory>
        ensures { IfOk result (λ copy. invocation_of copy ≡ invocation_of self.now) }
    {
        Ok(self.clone()?)
    }
}

/// Writes `a: v` at the end.
fn push_argument(
    alloc: Global,
    out: &mut String,
    name: &String,
    value: &ConstValue,
) -> Result<(), OutOfMemory>
    ensures { OnOk result (string_bytes out.new
        ≡ string_bytes out.old ++ argument_text (text_of name.now, value.now)) }
{
    out.push_str(name.as_str())?;
    out.push_str(": ")?;
    out.push_str(value.text(alloc)?.as_str())?;
    Ok(())
}

/// Writes `(a: v, b: w)` at the end, or nothing.
fn push_arguments(
    alloc: Global,
    out: &mut String,
    args: &IndexMap<String, ConstValue>,
) -> Result<(), OutOfMemory>
    ensures { OnOk result (string_bytes out.new
        ≡ string_bytes out.old ++ arguments_text (arguments_of args.now.entries)) }
{
    let mut entries = args.iter();
    let Some((name, value)) = entries.next() else {
        return Ok(());
    };
    out.push_str("(")?;
    push_argument(alloc, out, name, value)?;
    for (name, value) in entries {
        out.push_str(", ")?;
        push_argument(alloc, out, name, value)?;
    }
    out.push_str(")")?;
    Ok(())
}
