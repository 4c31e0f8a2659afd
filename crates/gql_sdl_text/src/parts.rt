//! Parts that several owners have: uses of directives, deprecations, defaults, and lists of names.

ghost use Rattle.std.specs.Prelude.{◌≡◌, ◌∷◌, ◌++◌, [], map, codes, OnOk};
ghost use Rattle.std.specs.List.{concat, join_by, flat_map};
ghost use Rattle.std.specs.Option.{option_map};
ghost use Rattle.gql_text_lexer.specs.Quoting.{quote};
ghost use Rattle.gql_registry_meta.specs.Invocations.{invocation_text};
ghost use Rattle.gql_registry_meta.specs.Views.{text_of, texts_in, deprecation_of, invocation_of, input_value_of};
ghost use Rattle.gql_sdl_view.specs.Spelling.{uses_text, deprecated_text, default_text, bare_value_text, input_value_text, implements_text, members_text};
ghost use Rattle.gql_sdl_text.specs.Growth.{Grows};

use crate::writer::{push, push_all};
use gql_registry_meta::{Deprecation, MetaDirectiveInvocation, MetaInputValue};
use gql_text_lexer::{OutOfMemory, quote};
use std::alloc::Global;

/// Writes a space and the use of a directive.
fn push_use(
    alloc: Global,
    out: &mut String,
    invocation: &MetaDirectiveInvocation,
) -> Result<(), OutOfMemory>
    ensures { OnOk result (Grows out.old out.new
        (codes " " ++ invocation_text (invocation_of invocation.now))) }
{
    let text = invocation.sdl(alloc)?;
    push(out, " ")?;
    push(out, text.as_str())
}

/// Writes the uses of directives, each after a space.
pub(crate) fn push_uses(
    alloc: Global,
    out: &mut String,
    uses: &[MetaDirectiveInvocation],
) -> Result<(), OutOfMemory>
    ensures { OnOk result (Grows out.old out.new (uses_text (map invocation_of uses.now))) }
{
    for invocation in uses {
        push_use(alloc, out, invocation)?;
    }
    Ok(())
}

/// Writes the opening, the text as a quoted string, and `)`.
pub(crate) fn push_quoted_argument(
    alloc: Global,
    out: &mut String,
    opening: &str,
    text: &str,
) -> Result<(), OutOfMemory>
    ensures { OnOk result (Grows out.old out.new
        (concat (opening.now ∷ quote text.now ∷ codes ")" ∷ []))) }
{
    let quoted = quote(alloc, text)?;
    push_all(out, &[opening, quoted.as_str(), ")"])
}

/// Writes a deprecation, with its reason where one is given.
pub(crate) fn push_deprecated(
    alloc: Global,
    out: &mut String,
    deprecation: &Deprecation,
) -> Result<(), OutOfMemory>
    ensures { OnOk result (Grows out.old out.new
        (deprecated_text (deprecation_of deprecation.now))) }
{
    match deprecation {
        Deprecation::NoDeprecated => Ok(()),
        Deprecation::Deprecated { reason: None } => push(out, " @deprecated"),
        Deprecation::Deprecated {
            reason: Some(reason),
        } => push_quoted_argument(alloc, out, " @deprecated(reason: ", reason.as_str()),
    }
}

/// Writes a default, if there is one.
fn push_default(out: &mut String, default: &Option<String>) -> Result<(), OutOfMemory>
    ensures { OnOk result (Grows out.old out.new
        (default_text (option_map text_of default.now))) }
{
    match default {
        None => Ok(()),
        Some(value) => push_all(out, &[" = ", value.as_str()]),
    }
}

/// Writes an argument of a directive definition: its name, type and default.
pub(crate) fn push_bare_value(out: &mut String, value: &MetaInputValue) -> Result<(), OutOfMemory>
    ensures { OnOk result (Grows out.old out.new (bare_value_text (input_value_of value.now))) }
{
    push_all(out, &[value.name.as_str(), ": ", value.ty.as_str()])?;
    push_default(out, &value.default_value)
}

/// Writes an argument of a field or an input field, without its description.
pub(crate) fn push_input_value(
    alloc: Global,
    out: &mut String,
    value: &MetaInputValue,
) -> Result<(), OutOfMemory>
    ensures { OnOk result (Grows out.old out.new (input_value_text (input_value_of value.now))) }
{
    push_bare_value(out, value)?;
    push_deprecated(alloc, out, &value.deprecation)?;
    push_uses(alloc, out, value.directive_invocations.as_slice())
}

/// Writes the names, each after the separator.
fn push_names_after(out: &mut String, separator: &str, names: &[&str]) -> Result<(), OutOfMemory>
    ensures { OnOk result (Grows out.old out.new
        (flat_map (λ name. separator.now ++ name) (texts_in names.now))) }
{
    for name in names {
        push_all(out, &[separator, name])?;
    }
    Ok(())
}

/// Writes the opening, a name, and further ones, each after the separator.
fn push_names(
    out: &mut String,
    opening: &str,
    separator: &str,
    first: &str,
    more: &[&str],
) -> Result<(), OutOfMemory>
    ensures { OnOk result (Grows out.old out.new (opening.now
        ++ join_by (λ name. name) separator.now (first.now ∷ texts_in more.now))) }
{
    push(out, opening)?;
    push(out, first)?;
    push_names_after(out, separator, more)
}

/// Writes the names that a type implements, if there are any.
pub(crate) fn push_implements(out: &mut String, names: &[&str]) -> Result<(), OutOfMemory>
    ensures { OnOk result (Grows out.old out.new (implements_text (texts_in names.now))) }
{
    match names.split_first() {
        None => Ok(()),
        Some((first, more)) => push_names(out, " implements ", " & ", first, more),
    }
}

/// Writes the members of a union, if there are any.
pub(crate) fn push_union_members(out: &mut String, names: &[&str]) -> Result<(), OutOfMemory>
    ensures { OnOk result (Grows out.old out.new (members_text (texts_in names.now))) }
{
    match names.split_first() {
        None => Ok(()),
        Some((first, more)) => push_names(out, " = ", " | ", first, more),
    }
}
