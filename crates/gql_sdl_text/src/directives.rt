//! Directive definitions and the schema block: sections 3.13 and 3.3 of the GraphQL specification, October 2021.

ghost use Rattle.std.specs.Prelude.{◌≡◌, ◌++◌, OnOk, codes};
ghost use Rattle.std.specs.List.{flat_map, join_by};
ghost use Rattle.std.specs.Map.{values_of};
ghost use Rattle.std.specs.Option.{option_copied};
ghost use Rattle.gql_registry_meta.specs.Locations.{location_text};
ghost use Rattle.gql_registry_meta.specs.Views.{directive_of};
ghost use Rattle.gql_sdl_view.specs.View.{viewed_directive};
ghost use Rattle.gql_sdl_view.specs.Spelling.{repeatable_text, directive_text, root_text, optional_root_text, schema_text};
ghost use Rattle.gql_sdl_text.specs.Growth.{Grows};
ghost use Rattle.gql_sdl_text.specs.Views.{layout_view};

use crate::arguments::push_bare_arguments;
use crate::layout::Layout;
use crate::types::push_head;
use crate::writer::{push, push_all};
use gql_registry_meta::{DirectiveLocation, MetaDirective};
use gql_text_lexer::OutOfMemory;
use std::alloc::Global;

/// Writes ` repeatable` where a directive may be used again in one place.
fn push_repeatable(out: &mut String, is_repeatable: bool) -> Result<(), OutOfMemory>
    ensures { OnOk result (Grows out.old out.new (repeatable_text is_repeatable)) }
{
    match is_repeatable {
        true => push(out, " repeatable"),
        false => Ok(()),
    }
}

/// Writes the locations, each after the separator.
fn push_locations_after(
    out: &mut String,
    separator: &str,
    locations: &[DirectiveLocation],
) -> Result<(), OutOfMemory>
    ensures { OnOk result (Grows out.old out.new
        (flat_map (λ location. separator.now ++ location_text location) locations.now)) }
{
    for location in locations {
        push(out, separator)?;
        push(out, location.as_str())?;
    }
    Ok(())
}

/// Writes the locations with the separator between them.
fn push_locations(
    out: &mut String,
    separator: &str,
    locations: &[DirectiveLocation],
) -> Result<(), OutOfMemory>
    ensures { OnOk result (Grows out.old out.new
        (join_by location_text separator.now locations.now)) }
{
    let Some((first, more)) = locations.split_first() else {
        return Ok(());
    };
    push(out, first.as_str())?;
    push_locations_after(out, separator, more)
}

/// Writes the places of a directive after the word `on`.
fn push_directive_end(
    out: &mut String,
    is_repeatable: bool,
    locations: &[DirectiveLocation],
) -> Result<(), OutOfMemory>
    ensures { OnOk result (Grows out.old out.new (repeatable_text is_repeatable
        ++ (codes " on " ++ join_by location_text (codes " | ") locations.now))) }
{
    push_repeatable(out, is_repeatable)?;
    push(out, " on ")?;
    push_locations(out, " | ", locations)
}

/// Writes a directive definition, without a line feed at its end. The only error is `OutOfMemory`; nothing is known of
/// the text after it.
pub fn push_directive(
    alloc: Global,
    out: &mut String,
    layout: &Layout,
    directive: &MetaDirective,
) -> Result<(), OutOfMemory>
    ensures { OnOk result (Grows out.old out.new (directive_text (layout_view layout.now)
        (viewed_directive (directive_of directive.now)))) }
{
    let name = directive.name.as_str();
    push_head(
        alloc,
        out,
        layout,
        &directive.description,
        "directive @",
        name,
    )?;
    push_bare_arguments(alloc, out, &directive.args)?;
    push_directive_end(out, directive.is_repeatable, directive.locations.as_slice())?;
    Ok(())
}

/// Writes the line of a root.
fn push_root(
    out: &mut String,
    layout: &Layout,
    keyword: &str,
    name: &str,
) -> Result<(), OutOfMemory>
    ensures { OnOk result (Grows out.old out.new
        (root_text (layout_view layout.now) keyword.now name.now)) }
{
    push_all(out, &[layout.indent.as_str(), keyword, name, "\n"])
}

/// Writes the line of a root, if there is one.
fn push_optional_root(
    out: &mut String,
    layout: &Layout,
    keyword: &str,
    name: Option<&str>,
) -> Result<(), OutOfMemory>
    ensures { OnOk result (Grows out.old out.new
        (optional_root_text (layout_view layout.now) keyword.now (option_copied name.entry))) }
{
    match name {
        None => Ok(()),
        Some(name) => push_root(out, layout, keyword, name),
    }
}

/// Writes the lines of the roots of mutations and subscriptions, and the closing brace.
fn push_schema_end(
    out: &mut String,
    layout: &Layout,
    mutation: Option<&str>,
    subscription: Option<&str>,
) -> Result<(), OutOfMemory>
    ensures { OnOk result (Grows out.old out.new
        (optional_root_text (layout_view layout.now) (codes "mutation: ")
        (option_copied mutation.entry)
        ++ (optional_root_text (layout_view layout.now) (codes "subscription: ")
        (option_copied subscription.entry)
        ++ codes "}\n"))) }
{
    push_optional_root(out, layout, "mutation: ", mutation)?;
    push_optional_root(out, layout, "subscription: ", subscription)?;
    push(out, "}\n")
}

/// Writes the schema block: the names of the query root, and of the roots of mutations and subscriptions, if there are
/// any. The only error is `OutOfMemory`; nothing is known of the text after it.
pub fn push_schema_block(
    out: &mut String,
    layout: &Layout,
    query: &str,
    mutation: Option<&str>,
    subscription: Option<&str>,
) -> Result<(), OutOfMemory>
    ensures { OnOk result (Grows out.old out.new (schema_text (layout_view layout.now) query.now
        (option_copied mutation.entry) (option_copied subscription.entry))) }
{
    push(out, "schema {\n")?;
    push_root(out, layout, "query: ", query)?;
    push_schema_end(out, layout, mutation, subscription)
}
