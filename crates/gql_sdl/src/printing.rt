//! The canonical text of a schema: section 3 of the GraphQL specification, October 2021.

ghost use Rattle.std.specs.Prelude.{◌≡◌, ◌∷◌, [], List, IfOk, OnOk, map, drop, string_bytes};
ghost use Rattle.std.specs.Map.{values_of};
ghost use Rattle.gql_registry_meta.specs.Parts.{Meta};
ghost use Rattle.gql_registry_meta.specs.Views.{text_of, texts_in, meta_of, directive_of};
ghost use Rattle.gql_registry.specs.Registry.{registry_of, types_of, directives_of};
ghost use Rattle.gql_registry.specs.Registry.{lists_of, implements_listed};
ghost use Rattle.gql_sdl_view.specs.Options.{layout_of};
ghost use Rattle.gql_sdl_view.specs.View.{view_of};
ghost use Rattle.gql_sdl_view.specs.Spelling.{first_list, types_text, directive_text};
ghost use Rattle.gql_sdl_view.specs.Spelling.{directives_text, spell};
ghost use Rattle.gql_sdl_text.specs.Growth.{Grows};
ghost use Rattle.gql_sdl_text.specs.Views.{layout_view, choice_view};
ghost use Rattle.gql_sdl.specs.Values.{options_of, view_in};
ghost use Rattle.gql_sdl.specs.Needs.{needs_of};
ghost use Rattle.gql_sdl.specs.Registered.{shown_text, definition_text, needed_text};

use crate::needs::Needs;
use crate::options::SDLExportOptions;
use crate::view::View;
use crate::viewing::is_shown;
use gql_registry::{MetaDirective, MetaType, Registry};
use gql_sdl_text::{Choice, Layout, push_directive, push_schema_block, push_type};
use gql_text_lexer::OutOfMemory;
use std::alloc::Global;

/// All of a part, in its order.
const WHOLE: Choice = Choice {
    sorted_fields: false,
    sorted_arguments: false,
    sorted_enum_items: false,
    with_reserved: true,
    with_url: true,
};

/// The texts, lent in their order.
pub(crate) fn lent_texts(alloc: Global, texts: &[String]) -> Result<Vec<&str>, OutOfMemory>
    ensures { IfOk result (λ lent. texts_in lent.items ≡ map text_of texts.now) }
{
    let mut lent = Vec::new(alloc);
    for text in texts {
        lent.push(text.as_str())?;
    }
    Ok(lent)
}

// ---- views

/// The names in the list of this place; none where there is no such list.
fn names_at(alloc: Global, view: &View, index: usize) -> Result<Vec<&str>, OutOfMemory>
    ensures { IfOk result (λ names. texts_in names.items
        ≡ first_list (drop index (view_in view.now).implements)) }
{
    match view.implements.get(index) {
        None => Ok(Vec::new(alloc)),
        Some(names) => lent_texts(alloc, names.as_slice()),
    }
}

/// Writes the types of a view, each with the names that it implements.
fn push_types(
    alloc: Global,
    out: &mut String,
    layout: &Layout,
    view: &View,
) -> Result<(), OutOfMemory>
    ensures { OnOk result (Grows out.old out.new
        (types_text (layout_view layout.now)
        (view_in view.now).types (view_in view.now).implements)) }
{
    for (index, ty) in view.types.iter().enumerate() {
        let names = names_at(alloc, view, index)?;
        push_type(alloc, out, layout, WHOLE, names.as_slice(), ty)?;
    }
    Ok(())
}

/// Writes the definition of a directive, and LF.
fn push_definition(
    alloc: Global,
    out: &mut String,
    layout: &Layout,
    directive: &MetaDirective,
) -> Result<(), OutOfMemory>
    ensures { OnOk result (Grows out.old out.new
        (definition_text (layout_view layout.now) (directive_of directive.now))) }
{
    push_directive(alloc, out, layout, directive)?;
    out.push_str("\n")?;
    Ok(())
}

/// Writes the definitions of a view's directives.
fn push_directives(
    alloc: Global,
    out: &mut String,
    layout: &Layout,
    view: &View,
) -> Result<(), OutOfMemory>
    ensures { OnOk result (Grows out.old out.new
        (directives_text (layout_view layout.now) (view_in view.now).directives)) }
{
    for directive in view.directives.iter() {
        push_definition(alloc, out, layout, directive)?;
    }
    Ok(())
}

/// The text of a view: its types, its directive definitions, and the schema block. Nothing looks at `federation` and
/// `compose_directive`.
pub fn spell(alloc: Global, view: &View, options: SDLExportOptions) -> Result<String, OutOfMemory>
    ensures { IfOk result (λ text.
        string_bytes text ≡ spell (options_of options) (view_in view.now)) }
{
    let layout = options.layout(alloc)?;
    let mut out = String::new(alloc);
    push_types(alloc, &mut out, &layout, view)?;
    push_directives(alloc, &mut out, &layout, view)?;
    push_schema_block(
        &mut out,
        &layout,
        view.query.as_str(),
        view.mutation.as_deref(),
        view.subscription.as_deref(),
    )?;
    Ok(out)
}

/// The text of a directive definition, without the line feed after it: section 3.13.
pub fn directive_sdl(
    alloc: Global,
    directive: &MetaDirective,
    options: SDLExportOptions,
) -> Result<String, OutOfMemory>
    ensures { IfOk result (λ text. string_bytes text
        ≡ directive_text (layout_of (options_of options)) (directive_of directive.now)) }
{
    let layout = options.layout(alloc)?;
    let mut out = String::new(alloc);
    push_directive(alloc, &mut out, &layout, directive)?;
    Ok(out)
}

// ---- registries

/// The names that a type implements.
fn names_implemented<'r>(
    alloc: Global,
    registry: &'r Registry,
    ty: &str,
) -> Result<Vec<&'r str>, OutOfMemory>
    ensures { IfOk result (λ names.
        texts_in names.items ≡ implements_listed ty.now (lists_of registry.now)) }
{
    match registry.implements_of(ty) {
        None => Ok(Vec::new(alloc)),
        Some(names) => lent_texts(alloc, names.as_slice()),
    }
}

/// Writes a type, if it is shown.
fn push_shown(
    alloc: Global,
    out: &mut String,
    layout: &Layout,
    choice: Choice,
    registry: &Registry,
    ty: &MetaType,
) -> Result<(), OutOfMemory>
    ensures { OnOk result (Grows out.old out.new (shown_text (layout_view layout.now)
        (choice_view choice) (registry_of registry.now) (meta_of ty.now ∷ []))) }
{
    if is_shown(ty) {
        let names = names_implemented(alloc, registry, ty.name())?;
        push_type(alloc, out, layout, choice, names.as_slice(), ty)?;
        return Ok(());
    }
    Ok(())
}

/// Writes the types that are shown.
fn push_shown_types(
    alloc: Global,
    out: &mut String,
    layout: &Layout,
    choice: Choice,
    registry: &Registry,
) -> Result<(), OutOfMemory>
    ensures { OnOk result (Grows out.old out.new (shown_text (layout_view layout.now)
        (choice_view choice) (registry_of registry.now) (values_of (types_of registry.now)))) }
{
    for ty in registry.types().values() {
        push_shown(alloc, out, layout, choice, registry, ty)?;
    }
    Ok(())
}

/// Writes the definition of a directive, if the types need it.
fn push_needed(
    alloc: Global,
    out: &mut String,
    layout: &Layout,
    needs: Needs,
    directive: &MetaDirective,
) -> Result<(), OutOfMemory>
    ensures { (types : List Meta) → needs ≡ needs_of types → OnOk result (Grows out.old out.new
        (needed_text (layout_view layout.now) types (directive_of directive.now ∷ []))) }
{
    if needs.admits(directive) {
        return push_definition(alloc, out, layout, directive);
    }
    Ok(())
}

/// Writes the definitions of directives that a registry has and the types need.
pub(crate) fn push_needed_directives(
    alloc: Global,
    out: &mut String,
    layout: &Layout,
    needs: Needs,
    registry: &Registry,
) -> Result<(), OutOfMemory>
    ensures { (types : List Meta) → needs ≡ needs_of types → OnOk result (Grows out.old out.new
        (needed_text (layout_view layout.now) types (values_of (directives_of registry.now)))) }
{
    for directive in registry.directives().values() {
        push_needed(alloc, out, layout, needs, directive)?;
    }
    Ok(())
}

/// The text of the view of a registry: its types, its directive definitions, and the schema block. No view is made on the
/// way. Nothing looks at `federation` and `compose_directive`.
pub fn export_sdl(
    alloc: Global,
    registry: &Registry,
    options: SDLExportOptions,
) -> Result<String, OutOfMemory>
    ensures { IfOk result (λ text. string_bytes text
        ≡ spell (options_of options) (view_of (options_of options) (registry_of registry.now))) }
{
    let layout = options.layout(alloc)?;
    let mut out = String::new(alloc);
    push_shown_types(alloc, &mut out, &layout, options.choice(), registry)?;
    let needs = Needs::of(registry.types());
    push_needed_directives(alloc, &mut out, &layout, needs, registry)?;
    push_schema_block(
        &mut out,
        &layout,
        registry.query_type(),
        registry.mutation_type(),
        registry.subscription_type(),
    )?;
    Ok(out)
}
