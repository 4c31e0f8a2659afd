//! The view of a registry.

ghost use Rattle.std.specs.Prelude.{◌≡◌, ◌++◌, ◌∷◌, [], List, IfOk, OnOk, map};
ghost use Rattle.std.specs.Map.{values_of};
ghost use Rattle.gql_registry_meta.specs.Parts.{Meta, name_of, is_among};
ghost use Rattle.gql_registry_meta.specs.Views.{texts_of, meta_of, directive_of};
ghost use Rattle.gql_registry.specs.System.{system_scalars};
ghost use Rattle.gql_registry.specs.Registry.{registry_of, types_of, directives_of};
ghost use Rattle.gql_registry.specs.Registry.{lists_of, implements_listed};
ghost use Rattle.gql_sdl_view.specs.View.{is_shown, is_system_scalar, viewed_directive, needed};
ghost use Rattle.gql_sdl_view.specs.View.{view_of};
ghost use Rattle.gql_sdl.specs.Values.{options_of, view_in};
ghost use Rattle.gql_sdl.specs.Needs.{needs_of};
ghost use Rattle.gql_sdl.specs.Taken.{taken_types, taken_lists};

use crate::needs::Needs;
use crate::options::SDLExportOptions;
use crate::types::{viewed_directive, viewed_type};
use crate::view::View;
use gql_registry::{MetaDirective, MetaType, Registry};
use gql_registry_meta::{owned_text, owned_texts};
use gql_text_lexer::{OutOfMemory, is_reserved};
use std::alloc::Global;

/// Whether a scalar has the name of one that every schema has: section 3.5.
fn is_system_scalar(ty: &MetaType) -> bool
    ensures { result ≡ is_system_scalar (meta_of ty.now) }
{
    match ty {
        MetaType::Scalar { name, .. } => is_system_name(name.as_str()),
        MetaType::Object { .. } => false,
        MetaType::Interface { .. } => false,
        MetaType::Union { .. } => false,
        MetaType::Enum { .. } => false,
        MetaType::InputObject { .. } => false,
    }
}

fn is_system_name(name: &str) -> bool
    ensures { result ≡ is_among name.now (map name_of system_scalars) }
{
    name == "Boolean" || name == "Int" || name == "Float" || name == "String" || name == "ID"
}

/// Whether a registry's view has a type.
pub(crate) fn is_shown(ty: &MetaType) -> bool
    ensures { result ≡ is_shown (meta_of ty.now) }
{
    !is_reserved(ty.name()) && !is_system_scalar(ty)
}

/// Puts a type at the end, if it is shown.
fn take_type(
    alloc: Global,
    registry: &Registry,
    options: SDLExportOptions,
    types: &mut Vec<MetaType>,
    ty: &MetaType,
) -> Result<(), OutOfMemory>
    ensures { OnOk result (map meta_of types.new.items ≡ map meta_of types.old.items
        ++ taken_types (options_of options) (registry_of registry.now) (meta_of ty.now ∷ [])) }
{
    if is_shown(ty) {
        let copy = viewed_type(alloc, options, registry.subscription_type(), ty)?;
        types.push(copy)?;
        return Ok(());
    }
    Ok(())
}

/// Puts the types that are shown where there are none.
fn fill_types(
    alloc: Global,
    registry: &Registry,
    options: SDLExportOptions,
    types: &mut Vec<MetaType>,
) -> Result<(), OutOfMemory>
    requires { types.old.items ≡ [] }
    ensures { OnOk result (map meta_of types.new.items ≡ taken_types (options_of options)
        (registry_of registry.now) (values_of (types_of registry.now))) }
{
    for ty in registry.types().values() {
        take_type(alloc, registry, options, types, ty)?;
    }
    Ok(())
}

/// The names that a type implements.
fn names_listed(alloc: Global, registry: &Registry, ty: &str) -> Result<Vec<String>, OutOfMemory>
    ensures { IfOk result (λ names.
        texts_of names ≡ implements_listed ty.now (lists_of registry.now)) }
{
    match registry.implements_of(ty) {
        None => Ok(Vec::new(alloc)),
        Some(names) => owned_texts(alloc, names.as_slice()),
    }
}

/// Puts the names that a type implements at the end, if the type is shown.
fn take_list(
    alloc: Global,
    registry: &Registry,
    lists: &mut Vec<Vec<String>>,
    ty: &MetaType,
) -> Result<(), OutOfMemory>
    ensures { OnOk result (map texts_of lists.new.items ≡ map texts_of lists.old.items
        ++ taken_lists (registry_of registry.now) (meta_of ty.now ∷ [])) }
{
    if is_shown(ty) {
        let names = names_listed(alloc, registry, ty.name())?;
        lists.push(names)?;
        return Ok(());
    }
    Ok(())
}

/// For each type that is shown the names that it implements.
fn viewed_lists(alloc: Global, registry: &Registry) -> Result<Vec<Vec<String>>, OutOfMemory>
    ensures { IfOk result (λ lists. map texts_of lists.items
        ≡ taken_lists (registry_of registry.now) (values_of (types_of registry.now))) }
{
    let mut lists = Vec::new(alloc);
    for ty in registry.types().values() {
        take_list(alloc, registry, &mut lists, ty)?;
    }
    Ok(lists)
}

/// Puts the definition of a directive at the end, if the types need it.
fn take_directive(
    alloc: Global,
    needs: Needs,
    directives: &mut Vec<MetaDirective>,
    directive: &MetaDirective,
) -> Result<(), OutOfMemory>
    ensures { (types : List Meta) → needs ≡ needs_of types → OnOk result (
        map directive_of directives.new.items ≡ map directive_of directives.old.items
        ++ map viewed_directive (needed types (directive_of directive.now ∷ []))) }
{
    if needs.admits(directive) {
        let copy = viewed_directive(alloc, directive)?;
        directives.push(copy)?;
        return Ok(());
    }
    Ok(())
}

/// The definitions of directives that the types need.
fn viewed_directives(alloc: Global, registry: &Registry) -> Result<Vec<MetaDirective>, OutOfMemory>
    ensures { IfOk result (λ directives. map directive_of directives.items ≡ map viewed_directive
        (needed (values_of (types_of registry.now)) (values_of (directives_of registry.now)))) }
{
    let needs = Needs::of(registry.types());
    let mut directives = Vec::new(alloc);
    for directive in registry.directives().values() {
        take_directive(alloc, needs, &mut directives, directive)?;
    }
    Ok(directives)
}

/// The view of what a registry holds: sections 3.3 to 3.13 of the GraphQL specification, October 2021.
///
/// It has the types in name order, without those whose names begin with `__` and without the scalars that every schema
/// has. Fields whose names begin with `__` are left out. The URLs of scalars are kept under `include_specified_by` alone.
/// The definitions of directives are those of the registry; `deprecated`, `specifiedBy` and `oneOf` are among them only
/// where a type of the registry needs them. Nothing looks at `federation` and `compose_directive`.
pub fn view_of(
    alloc: Global,
    registry: &Registry,
    options: SDLExportOptions,
) -> Result<View, OutOfMemory>
    ensures { IfOk result (λ view.
        view_in view ≡ view_of (options_of options) (registry_of registry.now)) }
{
    let mut view = View {
        query: String::from_str(alloc, registry.query_type())?,
        mutation: owned_text(alloc, registry.mutation_type())?,
        subscription: owned_text(alloc, registry.subscription_type())?,
        types: Vec::new(alloc),
        implements: viewed_lists(alloc, registry)?,
        directives: viewed_directives(alloc, registry)?,
    };
    fill_types(alloc, registry, options, &mut view.types)?;
    Ok(view)
}
