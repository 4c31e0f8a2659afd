//! Types as a view has them: sections 3.5 to 3.10 of the GraphQL specification, October 2021.

ghost use Rattle.std.specs.Prelude.{◌≡◌, None, if◌then◌else◌, IfOk};
ghost use Rattle.std.specs.Option.{option_copied, option_map};
ghost use Rattle.gql_registry_meta.specs.Kinds.{kind_of};
ghost use Rattle.gql_registry_meta.specs.Views.{text_of, meta_of, directive_of};
ghost use Rattle.gql_registry_meta.specs.declared.type_id.MetaTypeId.TheVariants as kind;
ghost use Rattle.gql_sdl_view.specs.Options.{Choice, registry_choice};
ghost use Rattle.gql_sdl_view.specs.View.{viewed_type, is_named, viewed_directive};
ghost use Rattle.gql_sdl.specs.Values.{options_of};

use crate::members::{NO_HINT, bare_arguments, viewed_fields, viewed_inputs, viewed_values};
use crate::options::SDLExportOptions;
use gql_registry::{MetaDirective, MetaType};
use gql_registry_meta::{copy_invocations, copy_names, copy_optional};
use gql_text_lexer::OutOfMemory;
use indexmap::IndexSet;
use std::alloc::Global;

/// The URL of a scalar, where the options ask for it.
fn viewed_url(
    options: SDLExportOptions,
    url: &Option<String>,
) -> Result<Option<String>, OutOfMemory>
    ensures { IfOk result (λ copy. option_map text_of copy ≡
        (if (options_of options).include_specified_by then option_map text_of url.now else None)) }
{
    if options.include_specified_by {
        Ok(copy_optional(url)?)
    } else {
        Ok(None)
    }
}

/// A scalar.
fn viewed_scalar(
    alloc: Global,
    options: SDLExportOptions,
    ty: &MetaType,
) -> Result<MetaType, OutOfMemory>
    requires { kind_of (meta_of ty.now) ≡ kind.Scalar }
    ensures { IfOk result (λ copy. meta_of copy
        ≡ viewed_type (registry_choice (options_of options)) None (meta_of ty.now)) }
{
    let MetaType::Scalar {
        name,
        description,
        specified_by_url,
        directive_invocations,
        ..
    } = ty
    else {
        unreachable!()
    };
    Ok(MetaType::Scalar {
        name: name.clone()?,
        description: copy_optional(description)?,
        is_valid: None,
        visible: None,
        inaccessible: false,
        tags: Vec::new(alloc),
        specified_by_url: viewed_url(options, specified_by_url)?,
        directive_invocations: copy_invocations(directive_invocations)?,
        requires_scopes: Vec::new(alloc),
    })
}

/// Whether the root of subscriptions has this name.
fn is_named(name: &str, root: Option<&str>) -> bool
    ensures { result ≡ is_named name.now (option_copied root.entry) }
{
    match root {
        None => false,
        Some(root) => name == root,
    }
}

/// An object.
fn viewed_object(
    alloc: Global,
    options: SDLExportOptions,
    subscription: Option<&str>,
    ty: &MetaType,
) -> Result<MetaType, OutOfMemory>
    requires { kind_of (meta_of ty.now) ≡ kind.Object }
    ensures { IfOk result (λ copy. meta_of copy ≡ viewed_type (registry_choice (options_of options))
        (option_copied subscription.entry) (meta_of ty.now)) }
{
    let MetaType::Object {
        name,
        description,
        fields,
        directive_invocations,
        ..
    } = ty
    else {
        unreachable!()
    };
    Ok(MetaType::Object {
        name: name.clone()?,
        description: copy_optional(description)?,
        fields: viewed_fields(alloc, options, fields)?,
        cache_control: NO_HINT,
        extends: false,
        shareable: false,
        resolvable: true,
        keys: None,
        visible: None,
        inaccessible: false,
        interface_object: false,
        tags: Vec::new(alloc),
        is_subscription: is_named(name.as_str(), subscription),
        directive_invocations: copy_invocations(directive_invocations)?,
        requires_scopes: Vec::new(alloc),
    })
}

/// An interface, without its possible types.
fn viewed_interface(
    alloc: Global,
    options: SDLExportOptions,
    ty: &MetaType,
) -> Result<MetaType, OutOfMemory>
    requires { kind_of (meta_of ty.now) ≡ kind.Interface }
    ensures { IfOk result (λ copy. meta_of copy
        ≡ viewed_type (registry_choice (options_of options)) None (meta_of ty.now)) }
{
    let MetaType::Interface {
        name,
        description,
        fields,
        directive_invocations,
        ..
    } = ty
    else {
        unreachable!()
    };
    Ok(MetaType::Interface {
        name: name.clone()?,
        description: copy_optional(description)?,
        fields: viewed_fields(alloc, options, fields)?,
        possible_types: IndexSet::new(alloc),
        extends: false,
        keys: None,
        visible: None,
        inaccessible: false,
        tags: Vec::new(alloc),
        directive_invocations: copy_invocations(directive_invocations)?,
        requires_scopes: Vec::new(alloc),
    })
}

/// A union, with its members.
fn viewed_union(alloc: Global, ty: &MetaType) -> Result<MetaType, OutOfMemory>
    requires { kind_of (meta_of ty.now) ≡ kind.Union }
    ensures { IfOk result (λ copy. (choice : Choice) →
        meta_of copy ≡ viewed_type choice None (meta_of ty.now)) }
{
    let MetaType::Union {
        name,
        description,
        possible_types,
        directive_invocations,
        ..
    } = ty
    else {
        unreachable!()
    };
    Ok(MetaType::Union {
        name: name.clone()?,
        description: copy_optional(description)?,
        possible_types: copy_names(possible_types)?,
        visible: None,
        inaccessible: false,
        tags: Vec::new(alloc),
        directive_invocations: copy_invocations(directive_invocations)?,
    })
}

/// An enum.
fn viewed_enumeration(
    alloc: Global,
    options: SDLExportOptions,
    ty: &MetaType,
) -> Result<MetaType, OutOfMemory>
    requires { kind_of (meta_of ty.now) ≡ kind.Enum }
    ensures { IfOk result (λ copy. meta_of copy
        ≡ viewed_type (registry_choice (options_of options)) None (meta_of ty.now)) }
{
    let MetaType::Enum {
        name,
        description,
        enum_values,
        directive_invocations,
        ..
    } = ty
    else {
        unreachable!()
    };
    Ok(MetaType::Enum {
        name: name.clone()?,
        description: copy_optional(description)?,
        enum_values: viewed_values(alloc, options, enum_values)?,
        visible: None,
        inaccessible: false,
        tags: Vec::new(alloc),
        directive_invocations: copy_invocations(directive_invocations)?,
        requires_scopes: Vec::new(alloc),
    })
}

/// An input object.
fn viewed_input_object(
    alloc: Global,
    options: SDLExportOptions,
    ty: &MetaType,
) -> Result<MetaType, OutOfMemory>
    requires { kind_of (meta_of ty.now) ≡ kind.InputObject }
    ensures { IfOk result (λ copy. meta_of copy
        ≡ viewed_type (registry_choice (options_of options)) None (meta_of ty.now)) }
{
    let MetaType::InputObject {
        name,
        description,
        input_fields,
        oneof,
        directive_invocations,
        ..
    } = ty
    else {
        unreachable!()
    };
    Ok(MetaType::InputObject {
        name: name.clone()?,
        description: copy_optional(description)?,
        input_fields: viewed_inputs(alloc, options, input_fields)?,
        visible: None,
        inaccessible: false,
        tags: Vec::new(alloc),
        oneof: *oneof,
        directive_invocations: copy_invocations(directive_invocations)?,
    })
}

/// A type as a registry's view has it.
pub(crate) fn viewed_type(
    alloc: Global,
    options: SDLExportOptions,
    subscription: Option<&str>,
    ty: &MetaType,
) -> Result<MetaType, OutOfMemory>
    ensures { IfOk result (λ copy. meta_of copy ≡ viewed_type (registry_choice (options_of options))
        (option_copied subscription.entry) (meta_of ty.now)) }
{
    match ty {
        MetaType::Scalar { .. } => viewed_scalar(alloc, options, ty),
        MetaType::Object { .. } => viewed_object(alloc, options, subscription, ty),
        MetaType::Interface { .. } => viewed_interface(alloc, options, ty),
        MetaType::Union { .. } => viewed_union(alloc, ty),
        MetaType::Enum { .. } => viewed_enumeration(alloc, options, ty),
        MetaType::InputObject { .. } => viewed_input_object(alloc, options, ty),
    }
}

/// The definition of a directive as a view has it: section 3.13.
pub(crate) fn viewed_directive(
    alloc: Global,
    directive: &MetaDirective,
) -> Result<MetaDirective, OutOfMemory>
    ensures { IfOk result (λ copy.
        directive_of copy ≡ viewed_directive (directive_of directive.now)) }
{
    Ok(MetaDirective {
        name: directive.name.clone()?,
        description: copy_optional(&directive.description)?,
        locations: directive.locations.clone()?,
        args: bare_arguments(alloc, &directive.args)?,
        is_repeatable: directive.is_repeatable,
        visible: None,
        composable: None,
    })
}
