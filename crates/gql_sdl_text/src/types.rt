//! Types: sections 3.5 to 3.10 of the GraphQL specification, October 2021.

ghost use Rattle.std.specs.Prelude.{◌≡◌, ◌++◌, if◌then◌else◌, List, Option, None, map, codes, OnOk};
ghost use Rattle.std.specs.Map.{values_of};
ghost use Rattle.std.specs.Option.{option_map};
ghost use Rattle.gql_registry_meta.specs.Parts.{Text};
ghost use Rattle.gql_registry_meta.specs.Views.{text_of, texts_in, names_of, invocation_of, inputs_in, fields_in, enum_values_in, meta_of};
ghost use Rattle.gql_sdl_view.specs.View.{viewed_fields, viewed_values, viewed_inputs, viewed_type};
ghost use Rattle.gql_sdl_view.specs.Spelling.{uses_text, body_text, field_text, value_text, input_text, head_text, implements_text, url_text, members_text, one_of_text, type_end, type_text};
ghost use Rattle.gql_sdl_text.specs.Growth.{Grows};
ghost use Rattle.gql_sdl_text.specs.Views.{choice_view, layout_view};

use crate::descriptions::push_described;
use crate::fields::{push_enum_values, push_fields, push_input_fields};
use crate::layout::{Choice, Layout};
use crate::members::lent_names;
use crate::parts::{push_implements, push_quoted_argument, push_union_members, push_uses};
use crate::writer::push;
use gql_registry_meta::{
    MetaDirectiveInvocation, MetaEnumValue, MetaField, MetaInputValue, MetaType,
};
use gql_text_lexer::OutOfMemory;
use indexmap::{IndexMap, IndexSet};
use std::alloc::Global;

/// Writes the description of a type or a directive definition, the word for its kind, and its name.
pub(crate) fn push_head(
    alloc: Global,
    out: &mut String,
    layout: &Layout,
    description: &Option<String>,
    keyword: &str,
    name: &str,
) -> Result<(), OutOfMemory>
    ensures { OnOk result (Grows out.old out.new (head_text (layout_view layout.now)
        (option_map text_of description.now) keyword.now name.now)) }
{
    push_described(alloc, out, layout.single, "", description)?;
    push(out, keyword)?;
    push(out, name)
}

/// Writes the URL of a scalar, if there is one.
fn push_url(alloc: Global, out: &mut String, url: &Option<String>) -> Result<(), OutOfMemory>
    ensures { OnOk result (Grows out.old out.new (url_text (option_map text_of url.now))) }
{
    let Some(url) = url else {
        return Ok(());
    };
    push_quoted_argument(alloc, out, " @specifiedBy(url: ", url.as_str())?;
    Ok(())
}

/// Writes the URL of a scalar, if there is one and it is asked for.
fn push_asked_url(
    alloc: Global,
    out: &mut String,
    url: &Option<String>,
    with_url: bool,
) -> Result<(), OutOfMemory>
    ensures { OnOk result (Grows out.old out.new
        (url_text (if with_url then option_map text_of url.now else None))) }
{
    match with_url {
        true => push_url(alloc, out, url),
        false => Ok(()),
    }
}

/// Writes the mark of an input object of which one field is given.
fn push_one_of(out: &mut String, oneof: bool) -> Result<(), OutOfMemory>
    ensures { OnOk result (Grows out.old out.new (one_of_text oneof)) }
{
    match oneof {
        true => push(out, " @oneOf"),
        false => Ok(()),
    }
}

/// Writes what follows the name of a scalar.
fn push_scalar_end(
    alloc: Global,
    out: &mut String,
    choice: Choice,
    url: &Option<String>,
    uses: &[MetaDirectiveInvocation],
) -> Result<(), OutOfMemory>
    ensures { OnOk result (Grows out.old out.new
        (url_text (if choice.with_url then option_map text_of url.now else None)
        ++ (uses_text (map invocation_of uses.now) ++ type_end))) }
{
    push_asked_url(alloc, out, url, choice.with_url)?;
    push_uses(alloc, out, uses)?;
    push(out, "\n\n")
}

/// Writes what follows the name of an object or an interface.
fn push_composite_end(
    alloc: Global,
    out: &mut String,
    layout: &Layout,
    choice: Choice,
    names: &[&str],
    uses: &[MetaDirectiveInvocation],
    fields: &IndexMap<String, MetaField>,
) -> Result<(), OutOfMemory>
    ensures { OnOk result (Grows out.old out.new (implements_text (texts_in names.now)
        ++ (uses_text (map invocation_of uses.now)
        ++ (body_text (field_text (layout_view layout.now))
        (values_of (viewed_fields (choice_view choice) (fields_in fields.now)))
        ++ type_end)))) }
{
    push_implements(out, names)?;
    push_uses(alloc, out, uses)?;
    push_fields(alloc, out, layout, choice, fields)?;
    push(out, "\n\n")
}

/// Writes what follows the name of a union.
fn push_union_end(
    alloc: Global,
    out: &mut String,
    uses: &[MetaDirectiveInvocation],
    possible_types: &IndexSet<String>,
) -> Result<(), OutOfMemory>
    ensures { OnOk result (Grows out.old out.new (uses_text (map invocation_of uses.now)
        ++ (members_text (names_of possible_types.now) ++ type_end))) }
{
    let names = lent_names(alloc, possible_types)?;
    push_uses(alloc, out, uses)?;
    push_union_members(out, names.as_slice())?;
    push(out, "\n\n")
}

/// Writes what follows the name of an enum.
fn push_enum_end(
    alloc: Global,
    out: &mut String,
    layout: &Layout,
    choice: Choice,
    uses: &[MetaDirectiveInvocation],
    values: &IndexMap<String, MetaEnumValue>,
) -> Result<(), OutOfMemory>
    ensures { OnOk result (Grows out.old out.new (uses_text (map invocation_of uses.now)
        ++ (body_text (value_text (layout_view layout.now))
        (values_of (viewed_values (choice_view choice) (enum_values_in values.now)))
        ++ type_end))) }
{
    push_uses(alloc, out, uses)?;
    push_enum_values(alloc, out, layout, choice, values)?;
    push(out, "\n\n")
}

/// Writes what follows the name of an input object.
fn push_input_end(
    alloc: Global,
    out: &mut String,
    layout: &Layout,
    choice: Choice,
    oneof: bool,
    uses: &[MetaDirectiveInvocation],
    inputs: &IndexMap<String, MetaInputValue>,
) -> Result<(), OutOfMemory>
    ensures { OnOk result (Grows out.old out.new (one_of_text oneof
        ++ (uses_text (map invocation_of uses.now)
        ++ (body_text (input_text (layout_view layout.now))
        (values_of (viewed_inputs (choice_view choice) (inputs_in inputs.now)))
        ++ type_end)))) }
{
    push_one_of(out, oneof)?;
    push_uses(alloc, out, uses)?;
    push_input_fields(alloc, out, layout, choice, inputs)?;
    push(out, "\n\n")
}

/// Writes a type that implements these names, with what the choice takes of it. The text is the same for the root of
/// subscriptions and for any other object. The only error is `OutOfMemory`; nothing is known of the text after it.
pub fn push_type(
    alloc: Global,
    out: &mut String,
    layout: &Layout,
    choice: Choice,
    names: &[&str],
    ty: &MetaType,
) -> Result<(), OutOfMemory>
    ensures { (subscription : Option Text) → OnOk result (Grows out.old out.new
        (type_text (layout_view layout.now) (texts_in names.now)
        (viewed_type (choice_view choice) subscription (meta_of ty.now)))) }
{
    match ty {
        MetaType::Scalar {
            name,
            description,
            specified_by_url,
            directive_invocations,
            ..
        } => {
            let uses = directive_invocations.as_slice();
            push_head(alloc, out, layout, description, "scalar ", name.as_str())?;
            push_scalar_end(alloc, out, choice, specified_by_url, uses)
        }
        MetaType::Object {
            name,
            description,
            fields,
            directive_invocations,
            ..
        } => {
            let uses = directive_invocations.as_slice();
            push_head(alloc, out, layout, description, "type ", name.as_str())?;
            push_composite_end(alloc, out, layout, choice, names, uses, fields)
        }
        MetaType::Interface {
            name,
            description,
            fields,
            directive_invocations,
            ..
        } => {
            let uses = directive_invocations.as_slice();
            push_head(alloc, out, layout, description, "interface ", name.as_str())?;
            push_composite_end(alloc, out, layout, choice, names, uses, fields)
        }
        MetaType::Union {
            name,
            description,
            possible_types,
            directive_invocations,
            ..
        } => {
            let uses = directive_invocations.as_slice();
            push_head(alloc, out, layout, description, "union ", name.as_str())?;
            push_union_end(alloc, out, uses, possible_types)
        }
        MetaType::Enum {
            name,
            description,
            enum_values,
            directive_invocations,
            ..
        } => {
            let uses = directive_invocations.as_slice();
            push_head(alloc, out, layout, description, "enum ", name.as_str())?;
            push_enum_end(alloc, out, layout, choice, uses, enum_values)
        }
        MetaType::InputObject {
            name,
            description,
            input_fields,
            oneof,
            directive_invocations,
            ..
        } => {
            let uses = directive_invocations.as_slice();
            push_head(alloc, out, layout, description, "input ", name.as_str())?;
            push_input_end(alloc, out, layout, choice, *oneof, uses, input_fields)
        }
    }
}
