//! Members of types, each on lines of its own: sections 3.6, 3.9 and 3.10 of the GraphQL specification, October 2021.

ghost use Rattle.std.specs.Prelude.{◌≡◌, ◌++◌, map, codes, OnOk};
ghost use Rattle.std.specs.Map.{values_of};
ghost use Rattle.gql_registry_meta.specs.Views.{text_of, deprecation_of, invocation_of, invocations_of, input_value_of, inputs_in, field_of, fields_in, enum_value_of, enum_values_in};
ghost use Rattle.gql_sdl_view.specs.View.{viewed_input_value, viewed_arguments, viewed_inputs, viewed_field, viewed_fields, viewed_value, viewed_values};
ghost use Rattle.gql_sdl_view.specs.Spelling.{deprecated_text, uses_text, arguments_text, body_text, field_text, value_text, input_text};
ghost use Rattle.gql_sdl_text.specs.Growth.{Grows};
ghost use Rattle.gql_sdl_text.specs.Views.{choice_view, layout_view};

use crate::arguments::push_arguments;
use crate::descriptions::push_described;
use crate::layout::{Choice, Layout};
use crate::members::{kept_fields, lent_inputs, lent_values};
use crate::parts::{push_deprecated, push_input_value, push_uses};
use crate::writer::{Writer, push, push_body};
use gql_registry_meta::{
    Deprecation, MetaDirectiveInvocation, MetaEnumValue, MetaField, MetaInputValue,
};
use gql_text_lexer::OutOfMemory;
use indexmap::IndexMap;
use std::alloc::Global;

/// Fields of an object or an interface.
#[derive(Clone, Copy)]
struct Fields<'a> {
    layout: &'a Layout,
    choice: Choice,
}

impl Writer<MetaField> for Fields<'_> {
    ghost text = { λ w field.
        field_text (layout_view w.layout.now)
        (viewed_field (choice_view w.choice) (field_of field)) };

    fn push(&self, alloc: Global, out: &mut String, part: &MetaField) -> Result<(), OutOfMemory> {
        push_field(alloc, out, self.layout, self.choice, part)
    }
}

/// Values of an enum.
#[derive(Clone, Copy)]
struct EnumValues<'a> {
    layout: &'a Layout,
}

impl Writer<MetaEnumValue> for EnumValues<'_> {
    ghost text = { λ w value.
        value_text (layout_view w.layout.now) (viewed_value (enum_value_of value)) };

    fn push(
        &self,
        alloc: Global,
        out: &mut String,
        part: &MetaEnumValue,
    ) -> Result<(), OutOfMemory> {
        push_enum_value(alloc, out, self.layout, part)
    }
}

/// Fields of an input object.
#[derive(Clone, Copy)]
struct InputFields<'a> {
    layout: &'a Layout,
}

impl Writer<MetaInputValue> for InputFields<'_> {
    ghost text = { λ w value.
        input_text (layout_view w.layout.now) (viewed_input_value (input_value_of value)) };

    fn push(
        &self,
        alloc: Global,
        out: &mut String,
        part: &MetaInputValue,
    ) -> Result<(), OutOfMemory> {
        push_input_field(alloc, out, self.layout, part)
    }
}

/// Writes the deprecation, the uses and a line feed.
fn push_ending(
    alloc: Global,
    out: &mut String,
    deprecation: &Deprecation,
    uses: &[MetaDirectiveInvocation],
) -> Result<(), OutOfMemory>
    ensures { OnOk result (Grows out.old out.new (deprecated_text (deprecation_of deprecation.now)
        ++ (uses_text (map invocation_of uses.now) ++ codes "\n"))) }
{
    push_deprecated(alloc, out, deprecation)?;
    push_uses(alloc, out, uses)?;
    push(out, "\n")
}

/// Writes a colon, the type of a field, and what comes after it.
fn push_field_type(alloc: Global, out: &mut String, field: &MetaField) -> Result<(), OutOfMemory>
    ensures { OnOk result (Grows out.old out.new (codes ": " ++ (text_of field.now.ty
        ++ (deprecated_text (deprecation_of field.now.deprecation)
        ++ (uses_text (invocations_of field.now.directive_invocations) ++ codes "\n"))))) }
{
    push(out, ": ")?;
    push(out, field.ty.as_str())?;
    push_ending(
        alloc,
        out,
        &field.deprecation,
        field.directive_invocations.as_slice(),
    )
}

/// Writes an indent, the name of a field and its arguments.
fn push_field_name(
    alloc: Global,
    out: &mut String,
    layout: &Layout,
    choice: Choice,
    field: &MetaField,
) -> Result<(), OutOfMemory>
    ensures { OnOk result (Grows out.old out.new ((layout_view layout.now).indent
        ++ (text_of field.now.name ++ arguments_text (layout_view layout.now)
        (values_of (viewed_arguments (choice_view choice) (inputs_in field.now.args)))))) }
{
    push(out, layout.indent.as_str())?;
    push(out, field.name.as_str())?;
    push_arguments(alloc, out, layout, choice, &field.args)
}

/// Writes a field of an object or an interface.
fn push_field(
    alloc: Global,
    out: &mut String,
    layout: &Layout,
    choice: Choice,
    field: &MetaField,
) -> Result<(), OutOfMemory>
    ensures { OnOk result (Grows out.old out.new (field_text (layout_view layout.now)
        (viewed_field (choice_view choice) (field_of field.now)))) }
{
    push_described(
        alloc,
        out,
        layout.single,
        layout.indent.as_str(),
        &field.description,
    )?;
    push_field_name(alloc, out, layout, choice, field)?;
    push_field_type(alloc, out, field)
}

/// Writes a value of an enum.
fn push_enum_value(
    alloc: Global,
    out: &mut String,
    layout: &Layout,
    value: &MetaEnumValue,
) -> Result<(), OutOfMemory>
    ensures { OnOk result (Grows out.old out.new (value_text (layout_view layout.now)
        (viewed_value (enum_value_of value.now)))) }
{
    let indent = layout.indent.as_str();
    push_described(alloc, out, layout.single, indent, &value.description)?;
    push(out, indent)?;
    push(out, value.name.as_str())?;
    push_ending(
        alloc,
        out,
        &value.deprecation,
        value.directive_invocations.as_slice(),
    )
}

/// Writes a field of an input object.
fn push_input_field(
    alloc: Global,
    out: &mut String,
    layout: &Layout,
    value: &MetaInputValue,
) -> Result<(), OutOfMemory>
    ensures { OnOk result (Grows out.old out.new (input_text (layout_view layout.now)
        (viewed_input_value (input_value_of value.now)))) }
{
    let indent = layout.indent.as_str();
    push_described(alloc, out, layout.single, indent, &value.description)?;
    push(out, indent)?;
    push_input_value(alloc, out, value)?;
    push(out, "\n")
}

/// Writes the fields of an object or an interface between braces, if there are any that are kept.
pub(crate) fn push_fields(
    alloc: Global,
    out: &mut String,
    layout: &Layout,
    choice: Choice,
    fields: &IndexMap<String, MetaField>,
) -> Result<(), OutOfMemory>
    ensures { OnOk result (Grows out.old out.new (body_text (field_text (layout_view layout.now))
        (values_of (viewed_fields (choice_view choice) (fields_in fields.now))))) }
{
    let kept = kept_fields(alloc, fields, choice)?;
    let writer = Fields { layout, choice };
    push_body(alloc, out, &writer, kept.as_slice())?;
    Ok(())
}

/// Writes the values of an enum between braces, if there are any.
pub(crate) fn push_enum_values(
    alloc: Global,
    out: &mut String,
    layout: &Layout,
    choice: Choice,
    values: &IndexMap<String, MetaEnumValue>,
) -> Result<(), OutOfMemory>
    ensures { OnOk result (Grows out.old out.new (body_text (value_text (layout_view layout.now))
        (values_of (viewed_values (choice_view choice) (enum_values_in values.now))))) }
{
    let kept = lent_values(alloc, values, choice.sorted_enum_items)?;
    push_body(alloc, out, &EnumValues { layout }, kept.as_slice())?;
    Ok(())
}

/// Writes the fields of an input object between braces, if there are any.
pub(crate) fn push_input_fields(
    alloc: Global,
    out: &mut String,
    layout: &Layout,
    choice: Choice,
    inputs: &IndexMap<String, MetaInputValue>,
) -> Result<(), OutOfMemory>
    ensures { OnOk result (Grows out.old out.new (body_text (input_text (layout_view layout.now))
        (values_of (viewed_inputs (choice_view choice) (inputs_in inputs.now))))) }
{
    let kept = lent_inputs(alloc, inputs, choice.sorted_fields)?;
    push_body(alloc, out, &InputFields { layout }, kept.as_slice())?;
    Ok(())
}
