//! Arguments of fields: section 3.6.1 of the GraphQL specification, October 2021.

ghost use Rattle.std.specs.Prelude.{◌≡◌, true, false, map, OnOk};
ghost use Rattle.std.specs.List.{list_any};
ghost use Rattle.std.specs.Map.{values_of};
ghost use Rattle.std.specs.Option.{option_map};
ghost use Rattle.gql_registry_meta.specs.Views.{text_of, input_value_of, inputs_in};
ghost use Rattle.gql_sdl_view.specs.Ordered.{changed};
ghost use Rattle.gql_sdl_view.specs.View.{viewed_input_value, viewed_arguments, bare_argument};
ghost use Rattle.gql_sdl_view.specs.Spelling.{is_described, second_indent, argument_description, described_argument_text, argument_list, arguments_text, input_value_text, bare_value_text, bare_arguments_text};
ghost use Rattle.gql_sdl_text.specs.Growth.{Grows};
ghost use Rattle.gql_sdl_text.specs.Views.{choice_view, layout_view};

use crate::descriptions::push_description;
use crate::layout::{Choice, Layout};
use crate::members::{lent, lent_inputs};
use crate::parts::{push_bare_value, push_input_value};
use crate::writer::{Writer, push, push_enclosed};
use gql_registry_meta::MetaInputValue;
use gql_text_lexer::OutOfMemory;
use indexmap::IndexMap;
use std::alloc::Global;

/// Arguments of a field, none of which has a description.
#[derive(Clone, Copy)]
struct PlainArguments;

impl Writer<MetaInputValue> for PlainArguments {
    ghost text = { λ _ value. input_value_text (viewed_input_value (input_value_of value)) };

    fn push(
        &self,
        alloc: Global,
        out: &mut String,
        part: &MetaInputValue,
    ) -> Result<(), OutOfMemory> {
        push_input_value(alloc, out, part)
    }
}

/// Arguments of a field, some of which have descriptions.
#[derive(Clone, Copy)]
struct DescribedArguments<'a> {
    layout: &'a Layout,
}

impl Writer<MetaInputValue> for DescribedArguments<'_> {
    ghost text = { λ w value.
        described_argument_text (layout_view w.layout.now)
        (viewed_input_value (input_value_of value)) };

    fn push(
        &self,
        alloc: Global,
        out: &mut String,
        part: &MetaInputValue,
    ) -> Result<(), OutOfMemory> {
        push_described_argument(alloc, out, self.layout, part)
    }
}

/// Arguments of a directive definition.
#[derive(Clone, Copy)]
struct BareArguments;

impl Writer<MetaInputValue> for BareArguments {
    ghost text = { λ _ value. bare_value_text (bare_argument (input_value_of value)) };

    fn push(
        &self,
        _alloc: Global,
        out: &mut String,
        part: &MetaInputValue,
    ) -> Result<(), OutOfMemory> {
        push_bare_value(out, part)
    }
}

/// Writes two indents.
fn push_second_indent(out: &mut String, layout: &Layout) -> Result<(), OutOfMemory>
    ensures { OnOk result (Grows out.old out.new (second_indent (layout_view layout.now))) }
{
    push(out, layout.indent.as_str())?;
    push(out, layout.indent.as_str())
}

/// Writes the description of an argument on lines of its own, if there is one.
fn push_argument_description(
    alloc: Global,
    out: &mut String,
    layout: &Layout,
    description: &Option<String>,
) -> Result<(), OutOfMemory>
    ensures { OnOk result (Grows out.old out.new
        (argument_description (layout_view layout.now) (option_map text_of description.now))) }
{
    let Some(text) = description else {
        return Ok(());
    };
    let mut indent = String::new(alloc);
    push_second_indent(&mut indent, layout)?;
    push(out, "\n")?;
    push_description(alloc, out, layout.single, indent.as_str(), text.as_str())
}

/// Writes an argument where some argument has a description.
fn push_described_argument(
    alloc: Global,
    out: &mut String,
    layout: &Layout,
    value: &MetaInputValue,
) -> Result<(), OutOfMemory>
    ensures { OnOk result (Grows out.old out.new (described_argument_text (layout_view layout.now)
        (viewed_input_value (input_value_of value.now)))) }
{
    push_argument_description(alloc, out, layout, &value.description)?;
    push_second_indent(out, layout)?;
    push_input_value(alloc, out, value)
}

/// Whether an argument has a description, be it empty.
fn are_described(values: &[&MetaInputValue]) -> bool
    ensures { result ≡ list_any
        (λ v. is_described (viewed_input_value (input_value_of v.now))) values.now }
{
    for value in values {
        if value.description.is_some() {
            return true;
        }
    }
    false
}

/// Writes arguments on one line.
fn push_plain_arguments(
    alloc: Global,
    out: &mut String,
    layout: &Layout,
    values: &[&MetaInputValue],
) -> Result<(), OutOfMemory>
    ensures { OnOk result (Grows out.old out.new (argument_list (layout_view layout.now) false
        (map (λ v. viewed_input_value (input_value_of v.now)) values.now))) }
{
    push_enclosed(alloc, out, &PlainArguments, "(", ", ", &[")"], values)?;
    Ok(())
}

/// Writes arguments, each on lines of its own.
fn push_described_arguments(
    alloc: Global,
    out: &mut String,
    layout: &Layout,
    values: &[&MetaInputValue],
) -> Result<(), OutOfMemory>
    ensures { OnOk result (Grows out.old out.new (argument_list (layout_view layout.now) true
        (map (λ v. viewed_input_value (input_value_of v.now)) values.now))) }
{
    let indent = layout.indent.as_str();
    let writer = DescribedArguments { layout };
    push_enclosed(alloc, out, &writer, "(", ",", &["\n", indent, ")"], values)?;
    Ok(())
}

/// Writes arguments, if there are any.
fn push_listed_arguments(
    alloc: Global,
    out: &mut String,
    layout: &Layout,
    values: &[&MetaInputValue],
) -> Result<(), OutOfMemory>
    ensures { OnOk result (Grows out.old out.new (arguments_text (layout_view layout.now)
        (map (λ v. viewed_input_value (input_value_of v.now)) values.now))) }
{
    if values.is_empty() {
        return Ok(());
    }
    if are_described(values) {
        push_described_arguments(alloc, out, layout, values)?;
        return Ok(());
    }
    push_plain_arguments(alloc, out, layout, values)?;
    Ok(())
}

/// Writes the arguments of a field, if there are any, by name where that is asked.
pub(crate) fn push_arguments(
    alloc: Global,
    out: &mut String,
    layout: &Layout,
    choice: Choice,
    args: &IndexMap<String, MetaInputValue>,
) -> Result<(), OutOfMemory>
    ensures { OnOk result (Grows out.old out.new (arguments_text (layout_view layout.now)
        (values_of (viewed_arguments (choice_view choice) (inputs_in args.now))))) }
{
    let values = lent_inputs(alloc, args, choice.sorted_arguments)?;
    push_listed_arguments(alloc, out, layout, values.as_slice())?;
    Ok(())
}

/// Writes the arguments of a directive definition, if there are any.
fn push_listed_bare_arguments(
    alloc: Global,
    out: &mut String,
    values: &[&MetaInputValue],
) -> Result<(), OutOfMemory>
    ensures { OnOk result (Grows out.old out.new (bare_arguments_text
        (map (λ v. bare_argument (input_value_of v.now)) values.now))) }
{
    if values.is_empty() {
        return Ok(());
    }
    push_enclosed(alloc, out, &BareArguments, "(", ", ", &[")"], values)?;
    Ok(())
}

/// Writes the arguments of a directive definition, if there are any: each with its name, type and default alone.
pub(crate) fn push_bare_arguments(
    alloc: Global,
    out: &mut String,
    args: &IndexMap<String, MetaInputValue>,
) -> Result<(), OutOfMemory>
    ensures { OnOk result (Grows out.old out.new (bare_arguments_text
        (values_of (changed bare_argument (inputs_in args.now))))) }
{
    let values = lent(alloc, args)?;
    push_listed_bare_arguments(alloc, out, values.as_slice())?;
    Ok(())
}
