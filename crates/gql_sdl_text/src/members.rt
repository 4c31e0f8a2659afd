//! Members of types, lent: those that are kept, in their order or by name.

ghost use Rattle.std.specs.Prelude.{◌≡◌, ◌++◌, ◌∷◌, [], ◌||◌, not, if◌then◌else◌, map, OnOk, IfOk};
ghost use Rattle.std.specs.List.{filter};
ghost use Rattle.std.specs.Map.{values_of};
ghost use Rattle.gql_text_lexer.specs.Forms.{is_reserved};
ghost use Rattle.gql_registry_meta.specs.Views.{text_of, texts_in, names_of, input_value_of, inputs_in, field_of, fields_in, enum_value_of, enum_values_in};
ghost use Rattle.gql_sdl_view.specs.Ordered.{arranged, changed};
ghost use Rattle.gql_sdl_view.specs.View.{viewed_input_value, viewed_field, viewed_fields, viewed_value};
ghost use Rattle.gql_sdl_text.specs.Views.{choice_view};

use crate::layout::Choice;
use gql_registry_meta::{MetaEnumValue, MetaField, MetaInputValue};
use gql_text_lexer::{OutOfMemory, is_reserved};
use indexmap::{IndexMap, IndexSet};
use std::alloc::{AllocError, Global};

/// The values of a map, lent, in their order.
pub(crate) fn lent<'m, T>(
    alloc: Global,
    entries: &'m IndexMap<String, T>,
) -> Result<Vec<&'m T>, OutOfMemory>
    ensures { IfOk result (λ lent. map (λ v. v.now) lent.items ≡ values_of entries.now.entries) }
{
    let mut lent = Vec::new(alloc);
    for value in entries.values() {
        lent.push(value)?;
    }
    Ok(lent)
}

/// The names of a set, lent, in their order.
pub(crate) fn lent_names<'m>(
    alloc: Global,
    names: &'m IndexSet<String>,
) -> Result<Vec<&'m str>, OutOfMemory>
    ensures { IfOk result (λ lent. texts_in lent.items ≡ names_of names.now) }
{
    let mut lent = Vec::new(alloc);
    for name in names.iter() {
        lent.push(name.as_str())?;
    }
    Ok(lent)
}

/// Adds a field that is kept: each one, or those whose names do not begin with `__`.
fn add_kept<'m>(
    kept: &mut Vec<&'m MetaField>,
    field: &'m MetaField,
    with_reserved: bool,
) -> Result<(), OutOfMemory>
    ensures { OnOk result (map (λ f. f.now) kept.new.items ≡ map (λ f. f.now) kept.old.items
        ++ filter (λ f. with_reserved || not (is_reserved (text_of f.name))) (field.now ∷ [])) }
{
    if !with_reserved && is_reserved(field.name.as_str()) {
        return Ok(());
    }
    kept.push(field)?;
    Ok(())
}

/// The fields that are kept, in their order.
fn listed_fields<'m>(
    alloc: Global,
    fields: &'m IndexMap<String, MetaField>,
    with_reserved: bool,
) -> Result<Vec<&'m MetaField>, OutOfMemory>
    ensures { IfOk result (λ kept. map (λ f. f.now) kept.items
        ≡ filter (λ f. with_reserved || not (is_reserved (text_of f.name)))
        (values_of fields.now.entries)) }
{
    let mut kept = Vec::new(alloc);
    for field in fields.values() {
        add_kept(&mut kept, field, with_reserved)?;
    }
    Ok(kept)
}

/// Puts fields in the order of their names where that is asked; those of one name keep their order.
fn arrange_fields(fields: &mut Vec<&MetaField>, sorted: bool) -> Result<(), AllocError>
    ensures { OnOk result (fields.new.items
        ≡ arranged (λ f. text_of f.now.name) sorted fields.old.items) }
{
    if !sorted {
        return Ok(());
    }
    fields.sort_by(|a, b| a.name.cmp(&b.name))?;
    Ok(())
}

/// Puts arguments or input fields in the order of their names where that is asked.
fn arrange_inputs(inputs: &mut Vec<&MetaInputValue>, sorted: bool) -> Result<(), AllocError>
    ensures { OnOk result (inputs.new.items
        ≡ arranged (λ i. text_of i.now.name) sorted inputs.old.items) }
{
    if !sorted {
        return Ok(());
    }
    inputs.sort_by(|a, b| a.name.cmp(&b.name))?;
    Ok(())
}

/// Puts enum values in the order of their names where that is asked.
fn arrange_values(values: &mut Vec<&MetaEnumValue>, sorted: bool) -> Result<(), AllocError>
    ensures { OnOk result (values.new.items
        ≡ arranged (λ v. text_of v.now.name) sorted values.old.items) }
{
    if !sorted {
        return Ok(());
    }
    values.sort_by(|a, b| a.name.cmp(&b.name))?;
    Ok(())
}

/// The fields of an object or an interface that are kept, by name where that is asked.
pub fn kept_fields<'m>(
    alloc: Global,
    fields: &'m IndexMap<String, MetaField>,
    choice: Choice,
) -> Result<Vec<&'m MetaField>, OutOfMemory>
    ensures { IfOk result (λ kept.
        map (λ f. viewed_field (choice_view choice) (field_of f.now)) kept.items
        ≡ values_of (viewed_fields (choice_view choice) (fields_in fields.now))) }
{
    let mut kept = listed_fields(alloc, fields, choice.with_reserved)?;
    arrange_fields(&mut kept, choice.sorted_fields)?;
    Ok(kept)
}

/// Arguments or input fields, by name where that is asked.
pub fn lent_inputs<'m>(
    alloc: Global,
    inputs: &'m IndexMap<String, MetaInputValue>,
    sorted: bool,
) -> Result<Vec<&'m MetaInputValue>, OutOfMemory>
    ensures { IfOk result (λ lent.
        map (λ v. viewed_input_value (input_value_of v.now)) lent.items
        ≡ values_of (arranged (λ input. input.1.name) sorted
        (changed viewed_input_value (inputs_in inputs.now)))) }
{
    let mut lent = lent(alloc, inputs)?;
    arrange_inputs(&mut lent, sorted)?;
    Ok(lent)
}

/// The values of an enum, by name where that is asked.
pub fn lent_values<'m>(
    alloc: Global,
    values: &'m IndexMap<String, MetaEnumValue>,
    sorted: bool,
) -> Result<Vec<&'m MetaEnumValue>, OutOfMemory>
    ensures { IfOk result (λ lent.
        map (λ v. viewed_value (enum_value_of v.now)) lent.items
        ≡ values_of (arranged (λ value. value.1.name) sorted
        (changed viewed_value (enum_values_in values.now)))) }
{
    let mut lent = lent(alloc, values)?;
    arrange_values(&mut lent, sorted)?;
    Ok(lent)
}
