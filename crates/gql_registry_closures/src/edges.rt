//! What the parts of a schema lead to, as edges to numbered types.

ghost use Rattle.std.specs.Prelude.{◌≡◌, ◌++◌, ◌∷◌, [], IfOk, OnOk, None, map, flat_map};
ghost use Rattle.std.specs.Map.{values_of};
ghost use Rattle.gql_registry_meta.specs.Views.{names_of, meta_of, field_of, fields_in, inputs_in};
ghost use Rattle.gql_registry_closures.specs.Links.{plain_link, input_link, field_links, links_of};
ghost use Rattle.gql_registry_closures.specs.Reached.{implementers_of};
ghost use Rattle.gql_registry_closures.specs.Table.{edges_of, places_of};

use crate::numbers::Numbers;
use gql_registry_meta::{MetaField, MetaInputValue, MetaType, MetaTypeName};
use gql_text_lexer::OutOfMemory;
use indexmap::{IndexMap, IndexSet};
use std::alloc::Global;

/// A way to the type of the number `to`, by parts that these rules show.
#[derive(Clone, Copy)]
pub(crate) struct Edge {
    pub(crate) outer: Option<u32>,
    pub(crate) inner: Option<u32>,
    pub(crate) to: usize,
}

/// Adds a way to the type of this name, if there is one.
pub(crate) fn add_edge(
    edges: &mut Vec<Edge>,
    numbers: &Numbers<'_>,
    outer: Option<u32>,
    inner: Option<u32>,
    name: &str,
) -> Result<(), OutOfMemory>
    ensures { OnOk result (edges.new.items ≡ edges.old.items ++ edges_of numbers.now
        (record { outer = outer; inner = inner; name = name.now } ∷ [])) }
{
    if let Some(to) = numbers.get(name) {
        edges.push(Edge { outer, inner, to })?;
        return Ok(());
    }
    Ok(())
}

/// Adds what arguments or input fields lead to; the rule is that of the part that they are in.
pub(crate) fn add_inputs(
    edges: &mut Vec<Edge>,
    numbers: &Numbers<'_>,
    outer: Option<u32>,
    inputs: &IndexMap<String, MetaInputValue>,
) -> Result<(), OutOfMemory>
    ensures { OnOk result (edges.new.items ≡ edges.old.items
        ++ edges_of numbers.now (map (input_link outer) (values_of (inputs_in inputs.now)))) }
{
    for input in inputs.values() {
        let name = MetaTypeName::concrete_typename(input.ty.as_str());
        add_edge(edges, numbers, outer, input.visible, name)?;
    }
    Ok(())
}

/// Adds what a field leads to.
fn add_field(
    edges: &mut Vec<Edge>,
    numbers: &Numbers<'_>,
    field: &MetaField,
) -> Result<(), OutOfMemory>
    ensures { OnOk result (edges.new.items ≡ edges.old.items
        ++ edges_of numbers.now (field_links (field_of field.now))) }
{
    let name = MetaTypeName::concrete_typename(field.ty.as_str());
    add_edge(edges, numbers, field.visible, None, name)?;
    add_inputs(edges, numbers, field.visible, &field.args)
}

/// Adds what fields lead to.
fn add_fields(
    edges: &mut Vec<Edge>,
    numbers: &Numbers<'_>,
    fields: &IndexMap<String, MetaField>,
) -> Result<(), OutOfMemory>
    ensures { OnOk result (edges.new.items ≡ edges.old.items
        ++ edges_of numbers.now (flat_map field_links (values_of (fields_in fields.now)))) }
{
    for field in fields.values() {
        add_field(edges, numbers, field)?;
    }
    Ok(())
}

/// Adds ways to the types of these names.
fn add_names(
    edges: &mut Vec<Edge>,
    numbers: &Numbers<'_>,
    names: &IndexSet<String>,
) -> Result<(), OutOfMemory>
    ensures { OnOk result (edges.new.items ≡ edges.old.items
        ++ edges_of numbers.now (map plain_link (names_of names.now))) }
{
    for name in names.iter() {
        add_edge(edges, numbers, None, None, name.as_str())?;
    }
    Ok(())
}

/// Adds what a type leads to.
fn add_type(edges: &mut Vec<Edge>, numbers: &Numbers<'_>, ty: &MetaType) -> Result<(), OutOfMemory>
    ensures { OnOk result (edges.new.items ≡ edges.old.items
        ++ edges_of numbers.now (links_of (meta_of ty.now))) }
{
    match ty {
        MetaType::Scalar { .. } => Ok(()),
        MetaType::Object { fields, .. } => add_fields(edges, numbers, fields),
        MetaType::Interface {
            fields,
            possible_types,
            ..
        } => {
            add_fields(edges, numbers, fields)?;
            add_names(edges, numbers, possible_types)
        }
        MetaType::Union { possible_types, .. } => add_names(edges, numbers, possible_types),
        MetaType::Enum { .. } => Ok(()),
        MetaType::InputObject { input_fields, .. } => add_inputs(
            edges,
            numbers,
            None,
            input_fields,
        ),
    }
}

/// What a type leads to.
pub(crate) fn edges_of(
    alloc: Global,
    numbers: &Numbers<'_>,
    ty: &MetaType,
) -> Result<Vec<Edge>, OutOfMemory>
    ensures { IfOk result (λ edges.
        edges.items ≡ edges_of numbers.now (links_of (meta_of ty.now))) }
{
    let mut edges = Vec::new(alloc);
    add_type(&mut edges, numbers, ty)?;
    Ok(edges)
}

/// Adds the number of the type of this name, if there is one.
fn add_place(places: &mut Vec<usize>, numbers: &Numbers<'_>, name: &str) -> Result<(), OutOfMemory>
    ensures { OnOk result (places.new.items ≡ places.old.items
        ++ places_of numbers.now (name.now ∷ [])) }
{
    if let Some(place) = numbers.get(name) {
        places.push(place)?;
        return Ok(());
    }
    Ok(())
}

/// The numbers of the types of these names.
fn places_of(
    alloc: Global,
    numbers: &Numbers<'_>,
    names: &IndexSet<String>,
) -> Result<Vec<usize>, OutOfMemory>
    ensures { IfOk result (λ places.
        places.items ≡ places_of numbers.now (names_of names.now)) }
{
    let mut places = Vec::new(alloc);
    for name in names.iter() {
        add_place(&mut places, numbers, name.as_str())?;
    }
    Ok(places)
}

/// The numbers of the possible types of an interface; none for another type.
pub(crate) fn implementers_of(
    alloc: Global,
    numbers: &Numbers<'_>,
    ty: &MetaType,
) -> Result<Vec<usize>, OutOfMemory>
    ensures { IfOk result (λ places.
        places.items ≡ places_of numbers.now (implementers_of (meta_of ty.now))) }
{
    match ty {
        MetaType::Interface { possible_types, .. } => places_of(alloc, numbers, possible_types),
        _ => Ok(Vec::new(alloc)),
    }
}
