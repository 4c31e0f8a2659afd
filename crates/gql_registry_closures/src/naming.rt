//! The names that a schema uses.

ghost use Rattle.std.specs.Prelude.{◌≡◌, ◌++◌, IfOk, OnOk, flat_map};
ghost use Rattle.std.specs.Map.{values_of};
ghost use Rattle.std.specs.List.Sorted.{IsStrictlySortedBy};
ghost use Rattle.gql_registry_meta.specs.Parts.{Text, text_cmp, is_among};
ghost use Rattle.gql_registry_closures.specs.Answers.{set_names};
ghost use Rattle.gql_registry_meta.specs.Views.{entries_of, texts_of, texts_in, directive_of, enum_values_in, field_of, fields_in, inputs_in, meta_of};
ghost use Rattle.gql_registry_closures.specs.Names.{input_names, field_names, fields_names, value_names, type_names, directive_names, all_names, ListsOnce};

use gql_registry_meta::{MetaDirective, MetaEnumValue, MetaField, MetaInputValue, MetaType};
use gql_text_lexer::OutOfMemory;
use indexmap::IndexMap;
use std::alloc::Global;
use std::collections::{BTreeMap, BTreeSet};

/// Adds the names of arguments or input fields.
fn add_inputs<'a>(
    names: &mut Vec<&'a str>,
    inputs: &'a IndexMap<String, MetaInputValue>,
) -> Result<(), OutOfMemory>
    ensures { OnOk result (texts_in names.new.items
        ≡ texts_in names.old.items ++ input_names (inputs_in inputs.now)) }
{
    for input in inputs.values() {
        names.push(input.name.as_str())?;
    }
    Ok(())
}

/// Adds the names of a field and of its arguments.
fn add_field<'a>(names: &mut Vec<&'a str>, field: &'a MetaField) -> Result<(), OutOfMemory>
    ensures { OnOk result (texts_in names.new.items
        ≡ texts_in names.old.items ++ field_names (field_of field.now)) }
{
    names.push(field.name.as_str())?;
    add_inputs(names, &field.args)
}

/// Adds the names of fields and of their arguments.
fn add_fields<'a>(
    names: &mut Vec<&'a str>,
    fields: &'a IndexMap<String, MetaField>,
) -> Result<(), OutOfMemory>
    ensures { OnOk result (texts_in names.new.items
        ≡ texts_in names.old.items ++ fields_names (fields_in fields.now)) }
{
    for field in fields.values() {
        add_field(names, field)?;
    }
    Ok(())
}

/// Adds the names of the values of an enum.
fn add_values<'a>(
    names: &mut Vec<&'a str>,
    values: &'a IndexMap<String, MetaEnumValue>,
) -> Result<(), OutOfMemory>
    ensures { OnOk result (texts_in names.new.items
        ≡ texts_in names.old.items ++ value_names (enum_values_in values.now)) }
{
    for value in values.values() {
        names.push(value.name.as_str())?;
    }
    Ok(())
}

/// Adds the names of a type and of its parts.
fn add_type<'a>(names: &mut Vec<&'a str>, ty: &'a MetaType) -> Result<(), OutOfMemory>
    ensures { OnOk result (texts_in names.new.items
        ≡ texts_in names.old.items ++ type_names (meta_of ty.now)) }
{
    names.push(ty.name())?;
    match ty {
        MetaType::Scalar { .. } => Ok(()),
        MetaType::Object { fields, .. } => add_fields(names, fields),
        MetaType::Interface { fields, .. } => add_fields(names, fields),
        MetaType::Union { .. } => Ok(()),
        MetaType::Enum { enum_values, .. } => add_values(names, enum_values),
        MetaType::InputObject { input_fields, .. } => add_inputs(names, input_fields),
    }
}

/// Adds the names of the definition of a directive and of its arguments.
fn add_directive<'a>(
    names: &mut Vec<&'a str>,
    directive: &'a MetaDirective,
) -> Result<(), OutOfMemory>
    ensures { OnOk result (texts_in names.new.items
        ≡ texts_in names.old.items ++ directive_names (directive_of directive.now)) }
{
    names.push(directive.name.as_str())?;
    add_inputs(names, &directive.args)
}

/// Adds the names of types and of their parts.
fn add_types<'a>(
    names: &mut Vec<&'a str>,
    types: &'a BTreeMap<String, MetaType>,
) -> Result<(), OutOfMemory>
    ensures { OnOk result (texts_in names.new.items ≡ texts_in names.old.items
        ++ flat_map type_names (values_of (entries_of meta_of types.now.entries))) }
{
    for ty in types.values() {
        add_type(names, ty)?;
    }
    Ok(())
}

/// Adds the names of the definitions of directives and of their arguments.
fn add_directives<'a>(
    names: &mut Vec<&'a str>,
    directives: &'a BTreeMap<String, MetaDirective>,
) -> Result<(), OutOfMemory>
    ensures { OnOk result (texts_in names.new.items ≡ texts_in names.old.items
        ++ flat_map directive_names (values_of (entries_of directive_of directives.now.entries))) }
{
    for directive in directives.values() {
        add_directive(names, directive)?;
    }
    Ok(())
}

/// The set of the texts.
fn set_of(alloc: Global, texts: &[&str]) -> Result<BTreeSet<String>, OutOfMemory>
    ensures { IfOk result (λ set. (text : Text) →
        is_among text (set_names set) ≡ is_among text (texts_in texts.now)) }
{
    let mut set = BTreeSet::new(alloc);
    for text in texts {
        set.insert(String::from_str(alloc, text)?)?;
    }
    Ok(set)
}

/// The texts of a set, in order.
fn in_order(alloc: Global, set: BTreeSet<String>) -> Result<Vec<String>, OutOfMemory>
    ensures texts { IfOk result (λ names. texts_of names ≡ set_names set) }
    ensures ascending { IfOk result (λ names. IsStrictlySortedBy text_cmp (texts_of names)) }
{
    let mut names = Vec::new(alloc);
    for name in set {
        names.push(name)?;
    }
    Ok(names)
}

/// The texts of a list, each once and in the order of names.
fn once(alloc: Global, texts: &[&str]) -> Result<Vec<String>, OutOfMemory>
    ensures { IfOk result (λ names. ListsOnce (texts_in texts.now) (texts_of names)) }
{
    let set = set_of(alloc, texts)?;
    let names = in_order(alloc, set)?;
    Ok(names)
}

/// The names of the definitions of directives and of their arguments, of the types, of their fields and arguments, of enum
/// values and of input fields: each once, and in the order of names.
pub fn all_names(
    alloc: Global,
    types: &BTreeMap<String, MetaType>,
    directives: &BTreeMap<String, MetaDirective>,
) -> Result<Vec<String>, OutOfMemory>
    ensures { IfOk result (λ names. ListsOnce (all_names
        (entries_of meta_of types.now.entries) (entries_of directive_of directives.now.entries))
        (texts_of names)) }
{
    let mut names = Vec::new(alloc);
    add_directives(&mut names, directives)?;
    add_types(&mut names, types)?;
    once(alloc, &names)
}
