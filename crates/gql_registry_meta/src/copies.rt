//! Copies of the parts that several types have, for this crate and for the builders above it.

ghost use Rattle.std.specs.Prelude.{◌≡◌, IfOk, OnOk, map};
ghost use Rattle.std.specs.Option.{option_map, option_copied};
ghost use Rattle.gql_registry_meta.specs.Parts.{with_entry_in_place};
ghost use Rattle.gql_registry_meta.specs.Views.{text_of, texts_of, names_of, arguments_of, invocations_of};
ghost use Rattle.gql_registry_meta.specs.Views.{inputs_in, fields_in, enum_values_in};

use crate::directive_invocation::MetaDirectiveInvocation;
use crate::directive_location::DirectiveLocation;
use crate::enum_value::MetaEnumValue;
use crate::field::MetaField;
use crate::input_value::MetaInputValue;
use gql_text_lexer::OutOfMemory;
use gql_text_values::ConstValue;
use indexmap::{IndexMap, IndexSet};
use std::alloc::{AllocError, Global};

/// A copy of the text, where there is one.
pub fn copy_optional(text: &Option<String>) -> Result<Option<String>, AllocError>
    ensures { IfOk result (λ copy. option_map text_of copy ≡ option_map text_of text.now) }
{
    match text {
        None => Ok(None),
        Some(text) => Ok(Some(text.clone()?)),
    }
}

/// A text of its own for the one that is lent, where there is one.
pub fn owned_text(alloc: Global, text: Option<&str>) -> Result<Option<String>, OutOfMemory>
    ensures { IfOk result (λ owned. option_map text_of owned ≡ option_copied text.entry) }
{
    match text {
        None => Ok(None),
        Some(text) => Ok(Some(String::from_str(alloc, text)?)),
    }
}

/// Texts of its own for those that are lent, in their order.
pub fn owned_texts(alloc: Global, texts: &[String]) -> Result<Vec<String>, OutOfMemory>
    ensures { IfOk result (λ owned. texts_of owned ≡ map text_of texts.now) }
{
    Ok(Vec::from_clones(alloc, texts)?)
}

/// A copy of the texts, in their order.
pub fn copy_texts(texts: &Vec<String>) -> Result<Vec<String>, AllocError>
    ensures { IfOk result (λ copy. texts_of copy ≡ texts_of texts.now) }
{
    Ok(texts.clone()?)
}

pub(crate) fn copy_optional_texts(
    texts: &Option<Vec<String>>,
) -> Result<Option<Vec<String>>, AllocError>
    ensures { IfOk result (λ copy. option_map texts_of copy ≡ option_map texts_of texts.now) }
{
    match texts {
        None => Ok(None),
        Some(texts) => Ok(Some(copy_texts(texts)?)),
    }
}

/// A copy of the names, in their order.
pub fn copy_names(names: &IndexSet<String>) -> Result<IndexSet<String>, AllocError>
    ensures { IfOk result (λ copy. names_of copy ≡ names_of names.now) }
{
    Ok(names.clone()?)
}

pub(crate) fn copy_locations(
    locations: &Vec<DirectiveLocation>,
) -> Result<Vec<DirectiveLocation>, AllocError>
    ensures { IfOk result (λ copy. copy.items ≡ locations.now.items) }
{
    Ok(locations.clone()?)
}

/// Puts in a copy of an argument.
#[tactic(auto, using(crate::proofs::Entries::entries_with_insertion))]
fn put_argument(
    args: &mut IndexMap<String, ConstValue>,
    name: &String,
    value: &ConstValue,
) -> Result<(), AllocError>
    ensures { OnOk result (arguments_of args.new.entries
        ≡ with_entry_in_place (arguments_of args.old.entries) (text_of name.now) value.now) }
{
    let Ok(value) = value.try_clone(*args.allocator()) else {
        return Err(AllocError);
    };
    let name = name.clone()?;
    args.insert(name, value)?;
    Ok(())
}

/// The arguments of a use of a directive, with their values.
pub(crate) fn copy_arguments(
    args: &IndexMap<String, ConstValue>,
) -> Result<IndexMap<String, ConstValue>, AllocError>
    ensures { IfOk result (λ copy. arguments_of copy.entries ≡ arguments_of args.now.entries) }
{
    let mut copy = IndexMap::new(*args.allocator());
    for (name, value) in args.iter() {
        put_argument(&mut copy, name, value)?;
    }
    Ok(copy)
}

/// A copy of the uses of directives, in their order.
pub fn copy_invocations(
    invocations: &Vec<MetaDirectiveInvocation>,
) -> Result<Vec<MetaDirectiveInvocation>, AllocError>
    ensures { IfOk result (λ copy. invocations_of copy ≡ invocations_of invocations.now) }
{
    Ok(invocations.clone()?)
}

pub(crate) fn copy_input_values(
    values: &IndexMap<String, MetaInputValue>,
) -> Result<IndexMap<String, MetaInputValue>, AllocError>
    ensures { IfOk result (λ copy. inputs_in copy ≡ inputs_in values.now) }
{
    Ok(values.clone()?)
}

pub(crate) fn copy_fields(
    fields: &IndexMap<String, MetaField>,
) -> Result<IndexMap<String, MetaField>, AllocError>
    ensures { IfOk result (λ copy. fields_in copy ≡ fields_in fields.now) }
{
    Ok(fields.clone()?)
}

pub(crate) fn copy_enum_values(
    values: &IndexMap<String, MetaEnumValue>,
) -> Result<IndexMap<String, MetaEnumValue>, AllocError>
    ensures { IfOk result (λ copy. enum_values_in copy ≡ enum_values_in values.now) }
{
    Ok(values.clone()?)
}

/// The parts that types of every kind have.
#[derive(Drop)]
pub(crate) struct CommonParts {
    pub(crate) name: String,
    pub(crate) description: Option<String>,
    pub(crate) tags: Vec<String>,
    pub(crate) directive_invocations: Vec<MetaDirectiveInvocation>,
}

pub(crate) fn copy_common(
    name: &String,
    description: &Option<String>,
    tags: &Vec<String>,
    directive_invocations: &Vec<MetaDirectiveInvocation>,
) -> Result<CommonParts, AllocError>
    ensures name { IfOk result (λ copy. text_of copy.name ≡ text_of name.now) }
    ensures description { IfOk result (λ copy.
        option_map text_of copy.description ≡ option_map text_of description.now) }
    ensures tags { IfOk result (λ copy. texts_of copy.tags ≡ texts_of tags.now) }
    ensures invocations { IfOk result (λ copy.
        invocations_of copy.directive_invocations ≡ invocations_of directive_invocations.now) }
{
    Ok(CommonParts {
        name: name.clone()?,
        description: copy_optional(description)?,
        tags: copy_texts(tags)?,
        directive_invocations: copy_invocations(directive_invocations)?,
    })
}
