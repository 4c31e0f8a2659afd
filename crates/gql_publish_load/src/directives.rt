//! Definitions of directives: section 3.13 of the GraphQL specification, October 2021.

ghost use Rattle.std.specs.Prelude.{◌≡◌, ◌++◌, ◌∷◌, [], List, IfOk, OnOk, map, refl};
ghost use Rattle.std.specs.List.{filter_map};
ghost use Rattle.std.specs.Option.{option_map};
ghost use Rattle.gql_text.specs.DocumentOf.{description_of, input_of};
ghost use Rattle.gql_registry_meta.specs.Parts.{InputValue as InputValueMeta, Text, with_entry_in_place};
ghost use Rattle.gql_registry_meta.specs.Views.{directive_of, input_value_of, inputs_in, text_of};
ghost use Rattle.gql_parts.specs.Builders.{arguments_meta};
ghost use Rattle.gql_publish_document.specs.Members.{input_meta_of, inputs_parts};
ghost use Rattle.gql_publish_document.specs.Types.{directive_meta_of, location_named};
ghost use Rattle.gql_publish_document.specs.Clean.{AreCleanInputs, IsCleanInput};
ghost use Rattle.gql_publish_load.specs.Taking.{is_new_entry};

use crate::inputs::built_input;
use crate::taking::{Takes, take_all};
use gql_check::MetaDirective;
use gql_registry_meta::{DirectiveLocation, MetaInputValue};
use gql_text::{Description, InputValue as WrittenInput, NameSpan, OutOfMemory, PlacedName};
use indexmap::IndexMap;
use std::alloc::Global;

#[tactic(auto, using(gql_registry_meta::proofs::Entries::entries_with_insertion))]
fn put_input(
    alloc: Global,
    args: &mut IndexMap<String, MetaInputValue>,
    name: &str,
    input: MetaInputValue,
) -> Result<(), OutOfMemory>
    ensures { OnOk result (inputs_in args.new
        ≡ with_entry_in_place (inputs_in args.old) name.now (input_value_of input)) }
{
    let key = String::from_str(alloc, name)?;
    args.insert(key, input)?;
    Ok(())
}

impl<'t> Takes<WrittenInput<'t>> for IndexMap<String, MetaInputValue> {
    ghost Parts = { List (Text × InputValueMeta) };

    ghost Item = { Text × InputValueMeta };

    ghost parts = { inputs_in };

    ghost items = { λ p. p };

    ghost with_items = { λ p l. l };

    ghost item = { λ i. (i.key.name, input_meta_of (input_of i)) };

    ghost is_new = { is_new_entry };

    ghost is_clean = { λ i. IsCleanInput (input_of i) };

    ghost unchanged = { λ p. refl };

    ghost taken = { λ p l. refl };

    ghost last = { λ p l m. refl };

    fn take(
        mut self,
        alloc: Global,
        source: &WrittenInput<'t>,
    ) -> Result<IndexMap<String, MetaInputValue>, OutOfMemory> {
        let input = built_input(alloc, source)?;
        put_input(
            alloc,
            &mut self,
            source.key.name.as_str(),
            input.meta(alloc)?,
        )?;
        Ok(self)
    }
}

/// The location that a word stands for.
fn location(word: &str) -> Option<DirectiveLocation>
    ensures { result ≡ location_named word.now }
{
    match word {
        "QUERY" => Some(DirectiveLocation::Query),
        "MUTATION" => Some(DirectiveLocation::Mutation),
        "SUBSCRIPTION" => Some(DirectiveLocation::Subscription),
        "FIELD" => Some(DirectiveLocation::Field),
        "FRAGMENT_DEFINITION" => Some(DirectiveLocation::FragmentDefinition),
        "FRAGMENT_SPREAD" => Some(DirectiveLocation::FragmentSpread),
        "INLINE_FRAGMENT" => Some(DirectiveLocation::InlineFragment),
        "VARIABLE_DEFINITION" => Some(DirectiveLocation::VariableDefinition),
        "SCHEMA" => Some(DirectiveLocation::Schema),
        "SCALAR" => Some(DirectiveLocation::Scalar),
        "OBJECT" => Some(DirectiveLocation::Object),
        "FIELD_DEFINITION" => Some(DirectiveLocation::FieldDefinition),
        "ARGUMENT_DEFINITION" => Some(DirectiveLocation::ArgumentDefinition),
        "INTERFACE" => Some(DirectiveLocation::Interface),
        "UNION" => Some(DirectiveLocation::Union),
        "ENUM" => Some(DirectiveLocation::Enum),
        "ENUM_VALUE" => Some(DirectiveLocation::EnumValue),
        "INPUT_OBJECT" => Some(DirectiveLocation::InputObject),
        "INPUT_FIELD_DEFINITION" => Some(DirectiveLocation::InputFieldDefinition),
        _ => None,
    }
}

fn push_location(found: &mut Vec<DirectiveLocation>, word: &str) -> Result<(), OutOfMemory>
    ensures { OnOk result (found.new.items
        ≡ found.old.items ++ filter_map location_named (word.now ∷ [])) }
{
    match location(word) {
        None => Ok(()),
        Some(place) => {
            found.push(place)?;
            Ok(())
        }
    }
}

fn locations(alloc: Global, words: &[NameSpan<'_>]) -> Result<Vec<DirectiveLocation>, OutOfMemory>
    ensures { IfOk result (λ found. found.items ≡ filter_map location_named words.now) }
{
    let mut found = Vec::new(alloc);
    for word in words {
        push_location(&mut found, word.as_str())?;
    }
    Ok(found)
}

fn text(alloc: Global, description: &Option<Description<'_>>) -> Result<Option<String>, OutOfMemory>
    ensures { IfOk result (λ text. option_map text_of text ≡ description_of description.now) }
{
    match description {
        None => Ok(None),
        Some(found) => Ok(Some(found.text.to_text(alloc)?.into_string())),
    }
}

fn arguments(
    alloc: Global,
    inputs: &[WrittenInput<'_>],
) -> Result<IndexMap<String, MetaInputValue>, OutOfMemory>
    requires { AreCleanInputs (map input_of inputs.now) }
    ensures { IfOk result (λ args. inputs_in args
        ≡ arguments_meta (inputs_parts (map input_of inputs.now))) }
{
    take_all(alloc, IndexMap::new(alloc), inputs)
}

/// The definition of a directive that is written.
pub(crate) fn built_directive(
    alloc: Global,
    description: &Option<Description<'_>>,
    key: &PlacedName<'_>,
    inputs: &[WrittenInput<'_>],
    repeatable: bool,
    words: &[NameSpan<'_>],
) -> Result<MetaDirective, OutOfMemory>
    requires { AreCleanInputs (map input_of inputs.now) }
    ensures { IfOk result (λ built. directive_of built ≡ directive_meta_of (record {
      name = key.now.name;
      description = description_of description.now;
      args = map input_of inputs.now;
      repeatable = repeatable;
      locations = words.now;
      at = key.now.at;
    })) }
{
    let name = String::from_str(alloc, key.name.as_str())?;
    let description = text(alloc, description)?;
    let locations = locations(alloc, words)?;
    let args = arguments(alloc, inputs)?;
    Ok(MetaDirective {
        name,
        description,
        locations,
        args,
        is_repeatable: repeatable,
        visible: None,
        composable: None,
    })
}
