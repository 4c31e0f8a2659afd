//! The types of a schema as a table of numbered nodes: each type has the place at which it was registered, and leads by its
//! input fields to the input objects that it needs.

ghost use Rattle.std.specs.Prelude.{◌≡◌, Some};
ghost use Rattle.std.specs.Option.{option_copied, option_map};
ghost use Rattle.gql_text_values.specs.TypeRefs.{reference};
ghost use Rattle.gql_check_rules.specs.InputCycles.{needed_by, input_fields_of};
ghost use Rattle.gql_check_rules.specs.Order.{HasDistinctNames};
ghost use Rattle.gql_check_code.specs.CheckedViews.{schema_of, definition_of, checked_types, checked_inputs};
ghost use Rattle.gql_check_code.specs.Cycles.{names, number, definition_at, numbered, one_or_none, or_no_fields};

use crate::names::names_input_object;
use crate::types::SchemaTypes;
use gql_check_cycles::Table;
use gql_dynamic::{InputValue, SchemaType};
use gql_text_values::TypeRef;
use indexmap::IndexMap;

/// The input object that a field of the type `N!` needs.
fn needed<'a>(types: &SchemaTypes, ty: &'a TypeRef) -> Option<&'a str>
    ensures { one_or_none (option_copied result)
        ≡ needed_by (schema_of types.now) (reference ty.now) }
{
    let TypeRef::NonNull(inner) = ty else {
        return None;
    };
    let TypeRef::Named(name) = inner.get() else {
        return None;
    };
    if names_input_object(types, name.as_str()) {
        Some(name.as_str())
    } else {
        None
    }
}

/// The number of the input object that a field needs.
fn number_needed(types: &SchemaTypes, ty: &TypeRef) -> Option<usize>
    ensures { result
        ≡ number (names (schema_of types.now))
        (needed_by (schema_of types.now) (reference ty.now)) }
{
    let name = needed(types, ty)?;
    types.types.get_index_of(name)
}

/// The fields of an input object.
fn input_fields(ty: &SchemaType) -> Option<&IndexMap<String, InputValue>>
    ensures { or_no_fields
        (option_map (λ fields. checked_inputs fields.entries) (option_copied result))
        ≡ input_fields_of (Some (definition_of ty.now)) }
{
    match ty {
        SchemaType::InputObject(object) => Some(object.fields()),
        _ => None,
    }
}

/// The input fields of the type of a number.
fn fields_at(types: &SchemaTypes, node: usize) -> Option<&IndexMap<String, InputValue>>
    ensures { or_no_fields
        (option_map (λ fields. checked_inputs fields.entries) (option_copied result))
        ≡ input_fields_of (definition_at (schema_of types.now) node) }
{
    match types.types.get_index(node) {
        None => None,
        Some((_, ty)) => input_fields(ty),
    }
}

impl Table for SchemaTypes {
    ghost rows = { λ types. numbered (schema_of types) };

    fn node_count(&self) -> usize {
        self.types.len()
    }

    fn field_count(&self, node: usize) -> usize {
        match fields_at(self, node) {
            None => 0,
            Some(fields) => fields.len(),
        }
    }

    fn look(&self, node: usize, field: usize) -> Option<usize> {
        let fields = fields_at(self, node)?;
        let (_, input) = fields.get_index(field)?;
        number_needed(self, input.ty())
    }
}

/// No name is twice among the types.
pub(crate) fn distinct_names(types: &SchemaTypes)
    ensures { HasDistinctNames (checked_types types.now) }
{
    let _ = types.types.get_index_of("");
}
