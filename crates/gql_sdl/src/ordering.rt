//! Members in the order of their names, those of one name in their old order.

ghost use Rattle.std.specs.Prelude.{◌≡◌, true, OnOk};
ghost use Rattle.gql_registry_meta.specs.Views.{inputs_in, fields_in, enum_values_in};
ghost use Rattle.gql_sdl_view.specs.Ordered.{arranged};

use gql_registry::{MetaEnumValue, MetaField, MetaInputValue};
use gql_text_lexer::OutOfMemory;
use indexmap::IndexMap;

/// Sorts arguments or input fields.
pub(crate) fn sort_inputs(inputs: &mut IndexMap<String, MetaInputValue>) -> Result<(), OutOfMemory>
    ensures { OnOk result (inputs_in inputs.new
        ≡ arranged (λ input. input.1.name) true (inputs_in inputs.old)) }
{
    inputs.sort_by(|_, a, _, b| a.name.cmp(&b.name))?;
    Ok(())
}

/// Sorts fields.
pub(crate) fn sort_fields(fields: &mut IndexMap<String, MetaField>) -> Result<(), OutOfMemory>
    ensures { OnOk result (fields_in fields.new
        ≡ arranged (λ field. field.1.name) true (fields_in fields.old)) }
{
    fields.sort_by(|_, a, _, b| a.name.cmp(&b.name))?;
    Ok(())
}

/// Sorts the values of an enum.
pub(crate) fn sort_values(values: &mut IndexMap<String, MetaEnumValue>) -> Result<(), OutOfMemory>
    ensures { OnOk result (enum_values_in values.new
        ≡ arranged (λ value. value.1.name) true (enum_values_in values.old)) }
{
    values.sort_by(|_, a, _, b| a.name.cmp(&b.name))?;
    Ok(())
}
