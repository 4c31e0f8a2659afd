//! Members of types as a view has them, each under its key.
#![tactic(auto, using(gql_registry_meta::proofs::Entries::entries_with_insertion))]

ghost use Rattle.std.specs.Prelude.{◌≡◌, ◌∷◌, [], IfOk, OnOk};
ghost use Rattle.std.specs.Str.{bytes_eq};
ghost use Rattle.indexmap.specs.IndexMap.{insert_all};
ghost use Rattle.gql_registry_meta.specs.Parts.{with_entry_in_place};
ghost use Rattle.gql_registry_meta.specs.Views.{text_of, input_value_of, inputs_in};
ghost use Rattle.gql_registry_meta.specs.Views.{field_of, fields_in, enum_value_of, enum_values_in};
ghost use Rattle.gql_sdl_view.specs.Options.{registry_choice};
ghost use Rattle.gql_sdl_view.specs.Ordered.{changed};
ghost use Rattle.gql_sdl_view.specs.View.{viewed_input_value, viewed_arguments, viewed_inputs};
ghost use Rattle.gql_sdl_view.specs.View.{viewed_field, viewed_fields, viewed_value};
ghost use Rattle.gql_sdl_view.specs.View.{viewed_values, bare_argument};
ghost use Rattle.gql_sdl.specs.Values.{options_of};
ghost use Rattle.gql_sdl.specs.Taken.{taken_fields};

use crate::options::SDLExportOptions;
use crate::ordering::{sort_fields, sort_inputs, sort_values};
use gql_registry::{MetaEnumValue, MetaField, MetaInputValue};
use gql_registry_meta::{CacheControl, Deprecation, copy_invocations, copy_optional};
use gql_text_lexer::{OutOfMemory, is_reserved};
use indexmap::IndexMap;
use std::alloc::Global;

pub(crate) const NO_HINT: CacheControl = CacheControl {
    public: true,
    max_age: 0,
};

// ---- arguments and input fields

fn viewed_input_value(alloc: Global, value: &MetaInputValue) -> Result<MetaInputValue, OutOfMemory>
    ensures { IfOk result (λ copy.
        input_value_of copy ≡ viewed_input_value (input_value_of value.now)) }
{
    Ok(MetaInputValue {
        name: value.name.clone()?,
        description: copy_optional(&value.description)?,
        ty: value.ty.clone()?,
        deprecation: value.deprecation.clone()?,
        default_value: copy_optional(&value.default_value)?,
        visible: None,
        inaccessible: false,
        tags: Vec::new(alloc),
        is_secret: false,
        directive_invocations: copy_invocations(&value.directive_invocations)?,
    })
}

/// An argument of a directive: its name, type and default.
fn bare_argument(alloc: Global, value: &MetaInputValue) -> Result<MetaInputValue, OutOfMemory>
    ensures { IfOk result (λ copy.
        input_value_of copy ≡ bare_argument (input_value_of value.now)) }
{
    Ok(MetaInputValue {
        name: value.name.clone()?,
        description: None,
        ty: value.ty.clone()?,
        deprecation: Deprecation::NoDeprecated,
        default_value: copy_optional(&value.default_value)?,
        visible: None,
        inaccessible: false,
        tags: Vec::new(alloc),
        is_secret: false,
        directive_invocations: Vec::new(alloc),
    })
}

/// Puts an argument or an input field under a key.
fn put_input_value(
    made: &mut IndexMap<String, MetaInputValue>,
    key: &String,
    value: MetaInputValue,
) -> Result<(), OutOfMemory>
    ensures { OnOk result (inputs_in made.new
        ≡ with_entry_in_place (inputs_in made.old) (text_of key.now) (input_value_of value)) }
{
    let key = key.clone()?;
    made.insert(key, value)?;
    Ok(())
}

fn viewed_input_values(
    alloc: Global,
    values: &IndexMap<String, MetaInputValue>,
) -> Result<IndexMap<String, MetaInputValue>, OutOfMemory>
    ensures { IfOk result (λ made.
        inputs_in made ≡ changed viewed_input_value (inputs_in values.now)) }
{
    let mut made = IndexMap::new(alloc);
    for (key, value) in values.iter() {
        put_input_value(&mut made, key, viewed_input_value(alloc, value)?)?;
    }
    Ok(made)
}

/// The arguments of a directive: the name, the type and the default of each.
pub(crate) fn bare_arguments(
    alloc: Global,
    args: &IndexMap<String, MetaInputValue>,
) -> Result<IndexMap<String, MetaInputValue>, OutOfMemory>
    ensures { IfOk result (λ made. inputs_in made ≡ changed bare_argument (inputs_in args.now)) }
{
    let mut made = IndexMap::new(alloc);
    for (key, value) in args.iter() {
        put_input_value(&mut made, key, bare_argument(alloc, value)?)?;
    }
    Ok(made)
}

/// The arguments of a field.
fn viewed_arguments(
    alloc: Global,
    options: SDLExportOptions,
    args: &IndexMap<String, MetaInputValue>,
) -> Result<IndexMap<String, MetaInputValue>, OutOfMemory>
    ensures { IfOk result (λ made. inputs_in made
        ≡ viewed_arguments (registry_choice (options_of options)) (inputs_in args.now)) }
{
    let mut made = viewed_input_values(alloc, args)?;
    if options.sorted_arguments {
        sort_inputs(&mut made)?;
        return Ok(made);
    }
    Ok(made)
}

/// The fields of an input object.
pub(crate) fn viewed_inputs(
    alloc: Global,
    options: SDLExportOptions,
    inputs: &IndexMap<String, MetaInputValue>,
) -> Result<IndexMap<String, MetaInputValue>, OutOfMemory>
    ensures { IfOk result (λ made. inputs_in made
        ≡ viewed_inputs (registry_choice (options_of options)) (inputs_in inputs.now)) }
{
    let mut made = viewed_input_values(alloc, inputs)?;
    if options.sorted_fields {
        sort_inputs(&mut made)?;
        return Ok(made);
    }
    Ok(made)
}

// ---- fields

fn viewed_field(
    alloc: Global,
    options: SDLExportOptions,
    field: &MetaField,
) -> Result<MetaField, OutOfMemory>
    ensures { IfOk result (λ copy. field_of copy
        ≡ viewed_field (registry_choice (options_of options)) (field_of field.now)) }
{
    Ok(MetaField {
        name: field.name.clone()?,
        description: copy_optional(&field.description)?,
        args: viewed_arguments(alloc, options, &field.args)?,
        ty: field.ty.clone()?,
        deprecation: field.deprecation.clone()?,
        cache_control: NO_HINT,
        external: false,
        requires_fields: None,
        provides: None,
        visible: None,
        shareable: false,
        inaccessible: false,
        tags: Vec::new(alloc),
        override_from: None,
        directive_invocations: copy_invocations(&field.directive_invocations)?,
        requires_scopes: Vec::new(alloc),
    })
}

fn put_field(
    made: &mut IndexMap<String, MetaField>,
    key: &String,
    field: MetaField,
) -> Result<(), OutOfMemory>
    ensures { OnOk result (fields_in made.new
        ≡ with_entry_in_place (fields_in made.old) (text_of key.now) (field_of field)) }
{
    let key = key.clone()?;
    made.insert(key, field)?;
    Ok(())
}

/// Puts in what a view takes of a field: nothing where its name begins with `__`.
fn take_field(
    alloc: Global,
    options: SDLExportOptions,
    made: &mut IndexMap<String, MetaField>,
    key: &String,
    field: &MetaField,
) -> Result<(), OutOfMemory>
    ensures { OnOk result (fields_in made.new ≡ insert_all bytes_eq (fields_in made.old)
        (taken_fields (options_of options) ((text_of key.now, field_of field.now) ∷ []))) }
{
    if is_reserved(field.name.as_str()) {
        return Ok(());
    }
    put_field(made, key, viewed_field(alloc, options, field)?)
}

fn taken_fields(
    alloc: Global,
    options: SDLExportOptions,
    fields: &IndexMap<String, MetaField>,
) -> Result<IndexMap<String, MetaField>, OutOfMemory>
    ensures { IfOk result (λ made.
        fields_in made ≡ taken_fields (options_of options) (fields_in fields.now)) }
{
    let mut made = IndexMap::new(alloc);
    for (key, field) in fields.iter() {
        take_field(alloc, options, &mut made, key, field)?;
    }
    Ok(made)
}

/// The fields of an object or an interface.
pub(crate) fn viewed_fields(
    alloc: Global,
    options: SDLExportOptions,
    fields: &IndexMap<String, MetaField>,
) -> Result<IndexMap<String, MetaField>, OutOfMemory>
    ensures { IfOk result (λ made. fields_in made
        ≡ viewed_fields (registry_choice (options_of options)) (fields_in fields.now)) }
{
    let mut made = taken_fields(alloc, options, fields)?;
    if options.sorted_fields {
        sort_fields(&mut made)?;
        return Ok(made);
    }
    Ok(made)
}

// ---- values of enums

fn viewed_value(alloc: Global, value: &MetaEnumValue) -> Result<MetaEnumValue, OutOfMemory>
    ensures { IfOk result (λ copy. enum_value_of copy ≡ viewed_value (enum_value_of value.now)) }
{
    Ok(MetaEnumValue {
        name: value.name.clone()?,
        description: copy_optional(&value.description)?,
        deprecation: value.deprecation.clone()?,
        visible: None,
        inaccessible: false,
        tags: Vec::new(alloc),
        directive_invocations: copy_invocations(&value.directive_invocations)?,
    })
}

fn put_value(
    made: &mut IndexMap<String, MetaEnumValue>,
    key: &String,
    value: MetaEnumValue,
) -> Result<(), OutOfMemory>
    ensures { OnOk result (enum_values_in made.new
        ≡ with_entry_in_place (enum_values_in made.old) (text_of key.now) (enum_value_of value)) }
{
    let key = key.clone()?;
    made.insert(key, value)?;
    Ok(())
}

fn taken_values(
    alloc: Global,
    values: &IndexMap<String, MetaEnumValue>,
) -> Result<IndexMap<String, MetaEnumValue>, OutOfMemory>
    ensures { IfOk result (λ made.
        enum_values_in made ≡ changed viewed_value (enum_values_in values.now)) }
{
    let mut made = IndexMap::new(alloc);
    for (key, value) in values.iter() {
        put_value(&mut made, key, viewed_value(alloc, value)?)?;
    }
    Ok(made)
}

/// The values of an enum.
pub(crate) fn viewed_values(
    alloc: Global,
    options: SDLExportOptions,
    values: &IndexMap<String, MetaEnumValue>,
) -> Result<IndexMap<String, MetaEnumValue>, OutOfMemory>
    ensures { IfOk result (λ made. enum_values_in made
        ≡ viewed_values (registry_choice (options_of options)) (enum_values_in values.now)) }
{
    let mut made = taken_values(alloc, values)?;
    if options.sorted_enum_items {
        sort_values(&mut made)?;
        return Ok(made);
    }
    Ok(made)
}
